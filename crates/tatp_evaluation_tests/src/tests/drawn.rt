//! Drawn calls, evaluated and run by the machine.
ghost use Rattle.std.specs.Prelude.{◌≡◌, Ok};
ghost use Rattle.tatp_calls.specs.Arguments.{arguments_accepted};
ghost use Rattle.tatp_procs.specs.Standard.{standard_module};

use super::machine::run;
use rand_pcg::Pcg64;
use std::test::Fail;
use tatp_calls::{Call, Reply};
use tatp_driver::Driver;
use tatp_evaluation::evaluate;
use tatp_homes::{Home, homes};
use tatp_loader::Loaded;
use tatp_numbers::Key;
use tatp_population::generate;
use tatp_procs::standard;
use tatp_tasks::Distribution;

const CALLS: u64 = 1_000_000;

const SUBSCRIBERS: u64 = 1_000;

/// The place of its subscriber's home.
fn place_of(call: &Call) -> usize {
    let subscriber = match call.key() {
        Key::Id(s_id) => s_id,
        Key::Number(number) => number,
    };
    subscriber.saturating_sub(1) as usize
}

/// Whether a call on two homes is replied to equally by both.
fn are_alike(loaded: &Loaded, first: &mut Home, second: &mut Home, call: &Call) -> bool
    requires standard { loaded.now ≡ standard_module }
    requires accepted { arguments_accepted call.now ≡ Ok tt }
{
    let mut evaluated = Reply::Refused;
    let mut run_by_machine = Reply::Refused;
    evaluate(first, call, &mut evaluated);
    run(loaded, second, call, &mut run_by_machine);
    evaluated == run_by_machine
}

#[test]
fn a_million_drawn_calls(rt: HostRuntime) -> Result<(), Fail> {
    let alloc = rt.alloc();
    let loaded = standard(alloc)?;
    let rows = generate(alloc, SUBSCRIBERS, &mut Pcg64::new(1, 0))?;
    let mut evaluated = homes(alloc, &rows)?;
    let mut run_by_machine = homes(alloc, &rows)?;
    let mut driver = Driver::new(1, 0, SUBSCRIBERS, Distribution::Skewed);
    for _ in 0..CALLS {
        let call = driver.next_call();
        let place = place_of(&call);
        let mut alike = false;
        if let Some(first) = evaluated.get_mut(place) {
            if let Some(second) = run_by_machine.get_mut(place) {
                alike = are_alike(&loaded, first, second, &call);
            }
        }
        assert!(rt; alike);
    }
    assert!(rt; evaluated.as_slice() == run_by_machine.as_slice());
    Ok(())
}
