//! A call run by the machine on a home.
ghost use Rattle.std.specs.Prelude.{◌≡◌, Some, false};
ghost use Rattle.tatp_homes.specs.Home.{IsHome};
ghost use Rattle.tatp_procs.specs.Standard.{standard_module};

use tatp_calls::{Call, Reply};
use tatp_homes::{Home, what_holds_of_every_home};
use tatp_instr::End;
use tatp_loader::Loaded;
use tatp_machine::{Machine, Progress};

/// Runs the standard procedure of a call on a home, up to its end.
pub fn run(loaded: &Loaded, home: &mut Home, call: &Call, reply: &mut Reply)
    requires { loaded.now ≡ standard_module }
{
    let arguments = call.args();
    let s_id = Some(home.s_id());
    let mut machine = Machine::enter(loaded, call.procedure(), arguments.as_slice(), s_id);
    let end = finish(&mut machine, home);
    reply.set(end, machine.outputs());
}

/// Steps a call up to its end.
fn finish(machine: &mut Machine<'_>, home: &mut Home) -> End
    requires running { machine.old.ended ≡ false }
    requires home { machine.old.frame.home ≡ Some home.old.s_id }
    ensures same { home.new.s_id ≡ home.old.s_id }
    ensures home { IsHome home.new }
{
    what_holds_of_every_home(home);
    'steps: loop {
        match machine.step(home) {
            Progress::Running => {}
            Progress::Ended(end) => return end,
        }
    }
}
