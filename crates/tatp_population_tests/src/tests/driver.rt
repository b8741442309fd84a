//! Calls of words at the bounds of the mix, and the first calls of a driver.
use rand_core::Rng;
use rand_pcg::Pcg64;
use std::test::Fail;
use tatp_calls::{Call, call_text};
use tatp_driver::{Driver, call_of};
use tatp_numbers::Key;
use tatp_tasks::Distribution;

#[test]
fn a_call_for_each_place_in_the_mix(rt: HostRuntime) {
    for (place, procedure) in [
        (34, 0),
        (35, 1),
        (44, 1),
        (45, 2),
        (79, 2),
        (80, 3),
        (81, 3),
        (82, 4),
        (95, 4),
        (96, 5),
        (97, 5),
        (98, 6),
        (99, 6),
    ] {
        let call = call_of(&[place, 0, 0, 0, 0, 0, 0], 130, Distribution::Uniform);
        assert_eq!(rt; call.procedure(), procedure);
    }
}

#[test]
fn a_skewed_subscriber(rt: HostRuntime) {
    for (first, second, s_id) in [
        (65535, 0, 16),
        (65535, 128, 16),
        (65535, 129, 16),
        (0, 129, 1),
        (5, 1, 8),
    ] {
        let call = call_of(&[0, first, second, 0, 0, 0, 0], 130, Distribution::Skewed);
        assert_eq!(rt; call.key(), Key::Id(s_id));
    }
}

#[test]
fn the_line_of_a_call(rt: HostRuntime) -> Result<(), Fail> {
    let words = [96, 0, 1, 0, 2, 23, 999999999999999];
    let call = call_of(&words, 130, Distribution::Skewed);
    assert_eq!(rt;
        call_text(rt.alloc(), &call)?.as_str(),
        "INSERT_CALL_FORWARDING 000000000000003 1 16 24 999999999999999"
    );
    Ok(())
}

/// The stream 54 of the seed 42 is that of the generator's published reference.
#[test]
fn the_first_calls_of_a_driver(rt: HostRuntime) {
    let mut generator = Pcg64::new(42, 54);
    let mut driver = Driver::new(42, 53, 130, Distribution::Skewed);
    let new_destination = Call::GetNewDestination {
        s_id: 14,
        sf_type: 1,
        start_time: 0,
        end_time: 23,
    };
    let access_data = Call::GetAccessData {
        s_id: 7,
        ai_type: 4,
    };
    for expected in [new_destination, access_data] {
        let mut words = [0; 7];
        for i in 0..7 {
            words[i] = generator.next_u64();
        }
        let call = driver.next_call();
        assert_eq!(rt; call, call_of(&words, 130, Distribution::Skewed));
        assert_eq!(rt; call, expected);
    }
}
