//! Calls as lines.
use std::alloc::{AllocError, Global};
use std::process::Abort;
use std::test::Fail;
use tatp_calls::{Call, call_text, read_call};

/// A line of each kind, and its call.
static CALLS: [(&str, Call); 7] = [
    (
        "GET_SUBSCRIBER_DATA 18446744073709551615",
        Call::GetSubscriberData { s_id: u64::MAX },
    ),
    (
        "GET_NEW_DESTINATION 1 0 7 25",
        Call::GetNewDestination {
            s_id: 1,
            sf_type: 0,
            start_time: 7,
            end_time: 25,
        },
    ),
    (
        "GET_ACCESS_DATA 1 5",
        Call::GetAccessData {
            s_id: 1,
            ai_type: 5,
        },
    ),
    (
        "UPDATE_SUBSCRIBER_DATA 2 1 4 9",
        Call::UpdateSubscriberData {
            s_id: 2,
            bit_1: 1,
            sf_type: 4,
            data_a: 9,
        },
    ),
    (
        "UPDATE_LOCATION 000000000000002 4294967295",
        Call::UpdateLocation {
            sub_nbr: 2,
            vlr_location: 4294967295,
        },
    ),
    (
        "INSERT_CALL_FORWARDING 000000000000003 1 16 24 999999999999999",
        Call::InsertCallForwarding {
            sub_nbr: 3,
            sf_type: 1,
            start_time: 16,
            end_time: 24,
            numberx: 999999999999999,
        },
    ),
    (
        "DELETE_CALL_FORWARDING 000000000000002 1 16",
        Call::DeleteCallForwarding {
            sub_nbr: 2,
            sf_type: 1,
            start_time: 16,
        },
    ),
];

/// The call prints as this line.
fn expect_line(rt: &impl Abort, alloc: Global, call: &Call, line: &str) -> Result<(), AllocError> {
    assert_eq!(rt; call_text(alloc, call)?.as_str(), line);
    Ok(())
}

#[test]
fn reads_and_prints_each_kind_of_call(rt: HostRuntime) -> Result<(), Fail> {
    for (line, call) in &CALLS {
        assert_eq!(rt; read_call(line), Some(*call), "{line:?}");
        expect_line(&rt, rt.alloc(), call, line)?;
    }

    // A number of sixteen digits prints as it is, in a line that is no call.
    let line = "UPDATE_LOCATION 1000000000000000 7";
    let call = Call::UpdateLocation {
        sub_nbr: 1000000000000000,
        vlr_location: 7,
    };
    expect_line(&rt, rt.alloc(), &call, line)?;
    assert!(rt; read_call(line).is_none());
    Ok(())
}
