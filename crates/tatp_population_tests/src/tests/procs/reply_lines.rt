//! Replies as lines.
use std::alloc::{AllocError, Global};
use std::process::Abort;
use std::test::Fail;
use tatp_calls::{Ask, Call, Outputs, Raw, Reply, push_reply, reply_text};
use tatp_instr::Trap;
use tatp_numbers::Key;

const GET_SUBSCRIBER_DATA: Call = Call::GetSubscriberData { s_id: 1 };

const GET_NEW_DESTINATION: Call = Call::GetNewDestination {
    s_id: 1,
    sf_type: 1,
    start_time: 8,
    end_time: 11,
};

const GET_ACCESS_DATA: Call = Call::GetAccessData {
    s_id: 1,
    ai_type: 1,
};

const UPDATE_LOCATION: Call = Call::UpdateLocation {
    sub_nbr: 1,
    vlr_location: 7,
};

/// A call, the values of the reply, and its line: in the forms of the columns, and in decimal.
static VALUES: [(Call, &[u64], &str); 8] = [
    (
        GET_SUBSCRIBER_DATA,
        &[
            1, 1, 0, 0, 0, 0, 0, 0, 0, 0, 0, 0, 0, 0, 0, 0, 0, 0, 0, 0, 0, 0, 0, 0, 0, 0, 0, 0, 0,
            0, 0, 0, 1, 7,
        ],
        "OK 1 000000000000001 0 0 0 0 0 0 0 0 0 0 0 0 0 0 0 0 0 0 0 0 0 0 0 0 0 0 0 0 0 0 1 7",
    ),
    (
        GET_SUBSCRIBER_DATA,
        &[0, 1000000000000000, 2],
        "OK 0 1000000000000000 2",
    ),
    (
        GET_NEW_DESTINATION,
        &[777, 888],
        "OK 000000000000777 000000000000888",
    ),
    (GET_NEW_DESTINATION, &[u64::MAX], "OK 18446744073709551615"),
    (
        GET_ACCESS_DATA,
        &[0, 0, 4276545, 280267669825],
        "OK 0 0 AAA AAAAA",
    ),
    (
        GET_ACCESS_DATA,
        &[256, 0, 65, 4276545, 4276545],
        "OK 256 0 65 4276545 4276545",
    ),
    (UPDATE_LOCATION, &[], "OK"),
    (UPDATE_LOCATION, &[1, 2], "OK 1 2"),
];

/// The reply has this line, which is appended to the text.
fn expect_line(
    rt: &impl Abort,
    text: &mut String,
    ask: &Ask,
    reply: &Reply,
    line: &str,
) -> Result<(), AllocError> {
    let alloc = *text.allocator();
    assert_eq!(rt; reply_text(alloc, ask, reply.as_ref())?.as_str(), line);
    push_reply(text, ask, reply.as_ref())?;
    assert!(rt; text.as_str().ends_with(line));
    text.push_str("\n")
}

#[test]
fn prints_each_kind_of_reply(rt: HostRuntime) -> Result<(), Fail> {
    let mut text = String::new(rt.alloc());
    for (call, values, line) in &VALUES {
        assert!(rt; values.len() <= 40);
        let reply = Reply::Values(Outputs::from_slice(values));
        expect_line(&rt, &mut text, &Ask::Txn(*call), &reply, line)?;
    }
    let ask = Ask::Txn(GET_ACCESS_DATA);
    expect_line(&rt, &mut text, &ask, &Reply::Failed(1), "FAILED 1")?;
    let trapped = Reply::Trapped(Trap::Domain);
    expect_line(&rt, &mut text, &ask, &trapped, "TRAPPED Domain")?;
    expect_line(&rt, &mut text, &ask, &Reply::Refused, "REFUSED 46 NoMemory")?;
    assert!(rt; text.ends_with("TRAPPED Domain\nREFUSED 46 NoMemory\n"));
    Ok(())
}

/// In decimal, and as many and as long values as there can be.
#[test]
fn prints_replies_to_a_raw_call(rt: HostRuntime) -> Result<(), Fail> {
    let raw = Ask::Raw(Raw::new(2, &[1, 1], Key::Id(1)));
    let mut text = String::new(rt.alloc());
    let reply = Reply::Values(Outputs::from_slice(&[0, 0, 4276545, 280267669825]));
    expect_line(&rt, &mut text, &raw, &reply, "OK 0 0 4276545 280267669825")?;
    let reply = Reply::Failed(4294967295);
    expect_line(&rt, &mut text, &raw, &reply, "FAILED 4294967295")?;
    let reply = Reply::Trapped(Trap::NoCurrent);
    expect_line(&rt, &mut text, &raw, &reply, "TRAPPED NoCurrent")?;
    let mut longest = String::from_str(rt.alloc(), "OK")?;
    for _ in 0..40 {
        longest.push_str(" 18446744073709551615")?;
    }
    let reply = Reply::Values(Outputs::from_slice(&[u64::MAX; 40]));
    expect_line(&rt, &mut text, &raw, &reply, longest.as_str())?;
    Ok(())
}
