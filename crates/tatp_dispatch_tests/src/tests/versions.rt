//! Modules of either version in the system: the standard module as it was in version 1, and
//! procedures with LOOP.
use super::standard_1::STANDARD_1;
use std::alloc::{AllocError, Global};
use std::test::Fail;
use tatp_assembly::{AssemblyFault, module_of_text};
use tatp_calls::{Ask, Raw, Reply, ReplyRef, read_call, reply_text};
use tatp_dispatch::{Answer, Event, Refusal, World};
use tatp_loader::{LoadFault, LoadFaultKind, Loaded, save};
use tatp_numbers::Key;
use tatp_partition::SiteRefusal;
use tatp_procs::{STANDARD, is_standard};
use tatp_settle_tests::rows::clean_rows;
use tatp_settle_tests::sites::module;
use tatp_tables::{Row, Rows};

/// A call line and the line of its reply, or `none` where it isn't run.
type Told = (&'static str, &'static str);

/// Calls one after another, each list on rows of its own.
static CALLS: [&[Told]; 5] = [
    &[
        (
            "GET_SUBSCRIBER_DATA 130",
            "OK 130 000000000000130 0 0 0 0 0 0 0 0 0 0 0 0 0 0 0 0 0 0 0 0 0 0 0 0 0 0 0 0 0 0 \
            1 1",
        ),
        ("GET_SUBSCRIBER_DATA 131", "FAILED 1"),
        ("GET_SUBSCRIBER_DATA 0", "FAILED 1"),
        ("GET_ACCESS_DATA 1 1", "OK 0 0 AAA AAAAA"),
        ("GET_ACCESS_DATA 1 2", "FAILED 1"),
        ("GET_ACCESS_DATA 1 5", "none"),
        ("GET_ACCESS_DATA 1", "none"),
    ],
    &[
        (
            "GET_NEW_DESTINATION 1 1 8 11",
            "OK 000000000000777 000000000000888",
        ),
        ("GET_NEW_DESTINATION 1 1 8 12", "OK 000000000000888"),
        ("GET_NEW_DESTINATION 1 1 8 20", "FAILED 1"),
        ("GET_NEW_DESTINATION 1 1 0 11", "OK 000000000000777"),
        ("GET_NEW_DESTINATION 1 3 0 1", "FAILED 1"),
    ],
    &[
        ("UPDATE_SUBSCRIBER_DATA 2 1 4 9", "FAILED 1"),
        (
            "GET_SUBSCRIBER_DATA 2",
            "OK 2 000000000000002 0 0 0 0 0 0 0 0 0 0 0 0 0 0 0 0 0 0 0 0 0 0 0 0 0 0 0 0 0 0 1 1",
        ),
        ("UPDATE_SUBSCRIBER_DATA 2 1 1 9", "OK"),
        (
            "GET_SUBSCRIBER_DATA 2",
            "OK 2 000000000000002 1 0 0 0 0 0 0 0 0 0 0 0 0 0 0 0 0 0 0 0 0 0 0 0 0 0 0 0 0 0 1 1",
        ),
    ],
    &[
        ("UPDATE_LOCATION 000000000000002 4294967295", "OK"),
        (
            "GET_SUBSCRIBER_DATA 2",
            "OK 2 000000000000002 0 0 0 0 0 0 0 0 0 0 0 0 0 0 0 0 0 0 0 0 0 0 0 0 0 0 0 0 0 0 1 \
            4294967295",
        ),
        ("UPDATE_LOCATION 000000000000002 0", "none"),
        ("UPDATE_LOCATION 999999999999999 7", "FAILED 1"),
    ],
    &[
        (
            "INSERT_CALL_FORWARDING 000000000000002 1 16 24 000000000000555",
            "OK",
        ),
        (
            "INSERT_CALL_FORWARDING 000000000000002 1 16 24 000000000000555",
            "FAILED 2",
        ),
        ("GET_NEW_DESTINATION 2 1 16 23", "OK 000000000000555"),
        (
            "INSERT_CALL_FORWARDING 000000000000002 4 16 24 000000000000555",
            "FAILED 3",
        ),
        ("DELETE_CALL_FORWARDING 000000000000002 1 16", "OK"),
        ("DELETE_CALL_FORWARDING 000000000000002 1 16", "FAILED 1"),
    ],
];

/// A loop before an OUT.
const DOWN: &[u8] = b"version 2\nproc A 1\nARG r0,#0\nx:\nLOOP r0,@x\nOUT r0\nDONE\nend\n";

/// A loop around an OUT.
const OUTS: &[u8] = b"version 2\nproc A 1\nARG r0,#0\nx:\nOUT r0\nLOOP r0,@x\nDONE\nend\n";

/// 130 subscribers with one facility; the first has a second, which isn't active, and forwardings.
fn forwarded_rows(alloc: Global) -> Result<Rows, AllocError> {
    let mut rows = clean_rows(alloc, 130, &[])?;
    rows.push(Row::C([1, 1, 0, 12, 777]))?;
    rows.push(Row::C([1, 1, 8, 20, 888]))?;
    rows.push(Row::F([1, 3, 0, 0, 0, 280267669825]))?;
    rows.push(Row::C([1, 3, 0, 24, 999]))?;
    Ok(rows)
}

/// Whether the reply's line is this; `none` is that of no reply.
fn is_line(alloc: Global, ask: &Ask, reply: Option<ReplyRef<'_>>, wanted: &str) -> bool {
    match reply {
        None => wanted == "none",
        Some(reply) => match reply_text(alloc, ask, reply) {
            Ok(text) => text.as_str() == wanted,
            Err(_) => false,
        },
    }
}

/// Whether a call, from its asking to its end, is answered so.
fn is_answered(alloc: Global, world: &mut World<'_>, told: Told) -> bool {
    match read_call(told.0) {
        None => told.1 == "none",
        Some(call) => {
            let ask = Ask::Txn(call);
            let reply = world.call(0, ask).ok();
            is_line(alloc, &ask, reply, told.1)
        }
    }
}

/// Whether all calls of a list are answered so, in two partitions, and their extent's log is then
/// ended, or not.
fn are_answered(
    alloc: Global,
    loaded: &Loaded,
    calls: &[Told],
    is_mixed: bool,
) -> Result<bool, Fail> {
    let mut world = World::open(alloc, loaded, forwarded_rows(alloc)?, 2, 1)?;
    let mut all = true;
    for told in calls {
        all = is_answered(alloc, &mut world, *told) && all;
    }
    let ended = matches!(
        world.apply(Event::Checkpoint(0, 1)),
        Err(Refusal::Site(SiteRefusal::LogEnded))
    );
    world.close();
    Ok(all && ended == is_mixed)
}

/// The number of steps after which the client's call at partition 0 continues, and its reply.
fn stepped(world: &mut World<'_>) -> (usize, Option<Reply>) {
    for moved in 0..5000 {
        match world.apply(Event::Step(0)) {
            Ok(Answer::Moved) => {}
            Ok(Answer::Ended(_, _, reply)) => return (moved, Some(reply)),
            _ => return (moved, None),
        }
    }
    (5000, None)
}

/// The reply where it is, if there is one.
fn seen(reply: &Option<Reply>) -> Option<ReplyRef<'_>> {
    match reply {
        None => None,
        Some(reply) => Some(reply.as_ref()),
    }
}

/// Whether a call of the module's procedure 0, which takes one argument, continues for `moved`
/// steps and has this reply at the next: on the home of subscriber 1, and without a home.
fn ends_after(
    alloc: Global,
    loaded: &Loaded,
    argument: u64,
    moved: usize,
    reply: &str,
) -> Result<bool, Fail> {
    let mut world = World::open(alloc, loaded, forwarded_rows(alloc)?, 2, 1)?;
    let mut all = true;
    for s_id in [1, 0] {
        let ask = Ask::Raw(Raw::new(0, &[argument], Key::Id(s_id)));
        let queued = world.apply(Event::Submit(0, ask)).is_ok();
        let began = world.apply(Event::Begin(0)).is_ok();
        let (steps, end) = stepped(&mut world);
        let told = is_line(alloc, &ask, seen(&end), reply);
        all = queued && began && steps == moved && told && all;
    }
    world.close();
    Ok(all)
}

#[test]
fn the_standard_module_of_version_1(rt: HostRuntime) -> Result<(), Fail> {
    let alloc = rt.alloc();
    let before = module_of_text(alloc, STANDARD_1.as_bytes())?;
    let now = module(alloc)?;
    assert!(rt; !is_standard(&before) && is_standard(&now));
    assert_eq!(rt; save(alloc, &before)?.len(), 1623);
    assert_eq!(rt; save(alloc, &now)?.len(), 1471);
    let text = module_of_text(alloc, STANDARD.as_bytes())?;
    assert!(rt; is_standard(&text));
    for calls in &CALLS {
        assert!(rt; are_answered(alloc, &before, calls, true)?);
        assert!(rt; are_answered(alloc, &now, calls, false)?);
    }
    Ok(())
}

#[test]
fn loops_step_by_step(rt: HostRuntime) -> Result<(), Fail> {
    let alloc = rt.alloc();
    let down = module_of_text(alloc, DOWN)?;
    for (argument, moved, reply) in [
        (0, 3, "OK 0"),
        (5, 8, "OK 0"),
        (4091, 4094, "OK 0"),
        (4092, 4095, "OK 0"),
        (4093, 4095, "TRAPPED Budget"),
        (4094, 4095, "TRAPPED Budget"),
        (18446744073709551615, 4095, "TRAPPED Budget"),
    ] {
        assert!(rt; ends_after(alloc, &down, argument, moved, reply)?);
    }
    let outs = module_of_text(alloc, OUTS)?;
    for (argument, moved, reply) in [
        (
            39,
            81,
            "OK 39 38 37 36 35 34 33 32 31 30 29 28 27 26 25 24 23 22 21 20 19 18 17 16 15 14 13 \
            12 11 10 9 8 7 6 5 4 3 2 1 0",
        ),
        (40, 81, "TRAPPED Output"),
    ] {
        assert!(rt; ends_after(alloc, &outs, argument, moved, reply)?);
    }
    Ok(())
}

#[test]
fn a_loop_to_a_later_instruction(rt: HostRuntime) {
    let text = b"version 2\nproc A 0\nLOOP r0,@x\nx:\nDONE\nend\n";
    match module_of_text(rt.alloc(), text) {
        Ok(_) => assert!(rt; false),
        Err(fault) => {
            let wanted = LoadFault {
                kind: LoadFaultKind::ForwardLoop,
                procedure: 0,
                instruction: 0,
            };
            assert_eq!(rt; fault, AssemblyFault::Module(wanted));
        }
    }
}
