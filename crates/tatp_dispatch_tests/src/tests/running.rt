//! A list of events of every kind, some of them refused, from a population to the end of the run.
use std::alloc::{AllocError, Global};
use std::test::Fail;
use tatp_dispatch::{Answer, Event, Refusal, World, run};
use tatp_settle_tests::rows::clean_rows;
use tatp_settle_tests::sites::module;
use tatp_tables::{Row, Rows};
use tatp_trace_lines::{TraceLine, push_answer, read_trace_line};

/// How many times an event happens, its line, and the line of what is answered each time.
type Told = (usize, &'static str, &'static str);

/// What happens to 130 subscribers in two partitions, of four clients, by docs/FORMATS.md, "Event
/// lines, and what is answered". The extents 1 and 3 open in partition 0, extent 2 in partition 1.
static TOLD: [Told; 54] = [
    // There is no such client, argument, procedure, partition or call.
    (1, "submit 4 GET_ACCESS_DATA 1 1", "REFUSED 40 NoClient"),
    (
        1,
        "submit 1 GET_ACCESS_DATA 1 5",
        "REFUSED 26 BadArgument 1",
    ),
    (1, "raw 1 9 id 1", "REFUSED 48 NoProcedure"),
    (1, "begin 2", "REFUSED 38 NoPartition"),
    (1, "begin 1", "REFUSED 42 NothingQueued"),
    // A range moves, and a call goes after it.
    (1, "submit 0 UPDATE_LOCATION 000000000000129 2", "QUEUED 0"),
    (1, "submit 0 GET_ACCESS_DATA 1 1", "REFUSED 41 ClientBusy"),
    (1, "take 0 3", "PARCEL 3 1"),
    (1, "take 0 3", "REFUSED 33 NotHere"),
    (1, "begin 0", "AWAY 0"),
    (1, "give 1 3", "LANDED 3 1"),
    (1, "give 1 3", "REFUSED 43 NotInHand"),
    (1, "route 3 1", "SET 3 1"),
    (1, "begin 0", "AWAY 1"),
    // It comes to a breakpoint, is stopped, makes one step and continues.
    (1, "break 1 4 4", "OK"),
    (1, "begin 1", "BEGAN 0"),
    (4, "step 1", "MOVED"),
    (1, "step 1", "REFUSED 32 AtBreak"),
    (1, "stop 1", "OK"),
    (1, "stop 1", "REFUSED 30 Stopped"),
    (1, "one 1", "MOVED"),
    (1, "step 1", "REFUSED 30 Stopped"),
    (1, "take 1 3", "REFUSED 34 Pinned"),
    (1, "checkpoint 1 3", "REFUSED 29 Running"),
    (1, "clear 1 4 4", "OK"),
    (1, "resume 1", "OK"),
    (1, "resume 1", "REFUSED 49 NotStopped"),
    (1, "step 1", "ENDED 0 OK"),
    (1, "step 1", "REFUSED 31 NotRunning"),
    (1, "checkpoint 1 3", "CHAPTER 3 0 1"),
    // A range lands twice before its first landing is routed.
    (1, "take 1 2", "PARCEL 2 1"),
    (1, "give 0 2", "LANDED 2 1"),
    (1, "take 0 2", "PARCEL 2 2"),
    (1, "give 1 2", "LANDED 2 2"),
    (1, "route 2 2", "SET 2 1"),
    (1, "route 2 1", "SUPERSEDED 2"),
    // A call is denied memory, and one fails after it has written, while another reads.
    (
        1,
        "submit 1 DELETE_CALL_FORWARDING 000000000000001 1 8",
        "QUEUED 0",
    ),
    (1, "deny 0", "DENIED 1"),
    (1, "submit 2 UPDATE_SUBSCRIBER_DATA 2 1 4 9", "QUEUED 0"),
    (1, "begin 0", "BEGAN 2"),
    (5, "step 0", "MOVED"),
    (1, "submit 3 GET_ACCESS_DATA 129 1", "QUEUED 1"),
    (1, "begin 1", "BEGAN 3"),
    (12, "step 1", "MOVED"),
    (3, "step 0", "MOVED"),
    (1, "step 0", "ENDED 2 FAILED 1"),
    (1, "step 1", "ENDED 3 OK 0 0 AAA AAAAA"),
    // A row is inserted, and its range is under way at the end.
    (
        1,
        "submit 0 INSERT_CALL_FORWARDING 000000000000002 1 16 24 000000000000555",
        "QUEUED 0",
    ),
    (1, "begin 0", "BEGAN 0"),
    (6, "step 0", "MOVED"),
    (6, "one 0", "MOVED"),
    (1, "one 0", "ENDED 0 OK"),
    (1, "take 0 1", "PARCEL 1 1"),
    (1, "take 0 1", "REFUSED 33 NotHere"),
];

/// Appends the event of a line, `times` times.
fn push_times(events: &mut Vec<Event>, line: &str, times: usize) -> Result<(), AllocError> {
    for _ in 0..times {
        match read_trace_line(line) {
            Some(TraceLine::Event(event)) => events.push(event)?,
            _ => return Ok(()),
        }
    }
    Ok(())
}

/// The events of the table, each as many times as it says.
fn events(alloc: Global) -> Result<Vec<Event>, AllocError> {
    let mut events = Vec::new(alloc);
    for (times, line, _) in &TOLD {
        push_times(&mut events, line, *times)?;
    }
    Ok(events)
}

/// Whether the line of an answer is this.
fn is_line(
    alloc: Global,
    answered: &Result<Answer, Refusal>,
    wanted: &str,
) -> Result<bool, AllocError> {
    let mut text = String::new(alloc);
    push_answer(&mut text, answered)?;
    Ok(text.as_str() == wanted)
}

/// How many answers are those of the table, one for each event, in their order.
fn as_told(alloc: Global, answers: &[Result<Answer, Refusal>]) -> Result<usize, AllocError> {
    let mut place = 0;
    for (times, _, wanted) in &TOLD {
        for _ in 0..*times {
            let Some(answered) = answers.get(place) else {
                return Ok(place);
            };
            if !is_line(alloc, answered, wanted)? {
                return Ok(place);
            }
            place = place.saturating_add(1);
        }
    }
    Ok(place)
}

/// Whether these are as many rows as are wanted, and each of those is among them.
fn are_rows<const N: usize>(rows: &[[u64; N]], wanted: &[[u64; N]]) -> bool {
    rows.len() == wanted.len() && wanted.iter().all(|row| rows.contains(row))
}

/// Whether each table has the rows that are wanted.
fn are_tables(rows: &Rows, wanted: &Rows) -> bool {
    are_rows(rows.subscribers.as_slice(), wanted.subscribers.as_slice())
        && are_rows(rows.accesses.as_slice(), wanted.accesses.as_slice())
        && are_rows(rows.facilities.as_slice(), wanted.facilities.as_slice())
        && are_rows(rows.forwardings.as_slice(), wanted.forwardings.as_slice())
}

/// The rows that the completed calls leave: subscriber 129 has another location, and 2 a
/// forwarding.
fn rows_left(alloc: Global) -> Result<Rows, AllocError> {
    let mut rows = clean_rows(alloc, 130, &[129])?;
    rows.push(Row::C([2, 1, 16, 24, 555]))?;
    Ok(rows)
}

#[test]
fn a_list_of_events_of_every_kind(rt: HostRuntime) -> Result<(), Fail> {
    let alloc = rt.alloc();
    let loaded = module(alloc)?;
    let events = events(alloc)?;
    let mut world = World::open(alloc, &loaded, clean_rows(alloc, 130, &[])?, 2, 4)?;
    let answers = run(alloc, &mut world, events.as_slice());
    let told = match &answers {
        Ok(answers) => as_told(alloc, answers.as_slice()),
        Err(error) => Err(*error),
    };
    let left = world.gather(alloc);
    let completed = world.completions().len();
    world.close();
    assert_eq!(rt; events.len(), 84);
    assert_eq!(rt; answers?.len(), 84);
    assert_eq!(rt; told?, 84);
    assert_eq!(rt; completed, 4);
    assert!(rt; are_tables(&left?, &rows_left(alloc)?));
    Ok(())
}
