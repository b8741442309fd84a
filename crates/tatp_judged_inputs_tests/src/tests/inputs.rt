//! Histories as inputs.
ghost use Rattle.tatp_tables.specs.Clean.{IsClean};

use rand_pcg::Pcg64;
use std::alloc::Global;
use std::test::Fail;
use tatp_calls::BadArgument;
use tatp_judge::{Judge, Part, Stakes, Undecided};
use tatp_judged_inputs::{HistoryFault, Judged, Judgement, Progress, judge_history};
use tatp_limits::MAX_INPUT_LIMIT;
use tatp_population::generate;
use tatp_streams::LineReader;
use tatp_tables::Rows;

/// Nothing is reported.
#[derive(Drop)]
struct NoProgress;

impl Progress for NoProgress {
    fn after_line(&mut self) {}
}

/// The verdict on an input, where at most `most` configurations are kept of a subscriber.
fn judgement(
    alloc: Global,
    rows: &Rows,
    most: usize,
    mut input: &[u8],
) -> Result<Judgement, HistoryFault>
    requires { IsClean rows.now }
{
    let mut judge = Judge::new(alloc, rows, most, false)?;
    let mut lines = LineReader::new(alloc, MAX_INPUT_LIMIT);
    let whole = Part {
        number: 1,
        count: 1,
    };
    judge_history(
        alloc,
        &whole,
        &mut judge,
        &mut lines,
        &mut input,
        &mut NoProgress,
    )
}

/// What it says of all subscribers that aren't set aside.
fn judged(alloc: Global, rows: &Rows, most: usize, input: &[u8]) -> Result<Judged, HistoryFault>
    requires { IsClean rows.now }
{
    Ok(judgement(alloc, rows, most, input)?.judged)
}

/// The first subscriber that is set aside, if one is.
fn set_aside(
    alloc: Global,
    rows: &Rows,
    most: usize,
    input: &[u8],
) -> Result<Option<Undecided>, HistoryFault>
    requires { IsClean rows.now }
{
    Ok(
        judgement(alloc, rows, most, input)?
            .undecided
            .first()
            .copied(),
    )
}

/// What was at stake where all calls were answered.
fn at_stake(
    answered: u64,
    subscribers: u64,
    overlapped: u64,
    conflicted: u64,
    widest: u64,
) -> Stakes {
    Stakes {
        answered,
        aborted: 0,
        unanswered: 0,
        subscribers,
        overlapped,
        conflicted,
        widest,
    }
}

#[test]
fn the_line_of_the_input_is_told(rt: HostRuntime) -> Result<(), Fail> {
    let alloc = rt.alloc();
    let rows = generate(alloc, 3, &mut Pcg64::new(1, 0))?;
    let legal = "# nobody has this s_id\nask 0 GET_SUBSCRIBER_DATA 9\nend 0 FAILED 1\n";
    assert_eq!(rt;
        judged(alloc, &rows, 1, legal.as_bytes()),
        Ok(Judged::Legal(at_stake(1, 0, 0, 0, 0)))
    );
    let illegal =
        "# nobody has it\nask 0 GET_SUBSCRIBER_DATA 9\n\nend 0 OK ?\nask 0 GET_SUBSCRIBER_DATA 9\n";
    assert_eq!(rt;
        judged(alloc, &rows, 1, illegal.as_bytes()),
        Ok(Judged::Illegal {
            line: 4,
            s_id: None,
        })
    );
    Ok(())
}

/// What comes after the line that decides a history isn't read.
#[test]
fn later_lines_are_not_read(rt: HostRuntime) -> Result<(), Fail> {
    let alloc = rt.alloc();
    let rows = generate(alloc, 3, &mut Pcg64::new(1, 0))?;
    let input = "ask 0 GET_SUBSCRIBER_DATA 9\nend 0 OK ?\nno line\n";
    assert_eq!(rt;
        judged(alloc, &rows, 1, input.as_bytes()),
        Ok(Judged::Illegal {
            line: 2,
            s_id: None,
        })
    );
    Ok(())
}

#[test]
fn too_many_configurations_are_told(rt: HostRuntime) -> Result<(), Fail> {
    let alloc = rt.alloc();
    let rows = generate(alloc, 3, &mut Pcg64::new(1, 0))?;
    let input = "# two updates\nask 0 UPDATE_LOCATION 000000000000002 7\n\
        ask 1 UPDATE_LOCATION 000000000000002 8\nend 0 OK\nend 1 OK\n# the end\n";
    assert_eq!(rt;
        set_aside(alloc, &rows, 1, input.as_bytes()),
        Ok(Some(Undecided { line: 5, s_id: 2 }))
    );
    assert_eq!(rt;
        judged(alloc, &rows, 2, input.as_bytes()),
        Ok(Judged::Legal(at_stake(2, 1, 1, 1, 2)))
    );
    Ok(())
}

#[test]
fn the_first_fault_is_told(rt: HostRuntime) -> Result<(), Fail> {
    let alloc = rt.alloc();
    let rows = generate(alloc, 3, &mut Pcg64::new(1, 0))?;
    let input = "ask 0 GET_ACCESS_DATA 1 5\nend 1 FAILED 1\n";
    let argument = HistoryFault::BadArgument(1, BadArgument(1));
    assert_eq!(rt; judged(alloc, &rows, 1, input.as_bytes()), Err(argument));
    let input = "ask 0 GET_ACCESS_DATA 1 4\nend 1 FAILED 1\n";
    assert_eq!(rt;
        judged(alloc, &rows, 1, input.as_bytes()),
        Err(HistoryFault::BadLine(2))
    );
    Ok(())
}
