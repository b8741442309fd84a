//! Histories of a few clients.
ghost use Rattle.std.specs.Prelude.{◌<◌, length};
ghost use Rattle.tatp_tables.specs.Clean.{IsClean};

use rand_pcg::Pcg64;
use std::alloc::{AllocError, Global};
use std::test::Fail;
use tatp_calls::{Call, Outputs, Reply};
use tatp_history::{Line, Recorded};
use tatp_judge::{Judge, Undecided, Verdict, is_accepted};
use tatp_population::generate;
use tatp_tables::Rows;

const SUCCESS: Recorded = Recorded::Success;

const FAILURE: Recorded = Recorded::Failure;

/// Where the subscriber with a number was last seen.
fn location(sub_nbr: u64, vlr_location: u64) -> Call {
    Call::UpdateLocation {
        sub_nbr,
        vlr_location,
    }
}

/// A forwarding of subscriber 3 from this time to 24.
fn insert(start_time: u64) -> Call {
    Call::InsertCallForwarding {
        sub_nbr: 3,
        sf_type: 2,
        start_time,
        end_time: 24,
        numberx: 7,
    }
}

fn ask(client: u64, call: Call) -> Line {
    Line::Ask { client, call }
}

fn end(client: u64, recorded: Recorded) -> Line {
    Line::End { client, recorded }
}

fn abort(client: u64) -> Line {
    Line::Abort { client }
}

fn lost(client: u64) -> Line {
    Line::Lost { client }
}

/// The data of subscriber 1, last seen at this place.
fn data(row: &[u64; 34], vlr_location: u64) -> Recorded {
    let mut values = *row;
    values[33] = vlr_location;
    Recorded::Exactly(Reply::Values(Outputs::from_slice(&values)))
}

/// The verdict on a short history; none where what is asked isn't accepted.
fn verdict(
    alloc: Global,
    rows: &Rows,
    most: usize,
    lines: &[Line],
) -> Result<Option<Verdict>, AllocError>
    requires clean { IsClean rows.now }
    requires short { length lines.now < 100 }
{
    let mut judge = Judge::new(alloc, rows, most, false)?;
    'lines: for i in 0..lines.len() {
        let line = &lines[i];
        if !is_accepted(line) {
            return Ok(None);
        }
        if let Some(verdict) = judge.follow(alloc, line)? {
            return Ok(Some(verdict));
        }
    }
    Ok(Some(judge.finish(alloc)?))
}

/// The first lines are illegal, by the calls on this subscriber.
fn illegal_at(line: u64, s_id: u64) -> Verdict {
    Verdict::Illegal {
        line,
        s_id: Some(s_id),
    }
}

const GET: Call = Call::GetSubscriberData { s_id: 1 };

#[test]
fn an_update_succeeds(rt: HostRuntime) -> Result<(), Fail> {
    let rows = generate(rt.alloc(), 3, &mut Pcg64::new(1, 0))?;
    let legal = [
        ask(1, location(1, 7)),
        ask(2, location(1, 8)),
        end(1, SUCCESS),
        end(2, SUCCESS),
    ];
    assert_eq!(rt;
        verdict(rt.alloc(), &rows, 100, &legal)?,
        Some(Verdict::Legal)
    );
    let illegal = [
        ask(1, location(1, 7)),
        ask(2, location(1, 8)),
        end(1, SUCCESS),
        end(2, FAILURE),
        ask(1, location(1, 7)),
    ];
    assert_eq!(rt;
        verdict(rt.alloc(), &rows, 100, &illegal)?,
        Some(illegal_at(4, 1))
    );
    Ok(())
}

/// The window of subscriber 1 ends first, in line 5; that of subscriber 2, which is open, is
/// unexplained from line 4 on.
#[test]
fn the_first_line_is_of_another_window(rt: HostRuntime) -> Result<(), Fail> {
    let rows = generate(rt.alloc(), 3, &mut Pcg64::new(1, 0))?;
    let lines = [
        ask(1, location(1, 7)),
        ask(2, location(2, 8)),
        ask(3, location(2, 9)),
        end(2, FAILURE),
        end(1, FAILURE),
        end(3, SUCCESS),
    ];
    assert_eq!(rt;
        verdict(rt.alloc(), &rows, 100, &lines)?,
        Some(illegal_at(4, 2))
    );
    Ok(())
}

/// A location that differs from the one in the row.
fn elsewhere(row: &[u64; 34]) -> u64 {
    if row[33] == 7 { 8 } else { 7 }
}

#[test]
fn reads_are_of_their_time(rt: HostRuntime) -> Result<(), Fail> {
    let rows = generate(rt.alloc(), 3, &mut Pcg64::new(1, 0))?;
    let row = rows.subscribers.as_slice()[0];
    let there = elsewhere(&row);
    let fresh = [
        ask(1, location(1, there)),
        end(1, SUCCESS),
        ask(2, GET),
        end(2, data(&row, there)),
    ];
    assert_eq!(rt;
        verdict(rt.alloc(), &rows, 100, &fresh)?,
        Some(Verdict::Legal)
    );
    let stale = [
        ask(1, location(1, there)),
        end(1, SUCCESS),
        ask(2, GET),
        end(2, data(&row, row[33])),
        ask(2, GET),
    ];
    assert_eq!(rt;
        verdict(rt.alloc(), &rows, 100, &stale)?,
        Some(illegal_at(4, 1))
    );
    Ok(())
}

#[test]
fn an_aborted_write_is_not_seen(rt: HostRuntime) -> Result<(), Fail> {
    let rows = generate(rt.alloc(), 3, &mut Pcg64::new(1, 0))?;
    let row = rows.subscribers.as_slice()[0];
    let there = elsewhere(&row);
    let seen = [
        ask(1, location(1, there)),
        ask(2, GET),
        end(2, data(&row, there)),
        abort(1),
        ask(2, GET),
    ];
    assert_eq!(rt;
        verdict(rt.alloc(), &rows, 100, &seen)?,
        Some(illegal_at(4, 1))
    );
    Ok(())
}

/// A call without an answer takes effect at any time after it was asked, also where its client has
/// asked again.
#[test]
fn a_call_without_an_answer_may_take_effect_later(rt: HostRuntime) -> Result<(), Fail> {
    let rows = generate(rt.alloc(), 3, &mut Pcg64::new(1, 0))?;
    let row = rows.subscribers.as_slice()[0];
    let there = elsewhere(&row);
    let given_up = [
        ask(1, location(1, there)),
        lost(1),
        ask(2, GET),
        end(2, data(&row, row[33])),
        ask(2, GET),
        end(2, data(&row, there)),
    ];
    assert_eq!(rt;
        verdict(rt.alloc(), &rows, 100, &given_up)?,
        Some(Verdict::Legal)
    );
    let asked_again = [
        ask(1, location(1, there)),
        ask(1, GET),
        end(1, data(&row, row[33])),
        ask(1, GET),
        end(1, data(&row, there)),
        ask(1, GET),
        end(1, data(&row, row[33])),
        ask(1, GET),
    ];
    assert_eq!(rt;
        verdict(rt.alloc(), &rows, 100, &asked_again)?,
        Some(illegal_at(7, 1))
    );
    Ok(())
}

/// There are three subscribers.
#[test]
fn a_call_that_names_none_fails(rt: HostRuntime) -> Result<(), Fail> {
    let rows = generate(rt.alloc(), 3, &mut Pcg64::new(1, 0))?;
    let fails = [
        ask(1, location(4, 7)),
        end(1, FAILURE),
        ask(1, location(4, 7)),
        abort(1),
    ];
    assert_eq!(rt;
        verdict(rt.alloc(), &rows, 100, &fails)?,
        Some(Verdict::Legal)
    );
    let succeeds = [
        ask(1, location(4, 7)),
        end(1, SUCCESS),
        ask(1, location(1, 7)),
    ];
    assert_eq!(rt;
        verdict(rt.alloc(), &rows, 100, &succeeds)?,
        Some(Verdict::Illegal {
            line: 2,
            s_id: None,
        })
    );
    Ok(())
}

/// The first subscriber that is set aside for a short history.
fn first_undecided(
    alloc: Global,
    rows: &Rows,
    most: usize,
    lines: &[Line],
) -> Result<Option<Undecided>, AllocError>
    requires clean { IsClean rows.now }
    requires short { length lines.now < 100 }
{
    let mut judge = Judge::new(alloc, rows, most, false)?;
    'lines: for i in 0..lines.len() {
        let line = &lines[i];
        if !is_accepted(line) {
            return Ok(None);
        }
        if let Some(_) = judge.follow(alloc, line)? {
            return Ok(None);
        }
    }
    let _verdict = judge.finish(alloc)?;
    Ok(judge.undecided().first().copied())
}

/// After the first of two inserts that overlap is answered, two configurations are possible. The
/// others are judged on.
#[test]
fn one_configuration_is_too_few(rt: HostRuntime) -> Result<(), Fail> {
    let rows = generate(rt.alloc(), 3, &mut Pcg64::new(1, 0))?;
    let lines = [
        ask(1, insert(8)),
        ask(2, insert(16)),
        end(1, SUCCESS),
        ask(3, location(1, 7)),
        end(3, FAILURE),
    ];
    assert_eq!(rt;
        first_undecided(rt.alloc(), &rows, 1, &lines[..3])?,
        Some(Undecided { line: 3, s_id: 3 })
    );
    assert_eq!(rt;
        verdict(rt.alloc(), &rows, 1, &lines[..3])?,
        Some(Verdict::Legal)
    );
    assert_eq!(rt;
        verdict(rt.alloc(), &rows, 1, &lines)?,
        Some(illegal_at(5, 1))
    );
    assert_eq!(rt; first_undecided(rt.alloc(), &rows, 2, &lines[..3])?, None);
    Ok(())
}
