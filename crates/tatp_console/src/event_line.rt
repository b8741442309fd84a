//! What is answered to a line of `trace`, and what the line does to the system.
ghost use Rattle.std.specs.Prelude.{◌≡◌, ◌++◌, Some, IfOk, OnOk};
ghost use Rattle.std.specs.String.{string_bytes};
ghost use Rattle.tatp_console.specs.EventLines.{line_in, AppendsEvent, AppendsLine, AppendsSteps, TellsVerdict};

use crate::looking::{home_lines, look_text};
use std::alloc::{AllocError, Global};
use tatp_audits::audit;
use tatp_dispatch::World;
use tatp_events::Event;
use tatp_trace_lines::{TraceLine, push_answer, read_trace_line};

/// The line that bytes are, which have to be text.
#[tactic(auto, using(crate::proofs::BytesLaws::line_in_text, crate::proofs::BytesLaws::line_in_no_text))]
fn line_in(line: &[u8]) -> Option<TraceLine>
    ensures { result ≡ line_in line.now }
{
    match str::from_utf8(line) {
        Ok(text) => read_trace_line(text),
        Err(_) => None,
    }
}

/// An event happens, and its answer's line is appended.
#[tactic(auto, using(crate::proofs::EventLineLaws::event_appended))]
fn answer_event(world: &mut World<'_>, event: Event, pending: &mut String) -> Result<(), AllocError>
    ensures { OnOk result (AppendsEvent world.old event
        (string_bytes pending.old) (string_bytes pending.new) world.new) }
{
    let answered = world.apply(event);
    push_answer(pending, &answered)?;
    pending.push_str("\n")?;
    Ok(())
}

/// A site makes steps, and the line of each answer is appended.
#[tactic(auto, using(crate::proofs::EventLineLaws::no_step, crate::proofs::EventLineLaws::one_step))]
fn answer_steps(
    world: &mut World<'_>,
    partition: u64,
    count: u64,
    pending: &mut String,
) -> Result<(), AllocError>
    ensures { OnOk result (AppendsSteps world.old partition count
        (string_bytes pending.old) (string_bytes pending.new) world.new) }
{
    'steps: for done in 0..count {
        answer_event(world, Event::Step(partition), pending)?;
    }
    Ok(())
}

/// The verdict on the rows of all sites and of all parcels in hand.
fn verdict_line(alloc: Global, world: &World<'_>) -> Result<String, AllocError>
    ensures { IfOk result (λ text. TellsVerdict world.now (string_bytes text)) }
{
    let rows = world.gather(alloc)?;
    let verdict = audit(alloc, &rows)?;
    format!(in alloc; "{verdict}\n")
}

/// Appends what is answered to a line.
#[tactic(auto, using(crate::proofs::EventLineLaws::look_appended, crate::proofs::EventLineLaws::home_appended, crate::proofs::EventLineLaws::verdict_appended))]
fn answer(
    alloc: Global,
    world: &mut World<'_>,
    line: TraceLine,
    pending: &mut String,
) -> Result<(), AllocError>
    ensures { OnOk result (AppendsLine world.old (Some line)
        (string_bytes pending.old) (string_bytes pending.new) world.new) }
{
    match line {
        TraceLine::Event(event) => answer_event(world, event, pending),
        TraceLine::Steps(partition, count) => answer_steps(world, partition, count, pending),
        TraceLine::Look(partition) => {
            let text = look_text(alloc, world, partition)?;
            pending.push_str(text.as_str())?;
            Ok(())
        }
        TraceLine::Home(partition, s_id) => {
            let text = home_lines(alloc, world, partition, s_id)?;
            pending.push_str(text.as_str())?;
            Ok(())
        }
        TraceLine::Audit => {
            let text = verdict_line(alloc, world)?;
            pending.push_str(text.as_str())?;
            Ok(())
        }
    }
}

/// Appends what is answered to the line that bytes are, or that they are no line. After an error
/// the text must not be used, and the event of the line may have happened.
#[tactic(auto, using(crate::proofs::EventLineLaws::bad_appended))]
pub fn answer_line(
    alloc: Global,
    world: &mut World<'_>,
    line: &[u8],
    pending: &mut String,
) -> Result<(), AllocError>
    ensures { OnOk result (AppendsLine world.old (line_in line.now)
        (string_bytes pending.old) (string_bytes pending.new) world.new) }
{
    match line_in(line) {
        Some(line) => answer(alloc, world, line, pending),
        None => {
            pending.push_str("REFUSED 5 BadLine\n")?;
            Ok(())
        }
    }
}
