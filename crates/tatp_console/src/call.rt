//! The command `call`: a reply to each line, and then the rows, where they are asked for.
ghost use Rattle.std.specs.Prelude.{◌≡◌, ◌≤◌, true, false, Result, length, IfErr, OnOk, IfSome};
ghost use Rattle.std.specs.String.{string_bytes};
ghost use Rattle.tatp_calls.specs.declared.ask.Ask.TheVariants.{Txn};
ghost use Rattle.tatp_calls.specs.declared.reply.Reply.{Reply};
ghost use Rattle.tatp_events.specs.declared.refusal.Refusal.{Refusal};
ghost use Rattle.tatp_dispatch.specs.Calling.{MakesCall};
ghost use Rattle.tatp_dispatch.specs.Shown.{set_back};
ghost use Rattle.tatp_tasks.specs.Populations.{IsPopulation, IsInputLimit};
ghost use Rattle.tatp_tasks.specs.declared.procedures.Procedures.TheVariants.{Standard};
ghost use Rattle.tatp_console.specs.Answers.{IsReady, StaysReady, AppendsAnswer};
ghost use Rattle.tatp_console.specs.Served.{call_in, Served, ServedFront};
ghost use Rattle.tatp_console.specs.Replying.{IsAtRestAfter, AnswersCall, AnswersLine, answers_call, rows_after};
ghost use Rattle.tatp_console.specs.Works.{WritesOfWork, Leaves};

use crate::ConsoleFault;
use crate::lines::{LineCommand, answer_all};
use crate::renewal::let_calls_go;
use crate::rows::write_rows;
use std::alloc::{AllocError, Global};
use std::io::{Read, Write};
use tatp_calls::{Ask, Call, push_reply, read_call};
use tatp_dispatch::World;
use tatp_limits::MAX_PARTITIONS;
use tatp_streams::{StreamFault, text_of};
use tatp_tasks::{Population, Procedures, Setup};

/// The command `call`.
struct Calls;

/// The command `call --rows`.
struct CallsAndRows;

/// The call that a line is, which has to be text.
#[tactic(auto, unfolding(crate::specs::Served::call_in))]
fn call_in(line: &[u8]) -> Option<Call>
    ensures { result ≡ call_in line.now }
{
    match text_of(line) {
        Some(text) => read_call(text),
        None => None,
    }
}

/// A call is made alone, as client 0's, and its reply is appended, or why it is refused. After an
/// error the text is of no use.
fn answer_call(world: &mut World<'_>, call: Call, pending: &mut String) -> Result<(), AllocError>
    ensures answered { OnOk result (AnswersCall world.old call
        (string_bytes pending.old) (string_bytes pending.new) world.new) }
    ensures made { (outcome : Result Reply Refusal)
        × MakesCall world.old 0 (Txn call) outcome world.new }
{
    let ask = Ask::Txn(call);
    match world.call(0, ask) {
        Ok(reply) => push_reply(pending, &ask, reply),
        Err(refusal) => write!(pending, "REFUSED {refusal}"),
    }
}

/// Appends the reply to a line, without a line feed.
#[tactic(auto, using(crate::proofs::CallLaws::call_answered))]
fn answer_line(world: &mut World<'_>, line: &[u8], pending: &mut String) -> Result<(), AllocError>
    requires ready { IsReady IsAtRestAfter world.old }
    ensures answered { OnOk result (AnswersLine line.now (set_back world.old)
        (string_bytes pending.old) (string_bytes pending.new) (set_back world.new)) }
    ensures ready { StaysReady IsAtRestAfter world.old world.new }
{
    match call_in(line) {
        Some(call) => answer_call(world, call, pending),
        None => pending.push_str("REFUSED 5 BadLine"),
    }
}

/// Appends the reply to a line, and a line feed.
fn reply_to_line(
    alloc: Global,
    world: &mut World<'_>,
    line: &[u8],
    pending: &mut String,
) -> Result<(), AllocError>
    requires ready { IsReady IsAtRestAfter world.old }
    ensures answered { OnOk result (AppendsAnswer answers_call world.old line.now
        (string_bytes pending.old) (string_bytes pending.new) world.new) }
    ensures ready { StaysReady IsAtRestAfter world.old world.new }
{
    let completed = world.completions().len();
    answer_line(world, line, pending)?;
    pending.push_str("\n")?;
    let_calls_go(alloc, world, completed);
    Ok(())
}

impl LineCommand for Calls {
    ghost answers = { answers_call };

    ghost ready = { IsAtRestAfter };

    ghost ending = { rows_after false };

    fn answer(
        alloc: Global,
        world: &mut World<'_>,
        line: &[u8],
        pending: &mut String,
    ) -> Result<(), AllocError> {
        reply_to_line(alloc, world, line, pending)
    }

    fn end<W: Write>(
        _alloc: Global,
        _world: &World<'_>,
        _subscribers: u64,
        _writer: &mut W,
    ) -> Result<(), StreamFault> {
        Ok(())
    }
}

impl LineCommand for CallsAndRows {
    ghost answers = { answers_call };

    ghost ready = { IsAtRestAfter };

    ghost ending = { rows_after true };

    fn answer(
        alloc: Global,
        world: &mut World<'_>,
        line: &[u8],
        pending: &mut String,
    ) -> Result<(), AllocError> {
        reply_to_line(alloc, world, line, pending)
    }

    fn end<W: Write>(
        alloc: Global,
        world: &World<'_>,
        subscribers: u64,
        writer: &mut W,
    ) -> Result<(), StreamFault> {
        write_rows(alloc, world, subscribers, writer)
    }
}

/// Reads rows and calls, or calls alone, and writes a reply to each line of calls; then, where rows
/// are asked for, a line `.` and the rows as all calls left them.
///
/// The rows are opened before the first reply is written. All replies to the lines that have come
/// are written before the program waits for more lines. At most `input_limit` bytes are read. Each
/// call is run to its end before the next. The number of partitions changes no written byte.
pub fn run_call<R: Read, W: Write>(
    alloc: Global,
    reader: &mut R,
    writer: &mut W,
    population: Population,
    partitions: u8,
    rows: bool,
    input_limit: usize,
) -> Result<(), ConsoleFault>
    requires population { IsPopulation population }
    requires partitions { (1 ≤ partitions) × (partitions ≤ MAX_PARTITIONS) }
    requires limit { IsInputLimit input_limit }
    ensures served { OnOk result (IfSome (R.remaining reader.old) (λ input.
        WritesOfWork (λ m. Served rows) Standard population input
        (W.contents writer.old) (W.contents writer.new))) }
    ensures faults { IfErr result (λ fault. IfSome (R.remaining reader.old) (λ input.
        Leaves (λ m. ServedFront rows) Standard population input
        (W.contents writer.old) (W.contents writer.new) fault)) }
    ensures limit { OnOk result
        (IfSome (R.remaining reader.old) (λ input. length input ≤ input_limit)) }
{
    let setup = Setup {
        procedures: Procedures::Standard,
        population,
        partitions,
        clients: 1,
        input_limit,
    };
    if rows {
        answer_all::<CallsAndRows, R, W>(alloc, reader, writer, setup)
    } else {
        answer_all::<Calls, R, W>(alloc, reader, writer, setup)
    }
}
