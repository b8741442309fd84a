//! The command `trace`: what is answered to each line of events.
ghost use Rattle.std.specs.Prelude.{◌≡◌, ◌≤◌, true, false, length, IfErr, OnOk, IfSome};
ghost use Rattle.tatp_tasks.specs.Populations.{IsSetup};
ghost use Rattle.tatp_console.specs.Tracing.{answers_events, no_ending, TellsWork, TellsFront};
ghost use Rattle.tatp_console.specs.Works.{WritesOfWork, Leaves};

use crate::ConsoleFault;
use crate::echo::answer_echoed;
use crate::event_line::answer_line;
use crate::lines::{LineCommand, answer_all};
use std::alloc::{AllocError, Global};
use std::io::{Read, Write};
use tatp_dispatch::World;
use tatp_streams::StreamFault;
use tatp_tasks::Setup;

/// The command `trace`.
struct Events;

impl LineCommand for Events {
    ghost answers = { answers_events false };

    ghost ending = { no_ending };

    fn answer(
        alloc: Global,
        world: &mut World<'_>,
        line: &[u8],
        pending: &mut String,
    ) -> Result<(), AllocError> {
        answer_line(alloc, world, line, pending)
    }

    fn end<W: Write>(
        _alloc: Global,
        _world: &World<'_>,
        _subscribers: u64,
        _writer: &mut W,
    ) -> Result<(), StreamFault> {
        Ok(())
    }
}

/// The command `trace` where lines are echoed.
struct EchoedEvents;

impl LineCommand for EchoedEvents {
    ghost answers = { answers_events true };

    ghost ending = { no_ending };

    fn answer(
        alloc: Global,
        world: &mut World<'_>,
        line: &[u8],
        pending: &mut String,
    ) -> Result<(), AllocError> {
        answer_echoed(alloc, world, line, pending)
    }

    fn end<W: Write>(
        _alloc: Global,
        _world: &World<'_>,
        _subscribers: u64,
        _writer: &mut W,
    ) -> Result<(), StreamFault> {
        Ok(())
    }
}

/// Reads rows and lines of events, or such lines alone, and writes what is answered to each. The
/// text of the procedures that calls run may come before them. With `echo` each line is written
/// after `> `, before what is answered to it; and a line that begins with `#` is a comment, which
/// isn't answered.
///
/// The rows are opened before the first answer is written. All answers to the lines that have come
/// are written before the program waits for more lines. At most `setup.input_limit` bytes are read.
pub fn run_trace<R: Read, W: Write>(
    alloc: Global,
    reader: &mut R,
    writer: &mut W,
    setup: Setup,
    echo: bool,
) -> Result<(), ConsoleFault>
    requires setup { IsSetup setup }
    ensures told { OnOk result (IfSome (R.remaining reader.old) (λ input.
        WritesOfWork (TellsWork setup echo) setup.procedures setup.population input
        (W.contents writer.old) (W.contents writer.new))) }
    ensures faults { IfErr result (λ fault. IfSome (R.remaining reader.old) (λ input.
        Leaves (TellsFront setup echo) setup.procedures setup.population input
        (W.contents writer.old) (W.contents writer.new) fault)) }
    ensures limit { OnOk result
        (IfSome (R.remaining reader.old) (λ input. length input ≤ setup.input_limit)) }
{
    if echo {
        answer_all::<EchoedEvents, R, W>(alloc, reader, writer, setup)
    } else {
        answer_all::<Events, R, W>(alloc, reader, writer, setup)
    }
}
