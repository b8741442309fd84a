//! The lines of an input, answered one after another.
ghost use Rattle.std.specs.Prelude.{◌≡◌, ◌⊎◌, ℕ, ◌≤◌, true, false, List, length, IfOk, IfErr, OnOk, OnErr, IfSome, ⊤};
ghost use Rattle.std.specs.Io.KnownBytes.{Appends};
ghost use Rattle.std.specs.String.{string_bytes};
ghost use Rattle.tatp_dispatch.specs.Worlds.{WorldState};
ghost use Rattle.tatp_streams.specs.LineReading.{lines_left, TakesLine, MeetsEnd, IsWithinLimit};
ghost use Rattle.tatp_streams.specs.Writing.{AppendsFront, KeepsOrAppends};
ghost use Rattle.tatp_tasks.specs.Populations.{IsSetup};
ghost use Rattle.tatp_console.specs.Answers.{IsReady, StaysReady, IsReadyFirst, AppendsAnswer, AnswersAll, AnswersUpTo, AnswersToEnd, AnswersInEnding, AnswersWork, AnswersFront};
ghost use Rattle.tatp_console.specs.Works.{WritesOfWork, Leaves};

use crate::ConsoleFault;
use crate::brought::{Brought, bring};
use crate::world::open_world;
use std::alloc::{AllocError, Global};
use std::io::{Read, Write};
use tatp_dispatch::World;
use tatp_streams::{LineReader, StreamFault, write_if_full, write_last};
use tatp_tasks::Setup;

/// A command that answers lines, each by what it does to the system.
pub(crate) trait LineCommand {
    /// What is answered to a line: it relates the system before, the line, the text that is
    /// answered, and the system after.
    ghost answers: { WorldState → List ℕ → List ℕ → WorldState → Type 0 };

    /// What has to hold of the system after this many lines, if one more is to be answered.
    ghost ready: { ℕ → WorldState → Type 0 } = { λ _ _. ⊤ };

    /// What is written after the answers to all lines, by the number of subscribers and the system
    /// as it is then.
    ghost ending: { ℕ → WorldState → List ℕ };

    /// Appends what is answered to a line. After an error the text must not be used, and the system
    /// may have changed.
    fn answer(
        alloc: Global,
        world: &mut World<'_>,
        line: &[u8],
        pending: &mut String,
    ) -> Result<(), AllocError>
        requires ready { IsReady ready world.old }
        ensures answered { OnOk result (AppendsAnswer answers world.old line.now
            (string_bytes pending.old) (string_bytes pending.new) world.new) }
        ensures ready { StaysReady ready world.old world.new };

    /// Writes what follows the answers to all lines. `subscribers` is their number.
    fn end<W: Write>(
        alloc: Global,
        world: &World<'_>,
        subscribers: u64,
        writer: &mut W,
    ) -> Result<(), StreamFault>
        ensures ok { OnOk result (Appends (W.contents writer.old) (W.contents writer.new)
            (ending subscribers world.now)) }
        ensures front { OnErr result (AppendsFront (ending subscribers world.now)
            (W.contents writer.old) (W.contents writer.new)) };
}

/// Takes the next line. What is pending is written before the program may wait for it.
fn next_line<R: Read, W: Write>(
    lines: &mut LineReader,
    reader: &mut R,
    writer: &mut W,
    pending: &mut String,
) -> Result<bool, StreamFault>
    ensures line { IfOk result (λ more. more ≡ true
        → TakesLine lines.old (R.remaining reader.old) lines.new (R.remaining reader.new)) }
    ensures written { IfOk result (λ more. more ≡ true
        → KeepsOrAppends (string_bytes pending.old) (string_bytes pending.new)
        (W.contents writer.old) (W.contents writer.new)) }
    ensures end { IfOk result (λ more. more ≡ false
        → MeetsEnd lines.old (R.remaining reader.old) lines.new (R.remaining reader.new)) }
    ensures all_written { IfOk result (λ more. more ≡ false
        → Appends (W.contents writer.old) (W.contents writer.new) (string_bytes pending.old)) }
    ensures front { OnErr result (AppendsFront (string_bytes pending.old)
        (W.contents writer.old) (W.contents writer.new)) }
{
    if lines.advance_ready() {
        return Ok(true);
    }
    write_last(writer, pending.as_bytes())?;
    pending.clear();
    lines.advance(reader)
}

/// Answers each line as soon as it has come.
fn answer_lines<C: LineCommand, R: Read, W: Write>(
    alloc: Global,
    world: &mut World<'_>,
    lines: &mut LineReader,
    reader: &mut R,
    writer: &mut W,
) -> Result<(), StreamFault>
    requires ready { C.ready lines.old.number world.old }
    ensures ok { OnOk result (IfSome (lines_left lines.old (R.remaining reader.old)) (λ all.
        AnswersAll C.answers world.old all.lines
        (W.contents writer.old) (W.contents writer.new) world.new)) }
    ensures limit { OnOk result (IfSome (lines_left lines.old (R.remaining reader.old)) (λ all.
        IsWithinLimit all.input)) }
    ensures front { OnErr result (IfSome (lines_left lines.old (R.remaining reader.old)) (λ all.
        AnswersUpTo C.answers world.old all.lines
        (W.contents writer.old) (W.contents writer.new))) }
{
    let mut pending = String::new(alloc);
    'lines: loop {
        if !next_line(lines, reader, writer, &mut pending)? {
            return Ok(());
        }
        C::answer(alloc, world, lines.line(), &mut pending)?;
        write_if_full(writer, &mut pending)?;
    }
}

/// Answers each line as soon as it has come, and then writes what follows.
fn answer_to_the_end<C: LineCommand, R: Read, W: Write>(
    alloc: Global,
    world: &mut World<'_>,
    subscribers: u64,
    lines: &mut LineReader,
    reader: &mut R,
    writer: &mut W,
) -> Result<(), StreamFault>
    requires ready { C.ready lines.old.number world.old }
    ensures ok { OnOk result (IfSome (lines_left lines.old (R.remaining reader.old)) (λ all.
        AnswersToEnd C.answers (C.ending subscribers) world.old all.lines
        (W.contents writer.old) (W.contents writer.new))) }
    ensures limit { OnOk result (IfSome (lines_left lines.old (R.remaining reader.old)) (λ all.
        IsWithinLimit all.input)) }
    ensures front { OnErr result (IfSome (lines_left lines.old (R.remaining reader.old)) (λ all.
        AnswersUpTo C.answers world.old all.lines
        (W.contents writer.old) (W.contents writer.new)
        ⊎ AnswersInEnding C.answers (C.ending subscribers) world.old all.lines
        (W.contents writer.old) (W.contents writer.new))) }
{
    answer_lines::<C, R, W>(alloc, world, lines, reader, writer)?;
    C::end(alloc, world, subscribers, writer)
}

/// Reads a module and rows from an input, and writes what is answered to each of its other lines.
/// The rows are opened before the first answer is written. All answers to the lines that have come
/// are written before the program waits for more lines.
pub(crate) fn answer_all<C: LineCommand, R: Read, W: Write>(
    alloc: Global,
    reader: &mut R,
    writer: &mut W,
    setup: Setup,
) -> Result<(), ConsoleFault>
    requires setup { IsSetup setup }
    requires ready { IsReadyFirst C.ready setup }
    ensures answered { OnOk result (IfSome (R.remaining reader.old) (λ input.
        WritesOfWork (AnswersWork C.answers C.ending setup) setup.procedures setup.population input
        (W.contents writer.old) (W.contents writer.new))) }
    ensures faults { IfErr result (λ fault. IfSome (R.remaining reader.old) (λ input.
        Leaves (AnswersFront C.answers C.ending setup) setup.procedures setup.population input
        (W.contents writer.old) (W.contents writer.new) fault)) }
    ensures limit { OnOk result
        (IfSome (R.remaining reader.old) (λ input. length input ≤ setup.input_limit)) }
{
    let mut lines = LineReader::new(alloc, setup.input_limit);
    let Brought { loaded, rows } = bring(alloc, setup, &mut lines, reader)?;
    let subscribers = rows.subscribers.len() as u64;
    let mut world = open_world(alloc, &loaded, setup, rows)?;
    let answered = answer_to_the_end::<C, R, W>(
        alloc,
        &mut world,
        subscribers,
        &mut lines,
        reader,
        writer,
    );
    world.close();
    answered?;
    Ok(())
}
