//! What an input brings before the lines that are answered: a module and rows.
ghost use Rattle.std.specs.Prelude.{◌≡◌, ◌+◌, IfOk, IfErr, IfSome};
ghost use Rattle.tatp_streams.specs.LineReading.{lines_left, Relates};
ghost use Rattle.tatp_tasks.specs.Populations.{IsPopulation};
ghost use Rattle.tatp_tasks.specs.declared.procedures.Procedures.TheVariants.{Read};
ghost use Rattle.tatp_inputs.specs.Work.{AreCleanWhereDrawn};
ghost use Rattle.tatp_console.specs.Brought.{IsModuleFor, BringsModule, Brings, RefusesInput};

use crate::ConsoleFault;
use std::alloc::Global;
use std::io;
use tatp_assembly::module_of_text;
use tatp_inputs::{FrontText, InputFault, read_text, work_of};
use tatp_loader::Loaded;
use tatp_procs::standard;
use tatp_streams::LineReader;
use tatp_tables::Rows;
use tatp_tasks::{Procedures, Setup};

/// What an input brings before the lines that are answered.
#[derive(Drop)]
pub(crate) struct Brought {
    /// The module under which they are.
    pub(crate) loaded: Loaded,
    pub(crate) rows: Rows,
}

/// The module that the text up to a line `.` is.
fn read_module<R: io::Read>(
    alloc: Global,
    setup: Setup,
    lines: &mut LineReader,
    reader: &mut R,
) -> Result<Loaded, ConsoleFault>
    requires procedures { setup.procedures ≡ Read }
    requires first { lines.old.number ≡ 0 }
    ensures rules { IfOk result (IsModuleFor setup.procedures) }
    ensures module { IfOk result (λ loaded. Relates
        (lines_left lines.old (R.remaining reader.old))
        (lines_left lines.new (R.remaining reader.new))
        (BringsModule setup loaded (lines.new.number + 1))) }
    ensures faults { IfErr result (λ fault.
        IfSome (lines_left lines.old (R.remaining reader.old)) (λ all.
        RefusesInput setup.procedures setup.population all.lines fault)) }
{
    let FrontText { text, dot } = read_text(alloc, lines, reader)?;
    let loaded = module_of_text(alloc, &text)?;
    if !dot {
        return Err(ConsoleFault::Input(InputFault::BadLine(lines.number() + 1)));
    }
    Ok(loaded)
}

/// The module under which the lines of an input are answered.
fn module_of<R: io::Read>(
    alloc: Global,
    setup: Setup,
    lines: &mut LineReader,
    reader: &mut R,
) -> Result<Loaded, ConsoleFault>
    requires first { lines.old.number ≡ 0 }
    ensures rules { IfOk result (IsModuleFor setup.procedures) }
    ensures module { IfOk result (λ loaded. Relates
        (lines_left lines.old (R.remaining reader.old))
        (lines_left lines.new (R.remaining reader.new))
        (BringsModule setup loaded (lines.new.number + 1))) }
    ensures faults { IfErr result (λ fault.
        IfSome (lines_left lines.old (R.remaining reader.old)) (λ all.
        RefusesInput setup.procedures setup.population all.lines fault)) }
{
    match setup.procedures {
        Procedures::Standard => Ok(standard(alloc)?),
        Procedures::Read => read_module(alloc, setup, lines, reader),
    }
}

/// The module and the rows of an input, whose other lines are left. A fault of the module's text
/// comes before one of the rows.
pub(crate) fn bring<R: io::Read>(
    alloc: Global,
    setup: Setup,
    lines: &mut LineReader,
    reader: &mut R,
) -> Result<Brought, ConsoleFault>
    requires first { lines.old.number ≡ 0 }
    requires population { IsPopulation setup.population }
    ensures rules { IfOk result (λ brought. IsModuleFor setup.procedures brought.loaded) }
    ensures brought { IfOk result (λ brought. Relates
        (lines_left lines.old (R.remaining reader.old))
        (lines_left lines.new (R.remaining reader.new))
        (Brings setup brought.loaded brought.rows)) }
    ensures clean { IfOk result
        (λ brought. AreCleanWhereDrawn setup.population brought.rows) }
    ensures faults { IfErr result (λ fault.
        IfSome (lines_left lines.old (R.remaining reader.old)) (λ all.
        RefusesInput setup.procedures setup.population all.lines fault)) }
{
    let loaded = module_of(alloc, setup, lines, reader)?;
    let rows = work_of(alloc, setup.population, lines, reader)?;
    Ok(Brought { loaded, rows })
}
