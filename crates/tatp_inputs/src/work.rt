//! The rows of a run, and the lines that it answers.
ghost use Rattle.std.specs.Prelude.{◌+◌, IfOk, IfErr, IfSome};
ghost use Rattle.tatp_streams.specs.LineReading.{lines_left, Relates};
ghost use Rattle.tatp_tasks.specs.Populations.{IsPopulation};
ghost use Rattle.tatp_inputs.specs.Refusing.{RefusesReading};
ghost use Rattle.tatp_inputs.specs.Work.{work_of, BringsWork, AreCleanWhereDrawn};

use crate::InputFault;
use crate::rows::read_work;
use rand_pcg::Pcg64;
use std::alloc::Global;
use std::io::Read;
use tatp_population::generate;
use tatp_streams::LineReader;
use tatp_tables::Rows;
use tatp_tasks::Population;

/// The rows of a run. They are read from the lines up to a line `.`, or they are drawn and no line
/// is taken. The run answers the lines that are left.
#[tactic(auto, unfolding(crate::specs::Work::generated))]
pub fn work_of<R: Read>(
    alloc: Global,
    population: Population,
    lines: &mut LineReader,
    reader: &mut R,
) -> Result<Rows, InputFault>
    requires population { IsPopulation population }
    ensures work { IfOk result (λ rows. Relates
        (lines_left lines.old (R.remaining reader.old))
        (lines_left lines.new (R.remaining reader.new))
        (BringsWork population rows lines.old.number lines.new.number)) }
    ensures clean { IfOk result (λ rows. AreCleanWhereDrawn population rows) }
    ensures faults { IfErr result (λ fault.
        IfSome (lines_left lines.old (R.remaining reader.old)) (λ all.
        RefusesReading (work_of population (lines.old.number + 1) all.lines) fault)) }
{
    match population {
        Population::Read => read_work(alloc, lines, reader),
        Population::Generated { subscribers, seed } => {
            Ok(generate(alloc, subscribers, &mut Pcg64::new(seed as u128, 0))?)
        }
    }
}
