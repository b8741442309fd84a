//! A concurrent run of the benchmark, settled, and what is written of it.
ghost use Rattle.std.specs.Prelude.{◌≡◌, Some, IfOk, IfErr, OnOk};
ghost use Rattle.std.specs.List.{flat_map};
ghost use Rattle.std.specs.String.{string_bytes};
ghost use Rattle.tatp_audits.specs.Printing.{field};
ghost use Rattle.tatp_streams.specs.Writing.{WritesText};
ghost use Rattle.tatp_tasks.specs.Plans.{IsPlan};
ghost use Rattle.tatp_bench.specs.Reports.{settled_text, TellsSettled, LeavesSettled};
ghost use Rattle.tatp_bench.specs.RunHistories.{TellsHistory, LeavesHistory};

use crate::recorder::Recorder;
use crate::{Progress, ReportFault, generate_workload, run_drawn};
use std::alloc::{AllocError, Global};
use std::fmt;
use std::io::Write;
use std::sync::Wait;
use std::thread::Threads;
use tatp_run_history::write_history;
use tatp_settle::Settled;
use tatp_streams::write_last;
use tatp_tasks::BenchPlan;

/// Counts, each after a space.
#[derive(Clone, Copy)]
struct Counts<'a>(&'a [u64]);

impl fmt::Display for Counts<'_> {
    ghost output = { λ counts. Some (flat_map field counts.0.now) };

    fn fmt<W: fmt::Write>(&self, f: &mut fmt::Formatter<W>) -> fmt::Result {
        for count in self.0 {
            write!(f, " {count}")?;
        }
        Ok(())
    }
}

/// The three lines of what a settled run counts.
fn lines_of(alloc: Global, settled: &Settled) -> Result<String, AllocError>
    ensures { IfOk result (λ text. string_bytes text ≡ settled_text settled.now) }
{
    let completed = settled.completed();
    let refused = settled.refused();
    let kinds = settled.kinds();
    let kinds = Counts(&kinds);
    let verdict = settled.verdict();
    format!(in alloc; "SETTLED {completed} {refused}\nMIX{kinds}\n{verdict}\n")
}

/// Runs the calls of a plan's clients, settles the result, and writes what the settled run counts.
/// That is how many calls were completed, how many were refused memory, how many there were of each
/// kind, and the verdict on the rows. It reports to `progress` how far the run is.
///
/// A run that isn't settled is a fault, and nothing of it is written.
pub fn report_bench<R: Threads + Wait + Sync, P: Progress + Sync, W: Write>(
    rt: &R,
    alloc: Global,
    writer: &mut W,
    plan: &BenchPlan,
    progress: &P,
) -> Result<(), ReportFault>
    requires plan { IsPlan plan.now }
    ensures written { OnOk result
        (WritesText (TellsSettled plan.now) (W.contents writer.old) (W.contents writer.new)) }
    ensures faults { IfErr result
        (LeavesSettled plan.now (W.contents writer.old) (W.contents writer.new)) }
{
    let drawn = generate_workload(rt, alloc, plan)?;
    progress.tell("rows drawn");
    let run = run_drawn(rt, alloc, plan, drawn, progress)?;
    let settled = run.settled(rt, alloc);
    progress.tell("settled");
    let text = lines_of(alloc, &settled)?;
    write_last(writer, text.as_bytes())?;
    Ok(())
}

/// As [`report_bench`], and writes after these lines the history of the run: what each client
/// asked and received, line by line in the order of time. What clients do is numbered, for which
/// memory is taken before the threads start. A run that isn't settled is a fault, and nothing of it
/// is written.
///
/// Of that order no clause says more than that it keeps each client's: a contract can't say that
/// the numbers rise with time.
pub fn report_history<R: Threads + Wait + Sync, P: Progress + Sync, W: Write>(
    rt: &R,
    alloc: Global,
    writer: &mut W,
    plan: &BenchPlan,
    progress: &P,
) -> Result<(), ReportFault>
    requires plan { IsPlan plan.now }
    ensures written { OnOk result
        (WritesText (TellsHistory plan.now) (W.contents writer.old) (W.contents writer.new)) }
    ensures faults { IfErr result
        (LeavesHistory plan.now (W.contents writer.old) (W.contents writer.new)) }
{
    let recorder = Recorder::new(alloc, plan, progress)?;
    let drawn = generate_workload(rt, alloc, plan)?;
    progress.tell("rows drawn");
    let run = run_drawn(rt, alloc, plan, drawn, &recorder)?;
    progress.tell("settled");
    let head = lines_of(alloc, &run.settled)?;
    let numbers = recorder.numbers();
    write_history(alloc, writer, head, &run.lists, &run.receipts, numbers)?;
    Ok(())
}
