//! The program `tatp`: reads the words of its command line and runs the command over the standard
//! streams.
#![tactic(auto)]

ghost use Rattle.std.specs.Prelude.{IfOk};
ghost use Rattle.tatp_tasks.specs.Plans.{IsPlan};
ghost use Rattle.tatp_tasks.specs.Tasks.{IsTask};
ghost use Rattle.tatp_command_line.specs.Asked.{IfDo};

use std::alloc::{AllocError, Global};
use std::process::ExitCode;
use std::sync::Wait;
use std::thread::Threads;
use std::time::Clock;
use std::{env, fmt, io};
use tatp_assembly::{run_asm, run_check, run_dis};
use tatp_bench::{BenchPlan, Reporter, report_bench, report_history};
use tatp_command_line::{Asked, not_explained, not_text, task_of};
use tatp_console::{run_call, run_trace};
use tatp_explanations::{run_explain, run_explain_all};
use tatp_inputs::run_audit;
use tatp_judged_inputs::{JudgeFault, Judged, Judgement, LineReporter, run_judge};
use tatp_load::{run_calls, run_rows};
use tatp_streams::StreamFault;
use tatp_tasks::Task;

/// The status where a command stops, or answers that something isn't right.
const STOPPED: u8 = 1;

/// The status where the words were refused.
const REFUSED: u8 = 2;

/// The status where it isn't known whether a history is legal.
const UNDECIDED: u8 = 3;

fn main(rt: HostRuntime) -> ExitCode {
    let alloc = rt.alloc();
    match env::args(&rt) {
        Ok(args) => match args.collect::<Vec<String>>(alloc) {
            Ok(words) => answer(&rt, alloc, task_of(alloc, &words)),
            Err(_) => tell(&rt, &StreamFault::NoMemory),
        },
        Err(error) if error.kind() == io::ErrorKind::OutOfMemory => {
            tell(&rt, &StreamFault::NoMemory)
        }
        Err(_) => refuse(&rt, not_text(alloc)),
    }
}

/// Does what was asked, and gives the status.
fn answer<R: Clock + Input + Print + Eprint + Threads + Wait + Sync>(
    rt: &R,
    alloc: Global,
    asked: Result<Asked<'_>, AllocError>,
) -> ExitCode
    requires { IfOk asked (IfDo IsTask) }
{
    match asked {
        Ok(Asked::Do(task)) => run(rt, alloc, task),
        Ok(Asked::Show(text)) => show(rt, &text),
        Ok(Asked::Refuse(text)) => refuse(rt, Ok(text)),
        Err(_) => tell(rt, &StreamFault::NoMemory),
    }
}

/// Prints a text that was asked for.
fn show(rt: &(impl Print + Eprint), text: &String) -> ExitCode {
    match print!(rt; "{text}") {
        Ok(()) => ExitCode::SUCCESS,
        Err(_) => tell(rt, &StreamFault::WriteFault),
    }
}

/// Prints why words are refused.
fn refuse(rt: &impl Eprint, text: Result<String, AllocError>) -> ExitCode {
    match text {
        Ok(text) => {
            // Where this can't be written, only the status reports it.
            let _printed = eprint!(rt; "{text}");
            ExitCode::from(REFUSED)
        }
        Err(_) => tell(rt, &StreamFault::NoMemory),
    }
}

/// Prints why the command stops.
fn tell<F: fmt::Display>(rt: &impl Eprint, fault: &F) -> ExitCode {
    // Where this can't be written either, only the status reports it.
    let _printed = eprintln!(rt; "tatp: {fault}");
    ExitCode::from(STOPPED)
}

/// The status of a command that ended well, or stops.
fn status<F: fmt::Display + Drop>(rt: &impl Eprint, ended: Result<(), F>) -> ExitCode {
    match ended {
        Ok(()) => ExitCode::SUCCESS,
        Err(fault) => tell(rt, &fault),
    }
}

/// Says what a number or a name means, or that it is none of a refusal or fault.
fn explain<R: Print + Eprint>(rt: &R, alloc: Global, word: &str) -> ExitCode {
    match run_explain(alloc, &mut io::writer(rt), word) {
        Ok(true) => ExitCode::SUCCESS,
        Ok(false) => refuse(rt, not_explained(alloc, word)),
        Err(fault) => tell(rt, &fault),
    }
}

/// Runs the benchmark, and writes what the run counts, or that and its history.
fn bench<R: Clock + Print + Eprint + Threads + Wait + Sync>(
    rt: &R,
    alloc: Global,
    plan: &BenchPlan,
    progress: bool,
    history: bool,
) -> ExitCode
    requires { IsPlan plan.now }
{
    let writer = &mut io::writer(rt);
    let reporter = Reporter::new(rt, plan, progress);
    if history {
        status(rt, report_history(rt, alloc, writer, plan, &reporter))
    } else {
        status(rt, report_bench(rt, alloc, writer, plan, &reporter))
    }
}

/// The status of a command that judged a history, or stops.
fn judged(rt: &impl Eprint, ended: Result<Judgement, JudgeFault>) -> ExitCode {
    match ended {
        Ok(judgement) => {
            if !judgement.undecided.is_empty() {
                return ExitCode::from(UNDECIDED);
            }
            match judgement.judged {
                Judged::Legal(_) => ExitCode::SUCCESS,
                Judged::Illegal { .. } => ExitCode::from(STOPPED),
                Judged::Unreached { .. } => ExitCode::from(STOPPED),
            }
        }
        Err(fault) => tell(rt, &fault),
    }
}

/// Runs a command over the standard streams.
fn run<R: Clock + Input + Print + Eprint + Threads + Wait + Sync>(
    rt: &R,
    alloc: Global,
    task: Task<'_>,
) -> ExitCode
    requires { IsTask task }
{
    let reader = &mut rt.reader();
    let writer = &mut io::writer(rt);
    match task {
        Task::Call {
            population,
            partitions,
            rows,
            input_limit,
        } => status(
            rt,
            run_call(
                alloc,
                reader,
                writer,
                population,
                partitions,
                rows,
                input_limit,
            ),
        ),
        Task::Trace { setup, echo } => status(rt, run_trace(alloc, reader, writer, setup, echo)),
        Task::Asm => status(rt, run_asm(alloc, reader, writer)),
        Task::Dis => status(rt, run_dis(alloc, reader, writer)),
        Task::Check => status(rt, run_check(alloc, reader, writer)),
        Task::Audit { input_limit } => match run_audit(alloc, reader, writer, input_limit) {
            Ok(true) => ExitCode::SUCCESS,
            Ok(false) => ExitCode::from(STOPPED),
            Err(fault) => tell(rt, &fault),
        },
        Task::Judge { plan, progress } => {
            let reporter = &mut LineReporter::new(rt, progress);
            judged(rt, run_judge(alloc, reader, writer, &plan, reporter))
        }
        Task::Bench {
            plan,
            progress,
            history,
        } => bench(rt, alloc, &plan, progress, history),
        Task::Rows(plan) => status(rt, run_rows(alloc, writer, &plan)),
        Task::Calls(plan) => status(rt, run_calls(alloc, writer, &plan)),
        Task::Explain(None) => status(rt, run_explain_all(alloc, writer)),
        Task::Explain(Some(word)) => explain(rt, alloc, word),
    }
}
