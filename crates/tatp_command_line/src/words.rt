//! The task that the words of the command line ask for, and the texts that refuse words.
ghost use Rattle.std.specs.Prelude.{◌≡◌, ◌≤◌, Ok, None, Some, map, IfOk, IfSome, IfErr, IsSomeAnd, OkIff};
ghost use Rattle.std.specs.String.{string_bytes};
ghost use Rattle.clap.specs.Matches.{found_of};
ghost use Rattle.clap.specs.Simple.{subcommand_rows_of};
ghost use Rattle.clap.specs.Values.{kind_of};
ghost use Rattle.clap.specs.Walk.{rows_of};
ghost use Rattle.tatp_tasks.specs.Loads.{IsRowsPlan, IsCallsPlan};
ghost use Rattle.tatp_tasks.specs.Judging.{IsJudgePlan};
ghost use Rattle.tatp_tasks.specs.Plans.{IsPlan};
ghost use Rattle.tatp_tasks.specs.Populations.{IsPopulation, IsSetup, IsInputLimit};
ghost use Rattle.tatp_tasks.specs.Tasks.{IsTask};
ghost use Rattle.tatp_command_line.specs.Asked.{IfDo, IfShown, IsNamedBy, IsToldOf, AskFor, AskForText};
ghost use Rattle.tatp_command_line.specs.Numbers.{HasNumber, number_asked};
ghost use Rattle.tatp_command_line.specs.Options.{partitions, clients, input_limit, HasPopulation, population_asked, HasSetup, setup_asked, HasPlan, plan_asked, distribution_asked, procedures_asked, HasRowsPlan, rows_plan_asked, HasJudgePlan, judge_plan_asked, HasCallsPlan, calls_plan_asked};

use crate::Asked;
use crate::commands::{command, command_named};
use crate::options::{
    BadNumber, CALLS, CHAPTER, CLIENT, CLIENTS, DRAWN_CALLS, GEN, INPUT_LIMIT, MOST, MOVES,
    PARTITIONS, PARTS, ROWS_GEN, SEED, STOPS, SUBSCRIBERS, given, is_given, part_of,
};
use clap::error::ErrorKind;
use clap::{ArgMatches, Command, Error};
use std::alloc::{AllocError, Global};
use tatp_limits::{MAX_CLIENTS, MAX_PARTITIONS};
use tatp_tasks::{
    BenchPlan, CallsPlan, Distribution, JudgePlan, Population, Procedures, RowsPlan, Setup, Task,
};

/// Where the procedures of a run come from.
fn procedures_of(options: &ArgMatches<'_>) -> Procedures
    ensures { result ≡ procedures_asked (rows_of (found_of options.now)) }
{
    if is_given(options, "procedures") {
        Procedures::Read
    } else {
        Procedures::Standard
    }
}

/// Where the rows of a run come from.
fn population_of<'a>(options: &ArgMatches<'a>) -> Result<Population, BadNumber<'a>>
    ensures asked { OkIff result (HasPopulation (rows_of (found_of options.now)))
        (population_asked (rows_of (found_of options.now))) }
    ensures drawn { IfOk result IsPopulation }
{
    let seed = SEED.number(options)?;
    match GEN.number_if_given(options)? {
        None => Ok(Population::Read),
        Some(subscribers) => Ok(Population::Generated { subscribers, seed }),
    }
}

/// The number of partitions in which the rows are opened.
fn partitions_of<'a>(options: &ArgMatches<'a>) -> Result<u8, BadNumber<'a>>
    ensures asked { OkIff result (HasNumber partitions (rows_of (found_of options.now)))
        (number_asked partitions (rows_of (found_of options.now))) }
    ensures least { IfOk result (λ number. 1 ≤ number) }
    ensures most { IfOk result (λ number. number ≤ MAX_PARTITIONS) }
{
    Ok(PARTITIONS.number(options)? as u8)
}

/// The number of clients.
fn clients_of<'a>(options: &ArgMatches<'a>) -> Result<u16, BadNumber<'a>>
    ensures asked { OkIff result (HasNumber clients (rows_of (found_of options.now)))
        (number_asked clients (rows_of (found_of options.now))) }
    ensures least { IfOk result (λ number. 1 ≤ number) }
    ensures most { IfOk result (λ number. number ≤ MAX_CLIENTS) }
{
    Ok(CLIENTS.number(options)? as u16)
}

/// The most bytes of the input that are read.
fn input_limit_of<'a>(options: &ArgMatches<'a>) -> Result<usize, BadNumber<'a>>
    ensures asked { OkIff result (HasNumber input_limit (rows_of (found_of options.now)))
        (number_asked input_limit (rows_of (found_of options.now))) }
    ensures possible { IfOk result IsInputLimit }
{
    Ok(INPUT_LIMIT.number(options)? as usize)
}

/// What a run over events is opened with.
fn setup_of<'a>(options: &ArgMatches<'a>) -> Result<Setup, BadNumber<'a>>
    ensures asked { OkIff result (HasSetup (rows_of (found_of options.now)))
        (setup_asked (rows_of (found_of options.now))) }
    ensures possible { IfOk result IsSetup }
{
    Ok(Setup {
        procedures: procedures_of(options),
        population: population_of(options)?,
        partitions: partitions_of(options)?,
        clients: clients_of(options)?,
        input_limit: input_limit_of(options)?,
    })
}

/// How calls are distributed over the subscribers.
fn distribution_of(options: &ArgMatches<'_>) -> Distribution
    ensures { result ≡ distribution_asked (rows_of (found_of options.now)) }
{
    if is_given(options, "uniform") {
        Distribution::Uniform
    } else {
        Distribution::Skewed
    }
}

/// The run of the benchmark that is asked for.
fn plan_of<'a>(options: &ArgMatches<'a>) -> Result<BenchPlan, BadNumber<'a>>
    ensures asked { OkIff result (HasPlan (rows_of (found_of options.now)))
        (plan_asked (rows_of (found_of options.now))) }
    ensures possible { IfOk result IsPlan }
{
    Ok(BenchPlan {
        subscribers: SUBSCRIBERS.number(options)?,
        partitions: partitions_of(options)?,
        clients: clients_of(options)?,
        calls: CALLS.number(options)?,
        seed: SEED.number(options)?,
        distribution: distribution_of(options),
        moves: MOVES.number(options)?,
        stops: STOPS.number(options)?,
        chapter: CHAPTER.number(options)?,
    })
}

/// The history that is to be judged.
fn judge_plan_of<'a>(options: &ArgMatches<'a>) -> Result<JudgePlan, BadNumber<'a>>
    ensures asked { OkIff result (HasJudgePlan (rows_of (found_of options.now)))
        (judge_plan_asked (rows_of (found_of options.now))) }
    ensures possible { IfOk result IsJudgePlan }
{
    let final_rows = is_given(options, "final");
    let parts = PARTS.number(options)?;
    Ok(JudgePlan {
        population: population_of(options)?,
        most: MOST.number(options)? as usize,
        final_rows,
        part: part_of(parts).number(options)?,
        parts,
    })
}

/// The rows that are to be drawn and written.
fn rows_plan_of<'a>(options: &ArgMatches<'a>) -> Result<RowsPlan, BadNumber<'a>>
    ensures asked { OkIff result (HasRowsPlan (rows_of (found_of options.now)))
        (rows_plan_asked (rows_of (found_of options.now))) }
    ensures possible { IfOk result IsRowsPlan }
{
    Ok(RowsPlan {
        subscribers: ROWS_GEN.number(options)?,
        seed: SEED.number(options)?,
    })
}

/// The calls that are to be drawn and written.
fn calls_plan_of<'a>(options: &ArgMatches<'a>) -> Result<CallsPlan, BadNumber<'a>>
    ensures asked { OkIff result (HasCallsPlan (rows_of (found_of options.now)))
        (calls_plan_asked (rows_of (found_of options.now))) }
    ensures possible { IfOk result IsCallsPlan }
{
    Ok(CallsPlan {
        subscribers: SUBSCRIBERS.number(options)?,
        calls: DRAWN_CALLS.number(options)?,
        client: CLIENT.number(options)?,
        seed: SEED.number(options)?,
        distribution: distribution_of(options),
    })
}

/// The task that the words were found to ask for. `None` means that they name no command, and `Err`
/// that an option of the command has no number in its range.
fn task_in<'a>(matches: &ArgMatches<'a>) -> Result<Option<Task<'a>>, BadNumber<'a>>
    ensures asked { IfOk result (λ found. IfSome found (λ task.
        IsSomeAnd (subcommand_rows_of matches.now) (λ command. IsNamedBy command task))) }
    ensures possible { IfOk result (λ found. IfSome found IsTask) }
{
    let Some((name, options)) = matches.subcommand() else {
        return Ok(None);
    };
    match name {
        "call" => Ok(Some(Task::Call {
            population: population_of(options)?,
            partitions: partitions_of(options)?,
            rows: is_given(options, "rows"),
            input_limit: input_limit_of(options)?,
        })),
        "trace" => Ok(Some(Task::Trace {
            setup: setup_of(options)?,
            echo: is_given(options, "echo"),
        })),
        "asm" => Ok(Some(Task::Asm)),
        "dis" => Ok(Some(Task::Dis)),
        "check" => Ok(Some(Task::Check)),
        "audit" => Ok(Some(Task::Audit {
            input_limit: input_limit_of(options)?,
        })),
        "judge" => {
            let progress = is_given(options, "progress");
            let plan = judge_plan_of(options)?;
            Ok(Some(Task::Judge { plan, progress }))
        }
        "bench" => Ok(Some(Task::Bench {
            plan: plan_of(options)?,
            progress: is_given(options, "progress"),
            history: is_given(options, "history"),
        })),
        "rows" => Ok(Some(Task::Rows(rows_plan_of(options)?))),
        "calls" => Ok(Some(Task::Calls(calls_plan_of(options)?))),
        "explain" => Ok(Some(Task::Explain(given(options, "word")))),
        _ => Ok(None),
    }
}

/// What an error of the parse is answered with. `Err` means that memory ran out, in the parse too.
fn answered<'a>(alloc: Global, error: &Error) -> Result<Asked<'a>, AllocError>
    ensures { IfOk result (IsToldOf (kind_of error.now)) }
{
    if error.kind() == ErrorKind::OutOfMemory {
        return Err(AllocError);
    }
    let text = format!(in alloc; "{error}")?;
    if error.use_stderr() {
        Ok(Asked::Refuse(text))
    } else {
        Ok(Asked::Show(text))
    }
}

/// The text that says why a command refuses its words, with the usage of that command.
fn refusal(
    alloc: Global,
    mut command: Command<'_>,
    kind: ErrorKind,
    why: &str,
) -> Result<String, AllocError> {
    let error = command.error(kind, why)?;
    format!(in alloc; "{error}")
}

/// What the words ask for, or the text that they are answered with. `Err` means that memory ran
/// out.
pub fn task_of<'a>(alloc: Global, words: &'a [String]) -> Result<Asked<'a>, AllocError>
    ensures asked { IfOk result (IfDo (AskFor (map string_bytes words.now))) }
    ensures possible { IfOk result (IfDo IsTask) }
    ensures shown { IfOk result (IfShown (AskForText (map string_bytes words.now))) }
{
    let matches = match command(alloc)?.try_get_matches_from(words) {
        Ok(matches) => matches,
        Err(error) => return answered(alloc, &error),
    };
    match task_in(&matches) {
        Ok(Some(task)) => Ok(Asked::Do(task)),
        // The parse has tested that there is one.
        Ok(None) => {
            let kind = ErrorKind::MissingSubcommand;
            Ok(Asked::Refuse(refusal(alloc, command(alloc)?, kind, "a command is missing")?))
        }
        Err(bad) => {
            let why = format!(in alloc; "{bad}")?;
            let command = command_named(alloc, matches.subcommand_name().unwrap_or(""))?;
            let kind = ErrorKind::ValueValidation;
            Ok(Asked::Refuse(refusal(alloc, command, kind, why.as_str())?))
        }
    }
}

/// The text that refuses words of which one is not UTF-8.
pub fn not_text(alloc: Global) -> Result<String, AllocError> {
    refusal(
        alloc,
        command(alloc)?,
        ErrorKind::InvalidValue,
        "a word isn't UTF-8",
    )
}

/// The text that refuses a word which is the number of no refusal and no fault, and no name of one.
pub fn not_explained(alloc: Global, word: &str) -> Result<String, AllocError> {
    let why = format!(in alloc;
        "invalid value '{word}' for '[NUMBER|NAME]': no refusal or fault has this number or name"
    )?;
    let command = command_named(alloc, "explain")?;
    refusal(alloc, command, ErrorKind::ValueValidation, why.as_str())
}
