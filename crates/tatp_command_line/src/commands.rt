//! The commands of the command line, with their options.
ghost use Rattle.std.specs.Prelude.{◌≡◌, ◌++◌, [], ◌∷◌, true, false, IfOk, codes};
ghost use Rattle.clap.specs.Walk.{rule_of};
ghost use Rattle.tatp_command_line.specs.CommandLine.{number_rule, switch_rule, word_rule, command_with, rows_rules, call_rules, trace_rules, audit_rules, bench_rules, meanwhile_rules, drawn_rows_rules, drawn_calls_rules, judge_rules, part_rules, program, command_line, IsApp, IsLeaf};

use crate::help::{
    ABOUT, ASM, AUDIT, BENCH, CALL, CALLS_HELP, CHECK, DIS, EXPLAIN, JUDGE, PROGRAM, ROWS, TRACE,
    USAGE,
};
use crate::options::{
    CALLS, CHAPTER, CLIENT, CLIENTS, DRAWN_CALLS, GEN, INPUT_LIMIT, MOST, MOVES, PART, PARTITIONS,
    PARTS, ROWS_GEN, SEED, STOPS, SUBSCRIBERS,
};
use clap::{Arg, ArgAction, Command};
use std::alloc::{AllocError, Global};

/// A switch, which is given or isn't.
fn switch<'a>(alloc: Global, name: &'a str, help: &'a str) -> Arg<'a>
    ensures rule { rule_of result ≡ switch_rule name.entry.now }
    ensures own { result.global ≡ false }
{
    Arg::new(alloc, name)
        .long(name)
        .action(ArgAction::SetTrue)
        .help(help)
}

/// A word of the command line with no option before it.
fn word<'a>(alloc: Global, name: &'a str, value: &'a str, help: &'a str) -> Arg<'a>
    ensures rule { rule_of result ≡ word_rule name.entry.now }
    ensures own { result.global ≡ false }
{
    Arg::new(alloc, name).value_name(value).help(help)
}

/// A command over rows that the input has, or that are drawn.
fn over_rows<'a>(alloc: Global, name: &'a str, about: &'a str) -> Result<Command<'a>, AllocError>
    ensures { IfOk result (IsLeaf (command_with rows_rules name.entry.now)) }
{
    Command::new(alloc, name)
        .about(about)
        .arg(GEN.arg(alloc))?
        .arg(SEED.arg(alloc))?
        .arg(PARTITIONS.arg(alloc))
}

fn call<'a>(alloc: Global) -> Result<Command<'a>, AllocError>
    ensures { IfOk result (IsLeaf (command_with call_rules (codes "call"))) }
{
    let command = over_rows(
        alloc,
        "call",
        "Answer calls of the seven transactions, one reply a line",
    )?;
    let command = command
        .arg(switch(
            alloc,
            "rows",
            "Write a line with a dot and the rows after the replies",
        ))?
        .arg(INPUT_LIMIT.arg(alloc))?;
    Ok(command.after_help(CALL))
}

fn trace<'a>(alloc: Global) -> Result<Command<'a>, AllocError>
    ensures { IfOk result (IsLeaf (command_with trace_rules (codes "trace"))) }
{
    let command = over_rows(
        alloc,
        "trace",
        "Step, stop and look at the machines of partitions, and move ranges between them",
    )?;
    let command = command
        .arg(CLIENTS.arg(alloc))?
        .arg(switch(
            alloc,
            "procedures",
            "Run the procedures whose assembly text stands at the front of the input",
        ))?
        .arg(switch(
            alloc,
            "echo",
            "Write each line after '> ' before its answers; one that begins with # is a comment",
        ))?
        .arg(INPUT_LIMIT.arg(alloc))?;
    Ok(command.after_help(TRACE))
}

fn audit<'a>(alloc: Global) -> Result<Command<'a>, AllocError>
    ensures { IfOk result (IsLeaf (command_with audit_rules (codes "audit"))) }
{
    Command::new(alloc, "audit")
        .about("Test whether rows are a clean population")
        .after_help(AUDIT)
        .arg(INPUT_LIMIT.arg(alloc))
}

/// The command `judge`, with the options for the whole of a history.
fn judge<'a>(alloc: Global) -> Result<Command<'a>, AllocError>
    ensures { IfOk result (IsLeaf (command_with judge_rules (codes "judge"))) }
{
    Command::new(alloc, "judge")
        .about("Judge a history of any database: whether what its clients saw is serializable")
        .after_help(JUDGE)
        .arg(GEN.arg(alloc))?
        .arg(SEED.arg(alloc))?
        .arg(MOST.arg(alloc))?
        .arg(switch(
            alloc,
            "final",
            "After the history read a line with a dot and the rows at its end",
        ))?
        .arg(switch(alloc, "progress", "Tell on standard error how it goes on"))
}

/// The same command, with the options for a part of it.
fn judge_with_parts<'a>(alloc: Global) -> Result<Command<'a>, AllocError>
    ensures { IfOk result (IsLeaf (command_with (judge_rules ++ part_rules) (codes "judge"))) }
{
    judge(alloc)?.arg(PART.arg(alloc))?.arg(PARTS.arg(alloc))
}

/// The command `bench`, with the options for its database and its clients.
fn bench<'a>(alloc: Global) -> Result<Command<'a>, AllocError>
    ensures { IfOk result (IsLeaf (command_with bench_rules (codes "bench"))) }
{
    Command::new(alloc, "bench")
        .about("Run clients, moves and stops as threads at once, and settle what they leave")
        .after_help(BENCH)
        .arg(SUBSCRIBERS.arg(alloc))?
        .arg(PARTITIONS.arg(alloc))?
        .arg(CLIENTS.arg(alloc))?
        .arg(CALLS.arg(alloc))?
        .arg(SEED.arg(alloc))
}

/// The same command, with the options for what happens beside the calls.
fn bench_with_moves<'a>(alloc: Global) -> Result<Command<'a>, AllocError>
    ensures { IfOk result
        (IsLeaf (command_with (bench_rules ++ meanwhile_rules) (codes "bench"))) }
{
    bench(alloc)?
        .arg(switch(
            alloc,
            "uniform",
            "Call all subscribers about as often; without it some are called far oftener",
        ))?
        .arg(MOVES.arg(alloc))?
        .arg(STOPS.arg(alloc))?
        .arg(CHAPTER.arg(alloc))?
        .arg(switch(
            alloc,
            "progress",
            "Tell on standard error how the run goes on",
        ))?
        .arg(switch(
            alloc,
            "history",
            "Write also what clients asked and were answered, in the order of time",
        ))
}

fn rows<'a>(alloc: Global) -> Result<Command<'a>, AllocError>
    ensures { IfOk result (IsLeaf (command_with drawn_rows_rules (codes "rows"))) }
{
    Command::new(alloc, "rows")
        .about("Write the rows of a drawn population, as the other commands draw and read them")
        .after_help(ROWS)
        .arg(ROWS_GEN.arg(alloc))?
        .arg(SEED.arg(alloc))
}

fn calls<'a>(alloc: Global) -> Result<Command<'a>, AllocError>
    ensures { IfOk result (IsLeaf (command_with drawn_calls_rules (codes "calls"))) }
{
    Command::new(alloc, "calls")
        .about("Write the calls that a client of bench draws, as call reads them")
        .after_help(CALLS_HELP)
        .arg(SUBSCRIBERS.arg(alloc))?
        .arg(DRAWN_CALLS.arg(alloc))?
        .arg(CLIENT.arg(alloc))?
        .arg(SEED.arg(alloc))?
        .arg(switch(
            alloc,
            "uniform",
            "Call all subscribers about as often; without it some are called far oftener",
        ))
}

fn explain<'a>(alloc: Global) -> Result<Command<'a>, AllocError>
    ensures { IfOk result
        (IsLeaf (command_with (word_rule (codes "word") ∷ []) (codes "explain"))) }
{
    Command::new(alloc, "explain")
        .about("Say what a refusal or a fault means, and what to do")
        .after_help(EXPLAIN)
        .arg(word(
            alloc,
            "word",
            "NUMBER|NAME",
            "The number of a refusal or a fault, or its name as it is answered",
        ))
}

/// A command without options.
fn plain<'a>(alloc: Global, name: &'a str, about: &'a str, more: &'a str) -> Command<'a>
    ensures { IsLeaf (command_with [] name.entry.now) result }
{
    Command::new(alloc, name).about(about).after_help(more)
}

/// The program, without its commands.
fn program<'a>(alloc: Global) -> Command<'a>
    ensures { IsLeaf (record program { is_leaf = true }) result }
{
    Command::new(alloc, "tatp")
        .version("0.1.0")
        .propagate_version(true)
        .about(ABOUT)
        .override_usage(USAGE)
        .after_help(PROGRAM)
        .arg_required_else_help(true)
        .subcommand_required(true)
}

/// The program's command line.
pub(crate) fn command<'a>(alloc: Global) -> Result<Command<'a>, AllocError>
    ensures { IfOk result (IsApp command_line) }
{
    program(alloc)
        .subcommand(call(alloc)?)?
        .subcommand(trace(alloc)?)?
        .subcommand(plain(
            alloc,
            "asm",
            "Assemble a text of procedures into a module",
            ASM,
        ))?
        .subcommand(plain(alloc, "dis", "Print a module as assembly text", DIS))?
        .subcommand(plain(alloc, "check", "Test whether a module may be run", CHECK))?
        .subcommand(audit(alloc)?)?
        .subcommand(judge_with_parts(alloc)?)?
        .subcommand(bench_with_moves(alloc)?)?
        .subcommand(rows(alloc)?)?
        .subcommand(calls(alloc)?)?
        .subcommand(explain(alloc)?)
}

/// The command of this name, if its options take values: where a value is refused, its usage is
/// shown. For any other name it is the whole program.
pub(crate) fn command_named<'a>(alloc: Global, name: &str) -> Result<Command<'a>, AllocError> {
    let command = match name {
        "call" => call(alloc)?,
        "trace" => trace(alloc)?,
        "audit" => audit(alloc)?,
        "judge" => judge_with_parts(alloc)?,
        "bench" => bench_with_moves(alloc)?,
        "rows" => rows(alloc)?,
        "calls" => calls(alloc)?,
        "explain" => explain(alloc)?,
        _ => return command(alloc),
    };
    let usage_name = format!(in alloc; "tatp {name}")?;
    command.bin_name(usage_name.as_str())
}
