//! The module of an assembly text, read once from front to back.
ghost use Rattle.std.specs.Prelude.{◌≡◌, ◌≢◌, List, Ok, Err, Some, true, false, IfOk, IfErr, OnOk};
ghost use Rattle.std.specs.Result.{result_map_both};
ghost use Rattle.tatp_encoding.specs.Modules.{ModuleState, is_module};
ghost use Rattle.tatp_asm.specs.Lines.{IsLine};
ghost use Rattle.tatp_asm.specs.Texts.{IsTextOf};
ghost use Rattle.tatp_asm.specs.BeforeCode.{IsToldEarly, IsBare, is_code};
ghost use Rattle.tatp_asm.specs.Reading.{Gives, step, finish, assembled};
ghost use Rattle.tatp_asm.specs.Views.{FitsAny, line_view, drafts, state_of};

use crate::draft::{Draft, add_instruction, add_label, close_draft, fault, open_draft};
use crate::fault::{AsmError, AsmFault, AsmFaultKind};
use crate::head::read_head;
use crate::line::{Line, parse_line};
use std::alloc::Global;
use tatp_encoding::{Module, Proc};
use tatp_instr::Version;
use tatp_lines::next_line;

/// One line more, after the procedures that have ended and the one that has not.
fn add_line(
    alloc: Global,
    closed: &mut Vec<Proc>,
    draft: &mut Option<Draft>,
    line: Line,
    number: u64,
) -> Result<(), AsmError>
    requires fits { FitsAny draft.old }
    requires within { IsLine (line_view line) }
    ensures gives { Gives (λ _. state_of closed.new.items draft.new) result
        (step closed.old.items (drafts draft.old) number (line_view line)) }
    ensures fits { OnOk result (FitsAny draft.new) }
    ensures early { IsBare (drafts draft.old) → is_code (Some (line_view line)) ≡ false
        → IfErr result (λ e. e ≢ AsmError.NoMemory) }
{
    match draft.take() {
        None => match line {
            Line::Opening(name, arity) => {
                *draft = Some(open_draft(alloc, closed.len(), name, arity, number)?);
            }
            _ => return fault(AsmFaultKind::Syntax, number),
        },
        Some(open) => match line {
            Line::Opening(..) => return fault(AsmFaultKind::Syntax, number),
            Line::Label(label) => {
                *draft = Some(add_label(alloc, open, label, number)?);
            }
            Line::Instruction(instr, label) => {
                *draft = Some(add_instruction(open, instr, label, number)?);
            }
            Line::Ending => {
                closed.push(close_draft(alloc, open, number)?)?;
            }
        },
    }
    Ok(())
}

/// The procedures of a text that ends before this line.
fn finish(closed: Vec<Proc>, draft: Option<Draft>, number: u64) -> Result<Vec<Proc>, AsmFault>
    ensures { result_map_both (λ procs. procs.items) (λ fault. fault) result
        ≡ finish closed.items (drafts draft) number }
{
    if draft.is_some() || closed.is_empty() {
        return Err(AsmFault {
            kind: AsmFaultKind::Syntax,
            line: number,
        });
    }
    Ok(closed)
}

/// The version and the procedures of a text.
#[tactic(auto, unfolding(crate::specs::Reading::assembled))]
fn procedures(alloc: Global, text: &[u8]) -> Result<(Version, Vec<Proc>), AsmError>
    ensures gives { Gives (λ found. record {
      version = found.0;
      procedures = found.1.items;
    }) result (assembled text.now) }
    ensures early { IsToldEarly text.now (assembled text.now) result }
{
    let head = read_head(text);
    let mut closed = Vec::new(alloc);
    let mut draft = None;
    let mut rest = head.left;
    let mut number = head.line;
    'lines: loop {
        match next_line(rest) {
            None => return Ok((head.version, finish(closed, draft, number)?)),
            Some((line, after)) => {
                if !line.is_empty() {
                    match parse_line(head.version, line) {
                        None => return fault(AsmFaultKind::Syntax, number),
                        Some(line) => add_line(alloc, &mut closed, &mut draft, line, number)?,
                    }
                }
                rest = after;
                number += 1;
            }
        }
    }
}

fn read_module(alloc: Global, text: &[u8]) -> Result<Module, AsmError>
    ensures gives { Gives (λ m. m) result (assembled text.now) }
    ensures early { IsToldEarly text.now (assembled text.now) result }
{
    let (version, procs) = procedures(alloc, text)?;
    Ok(Module::new(version, procs))
}

/// The module of a text, which may be bytes that are no text: such a line has the fault 9 Syntax.
/// Otherwise the first fault: lines are examined in order, and at each `end` the labels that the
/// instructions of its procedure name.
pub fn assemble_bytes(alloc: Global, text: &[u8]) -> Result<Module, AsmError>
    // What is assembled has this text, and what has this text is assembled, unless memory runs out.
    ensures found { IfOk result (λ m. IsTextOf text.now m) }
    ensures only { (m : ModuleState) → is_module m ≡ true → IsTextOf text.now m
        → Gives (λ found. found) result (Ok m) }

    // Which fault it is. Before the first label or instruction no memory is asked for.
    ensures exact { Gives (λ m. m) result (assembled text.now) }
    ensures early { IsToldEarly text.now (assembled text.now) result }
{
    read_module(alloc, text)
}

/// The module of a text, or the first fault.
pub fn assemble(alloc: Global, text: &str) -> Result<Module, AsmError>
    // What is assembled has this text, and what has this text is assembled, unless memory runs out.
    ensures found { IfOk result (λ m. IsTextOf text.now m) }
    ensures only { (m : ModuleState) → is_module m ≡ true → IsTextOf text.now m
        → Gives (λ found. found) result (Ok m) }

    // Which fault it is. Before the first label or instruction no memory is asked for.
    ensures exact { Gives (λ m. m) result (assembled text.now) }
    ensures early { IsToldEarly text.now (assembled text.now) result }
{
    assemble_bytes(alloc, text.as_bytes())
}
