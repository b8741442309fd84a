//! A procedure under way.
ghost use Rattle.std.specs.Prelude.{◌≡◌, ◌++◌, ◌∷◌, [], List, Some, None, length, Err, IfOk};
ghost use Rattle.tatp_encoding.specs.Modules.{Procedure};
ghost use Rattle.tatp_asm.specs.Lines.{Opens, Names, Does, Closes, IsLine};
ghost use Rattle.std.specs.Result.{result_map_both};
ghost use Rattle.tatp_asm.specs.BeforeCode.{IsBare};
ghost use Rattle.tatp_asm.specs.Reading.{Gives, step, resolve, resolved_by};
ghost use Rattle.tatp_asm.specs.Views.{Fits, draft_view, under_way, labels_view, pending, all_pending};

use crate::fault::{AsmError, AsmFault, AsmFaultKind};
use crate::labels::{Labels, position_of, put_label};
use crate::name::Name;
use crate::target::{aimed, target_of};
use indexmap::IndexMap;
use std::alloc::Global;
use tatp_encoding::Proc;
use tatp_instr::Instr;
use tatp_limits::{MAX_INSTRUCTIONS, MAX_PROCEDURES};

/// An instruction, with the label that it names, which is empty where it names none, and its line.
#[derive(Drop)]
pub(crate) struct Unresolved {
    pub instr: Instr,
    pub label: Name,
    pub line: u64,
}

/// A procedure that has begun and not ended.
#[derive(Drop)]
pub(crate) struct Draft {
    pub name: Name,
    pub arity: u8,
    pub labels: Labels,
    pub code: Vec<Unresolved>,
}

/// A fault of a line.
pub(crate) fn fault<T>(kind: AsmFaultKind, line: u64) -> Result<T, AsmError>
    ensures { result ≡ Err (AsmError.Fault (record { kind = kind; line = line })) }
{
    Err(AsmError::Fault(AsmFault { kind, line }))
}

/// An instruction with its target.
fn resolve_one(labels: &Labels, unresolved: &Unresolved) -> Result<Instr, AsmError>
    ensures { Gives (λ i. i) result
        (resolved_by (labels_view labels.now.entries) (pending unresolved.now)) }
{
    match target_of(&unresolved.instr) {
        None => Ok(unresolved.instr),
        Some(_) => match position_of(labels, unresolved.label.as_str()) {
            Some(position) => Ok(aimed(unresolved.instr, position)),
            None => fault(AsmFaultKind::NoSuchLabel, unresolved.line),
        },
    }
}

/// Instructions with their targets.
fn resolve_all(alloc: Global, labels: &Labels, code: &[Unresolved]) -> Result<Vec<Instr>, AsmError>
    ensures gives { Gives (λ v. v.items) result
        (resolve (labels_view labels.now.entries) (all_pending code.now)) }
    ensures count { IfOk result (λ v. length v.items ≡ length code.now) }
{
    let mut instrs = Vec::with_capacity(alloc, code.len())?;
    'code: for one in code {
        instrs.push(resolve_one(labels, one)?)?;
    }
    Ok(instrs)
}

/// A procedure that begins after `closed` others.
pub(crate) fn open_draft(
    alloc: Global,
    closed: usize,
    name: Name,
    arity: u8,
    line: u64,
) -> Result<Draft, AsmFault>
    requires { IsLine (Opens name.bytes arity) }
    ensures gives { (procs : List Procedure) → length procs ≡ closed
        → result_map_both (under_way procs) (λ fault. fault) result
        ≡ step procs None line (Opens name.bytes arity) }
    ensures fits { IfOk result Fits }
{
    if closed >= MAX_PROCEDURES {
        let kind = AsmFaultKind::TooLong;
        return Err(AsmFault { kind, line });
    }
    Ok(Draft {
        name,
        arity,
        labels: IndexMap::new(alloc),
        code: Vec::new(alloc),
    })
}

/// One label more.
pub(crate) fn add_label(
    alloc: Global,
    draft: Draft,
    label: Name,
    line: u64,
) -> Result<Draft, AsmError>
    requires { Fits draft }
    ensures gives { (closed : List Procedure) → Gives (under_way closed) result
        (step closed (Some (draft_view draft)) line (Names label.bytes)) }
    ensures fits { IfOk result Fits }
{
    let mut draft = draft;
    if position_of(&draft.labels, label.as_str()).is_some() {
        return fault(AsmFaultKind::LabelTwice, line);
    }
    let position = draft.code.len() as u32;
    put_label(alloc, &mut draft.labels, label.as_str(), position)?;
    Ok(draft)
}

/// One instruction more.
pub(crate) fn add_instruction(
    draft: Draft,
    instr: Instr,
    label: Name,
    line: u64,
) -> Result<Draft, AsmError>
    requires { Fits draft }
    ensures gives { (closed : List Procedure) → Gives (under_way closed) result
        (step closed (Some (draft_view draft)) line (Does instr label.bytes)) }
    ensures fits { IfOk result Fits }
{
    let mut draft = draft;
    if draft.code.len() >= MAX_INSTRUCTIONS {
        return fault(AsmFaultKind::TooLong, line);
    }
    draft.code.push(Unresolved { instr, label, line })?;
    Ok(draft)
}

/// The procedure that ends.
pub(crate) fn close_draft(alloc: Global, draft: Draft, line: u64) -> Result<Proc, AsmError>
    requires { Fits draft }
    ensures gives { (closed : List Procedure)
        → Gives (λ p. record { closed = closed ++ (p ∷ []); current = None }) result
        (step closed (Some (draft_view draft)) line Closes) }
    ensures early { IsBare (Some (draft_view draft))
        → result ≡ Err (AsmError.Fault (record { kind = AsmFaultKind.Syntax; line = line })) }
{
    if draft.code.is_empty() {
        return fault(AsmFaultKind::Syntax, line);
    }
    let code = resolve_all(alloc, &draft.labels, &draft.code)?;
    Ok(Proc::new(draft.name.as_str(), draft.arity, code))
}
