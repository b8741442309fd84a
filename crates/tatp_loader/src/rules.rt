//! The rules that a module keeps before a machine runs it.
ghost use Rattle.std.specs.Prelude.{◌≡◌, ◌↔◌, ◌<◌, ◌&&◌, not, [], length, IsOk, IfOk, IfErr, Some};
ghost use Rattle.std.specs.List.{list_any};
ghost use Rattle.tatp_tables.specs.Columns.{is_column, is_fixed};
ghost use Rattle.tatp_loader.specs.Lawful.{IsLawful, is_out, is_write, is_end};
ghost use Rattle.tatp_loader.specs.Rules.{misfit, excess, first_broken, missing_end, has_name, fault_after, first_fault_after, first_fault};

use crate::fault::{LoadFault, LoadFaultKind, fault};
use crate::loaded::Loaded;
use tatp_encoding::{Module, Proc};
use tatp_instr::{Instr, Version};
use tatp_limits::{MAX_OUTPUTS, MAX_WRITES};
use tatp_tables::is_fixed;

fn is_out(instr: &Instr) -> bool
    ensures { result ≡ is_out instr.now }
{
    matches!(instr, Instr::Out(_))
}

fn is_write(instr: &Instr) -> bool
    ensures { result ≡ is_write instr.now }
{
    matches!(instr, Instr::Put(_, _) | Instr::Ins(_, _) | Instr::Del)
}

fn is_end(instr: &Instr) -> bool
    ensures { result ≡ is_end instr.now }
{
    matches!(instr, Instr::Done | Instr::Fail(_))
}

/// Whether there is such a column, and whether it may be set: it isn't fixed.
fn is_settable(column: u32) -> bool
    ensures { result ≡ (is_column column && not (is_fixed column)) }
{
    column <= 50 && !is_fixed(column as u8)
}

/// The first rule that the instruction at a position breaks by itself.
fn instr_misfit(procedure: &Proc, position: usize, instr: &Instr) -> Option<LoadFaultKind>
    requires inside { position < length procedure.now.code }
    ensures { result ≡ misfit procedure.now position instr.now }
{
    match *instr {
        Instr::Arg(_, argument) if argument >= u32::from(procedure.arity()) => {
            Some(LoadFaultKind::NoSuchArgument)
        }
        Instr::Get(_, column) if column > 50 => Some(LoadFaultKind::FixedColumn),
        Instr::Put(_, column) if !is_settable(column) => Some(LoadFaultKind::FixedColumn),
        Instr::Jmp(target) | Instr::Jz(_, target) => {
            if target as usize <= position {
                Some(LoadFaultKind::BackwardJump)
            } else if target as usize >= procedure.code().len() {
                Some(LoadFaultKind::BadTarget)
            } else {
                None
            }
        }
        Instr::Loop(_, target) if target as usize > position => Some(LoadFaultKind::ForwardLoop),
        _ => None,
    }
}

/// Whether the instruction is one OUT too many after `outs`, or one PUT, INS or DEL too many after
/// `writes`. Those of version 2 are not counted.
fn instr_excess(
    version: Version,
    outs: usize,
    writes: usize,
    instr: &Instr,
) -> Option<LoadFaultKind>
    ensures { result ≡ excess version outs writes instr.now }
{
    match version {
        Version::One => {
            if is_out(instr) && outs >= MAX_OUTPUTS {
                Some(LoadFaultKind::TooManyOut)
            } else if is_write(instr) && writes >= MAX_WRITES {
                Some(LoadFaultKind::TooManyWrites)
            } else {
                None
            }
        }
        Version::Two => None,
    }
}

/// The first instruction that breaks a rule, in the procedure with this number.
fn first_broken(version: Version, number: usize, procedure: &Proc) -> Option<LoadFault>
    ensures { result ≡ first_broken version number procedure.now 0 procedure.now.code }
{
    let mut outs = 0;
    let mut writes = 0;
    for (position, instr) in procedure.code().iter().enumerate() {
        let misfit = instr_misfit(procedure, position, instr);
        let excess = instr_excess(version, outs, writes, instr);
        if let Some(kind) = misfit.or(excess) {
            return Some(fault(kind, number, position));
        }
        outs += usize::from(is_out(instr));
        writes += usize::from(is_write(instr));
    }
    None
}

/// The fault of a procedure that doesn't end with DONE or FAIL.
fn missing_end(number: usize, procedure: &Proc) -> Option<LoadFault>
    ensures { result ≡ missing_end number procedure.now }
{
    let last = procedure.code().len() - 1;
    if is_end(&procedure.code()[last]) {
        return None;
    }
    Some(fault(LoadFaultKind::NoEnd, number, last))
}

/// Whether one of the procedures has the name.
fn any_has_name(procs: &[Proc], name: &str) -> bool
    ensures { result ≡ list_any (has_name name.now) procs.now }
{
    procs.iter().any(|procedure| procedure.name() == name)
}

/// The first fault of the procedure after these.
fn fault_after(version: Version, before: &[Proc], procedure: &Proc) -> Option<LoadFault>
    ensures { result ≡ fault_after version before.now procedure.now }
{
    let number = before.len();
    if any_has_name(before, procedure.name()) {
        return Some(fault(LoadFaultKind::NameTwice, number, 0));
    }
    first_broken(version, number, procedure).or(missing_end(number, procedure))
}

/// The first rule that the procedures of a version break.
pub(crate) fn first_fault(version: Version, procs: &[Proc]) -> Option<LoadFault>
    ensures { result ≡ first_fault_after version [] procs.now }
{
    for number in 0..procs.len() {
        let fault = fault_after(version, &procs[..number], &procs[number]);
        if fault.is_some() {
            return fault;
        }
    }
    None
}

/// The module, where it keeps the rules. Otherwise the first rule that it breaks, procedure by
/// procedure; the module is consumed then too.
pub fn check(module: Module) -> Result<Loaded, LoadFault>
    ensures value { IfOk result (λ loaded. loaded ≡ «module») }
    ensures lawful { IsOk result ↔ IsLawful «module» }
    ensures fault { IfErr result (λ fault. first_fault «module» ≡ Some fault) }
{
    match first_fault(module.version(), module.procs()) {
        Some(fault) => Err(fault),
        None => Ok(Loaded::new(module)),
    }
}
