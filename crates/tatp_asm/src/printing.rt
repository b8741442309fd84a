//! The assembly text of a module.
ghost use Rattle.std.specs.Prelude.{◌≡◌, ◌≤◌, ◌++◌, ◌∷◌, [], ◌||◌, ℕ, true, false, All, slice_index_or, length, IfOk, OnOk};
ghost use Rattle.std.specs.String.{string_bytes};
ghost use Rattle.tatp_encoding.specs.Modules.{ModuleState, is_module};
ghost use Rattle.tatp_encoding.specs.Spelling.{IsInstr};
ghost use Rattle.tatp_asm.specs.Texts.{IsTextOf};
ghost use Rattle.tatp_asm.specs.Printing.{is_target, is_named, instruction_line, body_lines, with_label, procedure_lines, lines_text, version_text, disassembled};

use crate::target::target_of;
use std::alloc::{AllocError, Global};
use tatp_encoding::{Module, Proc};
use tatp_instr::{Instr, Version, text};
use tatp_limits::MAX_INSTRUCTIONS;
use tatp_lines::push_decimal;

/// How many positions a label can have: before each instruction, and after the last.
const POSITIONS: usize = MAX_INSTRUCTIONS + 1;

/// Marks the position of a target.
#[tactic(auto, using(crate::proofs::PushLaws::marked, crate::proofs::PushLaws::not_marked))]
fn mark(named: &mut [bool; POSITIONS], target: Option<u32>)
    ensures { (k : ℕ) → k ≤ MAX_INSTRUCTIONS → slice_index_or named.new k false
        ≡ (is_target target k || slice_index_or named.old k false) }
{
    if let Some(position) = target {
        let position = position as usize;
        if position < POSITIONS {
            named[position] = true;
        }
    }
}

/// Whether a jump of the code names the position, for each that a label can have.
fn named_positions(code: &[Instr]) -> [bool; POSITIONS]
    ensures named { (k : ℕ) → k ≤ MAX_INSTRUCTIONS
        → slice_index_or result k false ≡ is_named code.now k }
    ensures instrs { All IsInstr code.now }
{
    let mut named = [false; POSITIONS];
    for instr in code {
        mark(&mut named, target_of(instr));
    }
    named
}

/// Appends the label of a position that is named.
#[tactic(auto, unfolding(crate::specs::Printing::label_at))]
fn push_label(out: &mut String, named: bool, position: usize) -> Result<(), AllocError>
    ensures { OnOk result (string_bytes out.new
        ≡ string_bytes out.old ++ lines_text (with_label named position [])) }
{
    if named {
        out.push_str("L")?;
        push_decimal(out, position as u64)?;
        out.push_str(":\n")?;
    }
    Ok(())
}

/// Appends the line of an instruction.
fn push_instruction(out: &mut String, instr: &Instr) -> Result<(), AllocError>
    ensures { OnOk result (string_bytes out.new
        ≡ string_bytes out.old ++ lines_text (instruction_line instr.now ∷ [])) }
{
    out.push_str(text(instr).as_str())?;
    out.push_str("\n")?;
    Ok(())
}

/// Appends the lines between those that begin and end a procedure.
fn push_body(out: &mut String, code: &[Instr]) -> Result<(), AllocError>
    requires { length code.now ≤ MAX_INSTRUCTIONS }
    ensures lines { OnOk result (string_bytes out.new
        ≡ string_bytes out.old ++ lines_text (body_lines code.now 0 code.now)) }
    ensures instrs { All IsInstr code.now }
{
    let named = named_positions(code);
    for (position, instr) in code.iter().enumerate() {
        push_label(out, named[position], position)?;
        push_instruction(out, instr)?;
    }
    push_label(out, named[code.len()], code.len())
}

/// Appends the lines of a procedure.
fn push_procedure(out: &mut String, procedure: &Proc) -> Result<(), AllocError>
    ensures lines { OnOk result (string_bytes out.new
        ≡ string_bytes out.old ++ lines_text (procedure_lines procedure.now)) }
    ensures instrs { OnOk result (All IsInstr procedure.now.code) }
{
    out.push_str("proc ")?;
    out.push_str(procedure.name())?;
    out.push_str(" ")?;
    push_decimal(out, u64::from(procedure.arity()))?;
    out.push_str("\n")?;
    push_body(out, procedure.code())?;
    out.push_str("end\n")?;
    Ok(())
}

/// Appends the line that says the version.
fn push_version(out: &mut String, version: Version) -> Result<(), AllocError>
    ensures { OnOk result (string_bytes out.new ≡ string_bytes out.old ++ version_text version) }
{
    match version {
        Version::One => Ok(()),
        Version::Two => out.push_str("version 2\n"),
    }
}

/// The lines of a module.
#[tactic(auto, unfolding(crate::specs::Printing::disassembled))]
fn module_text(alloc: Global, m: &Module) -> Result<String, AllocError>
    ensures text { IfOk result (λ text. string_bytes text ≡ disassembled m.now) }
    ensures instrs { OnOk result (All (λ p. All IsInstr p.code) m.now.procedures) }
    ensures module { is_module m.now ≡ true }
{
    let procs = m.procs();
    let mut out = String::new(alloc);
    push_version(&mut out, m.version())?;
    for procedure in procs {
        push_procedure(&mut out, procedure)?;
    }
    Ok(out)
}

/// The text of a module, each line ended by a line feed. The label `Lk:` comes before the
/// instruction k where a jump names k, and at the end where the length is k.
pub fn disassemble(alloc: Global, m: &Module) -> Result<String, AllocError>
    // The text is this module's, and no other's.
    ensures found { IfOk result (λ text. IsTextOf (string_bytes text) m.now) }
    ensures only { (other : ModuleState) → is_module other ≡ true
        → IfOk result (λ text. IsTextOf (string_bytes text) other → other ≡ m.now) }

    // Which text it is.
    ensures exact { IfOk result (λ text. string_bytes text ≡ disassembled m.now) }
{
    module_text(alloc, m)
}
