//! The commands: modules from texts and bytes, and back.
ghost use Rattle.std.specs.Prelude.{◌≡◌, ◌*◌, ◌≤◌, length, IfOk, IfErr, OnOk, IfSome};
ghost use Rattle.std.specs.String.{string_bytes};
ghost use Rattle.tatp_streams.specs.Writing.{WritesText};
ghost use Rattle.tatp_assembly.specs.Modules.{IsModuleOfText, IsTextOfModule, IsApprovalOf, instruction_count, approval, RefusesText, RefusesBytes, Leaves};

use crate::AssemblyFault;
use crate::modules::module_of_text;
use std::alloc::{AllocError, Global};
use std::io::{Read, Write};
use tatp_asm::disassemble;
use tatp_encoding::{Module, Proc};
use tatp_limits::{MAX_INPUT_BYTES, MAX_PROCEDURES};
use tatp_loader::{load, save};
use tatp_streams::{read_all, write_last};

/// The bytes of the module that a text is, where it keeps the rules.
fn assembled(alloc: Global, text: &[u8]) -> Result<Vec<u8>, AssemblyFault>
    ensures bytes { IfOk result (λ bytes. IsModuleOfText text.now bytes.items) }
    ensures faults { IfErr result (RefusesText text.now) }
{
    let loaded = module_of_text(alloc, text)?;
    Ok(save(alloc, &loaded)?)
}

/// The text that is printed of the module that bytes are.
fn disassembled(alloc: Global, bytes: &[u8]) -> Result<String, AssemblyFault>
    ensures text { IfOk result (λ text. IsTextOfModule bytes.now (string_bytes text)) }
    ensures faults { IfErr result (RefusesBytes bytes.now) }
{
    let loaded = load(alloc, bytes)?;
    Ok(disassemble(alloc, loaded.module())?)
}

/// How many instructions the procedures have together.
fn instruction_count(procs: &[Proc]) -> usize
    requires { length procs.now ≤ MAX_PROCEDURES }
    ensures { result ≡ instruction_count procs.now }
{
    let mut count = 0;
    for procedure in procs {
        count += procedure.code().len();
    }
    count
}

/// What is said of a module that may run: how many procedures and instructions it has.
fn approval(alloc: Global, m: &Module) -> Result<String, AllocError>
    ensures { IfOk result (λ text. string_bytes text ≡ approval m.now) }
{
    let procs = m.procs();
    let procedures = procs.len();
    let instructions = instruction_count(procs);
    format!(in alloc; "OK {procedures} {instructions}\n")
}

/// What is said of the module that bytes are.
fn approved(alloc: Global, bytes: &[u8]) -> Result<String, AssemblyFault>
    ensures text { IfOk result (λ text. IsApprovalOf bytes.now (string_bytes text)) }
    ensures faults { IfErr result (RefusesBytes bytes.now) }
{
    let loaded = load(alloc, bytes)?;
    Ok(approval(alloc, loaded.module())?)
}

/// Reads assembly text and writes the bytes of its module, which keeps the rules.
pub fn run_asm<R: Read, W: Write>(
    alloc: Global,
    reader: &mut R,
    writer: &mut W,
) -> Result<(), AssemblyFault>
    ensures written { OnOk result (IfSome (R.remaining reader.old) (λ text.
        WritesText (IsModuleOfText text) (W.contents writer.old) (W.contents writer.new))) }
    ensures faults { IfErr result (λ fault. IfSome (R.remaining reader.old) (λ text.
        Leaves (RefusesText text) (IsModuleOfText text)
        (W.contents writer.old) (W.contents writer.new) fault)) }
    ensures limit { OnOk result
        (IfSome (R.remaining reader.old) (λ input. length input ≤ MAX_INPUT_BYTES)) }
{
    let text = read_all(alloc, reader)?;
    let bytes = assembled(alloc, &text)?;
    write_last(writer, &bytes)?;
    Ok(())
}

/// Reads the bytes of a module, which has to keep the rules, and writes the text that
/// [`tatp_asm::disassemble`] prints of it.
pub fn run_dis<R: Read, W: Write>(
    alloc: Global,
    reader: &mut R,
    writer: &mut W,
) -> Result<(), AssemblyFault>
    ensures written { OnOk result (IfSome (R.remaining reader.old) (λ bytes.
        WritesText (IsTextOfModule bytes) (W.contents writer.old) (W.contents writer.new))) }
    ensures faults { IfErr result (λ fault. IfSome (R.remaining reader.old) (λ bytes.
        Leaves (RefusesBytes bytes) (IsTextOfModule bytes)
        (W.contents writer.old) (W.contents writer.new) fault)) }
    ensures limit { OnOk result
        (IfSome (R.remaining reader.old) (λ input. length input ≤ MAX_INPUT_BYTES)) }
{
    let bytes = read_all(alloc, reader)?;
    let text = disassembled(alloc, &bytes)?;
    write_last(writer, text.as_bytes())?;
    Ok(())
}

/// Reads the bytes of a module, which has to keep the rules, and writes how many procedures and
/// instructions it has.
pub fn run_check<R: Read, W: Write>(
    alloc: Global,
    reader: &mut R,
    writer: &mut W,
) -> Result<(), AssemblyFault>
    ensures written { OnOk result (IfSome (R.remaining reader.old) (λ bytes.
        WritesText (IsApprovalOf bytes) (W.contents writer.old) (W.contents writer.new))) }
    ensures faults { IfErr result (λ fault. IfSome (R.remaining reader.old) (λ bytes.
        Leaves (RefusesBytes bytes) (IsApprovalOf bytes)
        (W.contents writer.old) (W.contents writer.new) fault)) }
    ensures limit { OnOk result
        (IfSome (R.remaining reader.old) (λ input. length input ≤ MAX_INPUT_BYTES)) }
{
    let bytes = read_all(alloc, reader)?;
    let text = approved(alloc, &bytes)?;
    write_last(writer, text.as_bytes())?;
    Ok(())
}
