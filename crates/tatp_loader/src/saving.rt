//! The bytes of a module.
ghost use Rattle.std.specs.Prelude.{◌≡◌, ◌++◌, IfOk, OnOk};
ghost use Rattle.tatp_loader.specs.ModuleBytes.{code_bytes, procedure_bytes, IsModuleOf};

use crate::loaded::Loaded;
use crate::parsing::magic;
use std::alloc::{AllocError, Global};
use tatp_encoding::{Proc, encode};
use tatp_instr::Instr;

/// Appends the bytes of instructions.
fn push_code(bytes: &mut Vec<u8>, code: &[Instr]) -> Result<(), AllocError>
    ensures { OnOk result (bytes.new.items ≡ bytes.old.items ++ code_bytes code.now) }
{
    for instr in code {
        bytes.extend_from_slice(&encode(instr))?;
    }
    Ok(())
}

/// Appends the bytes of a procedure.
fn push_procedure(bytes: &mut Vec<u8>, procedure: &Proc) -> Result<(), AllocError>
    ensures { OnOk result (bytes.new.items ≡ bytes.old.items ++ procedure_bytes procedure.now) }
{
    let name = procedure.name().as_bytes();
    let code = procedure.code();
    bytes.push(name.len() as u8)?;
    bytes.extend_from_slice(name)?;
    bytes.push(procedure.arity())?;
    bytes.extend_from_slice(&(code.len() as u16).to_be_bytes())?;
    push_code(bytes, code)?;
    Ok(())
}

/// The one spelling of a module, which begins with the magic of its version.
pub fn save(alloc: Global, loaded: &Loaded) -> Result<Vec<u8>, AllocError>
    ensures { IfOk result (λ bytes. IsModuleOf bytes.items loaded.now) }
{
    let procs = loaded.module().procs();
    let mut bytes = Vec::new(alloc);
    bytes.extend_from_slice(&magic(loaded.module().version()))?;
    bytes.push(procs.len() as u8)?;
    for procedure in procs {
        push_procedure(&mut bytes, procedure)?;
    }
    Ok(bytes)
}
