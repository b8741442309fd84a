//! Modules from texts.
ghost use Rattle.std.specs.Prelude.{IfOk, IfErr};
ghost use Rattle.tatp_loader.specs.Lawful.{IsLawful};
ghost use Rattle.tatp_asm.specs.Texts.{IsTextOf};
ghost use Rattle.tatp_assembly.specs.Modules.{RefusesText};

use crate::AssemblyFault;
use std::alloc::Global;
use tatp_asm::assemble_bytes;
use tatp_loader::{Loaded, check};

/// The module that a text is, where it keeps the rules.
pub fn module_of_text(alloc: Global, text: &[u8]) -> Result<Loaded, AssemblyFault>
    ensures text { IfOk result (IsTextOf text.now) }
    ensures lawful { IfOk result IsLawful }
    ensures faults { IfErr result (RefusesText text.now) }
{
    Ok(check(assemble_bytes(alloc, text)?)?)
}
