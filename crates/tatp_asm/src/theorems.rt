//! That the text which is printed of a module is assembled to it, and that each instruction is
//! in it with its own text. The program runs nothing of this.
ghost use Rattle.std.specs.Prelude.{◌≡◌, Ok};
ghost use Rattle.tatp_instr.specs.declared.instr.Instr.{Instr};
ghost use Rattle.tatp_instr.specs.Instrs.{text_of};
ghost use Rattle.tatp_asm.specs.Lines.{line_text};
ghost use Rattle.tatp_asm.specs.Printing.{instruction_line};
ghost use Rattle.tatp_asm.specs.Reading.{Gives};

use crate::assembling::assemble;
use crate::fault::AsmError;
use crate::printing::disassemble;
use std::alloc::Global;
use tatp_encoding::Module;

/// The text of a module is assembled to that module, unless memory runs out.
pub fn assemble_disassembled(alloc: Global, m: &Module) -> Result<Module, AsmError>
    ensures { Gives (λ m. m) result (Ok m.now) }
{
    // For its clause: what holds of every module.
    m.procs();
    let text = disassemble(alloc, m)?;
    assemble(alloc, text.as_str())
}

/// Law: the line of an instruction in the text that is printed of a module is the instruction's own
/// text, as [`tatp_instr::text`] writes it, whatever the module.
pub fn instructions_are_printed_as_their_text()
    ensures { (instr : Instr) → text_of instr ≡ line_text (instruction_line instr) }
{}
