//! The targets of jumps.
ghost use Rattle.std.specs.Prelude.{◌≡◌};
ghost use Rattle.tatp_encoding.specs.Spelling.{IsInstr};
ghost use Rattle.tatp_asm.specs.Instrs.{target_of, aimed};

use tatp_instr::{Instr, Word, operands};

/// The position that a jump names, by the table of the instructions.
#[tactic(auto, using(crate::proofs::TargetLaws::target_by_table))]
pub(crate) fn target_of(instr: &Instr) -> Option<u32>
    ensures value { result ≡ target_of instr.now }
    ensures within { IsInstr instr.now }
{
    let parts = instr.parts();
    match operands(parts.op)?.word {
        Word::Target => Some(parts.word),
        Word::Nothing | Word::Count | Word::Column | Word::Argument => None,
    }
}

/// The same instruction; a jump goes to this position.
pub(crate) fn aimed(instr: Instr, position: u32) -> Instr
    ensures { result ≡ aimed instr position }
{
    match instr {
        Instr::Jmp(_) => Instr::Jmp(position),
        Instr::Jz(a, _) => Instr::Jz(a, position),
        Instr::Loop(a, _) => Instr::Loop(a, position),
        other => other,
    }
}
