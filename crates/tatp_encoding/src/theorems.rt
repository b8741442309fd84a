//! A law of the definitions, for the crates above. Nothing runs here: the clause is the law.
ghost use Rattle.std.specs.Prelude.{◌≡◌, true, Ok};
ghost use Rattle.tatp_instr.specs.declared.instr.Instr.{Instr};
ghost use Rattle.tatp_instr.specs.declared.version.Version.{Version};
ghost use Rattle.tatp_instr.specs.Versions.{is_in};
ghost use Rattle.tatp_encoding.specs.Spelling.{spelling, IsInstr};
ghost use Rattle.tatp_encoding.specs.Decoding.{decoded};

/// The eight bytes of each instruction of a version are read as that instruction, so no two have
/// the same.
pub fn instructions_are_read_as_spelled()
    ensures { (version : Version) (instr : Instr) → IsInstr instr → is_in version instr ≡ true
        → decoded version (spelling instr) ≡ Ok instr }
{}
