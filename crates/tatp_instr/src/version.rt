//! The versions of the instruction table.
ghost use Rattle.std.specs.Prelude.{◌≡◌};
ghost use Rattle.tatp_instr.specs.Versions.{is_in};

use crate::instr::Instr;

/// A version of the instruction table.
#[derive(Clone, Copy, Debug, PartialEq, Eq)]
pub enum Version {
    /// The ops 1 to 21. Jumps go forward, so the code of a procedure bounds what its calls do.
    One = 1,
    /// LOOP besides. A call is stopped past its limits of steps, outputs and writes.
    Two = 2,
}

impl Instr {
    /// Whether a version has the instruction.
    pub fn is_in(&self, version: Version) -> bool
        ensures { result ≡ is_in version self.now }
    {
        match (version, self) {
            (Version::One, Instr::Loop(_, _)) => false,
            _ => true,
        }
    }
}
