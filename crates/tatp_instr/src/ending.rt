//! How a call of a procedure ends.
ghost use Rattle.std.specs.Prelude.{Some};
ghost use Rattle.tatp_instr.specs.Traps.{trap_name};

use std::fmt;

/// Why a call is stopped.
#[derive(Clone, Copy, Debug, PartialEq, Eq)]
pub enum Trap {
    /// No row of the column's table is current.
    NoCurrent,
    /// A value is outside its column's domain.
    Domain,
    /// The last step that a call may make would not end it. Version 2.
    Budget,
    /// An output more than a call may have. Version 2.
    Output,
    /// A write more than a call may make. Version 2.
    Writes,
}

impl fmt::Display for Trap {
    ghost output = { λ trap. Some (trap_name trap) };

    fn fmt<W: fmt::Write>(&self, f: &mut fmt::Formatter<W>) -> fmt::Result {
        f.write_str(match self {
            Trap::NoCurrent => "NoCurrent",
            Trap::Domain => "Domain",
            Trap::Budget => "Budget",
            Trap::Output => "Output",
            Trap::Writes => "Writes",
        })
    }
}

/// How a call ends.
#[derive(Clone, Copy, Debug, PartialEq, Eq)]
pub enum End {
    /// With its outputs.
    Done,
    /// With a failure, which its procedure numbers.
    Failed(u32),
    /// Stopped in an instruction that can't be done.
    Trapped(Trap),
}
