//! What is wrong with an assembly text.
ghost use Rattle.std.specs.Prelude.{◌≡◌};
ghost use Rattle.tatp_asm.specs.declared.fault.AsmError.TheVariants.{NoMemory, Fault};

use std::alloc::{AllocError, AllocFailed};
use thiserror::Error;

/// What is wrong with a line. Its text is its number and its name.
#[derive(Clone, Copy, Debug, PartialEq, Eq, Error)]
pub enum AsmFaultKind {
    /// The line is of no form, or is where it may not be.
    #[error("9 Syntax")]
    Syntax = 9,
    /// The procedure doesn't have the label that the line names.
    #[error("10 NoSuchLabel")]
    NoSuchLabel = 10,
    /// An earlier line of the procedure is the same label.
    #[error("11 LabelTwice")]
    LabelTwice = 11,
    /// More than `MAX_PROCEDURES` procedures, or more than `MAX_INSTRUCTIONS` instructions in one.
    #[error("12 TooLong")]
    TooLong = 12,
}

/// A fault and the line that has it, counted from 1.
#[derive(Clone, Copy, Debug, PartialEq, Eq, Error)]
#[error("{kind} {line}")]
pub struct AsmFault {
    pub kind: AsmFaultKind,
    pub line: u64,
}

/// Why a text is not assembled.
#[derive(Clone, Copy, Debug, PartialEq, Eq, Error)]
pub enum AsmError {
    /// Memory ran out.
    #[error("46 NoMemory")]
    NoMemory,
    /// The text is no module's.
    #[error("{0}")]
    Fault(AsmFault),
}

impl From<AsmFault> for AsmError {
    ghost from_gives = { λ fault e. e ≡ Fault fault };

    fn from(fault: AsmFault) -> AsmError {
        AsmError::Fault(fault)
    }
}

impl From<AllocError> for AsmError {
    ghost from_gives = { λ _ e. e ≡ NoMemory };

    fn from(_error: AllocError) -> AsmError {
        AsmError::NoMemory
    }
}

impl<T: Drop> From<AllocFailed<T>> for AsmError {
    ghost from_gives = { λ _ e. e ≡ NoMemory };

    fn from(_error: AllocFailed<T>) -> AsmError {
        AsmError::NoMemory
    }
}
