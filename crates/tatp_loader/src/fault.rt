//! What is wrong with a module, or with the bytes of one.
ghost use Rattle.std.specs.Prelude.{◌≡◌};
ghost use Rattle.tatp_loader.specs.Rules.{fault};
ghost use Rattle.tatp_loader.specs.declared.fault.LoadError.TheVariants.{NoMemory, Fault};

use std::alloc::{AllocError, AllocFailed};
use thiserror::Error;

/// Which test a module, or the bytes of one, failed. Its text is its number and its name.
#[derive(Clone, Copy, Debug, PartialEq, Eq, Error)]
pub enum LoadFaultKind {
    /// There is no such op.
    #[error("6 BadOp")]
    BadOp = 6,
    /// A byte that the op has no use for is not 0.
    #[error("7 UnusedNotZero")]
    UnusedNotZero = 7,
    /// A register operand is outside its range.
    #[error("8 BadRegister")]
    BadRegister = 8,
    /// The bytes end before a field is whole.
    #[error("13 Truncated")]
    Truncated = 13,
    /// The first four bytes are others.
    #[error("14 BadMagic")]
    BadMagic = 14,
    /// Bytes follow the last instruction.
    #[error("15 Extra")]
    Extra = 15,
    /// An earlier procedure has the name.
    #[error("16 NameTwice")]
    NameTwice = 16,
    /// A count, a name's length or byte, an arity or a procedure's length is out of range.
    #[error("17 BadHeader")]
    BadHeader = 17,
    /// A JMP or JZ doesn't go to a later instruction.
    #[error("18 BackwardJump")]
    BackwardJump = 18,
    /// A jump leads past the last instruction.
    #[error("19 BadTarget")]
    BadTarget = 19,
    /// There is no such column, or it is set and is fixed.
    #[error("20 FixedColumn")]
    FixedColumn = 20,
    /// The procedure takes no such argument.
    #[error("21 NoSuchArgument")]
    NoSuchArgument = 21,
    /// One OUT too many in a procedure, in version 1.
    #[error("22 TooManyOut")]
    TooManyOut = 22,
    /// One of PUT, INS and DEL too many in a procedure, in version 1.
    #[error("23 TooManyWrites")]
    TooManyWrites = 23,
    /// The last instruction is neither DONE nor FAIL.
    #[error("24 NoEnd")]
    NoEnd = 24,
    /// A LOOP goes to a later instruction.
    #[error("53 ForwardLoop")]
    ForwardLoop = 53,
}

/// A fault and its place: the procedure and the instruction in it, both counted from 0.
#[derive(Clone, Copy, Debug, PartialEq, Eq, Error)]
#[error("{kind} {procedure} {instruction}")]
pub struct LoadFault {
    pub kind: LoadFaultKind,
    pub procedure: usize,
    pub instruction: usize,
}

/// A fault of the procedure n, at the instruction i.
pub(crate) fn fault(kind: LoadFaultKind, n: usize, i: usize) -> LoadFault
    ensures { result ≡ fault kind n i }
{
    LoadFault {
        kind,
        procedure: n,
        instruction: i,
    }
}

/// Why bytes are not loaded.
#[derive(Clone, Copy, Debug, PartialEq, Eq, Error)]
pub enum LoadError {
    /// Memory ran out.
    #[error("46 NoMemory")]
    NoMemory,
    /// The bytes are no module that may run.
    #[error("{0}")]
    Fault(LoadFault),
}

impl From<LoadFault> for LoadError {
    ghost from_gives = { λ fault e. e ≡ Fault fault };

    fn from(fault: LoadFault) -> LoadError {
        LoadError::Fault(fault)
    }
}

impl From<AllocError> for LoadError {
    ghost from_gives = { λ _ e. e ≡ NoMemory };

    fn from(_error: AllocError) -> LoadError {
        LoadError::NoMemory
    }
}

impl<T: Drop> From<AllocFailed<T>> for LoadError {
    ghost from_gives = { λ _ e. e ≡ NoMemory };

    fn from(_error: AllocFailed<T>) -> LoadError {
        LoadError::NoMemory
    }
}
