//! Why an input isn't taken.
ghost use Rattle.std.specs.Prelude.{◌≡◌};
ghost use Rattle.tatp_inputs.specs.declared.fault.InputFault.TheVariants.{Stream};
ghost use Rattle.tatp_streams.specs.declared.fault.StreamFault.TheVariants.{NoMemory};

use std::alloc::{AllocError, AllocFailed};
use tatp_streams::StreamFault;
use thiserror::Error;

/// Why an input isn't taken, or the answer to it isn't written. Its text is a number, a name and
/// details.
#[derive(Clone, Copy, Debug, PartialEq, Eq, Error)]
pub enum InputFault {
    /// The line with this number, counted from 1, is no row; or the line `.` is missing, and would
    /// have this number.
    #[error("5 BadLine {0}")]
    BadLine(u64),
    /// Reading or writing ends early.
    #[error("{0}")]
    Stream(StreamFault),
}

impl From<StreamFault> for InputFault {
    ghost from_gives = { λ error fault. fault ≡ Stream error };

    fn from(error: StreamFault) -> InputFault {
        InputFault::Stream(error)
    }
}

impl From<AllocError> for InputFault {
    ghost from_gives = { λ _ fault. fault ≡ Stream NoMemory };

    fn from(_error: AllocError) -> InputFault {
        InputFault::Stream(StreamFault::NoMemory)
    }
}

impl<T: Drop> From<AllocFailed<T>> for InputFault {
    ghost from_gives = { λ _ fault. fault ≡ Stream NoMemory };

    fn from(_error: AllocFailed<T>) -> InputFault {
        InputFault::Stream(StreamFault::NoMemory)
    }
}
