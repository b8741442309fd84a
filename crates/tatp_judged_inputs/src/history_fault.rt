//! Why an input is no history.
ghost use Rattle.std.specs.Prelude.{◌≡◌};
ghost use Rattle.tatp_streams.specs.declared.fault.StreamFault.TheVariants.{NoMemory};
ghost use Rattle.tatp_judged_inputs.specs.declared.history_fault.HistoryFault.TheVariants.{Stream};

use std::alloc::{AllocError, AllocFailed};
use tatp_calls::BadArgument;
use tatp_streams::StreamFault;

/// Why an input is no history.
#[derive(Clone, Copy, Debug, PartialEq, Eq)]
pub enum HistoryFault {
    /// The line with this number, counted from 1, is none.
    BadLine(u64),
    /// In the line with this number an argument is outside its domain.
    BadArgument(u64, BadArgument),
    /// Reading ends early.
    Stream(StreamFault),
}

impl From<StreamFault> for HistoryFault {
    ghost from_gives = { λ error fault. fault ≡ Stream error };

    fn from(error: StreamFault) -> HistoryFault {
        HistoryFault::Stream(error)
    }
}

impl From<AllocError> for HistoryFault {
    ghost from_gives = { λ _ fault. fault ≡ Stream NoMemory };

    fn from(_error: AllocError) -> HistoryFault {
        HistoryFault::Stream(StreamFault::NoMemory)
    }
}

impl<T: Drop> From<AllocFailed<T>> for HistoryFault {
    ghost from_gives = { λ _ fault. fault ≡ Stream NoMemory };

    fn from(_error: AllocFailed<T>) -> HistoryFault {
        HistoryFault::Stream(StreamFault::NoMemory)
    }
}
