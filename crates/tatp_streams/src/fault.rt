//! Why reading or writing ends early.
ghost use Rattle.std.specs.Prelude.{◌≡◌};
ghost use Rattle.tatp_streams.specs.declared.fault.StreamFault.TheVariants.{NoMemory};

use std::alloc::{AllocError, AllocFailed};
use thiserror::Error;

/// Why reading or writing ends early. Its text is its number and its name.
#[derive(Clone, Copy, Debug, PartialEq, Eq, Error)]
pub enum StreamFault {
    /// Memory ran out.
    #[error("46 NoMemory")]
    NoMemory,
    /// The input could not be read, or is longer than the limit.
    #[error("47 ReadFault")]
    ReadFault,
    /// The output could not be written.
    #[error("52 WriteFault")]
    WriteFault,
}

impl From<AllocError> for StreamFault {
    ghost from_gives = { λ _ fault. fault ≡ NoMemory };

    fn from(_error: AllocError) -> StreamFault {
        StreamFault::NoMemory
    }
}

impl<T: Drop> From<AllocFailed<T>> for StreamFault {
    ghost from_gives = { λ _ fault. fault ≡ NoMemory };

    fn from(_error: AllocFailed<T>) -> StreamFault {
        StreamFault::NoMemory
    }
}
