//! Why a search stops.
ghost use Rattle.std.specs.Prelude.{◌≡◌};
ghost use Rattle.tatp_linearization.specs.declared.stopped.Stopped.TheVariants.{NoMemory};

use std::alloc::{AllocError, AllocFailed};

/// Why a search stops before its end.
#[derive(Clone, Copy, Debug, PartialEq, Eq)]
pub(crate) enum Stopped {
    /// Memory was refused.
    NoMemory,
    /// More configurations would have to be kept than `most`.
    MoreThanMost,
}

impl From<AllocError> for Stopped {
    ghost from_gives = { λ _ e. e ≡ NoMemory };

    fn from(_error: AllocError) -> Stopped {
        Stopped::NoMemory
    }
}

impl<T: Drop> From<AllocFailed<T>> for Stopped {
    ghost from_gives = { λ _ e. e ≡ NoMemory };

    fn from(_error: AllocFailed<T>) -> Stopped {
        Stopped::NoMemory
    }
}
