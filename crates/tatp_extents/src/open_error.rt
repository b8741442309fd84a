//! Why rows aren't opened.
ghost use Rattle.std.specs.Prelude.{◌≡◌};
ghost use Rattle.tatp_extents.specs.declared.open_error.OpenError.TheVariants.{NoMemory};

use std::alloc::AllocError;
use tatp_audits::Verdict;
use thiserror::Error;

/// Why rows aren't opened. Its text is its number and its name, and the verdict where there is one.
#[derive(Clone, Copy, Debug, PartialEq, Eq, Error)]
pub enum OpenError {
    /// There are more subscribers than are opened.
    #[error("28 TooMany")]
    TooMany,
    /// The rows aren't clean.
    #[error("27 NotClean {0}")]
    NotClean(Verdict),
    /// Memory ran out.
    #[error("46 NoMemory")]
    NoMemory,
}

impl From<AllocError> for OpenError {
    ghost from_gives = { λ _ e. e ≡ NoMemory };

    fn from(_error: AllocError) -> OpenError {
        OpenError::NoMemory
    }
}
