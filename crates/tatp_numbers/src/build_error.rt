//! Why no directory is built.
ghost use Rattle.std.specs.Prelude.{◌≡◌};
ghost use Rattle.tatp_numbers.specs.declared.build_error.BuildError.TheVariants.{NoMemory};

use std::alloc::AllocFailed;
use thiserror::Error;

/// Why no directory is built. Its text is its number and its name.
#[derive(Clone, Copy, Debug, PartialEq, Eq, Error)]
pub enum BuildError {
    /// Two rows have one number.
    #[error("25 NumberTwice")]
    NumberTwice = 25,
    /// Memory ran out.
    #[error("46 NoMemory")]
    NoMemory = 46,
}

impl<T: Drop> From<AllocFailed<T>> for BuildError {
    ghost from_gives = { λ _ e. e ≡ NoMemory };

    fn from(_error: AllocFailed<T>) -> BuildError {
        BuildError::NoMemory
    }
}
