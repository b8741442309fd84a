//! Why the calls of a run are refused.
ghost use Rattle.std.specs.Prelude.{◌≡◌};
ghost use Rattle.tatp_threads.specs.declared.refusal.RunRefusal.TheVariants.{NoMemory};

use std::alloc::AllocError;
use tatp_audits::Verdict;
use tatp_calls::BadArgument;
use thiserror::Error;

/// Why the calls of a run are refused. The text is the number and the name of the refusal, and the
/// details where there are any.
#[derive(Clone, Copy, Debug, PartialEq, Eq, Error)]
pub enum RunRefusal {
    /// There are more subscribers than are opened.
    #[error("28 TooMany")]
    TooMany,
    /// The rows aren't clean: this is the verdict on them.
    #[error("27 NotClean {0}")]
    NotClean(Verdict),
    /// The module has no such procedure with the call's number of arguments.
    #[error("48 NoProcedure")]
    NoProcedure,
    /// An argument is outside its domain.
    #[error("{0}")]
    BadArgument(BadArgument),
    /// Memory ran out.
    #[error("46 NoMemory")]
    NoMemory,
    /// A thread couldn't be started.
    #[error("57 NoThread")]
    NoThread,
}

impl From<AllocError> for RunRefusal {
    ghost from_gives = { λ _ e. e ≡ NoMemory };

    fn from(_error: AllocError) -> RunRefusal {
        RunRefusal::NoMemory
    }
}
