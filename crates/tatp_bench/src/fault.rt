//! Why a run of the benchmark isn't settled.
ghost use Rattle.std.specs.Prelude.{◌≡◌};
ghost use Rattle.tatp_bench.specs.declared.fault.BenchFault.TheVariants.{NoMemory};
ghost use Rattle.tatp_bench.specs.SettledRuns.{gathering_fault, settling_fault};

use std::alloc::AllocError;
use tatp_settle::{GatherError, SettleError, Unsettled};
use thiserror::Error;

/// Why a run of the benchmark isn't settled. Its text is its number and its name, and the extent or
/// the cause where there is one.
#[derive(Clone, Copy, Debug, PartialEq, Eq, Error)]
pub enum BenchFault {
    /// After the run an extent is in no site and in no parcel.
    #[error("44 ExtentMissing {0}")]
    ExtentMissing(u64),
    /// What the run left isn't one history of its calls.
    #[error("45 Unsettled {0}")]
    Unsettled(Unsettled),
    /// Memory ran out.
    #[error("46 NoMemory")]
    NoMemory,
    /// A thread couldn't be started.
    #[error("57 NoThread")]
    NoThread,
}

impl From<AllocError> for BenchFault {
    ghost from_gives = { λ _ e. e ≡ NoMemory };

    fn from(_error: AllocError) -> BenchFault {
        BenchFault::NoMemory
    }
}

impl From<GatherError> for BenchFault {
    ghost from_gives = { λ error fault. fault ≡ gathering_fault error };

    fn from(error: GatherError) -> BenchFault {
        match error {
            GatherError::ExtentMissing(extent) => BenchFault::ExtentMissing(extent),
            GatherError::NoMemory => BenchFault::NoMemory,
        }
    }
}

impl From<SettleError> for BenchFault {
    ghost from_gives = { λ error fault. fault ≡ settling_fault error };

    fn from(error: SettleError) -> BenchFault {
        match error {
            SettleError::Because(cause) => BenchFault::Unsettled(cause),
            SettleError::NoMemory => BenchFault::NoMemory,
        }
    }
}
