//! Why there is no report of a run of the benchmark.
ghost use Rattle.std.specs.Prelude.{◌≡◌};
ghost use Rattle.tatp_streams.specs.declared.fault.StreamFault.TheVariants.{NoMemory};
ghost use Rattle.tatp_bench.specs.declared.report_fault.ReportFault.TheVariants.{Bench, Stream};

use crate::BenchFault;
use std::alloc::AllocError;
use tatp_streams::StreamFault;
use thiserror::Error;

/// Why there is no report of a run of the benchmark. Its text is a number, a name and details.
#[derive(Clone, Copy, Debug, PartialEq, Eq, Error)]
pub enum ReportFault {
    /// The run isn't settled.
    #[error("{0}")]
    Bench(BenchFault),
    /// The report isn't written.
    #[error("{0}")]
    Stream(StreamFault),
}

impl From<BenchFault> for ReportFault {
    ghost from_gives = { λ error fault. fault ≡ Bench error };

    fn from(error: BenchFault) -> ReportFault {
        ReportFault::Bench(error)
    }
}

impl From<StreamFault> for ReportFault {
    ghost from_gives = { λ error fault. fault ≡ Stream error };

    fn from(error: StreamFault) -> ReportFault {
        ReportFault::Stream(error)
    }
}

impl From<AllocError> for ReportFault {
    ghost from_gives = { λ _ fault. fault ≡ Stream NoMemory };

    fn from(_error: AllocError) -> ReportFault {
        ReportFault::Stream(StreamFault::NoMemory)
    }
}
