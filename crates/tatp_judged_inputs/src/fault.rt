//! Why no verdict is given.
ghost use Rattle.std.specs.Prelude.{◌≡◌};
ghost use Rattle.tatp_streams.specs.declared.fault.StreamFault.TheVariants.{NoMemory};
ghost use Rattle.tatp_judged_inputs.specs.declared.fault.JudgeFault.TheVariants.{Stream, Unopened};
ghost use Rattle.tatp_judged_inputs.specs.Judging.{input_fault, history_fault};

use crate::HistoryFault;
use std::alloc::AllocError;
use tatp_calls::BadArgument;
use tatp_extents::OpenError;
use tatp_inputs::InputFault;
use tatp_streams::StreamFault;
use thiserror::Error;

/// Why no verdict is given. Its text is a number, a name and details.
#[derive(Clone, Copy, Debug, PartialEq, Eq, Error)]
pub enum JudgeFault {
    /// The line with this number, counted from 1, is no row, or no line of a history; or it is the
    /// first after the last and the line `.` is missing.
    #[error("5 BadLine {0}")]
    BadLine(u64),
    /// In the line with this number an argument is outside its domain.
    #[error("26 BadArgument {0} {argument}", argument = .1.0)]
    BadArgument(u64, BadArgument),
    /// A history can't begin with these rows.
    #[error("{0}")]
    Unopened(OpenError),
    /// Reading or writing ends early.
    #[error("{0}")]
    Stream(StreamFault),
}

impl From<InputFault> for JudgeFault {
    ghost from_gives = { λ error fault. fault ≡ input_fault error };

    fn from(error: InputFault) -> JudgeFault {
        match error {
            InputFault::BadLine(number) => JudgeFault::BadLine(number),
            InputFault::Stream(fault) => JudgeFault::Stream(fault),
        }
    }
}

impl From<HistoryFault> for JudgeFault {
    ghost from_gives = { λ error fault. fault ≡ history_fault error };

    fn from(error: HistoryFault) -> JudgeFault {
        match error {
            HistoryFault::BadLine(number) => JudgeFault::BadLine(number),
            HistoryFault::BadArgument(number, bad) => JudgeFault::BadArgument(number, bad),
            HistoryFault::Stream(fault) => JudgeFault::Stream(fault),
        }
    }
}

impl From<OpenError> for JudgeFault {
    ghost from_gives = { λ error fault. fault ≡ Unopened error };

    fn from(error: OpenError) -> JudgeFault {
        JudgeFault::Unopened(error)
    }
}

impl From<StreamFault> for JudgeFault {
    ghost from_gives = { λ error fault. fault ≡ Stream error };

    fn from(error: StreamFault) -> JudgeFault {
        JudgeFault::Stream(error)
    }
}

impl From<AllocError> for JudgeFault {
    ghost from_gives = { λ _ fault. fault ≡ Stream NoMemory };

    fn from(_error: AllocError) -> JudgeFault {
        JudgeFault::Stream(StreamFault::NoMemory)
    }
}
