//! Why a run ends before all lines are answered.
ghost use Rattle.std.specs.Prelude.{◌≡◌};
ghost use Rattle.tatp_streams.specs.declared.fault.StreamFault.TheVariants.{NoMemory};
ghost use Rattle.tatp_inputs.specs.declared.fault.InputFault.TheVariants.{Stream};
ghost use Rattle.tatp_console.specs.declared.fault.ConsoleFault.TheVariants.{Input, Unopened};
ghost use Rattle.tatp_console.specs.Brought.{module_fault};

use std::alloc::AllocError;
use tatp_asm::AsmFault;
use tatp_assembly::AssemblyFault;
use tatp_extents::OpenError;
use tatp_inputs::InputFault;
use tatp_loader::LoadFault;
use tatp_streams::StreamFault;
use thiserror::Error;

/// Why a run ends before all lines are answered. Its text is a number, a name and details.
#[derive(Clone, Copy, Debug, PartialEq, Eq, Error)]
pub enum ConsoleFault {
    /// The text of the procedures isn't that of a module.
    #[error("{0}")]
    Text(AsmFault),
    /// The module of that text breaks a rule.
    #[error("{0}")]
    Module(LoadFault),
    /// The input can't be taken, or an answer can't be made or written.
    #[error("{0}")]
    Input(InputFault),
    /// The rows can't be opened.
    #[error("{0}")]
    Unopened(OpenError),
}

impl From<AssemblyFault> for ConsoleFault {
    ghost from_gives = { λ error fault. fault ≡ module_fault error };

    fn from(error: AssemblyFault) -> ConsoleFault {
        match error {
            AssemblyFault::Text(fault) => ConsoleFault::Text(fault),
            AssemblyFault::Module(fault) => ConsoleFault::Module(fault),
            AssemblyFault::Stream(fault) => ConsoleFault::Input(InputFault::Stream(fault)),
        }
    }
}

impl From<InputFault> for ConsoleFault {
    ghost from_gives = { λ error fault. fault ≡ Input error };

    fn from(error: InputFault) -> ConsoleFault {
        ConsoleFault::Input(error)
    }
}

impl From<StreamFault> for ConsoleFault {
    ghost from_gives = { λ error fault. fault ≡ Input (Stream error) };

    fn from(error: StreamFault) -> ConsoleFault {
        ConsoleFault::Input(InputFault::Stream(error))
    }
}

impl From<AllocError> for ConsoleFault {
    ghost from_gives = { λ _ fault. fault ≡ Input (Stream NoMemory) };

    fn from(_error: AllocError) -> ConsoleFault {
        ConsoleFault::Input(InputFault::Stream(StreamFault::NoMemory))
    }
}

impl From<OpenError> for ConsoleFault {
    ghost from_gives = { λ error fault. fault ≡ Unopened error };

    fn from(error: OpenError) -> ConsoleFault {
        ConsoleFault::Unopened(error)
    }
}
