//! Why a text or bytes aren't taken as a module.
ghost use Rattle.std.specs.Prelude.{◌≡◌};
ghost use Rattle.tatp_streams.specs.declared.fault.StreamFault.TheVariants.{NoMemory};
ghost use Rattle.tatp_assembly.specs.Modules.{assembling_fault, loading_fault};
ghost use Rattle.tatp_assembly.specs.declared.fault.AssemblyFault.TheVariants.{Module, Stream};

use std::alloc::AllocError;
use tatp_asm::{AsmError, AsmFault};
use tatp_loader::{LoadError, LoadFault};
use tatp_streams::StreamFault;
use thiserror::Error;

/// Why a text or bytes aren't taken as a module, or the result isn't written. Its text is a
/// number, a name and details.
#[derive(Clone, Copy, Debug, PartialEq, Eq, Error)]
pub enum AssemblyFault {
    /// The text is no module's.
    #[error("{0}")]
    Text(AsmFault),
    /// The module, or its bytes, break a rule.
    #[error("{0}")]
    Module(LoadFault),
    /// Reading or writing ends early.
    #[error("{0}")]
    Stream(StreamFault),
}

impl From<StreamFault> for AssemblyFault {
    ghost from_gives = { λ error fault. fault ≡ Stream error };

    fn from(error: StreamFault) -> AssemblyFault {
        AssemblyFault::Stream(error)
    }
}

impl From<AllocError> for AssemblyFault {
    ghost from_gives = { λ _ fault. fault ≡ Stream NoMemory };

    fn from(_error: AllocError) -> AssemblyFault {
        AssemblyFault::Stream(StreamFault::NoMemory)
    }
}

impl From<AsmError> for AssemblyFault {
    ghost from_gives = { λ error fault. fault ≡ assembling_fault error };

    fn from(error: AsmError) -> AssemblyFault {
        match error {
            AsmError::NoMemory => AssemblyFault::Stream(StreamFault::NoMemory),
            AsmError::Fault(fault) => AssemblyFault::Text(fault),
        }
    }
}

impl From<LoadFault> for AssemblyFault {
    ghost from_gives = { λ error fault. fault ≡ Module error };

    fn from(error: LoadFault) -> AssemblyFault {
        AssemblyFault::Module(error)
    }
}

impl From<LoadError> for AssemblyFault {
    ghost from_gives = { λ error fault. fault ≡ loading_fault error };

    fn from(error: LoadError) -> AssemblyFault {
        match error {
            LoadError::NoMemory => AssemblyFault::Stream(StreamFault::NoMemory),
            LoadError::Fault(fault) => AssemblyFault::Module(fault),
        }
    }
}
