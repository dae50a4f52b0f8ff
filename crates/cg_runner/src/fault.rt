//! Why a run has no report.
ghost use Rattle.std.specs.Prelude.{◌≡◌};
ghost use Rattle.cg_runner.specs.declared.fault.RunFault.TheVariants.{Memory};

use std::alloc::{AllocError, AllocFailed};
use thiserror::Error;

/// Why a run of scripts has no report.
#[derive(Clone, Copy, Debug, PartialEq, Eq, Error)]
pub enum RunFault {
    /// Memory ran out, and not in a call of a script.
    #[error("memory ran out")]
    Memory,
    /// A script's result is missing or came twice, or the sessions and the history disagree.
    #[error("results, sessions and history disagree")]
    Disagree,
}

impl From<AllocError> for RunFault {
    ghost from_gives = { λ _ fault. fault ≡ Memory };

    fn from(_: AllocError) -> RunFault {
        RunFault::Memory
    }
}

impl<T: Drop> From<AllocFailed<T>> for RunFault {
    ghost from_gives = { λ _ fault. fault ≡ Memory };

    fn from(_: AllocFailed<T>) -> RunFault {
        RunFault::Memory
    }
}
