//! Why a schedule was not played to its end.
ghost use Rattle.std.specs.Prelude.{◌≡◌};
ghost use Rattle.cg_script.specs.Fault.{refusal_of};

use cg_lines::{DeviceFault, LineFault};
use cg_name::Refusal;
use std::alloc::{AllocError, AllocFailed};
use thiserror::Error;

/// Why a text was not read or written to its end.
#[derive(Clone, Copy, Debug, PartialEq, Eq, Error)]
pub enum ScriptFault {
    /// The text isn't in its grammar.
    #[error("the text is not in its grammar")]
    Syntax,
    /// Memory ran out.
    #[error("memory ran out")]
    Memory,
    /// The source failed.
    #[error("the reader failed")]
    ReadFault,
    /// The sink failed.
    #[error("the writer failed")]
    WriteFault,
}

impl From<AllocError> for ScriptFault {
    ghost use Rattle.std.specs.Prelude.{◌≡◌};
    ghost use Rattle.cg_script.specs.declared.fault.ScriptFault.TheVariants.{Memory};

    ghost from_gives = { λ _ fault. fault ≡ Memory };

    fn from(_: AllocError) -> ScriptFault {
        ScriptFault::Memory
    }
}

impl<T: Drop> From<AllocFailed<T>> for ScriptFault {
    ghost use Rattle.std.specs.Prelude.{◌≡◌};
    ghost use Rattle.cg_script.specs.declared.fault.ScriptFault.TheVariants.{Memory};

    ghost from_gives = { λ _ fault. fault ≡ Memory };

    fn from(_: AllocFailed<T>) -> ScriptFault {
        ScriptFault::Memory
    }
}

impl From<LineFault> for ScriptFault {
    ghost use Rattle.std.specs.Prelude.{◌≡◌};
    ghost use Rattle.cg_script.specs.Fault.{of_line_fault};

    ghost from_gives = { λ given fault. fault ≡ of_line_fault given };

    fn from(fault: LineFault) -> ScriptFault {
        match fault {
            LineFault::Memory => ScriptFault::Memory,
            LineFault::Read => ScriptFault::ReadFault,
        }
    }
}

// A source's faults come as those of its lines, so a device's own is its sink's.
impl From<DeviceFault> for ScriptFault {
    ghost use Rattle.std.specs.Prelude.{◌≡◌};
    ghost use Rattle.cg_script.specs.declared.fault.ScriptFault.TheVariants.{WriteFault};

    ghost from_gives = { λ _ fault. fault ≡ WriteFault };

    fn from(_: DeviceFault) -> ScriptFault {
        ScriptFault::WriteFault
    }
}

impl ScriptFault {
    /// The refusal that says so.
    pub fn refusal(self) -> Refusal
        ensures { result ≡ refusal_of self }
    {
        match self {
            ScriptFault::Syntax => Refusal::Syntax,
            ScriptFault::Memory => Refusal::Memory,
            ScriptFault::ReadFault => Refusal::ReadFault,
            ScriptFault::WriteFault => Refusal::WriteFault,
        }
    }
}
