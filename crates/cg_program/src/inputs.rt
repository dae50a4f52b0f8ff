//! The inputs that words name: standard input, and files.
ghost use Rattle.std.specs.Prelude.{◌≡◌, Bool, true, IfOk, List, Option, ℕ};
ghost use Rattle.std.specs.Result.{IsErrOf};
ghost use Rattle.cg_program.specs.declared.inputs.OpenFault.TheVariants as faults;

use cg_lines::Source;
use cg_script::ScriptFault;
use thiserror::Error;

/// Why a file was not opened.
#[derive(Clone, Copy, Debug, PartialEq, Eq, Error)]
pub enum OpenFault {
    /// Memory ran out.
    #[error("memory ran out")]
    Memory,
    /// There is no file of this name, or it may not be read.
    #[error("the file can't be read")]
    Unreadable,
}

impl From<OpenFault> for ScriptFault {
    ghost use Rattle.std.specs.Prelude.{◌≡◌};
    ghost use Rattle.cg_program.specs.Named.{of_open_fault};

    ghost from_gives = { λ given fault. fault ≡ of_open_fault given };

    fn from(fault: OpenFault) -> ScriptFault {
        match fault {
            OpenFault::Memory => ScriptFault::Memory,
            OpenFault::Unreadable => ScriptFault::ReadFault,
        }
    }
}

/// What opens the inputs that words name.
pub trait Inputs {
    type Input: Source + Drop;

    /// The bytes of standard input, where they are known.
    ghost standard: { Self → Option (List ℕ) };

    /// The bytes of the file of a name, where they are known.
    ghost file: { Self → List ℕ → Option (List ℕ) };

    /// It is known that the file of a name can't be opened.
    ghost is_missing: { Self → List ℕ → Bool };

    /// Standard input.
    fn open_standard(&self) -> Self::Input
        ensures { Self.Input.left result ≡ standard self.now };

    /// The file of this name, as it stands.
    fn open_file(&self, name: &str) -> Result<Self::Input, OpenFault>
        ensures bytes { IfOk result (λ input. Self.Input.left input ≡ file self.now name.now) }
        ensures missing { is_missing self.now name.now ≡ true → IsErrOf result faults.Unreadable };
}
