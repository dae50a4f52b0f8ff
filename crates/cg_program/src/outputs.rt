//! The files that words name, to be written.
ghost use Rattle.std.specs.Prelude.{◌≡◌, ◌≢◌, Bool, true, IfOk, List, OnErr, OnOk, Option, ℕ};
ghost use Rattle.std.specs.Result.{IsErrOf};
ghost use Rattle.cg_program.specs.declared.outputs.CreateFault.TheVariants as faults;

use crate::inputs::Inputs;
use cg_lines::Sink;
use cg_script::ScriptFault;
use thiserror::Error;

/// Why a file was not made.
#[derive(Clone, Copy, Debug, PartialEq, Eq, Error)]
pub enum CreateFault {
    /// Memory ran out.
    #[error("memory ran out")]
    Memory,
    /// There can be no file of this name, or it may not be written.
    #[error("the file can't be made")]
    Unwritable,
}

impl From<CreateFault> for ScriptFault {
    ghost use Rattle.std.specs.Prelude.{◌≡◌};
    ghost use Rattle.cg_program.specs.Files.{of_create_fault};

    ghost from_gives = { λ given fault. fault ≡ of_create_fault given };

    fn from(fault: CreateFault) -> ScriptFault {
        match fault {
            CreateFault::Memory => ScriptFault::Memory,
            CreateFault::Unwritable => ScriptFault::WriteFault,
        }
    }
}

/// What makes the files that words name. A file is written aside, and takes its name when it is whole: nobody ever reads a part of
/// it, and what had the name before stays until then.
pub trait Outputs: Inputs {
    /// A file that is being written. It ends by `keep` or by `discard`.
    type Output: Sink;

    /// No byte, where it is known what bytes files hold.
    ghost nothing: { Option (List ℕ) };

    /// It is known that no file of a name can be made.
    ghost is_barred: { Self → List ℕ → Bool };

    /// It is known that two names are of one file.
    ghost is_same: { Self → List ℕ → List ℕ → Bool };

    /// It is known that standard input reads the file of a name.
    ghost is_read: { Self → List ℕ → Bool };

    /// Whether both names are of one file, or of links to it, that has stored bytes to lose.
    fn is_same(&self, name: &str, other: &str) -> bool
        ensures { is_same self.now name.now other.now ≡ true → result ≡ true };

    /// Whether standard input reads the file of this name, which has stored bytes to lose.
    fn is_read(&self, name: &str) -> bool
        ensures { is_read self.now name.now ≡ true → result ≡ true };

    /// A file without a byte that can take this name. What a name can't be taken from, such as a pipe or a terminal, is written in
    /// place.
    fn create_file(&self, name: &str) -> Result<Self::Output, CreateFault>
        ensures empty { IfOk result (λ output. Self.Output.taken output ≡ nothing) }
        ensures barred { is_barred self.now name.now ≡ true → IsErrOf result faults.Unwritable };

    /// The file takes the name that it was made for. Where it can't, nothing of it stays, and no file has changed.
    fn keep(&mut self, output: Self::Output, name: &str) -> Result<(), CreateFault>
        ensures kept { OnOk result (Self.file self.new name.now ≡ Self.Output.taken output) }
        ensures others { (other : List ℕ) → other ≢ name.now → Self.file self.new other ≡ Self.file self.old other }
        ensures failed { OnErr result (Self.file self.new ≡ Self.file self.old) };

    /// Nothing of the file stays.
    fn discard(&self, output: Self::Output);
}
