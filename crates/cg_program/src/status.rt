//! How a run ended.
ghost use Rattle.std.specs.Prelude.{◌≡◌};
ghost use Rattle.cg_program.specs.Program.{status_of};
ghost use Rattle.cg_program.specs.Status.{code_of};

use cg_script::ScriptFault;

/// How a run ended.
#[derive(Clone, Copy, Debug, PartialEq, Eq)]
pub enum Status {
    /// What was asked for is done.
    Done,
    /// What was asked for can't be done: a text isn't in its grammar, the command line among them, or there is no such
    /// group or file.
    Refused,
    /// Memory, a source or the sink failed.
    Failed,
}

impl Status {
    /// The exit status: 0, 2 or 3.
    pub fn code(self) -> u8
        ensures { result ≡ code_of self }
    {
        match self {
            Status::Done => 0,
            Status::Refused => 2,
            Status::Failed => 3,
        }
    }

    // That of a run that stopped.
    pub(crate) fn of_fault(fault: ScriptFault) -> Status
        ensures { code_of result ≡ status_of fault }
    {
        match fault {
            ScriptFault::Syntax => Status::Refused,
            ScriptFault::Memory | ScriptFault::ReadFault | ScriptFault::WriteFault => {
                Status::Failed
            }
        }
    }
}
