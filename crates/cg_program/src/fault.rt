//! Why a file is not shown.
ghost use Rattle.std.specs.Prelude.{◌≡◌};
ghost use Rattle.cg_program.specs.Fault.{refusal_of_fault};
ghost use Rattle.cg_program.specs.Program.{WritesUnlessFailed};
ghost use Rattle.cg_program.specs.Status.{code_of, refusal_line, status_where};
ghost use Rattle.cg_program.specs.declared.fault.ShowFault.TheVariants.{Stopped};
ghost use Rattle.cg_script.specs.declared.fault.ScriptFault.TheVariants.{Memory};

use crate::replaying::stop;
use crate::status::Status;
use cg_lines::{Sink, write_all};
use cg_script::ScriptFault;
use std::alloc::AllocError;

/// Why a file is not shown.
#[derive(Clone, Copy)]
pub enum ShowFault {
    /// A replay may stop at it, too.
    Stopped(ScriptFault),
    /// The world has no such group.
    NoGroup,
    /// The group has no such file.
    NoFile,
}

impl From<ScriptFault> for ShowFault {
    ghost from_gives = { λ fault e. e ≡ Stopped fault };

    fn from(fault: ScriptFault) -> ShowFault {
        ShowFault::Stopped(fault)
    }
}

impl From<AllocError> for ShowFault {
    ghost from_gives = { λ _ e. e ≡ Stopped Memory };

    fn from(_: AllocError) -> ShowFault {
        ShowFault::Stopped(ScriptFault::Memory)
    }
}

impl ShowFault {
    /// Tells it on a line of its own, and gives the status. It takes no memory.
    pub fn tell<E: Sink>(self, err: &mut E) -> u8
        ensures status { result ≡ status_where (refusal_of_fault self) }
        ensures line { WritesUnlessFailed (E.taken err.old) (E.taken err.new) (E.failed err.old) (E.failed err.new) (refusal_line (refusal_of_fault self)) }
    {
        match self {
            ShowFault::Stopped(fault) => stop(fault, err),
            ShowFault::NoGroup => tell_as(Status::Refused, b"refused 6 nogroup\n", err),
            ShowFault::NoFile => tell_as(Status::Refused, b"refused 15 nofile\n", err),
        }
    }
}

/// Tells on this line why a run ends with this status, and gives the status. It takes no memory.
pub fn tell_as<E: Sink>(status: Status, line: &[u8], err: &mut E) -> u8
    ensures status { result ≡ code_of status }
    ensures line { WritesUnlessFailed (E.taken err.old) (E.taken err.new) (E.failed err.old) (E.failed err.new) line.now }
{
    let _ = write_all(err, line);
    status.code()
}
