//! Why a run of scripts as a whole is refused.
ghost use Rattle.std.specs.Prelude.{◌≡◌};
ghost use Rattle.cg_program.specs.Program.{WritesUnlessFailed};
ghost use Rattle.cg_program.specs.Status.{refusal_line, status_where};
ghost use Rattle.cg_batch.specs.Fault.{of_run_fault, refusal_of_fault};
ghost use Rattle.cg_batch.specs.declared.fault.BatchFault.TheVariants.{Stopped};

use cg_lines::Sink;
use cg_program::{Status, stop, tell_as};
use cg_runner::RunFault;
use cg_script::ScriptFault;

// Why a run of scripts as a whole is refused.
#[derive(Clone, Copy)]
pub(crate) enum BatchFault {
    // A replay may stop at it, too.
    Stopped(ScriptFault),
    // The results, the sessions and the history of scripts disagree.
    Disagree,
}

impl From<ScriptFault> for BatchFault {
    ghost from_gives = { λ fault e. e ≡ Stopped fault };

    fn from(fault: ScriptFault) -> BatchFault {
        BatchFault::Stopped(fault)
    }
}

impl From<RunFault> for BatchFault {
    ghost from_gives = { λ fault e. e ≡ of_run_fault fault };

    fn from(fault: RunFault) -> BatchFault {
        match fault {
            RunFault::Memory => BatchFault::Stopped(ScriptFault::Memory),
            RunFault::Disagree => BatchFault::Disagree,
        }
    }
}

impl BatchFault {
    // Tells it on a line of its own, and gives the status.
    pub(crate) fn tell<E: Sink>(self, err: &mut E) -> u8
        ensures status { result ≡ status_where (refusal_of_fault self) }
        ensures line { WritesUnlessFailed (E.taken err.old) (E.taken err.new) (E.failed err.old) (E.failed err.new) (refusal_line (refusal_of_fault self)) }
    {
        match self {
            BatchFault::Stopped(fault) => stop(fault, err),
            BatchFault::Disagree => tell_as(Status::Failed, b"refused 21 disagree\n", err),
        }
    }
}
