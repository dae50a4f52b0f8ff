//! One script on one session, begun anew where another transaction is in its way.
ghost use Rattle.std.specs.Prelude.{◌≤◌, IfOk};
ghost use Rattle.cg_runner.specs.End.{CanEnd};
ghost use Rattle.cg_runner.specs.Trying.{Ran};

use crate::end::ScriptEnd;
use crate::fault::RunFault;
use crate::gate::Gate;
use crate::passage::Passage;
use crate::trying::try_script;
use cg_desk::{Desk, Session};
use cg_script::Script;
use std::alloc::Global;
use std::sync::Wait;

// Runs the script, which is begun at most `tries` times. `Disagree`, where a transaction can't be aborted.
pub(crate) fn run_script<G: Gate>(
    rt: &impl Wait,
    alloc: Global,
    mut passage: Passage<G>,
    desk: &Desk,
    session: &mut Session,
    script: &Script,
    tries: u32,
) -> Result<ScriptEnd, RunFault>
    requires { 1 ≤ tries }
    ensures can { IfOk result (CanEnd tries script.now) }
    ensures ran { IfOk result (Ran script.now session.old session.new) }
{
    for tried in 1..tries {
        passage.wait(rt);
        let end = try_script(rt, alloc, &mut passage, desk, session, script, tried)?;
        let ScriptEnd::GaveUp { .. } = end else {
            return Ok(end);
        };
    }
    passage.wait(rt);
    try_script(rt, alloc, &mut passage, desk, session, script, tries)
}
