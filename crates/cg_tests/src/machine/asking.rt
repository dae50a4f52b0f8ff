//! What is asked of a machine.
use cg_command::Command;
use cg_desk::{Core, Request, SessionId};
use cg_name::{Path, Refusal};
use std::alloc::Global;

/// Asks for it in session 1. What is answered is seen by the history and the tree.
pub(crate) fn step(alloc: Global, core: &mut Core, request: Request) {
    let _ = core.step(alloc, SessionId(1), request);
}

/// Asks for the group `/a`.
pub(crate) fn create(alloc: Global, core: &mut Core) -> Result<(), Refusal> {
    let path = Path::read(alloc, "/a")?;
    step(alloc, core, Request::Do(Command::Create { path }));
    Ok(())
}
