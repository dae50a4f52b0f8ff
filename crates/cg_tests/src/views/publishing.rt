//! What tests of views ask of a machine, of its Publisher and of a Viewer.
use crate::opening::{BARE, MOST_SLOTS, world};
use cg_desk::{Core, SessionId};
use cg_name::{FileName, Path, Refusal};
use cg_script::read_line;
use cg_view::{Publisher, Told, Viewer};
use std::alloc::Global;
use std::sync::Wait;

/// A fresh machine.
pub(crate) fn machine(alloc: Global) -> Result<Core, Refusal> {
    Ok(Core::open(alloc, world(alloc, BARE)?, MOST_SLOTS)?)
}

/// Shows the world on which it was opened, with no commits.
pub(crate) fn publisher(alloc: Global) -> Result<Publisher, Refusal> {
    Ok(Publisher::new(alloc, &world(alloc, BARE)?)?)
}

/// The machine is asked for these lines, by sessions with the numbers of their letters.
pub(crate) fn ask(alloc: Global, core: &mut Core, lines: &[&str]) -> Result<(), Refusal> {
    for line in lines {
        if let Some((name, request)) = read_line(alloc, line.as_bytes())? {
            let _ = core.step(alloc, SessionId(u32::from(name.as_bytes()[0])), request);
        }
    }
    Ok(())
}

/// Commits a script of one command.
pub(crate) fn commit(alloc: Global, core: &mut Core, line: &str) -> Result<(), Refusal> {
    ask(alloc, core, &["A begin", line, "A commit"])
}

/// Commits a script of one command, and publishes it.
pub(crate) fn publish(
    rt: &impl Wait,
    alloc: Global,
    publisher: &mut Publisher,
    core: &mut Core,
    line: &str,
) -> Result<Told, Refusal> {
    commit(alloc, core, line)?;
    publisher.publish(rt, alloc, core)
}

/// What the Viewer reads there.
pub(crate) fn text(
    alloc: Global,
    viewer: &mut Viewer,
    path: &str,
    name: FileName,
) -> Result<Vec<u8>, Refusal> {
    let path = Path::read(alloc, path)?;
    viewer.read(alloc, &path, name)
}

/// Why the Viewer reads no list of the group's processes, where it reads none.
pub(crate) fn refusal(alloc: Global, viewer: &mut Viewer, path: &str) -> Option<Refusal> {
    text(alloc, viewer, path, FileName::Procs).err()
}
