//! The text of a history, and what it is answered when it is played again.
use crate::machine::asking::{create, step};
use crate::opening::{SMALL, world};
use cg_desk::{Core, Request};
use cg_lines::{FromRead, FromWrite, LineReader};
use cg_name::Refusal;
use cg_replay::replay;
use cg_script::write_history;
use std::alloc::Global;

// Asks for two transactions that make the group `/a`, of which the first one commits.
fn ask(alloc: Global, core: &mut Core) -> Result<(), Refusal> {
    step(alloc, core, Request::Begin);
    create(alloc, core)?;
    step(alloc, core, Request::Commit);
    step(alloc, core, Request::Begin);
    create(alloc, core)?;
    step(alloc, core, Request::Abort);
    Ok(())
}

// Appends the text of the history of these two transactions.
fn write_asked(alloc: Global, out: &mut Vec<u8>) -> Result<(), Refusal> {
    let mut core = Core::open(alloc, world(alloc, SMALL)?, 16)?;
    ask(alloc, &mut core)?;
    write_history(core.history(), out)?;
    Ok(())
}

const HISTORY: &str = "s1 begin
# begun 1
s1 create /a
# done
s1 commit
# committed 1
s1 begin
# begun 2
s1 create /a
# refused 7 exists
s1 abort
# aborted 2
";

#[test]
fn a_history_is_written(rt: HostRuntime) {
    let mut out = Vec::new(rt.alloc());
    assert!(rt; write_asked(rt.alloc(), &mut out) == Ok(()));
    assert!(rt; out.as_slice() == HISTORY.as_bytes());
}

// Appends what the text is answered as a schedule over that world.
fn write_replayed(alloc: Global, out: &mut Vec<u8>) -> Option<()> {
    let world = world(alloc, SMALL).ok()?;
    let source = FromRead::new(HISTORY.as_bytes());
    let mut reader = LineReader::new(alloc, source).ok()?;
    let mut sink = FromWrite::new(out);
    replay(alloc, &mut reader, &mut sink, world, 16).ok()?;
    Some(())
}

const ANSWERS: &str = "begun 1
done
committed 1
begun 2
refused 7 exists
aborted 2
world 1
controllers cpu
online 0
group / - 0 -
group /a - 0 -
proc 10 /
end
";

#[test]
fn a_history_is_answered_the_same_again(rt: HostRuntime) {
    let mut out = Vec::new(rt.alloc());
    assert!(rt; write_replayed(rt.alloc(), &mut out) == Some(()));
    assert!(rt; out.as_slice() == ANSWERS.as_bytes());
}
