//! An example: a desk that two threads use.
use crate::replaying::text_of;
use cg_command_text::read_command;
use cg_desk::{Answer, CloseFault, Core, Desk, Refusal, Session, World};
use cg_world_text::ReadWorld;
use std::alloc::Global;
use std::sync::Wait;
use std::thread;
use std::thread::Threads;

// Makes a group in a transaction of its own, which is aborted where that is refused.
fn make_group(
    rt: &impl Wait,
    alloc: Global,
    desk: &Desk,
    session: &mut Session,
    path: &str,
) -> Result<(), Refusal> {
    let create = read_command(alloc, &["create", path])?;
    let mut transaction = session.begin(rt, alloc, desk)?;
    if let Answer::Refused(refusal) = transaction.run(rt, alloc, create) {
        transaction.abort(rt);
        return Err(refusal);
    }
    transaction.commit(rt);
    Ok(())
}

// The text of the tree of a desk that was closed.
fn tree_of(alloc: Global, closed: Result<Core, CloseFault>) -> Result<Vec<u8>, Refusal> {
    let core = closed.map_err(|fault| fault.refusal)?;
    let text = text_of(alloc, &core);
    drop(core);
    Ok(text?)
}

// Two threads make a group each in the tree of a world; the text of the tree then.
fn two_threads<R: Threads + Wait + Sync>(
    rt: &R,
    alloc: Global,
    world: &str,
) -> Result<Vec<u8>, Refusal> {
    let desk = Desk::open(alloc, World::read(alloc, world.as_bytes())?, 64)?;
    let mut first = desk.session(rt, alloc)?;
    let mut second = desk.session(rt, alloc)?;
    let (on_a, on_b) = thread::join(
        rt,
        || make_group(rt, alloc, &desk, &mut first, "/a"),
        || make_group(rt, alloc, &desk, &mut second, "/b"),
    );
    on_a.and(on_b)?;
    tree_of(alloc, desk.close(alloc, vec![in alloc; first, second]?))
}

const BEFORE: &str = "world 1
controllers cpu
online 0-3
group / - 0 -
proc 10 /
end
";

const AFTER: &str = "world 1
controllers cpu
online 0-3
group / - 0 -
group /a - 0 -
group /b - 0 -
proc 10 /
end
";

#[test]
fn two_threads_make_a_group_each(rt: HostRuntime) {
    let text = two_threads(&rt, rt.alloc(), BEFORE);
    assert!(rt; matches!(&text, Ok(text) if text.as_slice() == AFTER.as_bytes()));
}
