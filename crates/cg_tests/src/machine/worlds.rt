//! The worlds that a machine gives: of its tree, and the one that it was opened on.
use crate::machine::asking::{create, step};
use crate::opening::{SMALL, world};
use cg_desk::{Core, Request};
use cg_name::Refusal;
use cg_world_text::WriteWorld;
use std::alloc::{AllocError, Global};

// Makes the group `/a` in a transaction.
fn make_a(alloc: Global, core: &mut Core) -> Result<(), Refusal> {
    step(alloc, core, Request::Begin);
    create(alloc, core)
}

// A machine on that world, on which the group `/a` was made.
fn with_a(alloc: Global) -> Result<Core, Refusal> {
    let mut core = Core::open(alloc, world(alloc, SMALL)?, 8)?;
    make_a(alloc, &mut core)?;
    Ok(core)
}

// Appends the text of the world that equals the machine's tree.
fn write_world(alloc: Global, core: &Core, out: &mut Vec<u8>) -> Result<(), AllocError> {
    core.tree().to_world(alloc)?.write(out)
}

// Appends that, and the text of the world that the machine was opened on.
fn write_worlds(alloc: Global, out: &mut Vec<u8>) -> Result<(), Refusal> {
    let core = with_a(alloc)?;
    write_world(alloc, &core, out)?;
    core.opening().write(out)?;
    Ok(())
}

const WORLDS: &str = "world 1
controllers cpu
online 0
group / - 0 -
group /a - 0 -
proc 10 /
end
world 1
controllers cpu
online 0
group / - 0 -
proc 10 /
end
";

#[test]
fn a_machine_keeps_the_world_that_it_was_opened_on(rt: HostRuntime) {
    let mut out = Vec::new(rt.alloc());
    assert!(rt; write_worlds(rt.alloc(), &mut out) == Ok(()));
    assert!(rt; out.as_slice() == WORLDS.as_bytes());
}
