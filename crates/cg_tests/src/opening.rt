//! The worlds that many tests begin on, and the trees of worlds.
use cg_desk::World;
use cg_name::Refusal;
use cg_tree::Tree;
use cg_world_text::ReadWorld;
use std::alloc::Global;

/// One controller, one CPU and one process.
pub(crate) const SMALL: &str = "world 1
controllers cpu
online 0
group / - 0 -
proc 10 /
end
";

/// Three controllers, of which the root passes none on, eight CPUs and two processes.
pub(crate) const BARE: &str = "world 1
controllers cpuset cpu memory
online 0-7
group / - 0 -
proc 10 /
proc 11 /
end
";

/// The same, where the root passes two of the controllers on.
pub(crate) const LARGER: &str = "world 1
controllers cpuset cpu memory
online 0-7
group / cpu,memory 0 -
proc 10 /
proc 11 /
end
";

/// The most slots that a history can have.
pub(crate) const MOST_SLOTS: u32 = 1_048_576;

/// The world that a text spells.
pub(crate) fn world(alloc: Global, text: &str) -> Result<World, Refusal> {
    World::read(alloc, text.as_bytes())
}

/// The tree of that world.
pub(crate) fn tree(alloc: Global, text: &str) -> Result<Tree, Refusal> {
    Ok(Tree::from_world(alloc, &world(alloc, text)?)?)
}
