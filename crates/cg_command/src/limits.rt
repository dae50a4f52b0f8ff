//! The limits of the groups above a new one (the kernel's cgroup-v2 page, "Core Interface Files":
//! `cgroup.max.descendants`, `cgroup.max.depth`).
ghost use Rattle.std.specs.Prelude.{◌≡◌, ◌-◌};
ghost use Rattle.cg_model.specs.Groups.{exceeds_depth, reaches_descendants, too_deep, too_many};

use cg_name::Path;
use cg_text::Limit;
use cg_tree::{Ancestor, Tree};

/// Whether some group above the path has as many descendants as it may have.
pub(crate) fn too_many(path: &Path, tree: &Tree) -> bool
    ensures { result ≡ too_many tree.now.tree path.now }
{
    if !tree.may_limit() {
        return false;
    }
    tree.above(path).any(|above| reaches_descendants(&above))
}

/// Whether the path is deeper below some group than that group allows.
pub(crate) fn too_deep(path: &Path, tree: &Tree) -> bool
    ensures { result ≡ too_deep tree.now.tree path.now }
{
    if !tree.may_limit() {
        return false;
    }
    let depth = path.depth();
    tree.above(path).any(|above| exceeds_depth(&above, depth))
}

// Whether the group has as many descendants as it may have.
fn reaches_descendants(above: &Ancestor) -> bool
    ensures { result ≡ reaches_descendants above.now.settings above.now.descendants }
{
    let Some(settings) = above.settings() else {
        return false;
    };
    match settings.max_descendants() {
        Limit::Max => false,
        Limit::UpTo(most) => above.descendants() >= u64::from(most.number),
    }
}

// Whether so many names are deeper below the group than it allows.
fn exceeds_depth(above: &Ancestor, depth: u32) -> bool
    ensures { result ≡ exceeds_depth above.now.settings (depth - above.now.depth) }
{
    let Some(settings) = above.settings() else {
        return false;
    };
    match settings.max_depth() {
        Limit::Max => false,
        Limit::UpTo(most) => depth.saturating_sub(above.depth()) > most.number,
    }
}
