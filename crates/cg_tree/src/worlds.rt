//! Maps of groups with room for dead ones, and plain trees.
ghost use Rattle.std.specs.Prelude.{◌≡◌, ℕ, List, IfOk, IsSome, OnOk, Some};
ghost use Rattle.std.specs.Ordering.{nat_cmp};
ghost use Rattle.cg_maps.specs.FiniteMap.{domain, empty, from_entries, get, keys};
ghost use Rattle.cg_name.specs.Path.{path_cmp};
ghost use Rattle.cg_tree.specs.Present.{present};
ghost use Rattle.cg_tree.specs.Room.{HaveParents};

use crate::groups::Groups;
use crate::tree::Tree;
use cg_boxed::CompactSettings;
use cg_name::Path;
use cg_world::PlainTree;
use std::alloc::{AllocError, Global};
use std::collections::BTreeMap;

// The map of the groups, with an entry for each and no other. The parent of each group is a group.
pub(crate) fn with_entries(
    alloc: Global,
    listed: &BTreeMap<Path, CompactSettings>,
) -> Result<Groups, AllocError>
    requires { HaveParents (from_entries path_cmp listed.now.entries) }
    ensures groups { IfOk result (λ made. present made.groups ≡ from_entries path_cmp listed.now.entries) }
    ensures entries { IfOk result (λ made. domain made.groups ≡ domain (from_entries path_cmp listed.now.entries)) }
    ensures places { IfOk result (λ made. made.places ≡ empty) }
{
    let mut made = Groups::new(alloc);
    // A parent comes before its children.
    for (path, settings) in listed {
        made.insert(alloc, path, settings.copy(alloc)?)?;
    }
    Ok(made)
}

// Puts the present groups into a tree of none.
pub(crate) fn add_groups(
    alloc: Global,
    groups: &Groups,
    tree: &mut PlainTree,
) -> Result<(), AllocError>
    requires { tree.old.groups ≡ empty }
    ensures { OnOk result (tree.new ≡ record tree.old { groups = present groups.now.groups }) }
{
    for (path, settings) in groups.present_groups(alloc)? {
        tree.set_group(path.to_path(alloc)?, settings.copy(alloc)?)?;
    }
    Ok(())
}

// Puts the processes into their groups, each of which has an entry.
pub(crate) fn add_processes(
    groups: &mut Groups,
    places: &BTreeMap<u32, Path>,
) -> Result<(), AllocError>
    requires none { groups.old.places ≡ empty }
    requires entries { (k : ℕ) (p : List (List ℕ)) → get (from_entries nat_cmp places.now.entries) k ≡ Some p → IsSome (get groups.old.groups p) }
    ensures groups { groups.new.groups ≡ groups.old.groups }
    ensures places { OnOk result (groups.new.places ≡ from_entries nat_cmp places.now.entries) }
{
    for (pid, path) in places {
        groups.add_process(*pid, path)?;
    }
    Ok(())
}

// The PIDs of the processes, ascending.
pub(crate) fn pids_of(alloc: Global, places: &BTreeMap<u32, Path>) -> Result<Vec<u32>, AllocError>
    ensures { IfOk result (λ pids. pids.items ≡ keys (from_entries nat_cmp places.now.entries)) }
{
    let mut pids = Vec::with_capacity(alloc, places.len())?;
    for (pid, _) in places {
        pids.push(*pid)?;
    }
    Ok(pids)
}

// Puts the processes of one tree into another that has none.
pub(crate) fn add_places(alloc: Global, from: &Tree, tree: &mut PlainTree) -> Result<(), AllocError>
    requires { tree.old.places ≡ empty }
    ensures { OnOk result (tree.new ≡ record tree.old { places = from.now.tree.places }) }
{
    // A tree tells what PIDs it can have.
    let _ = from.groups();
    for (pid, path) in from.places() {
        tree.set_place(pid, path.to_path(alloc)?)?;
    }
    Ok(())
}
