//! The values of a group: what is available to it, whether it is populated and frozen, and its effective CPUs (the kernel's
//! cgroup-v2 page, "Controlling Controllers", "Core Interface Files" and "Cpuset Interface Files").
ghost use Rattle.std.specs.Prelude.{◌≡◌, ◌&&◌, nat_lt, option_copied};
ghost use Rattle.cg_derive.specs.Upward.{narrowed_upward};
ghost use Rattle.cg_model.specs.Derived.{available, effective, effective_cpus, frozen, has_freeze, is_frozen, narrowed, populated};

use cg_boxed::CompactSettings;
use cg_cpus::CpuSet;
use cg_name::Path;
use cg_text::Controllers;
use cg_tree::{Ancestor, Ancestors, Tree};

/// The controllers that the group at the path has: the root those of the computer, another group those that its parent
/// passes on. None where there is no group.
pub fn available(tree: &Tree, path: &Path) -> Option<Controllers>
    ensures { result ≡ available tree.now.tree path.now }
{
    if !tree.find(path) {
        return None;
    }
    if path.is_root() {
        return Some(tree.controllers());
    }
    let parent = tree.parent_settings(path)?;
    Some(parent.control())
}

/// Whether the group at the path, or one below it, has a process. None for the root, and where there is no group.
pub fn populated(tree: &Tree, path: &Path) -> Option<bool>
    ensures { result ≡ populated tree.now.tree path.now }
{
    if path.is_root() || !tree.find(path) {
        return None;
    }
    Some(tree.is_populated(path))
}

/// Whether the group at the path is frozen: its own freeze value, or that of a group above it, is 1. None for the root, and
/// where there is no group.
pub fn frozen(tree: &Tree, path: &Path) -> Option<bool>
    ensures { result ≡ frozen tree.now.tree path.now }
{
    if path.is_root() || !tree.find(path) {
        return None;
    }
    Some(is_frozen(tree, path))
}

/// The effective CPUs of the group at the path: of the root those that are online; of another group those that it asks for
/// of its parent's, or all of its parent's where none of these are there. None where there is no group, or where it has not
/// the `cpuset` controller.
pub fn effective(tree: &Tree, path: &Path) -> Option<CpuSet>
    ensures { result ≡ effective tree.now.tree path.now }
{
    let controllers = available(tree, path)?;
    if !controllers.cpuset {
        return None;
    }
    Some(effective_cpus(tree, path))
}

// Whether a group from below the root down to the path has a freeze value of 1.
pub(crate) fn is_frozen(tree: &Tree, path: &Path) -> bool
    ensures { result ≡ is_frozen tree.now.tree path.now }
{
    tree.ancestors(path).any(|at| freezes(&at))
}

// Whether there is a group below the root whose own freeze value is 1.
fn freezes(at: &Ancestor) -> bool
    ensures { result ≡ (nat_lt 0 at.now.depth && has_freeze at.now.settings) }
{
    match at.settings() {
        Some(settings) => at.depth() > 0 && settings.freeze(),
        None => false,
    }
}

// The CPUs that are online, narrowed by each group from below the root down to the path.
pub(crate) fn effective_cpus(tree: &Tree, path: &Path) -> CpuSet
    ensures { result ≡ effective_cpus tree.now.tree path.now }
{
    let mut cpus = tree.online();
    narrow_upward(tree.ancestors(path), &mut cpus);
    cpus
}

// Narrows the CPUs by each of these groups below the root. The last one is the first to narrow them, so that the way back from the
// root is that of the calls.
fn narrow_upward(mut groups: Ancestors<'_>, cpus: &mut CpuSet)
    ensures { cpus.new ≡ narrowed_upward cpus.old groups.entry }
{
    let Some(at) = groups.next() else {
        return;
    };
    if at.depth() == 0 {
        return;
    }
    narrow_upward(groups, cpus);
    narrow(cpus, at.settings());
}

// Leaves those of the parent's CPUs that the group asks for, or all of these where there are none.
fn narrow(cpus: &mut CpuSet, group: Option<&CompactSettings>)
    ensures { cpus.new ≡ narrowed cpus.old (option_copied group.entry) }
{
    if let Some(settings) = group {
        settings.cpus().narrow(cpus);
    }
}
