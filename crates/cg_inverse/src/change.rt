//! Changes: a key of the tree, what it held before a command, and what the command left there.
ghost use Rattle.std.specs.Prelude.{◌≡◌, ◌↔◌, ◌<◌, ℕ, IfOk, IsOk, IsTrue, OnErr, OnOk, Some, option_copied};
ghost use Rattle.cg_maps.specs.FiniteSet.{has};
ghost use Rattle.cg_inverse.specs.Meaning.{change_of, FitsIn, HasRoomIn, HasRoomToMake, LeavesNoCpus, MayGoBack};
ghost use Rattle.cg_model.specs.Change.{change};
ghost use Rattle.cg_model.specs.Key.{put, Part, Cpus};
ghost use Rattle.cg_text.specs.Settings.{fresh};

use cg_boxed::{BoxedCpus, BoxedSettings, CompactSettings, LowCpus};
use cg_name::Path;
use cg_text::{Controllers, Limit};
use cg_tree::{NewValue, Tree};
use std::alloc::{AllocError, Global};

/// One key of a tree, with what it held before a command and what the command left. What is near is the number of the entry that the
/// group most likely has, as `Tree::near` gives it: it is for speed alone, and any does.
pub enum Change {
    /// A group that was made: there was none at the path, and the one left has the settings of a new group.
    Made {
        /// Near which entry.
        near: u32,
        /// Where.
        path: Path,
    },
    /// A group that was removed: there is none at the path any more.
    Removed {
        /// Near which entry.
        near: u32,
        /// Where.
        path: Path,
        /// The settings before.
        before: BoxedSettings,
    },
    /// The group of a process.
    Place {
        /// The process, from 1 to 4,194,303.
        pid: u32,
        /// Its group before.
        before: Path,
        /// Its group now.
        left: Path,
    },
    /// `cgroup.subtree_control` of a group.
    Control {
        /// Near which entry.
        near: u32,
        /// The group.
        path: Path,
        /// What it passed on before.
        before: Controllers,
        /// What it passes on now.
        left: Controllers,
    },
    /// `cgroup.freeze` of a group.
    Freeze {
        /// Near which entry.
        near: u32,
        /// The group.
        path: Path,
        /// Its own value before.
        before: bool,
        /// Its own value now.
        left: bool,
    },
    /// `cpuset.cpus` of a group, of CPUs below 64.
    LowCpus {
        /// Near which entry.
        near: u32,
        /// The group.
        path: Path,
        /// The CPUs that it asked for before.
        before: LowCpus,
        /// The CPUs that it asks for now.
        left: LowCpus,
    },
    /// `cpuset.cpus` of a group, of any CPUs.
    WideCpus {
        /// Near which entry.
        near: u32,
        /// The group.
        path: Path,
        /// The CPUs that it asked for before, and those that it asks for now.
        both: Box<BothCpus>,
    },
    /// `cgroup.max.descendants` of a group.
    MaxDescendants {
        /// Near which entry.
        near: u32,
        /// The group.
        path: Path,
        /// Its limit before.
        before: Limit,
        /// Its limit now.
        left: Limit,
    },
    /// `cgroup.max.depth` of a group.
    MaxDepth {
        /// Near which entry.
        near: u32,
        /// The group.
        path: Path,
        /// Its limit before.
        before: Limit,
        /// Its limit now.
        left: Limit,
    },
    /// The CPUs that are online.
    Online {
        /// Those before.
        before: BoxedCpus,
        /// Those now.
        left: BoxedCpus,
    },
}

// One stands on a transaction's stack for most commands, and is handed on with each.
const _: () = prove!(size_of::<Change>() == 40);

/// The CPUs that a group asked for before a command, and those that it asks for after it.
#[derive(Drop)]
pub struct BothCpus {
    /// Those before.
    pub before: BoxedCpus,
    /// Those after.
    pub left: BoxedCpus,
}

// By hand, so that whoever drops one calls this, and doesn't drop each thing in it: that makes proofs shorter. It
// stands in its callers all the same: most of these have nothing to give back.
impl Drop for Change {
    #[inline(always)]
    fn drop(self) {
        match self {
            Change::Made { near: _, path: _ } => {}
            Change::Removed {
                near: _,
                path: _,
                before: _,
            } => {}
            Change::Place {
                pid: _,
                before: _,
                left: _,
            } => {}
            Change::Control {
                near: _,
                path: _,
                before: _,
                left: _,
            } => {}
            Change::Freeze {
                near: _,
                path: _,
                before: _,
                left: _,
            } => {}
            Change::LowCpus {
                near: _,
                path: _,
                before: _,
                left: _,
            } => {}
            Change::WideCpus {
                near: _,
                path: _,
                both: _,
            } => {}
            Change::MaxDescendants {
                near: _,
                path: _,
                before: _,
                left: _,
            } => {}
            Change::MaxDepth {
                near: _,
                path: _,
                before: _,
                left: _,
            } => {}
            Change::Online { before: _, left: _ } => {}
        }
    }
}

impl Change {
    /// That of `cpuset.cpus` of the group at the path, near that entry. An error, where there is no memory for it: where all CPUs
    /// are below 64, it takes none.
    #[inline(always)]
    pub fn of_cpus(
        alloc: Global,
        near: u32,
        path: Path,
        before: BoxedCpus,
        left: BoxedCpus,
    ) -> Result<Change, AllocError>
        ensures value { IfOk result (λ c. change_of c ≡ change (Part path Cpus) (Some before) (Some left)) }
        ensures low { ((n : ℕ) → IsTrue (has before n) → n < 64) → ((n : ℕ) → IsTrue (has left n) → n < 64) → IsOk result }
    {
        if let (Some(before), Some(left)) = (before.low(), left.low()) {
            return Ok(Change::LowCpus {
                near,
                path,
                before,
                left,
            });
        }
        let both = Box::new(alloc, BothCpus { before, left })?;
        Ok(Change::WideCpus { near, path, both })
    }

    /// Puts the key back to its value before. Takes no memory: what the tree is to keep is moved out of the change.
    pub fn put_before(self, tree: &mut Tree)
        requires { HasRoomIn tree.old (change_of self) }
        ensures tree { tree.new.tree ≡ put (change_of self).key (change_of self).before tree.old.tree }
        ensures entries { tree.new.entries ≡ tree.old.entries }
    {
        match self {
            Change::Made { near, path } => tree.put_group(&path, near, None),
            Change::Removed { near, path, before } => {
                tree.put_group(&path, near, Some(before.into_settings()));
            }
            Change::Place {
                pid,
                before,
                left: _,
            } => tree.put_place(pid, &before),
            Change::Control {
                near,
                path,
                before,
                left: _,
            } => tree.put_value(&path, near, NewValue::Control(before)),
            Change::Freeze {
                near,
                path,
                before,
                left: _,
            } => tree.put_value(&path, near, NewValue::Freeze(before)),
            Change::LowCpus {
                near,
                path,
                before,
                left: _,
            } => tree.put_value(&path, near, NewValue::Cpus(before.boxed())),
            Change::WideCpus { near, path, both } => {
                let BothCpus { before, left: _ } = Box::into_inner(both);
                tree.put_value(&path, near, NewValue::Cpus(before));
            }
            Change::MaxDescendants {
                near,
                path,
                before,
                left: _,
            } => tree.put_value(&path, near, NewValue::MaxDescendants(before)),
            Change::MaxDepth {
                near,
                path,
                before,
                left: _,
            } => tree.put_value(&path, near, NewValue::MaxDepth(before)),
            Change::Online { before, left: _ } => tree.put_online(before.get()),
        }
    }

    /// Puts the value left at the key. An error, where there is no memory for the CPUs that are left, leaves the tree as it was;
    /// where none are left, it takes none.
    pub fn put_left(&self, alloc: Global, tree: &mut Tree) -> Result<(), AllocError>
        requires { HasRoomToMake tree.old (change_of self.now) }
        ensures tree { OnOk result (tree.new.tree ≡ put (change_of self.now).key (change_of self.now).left tree.old.tree) }
        ensures entries { OnOk result (tree.new.entries ≡ tree.old.entries) }
        ensures err { OnErr result (tree.new ≡ tree.old) }
        ensures without_cpus { LeavesNoCpus (change_of self.now) → IsOk result }
    {
        match self {
            Change::Made { near, path } => {
                tree.put_group(path, *near, Some(CompactSettings::fresh()));
            }
            Change::Removed { near, path, .. } => tree.put_group(path, *near, None),
            Change::Place { pid, left, .. } => tree.put_place(*pid, left),
            Change::Control {
                near,
                path,
                left,
                ..
            } => tree.put_value(path, *near, NewValue::Control(*left)),
            Change::Freeze {
                near,
                path,
                left,
                ..
            } => tree.put_value(path, *near, NewValue::Freeze(*left)),
            Change::LowCpus {
                near,
                path,
                left,
                ..
            } => tree.put_value(path, *near, NewValue::Cpus(left.boxed())),
            Change::WideCpus { near, path, both } => {
                tree.put_value(path, *near, NewValue::Cpus(both.left.copy(alloc)?));
            }
            Change::MaxDescendants {
                near,
                path,
                left,
                ..
            } => {
                tree.put_value(path, *near, NewValue::MaxDescendants(*left));
            }
            Change::MaxDepth {
                near,
                path,
                left,
                ..
            } => {
                tree.put_value(path, *near, NewValue::MaxDepth(*left));
            }
            Change::Online { left, .. } => tree.put_online(left.get()),
        }
        Ok(())
    }

    /// Whether the key holds the value that the command left. Takes no memory.
    pub fn fits(&self, tree: &Tree) -> bool
        ensures { IsTrue result ↔ FitsIn tree.now.tree (change_of self.now) }
    {
        match self {
            Change::Made { path, .. } => is_new(tree.settings(path)),
            Change::Removed { path, .. } => !tree.find(path),
            Change::Place { pid, left, .. } => tree.is_at(*pid, left),
            Change::Control { path, left, .. } => match tree.settings(path) {
                Some(settings) => settings.control() == *left,
                None => false,
            },
            Change::Freeze { path, left, .. } => match tree.settings(path) {
                Some(settings) => settings.freeze() == *left,
                None => false,
            },
            Change::LowCpus { path, left, .. } => match tree.settings(path) {
                Some(settings) => *settings.cpus() == left.boxed(),
                None => false,
            },
            Change::WideCpus { path, both, .. } => match tree.settings(path) {
                Some(settings) => *settings.cpus() == both.left,
                None => false,
            },
            Change::MaxDescendants { path, left, .. } => match tree.settings(path) {
                Some(settings) => settings.max_descendants() == *left,
                None => false,
            },
            Change::MaxDepth { path, left, .. } => match tree.settings(path) {
                Some(settings) => settings.max_depth() == *left,
                None => false,
            },
            Change::Online { left, .. } => tree.online() == left.get(),
        }
    }

    /// Whether there is the entry that the value before needs, if it needs one. Takes no memory.
    pub fn has_room(&self, tree: &Tree) -> bool
        ensures { IsTrue result ↔ HasRoomIn tree.now (change_of self.now) }
    {
        match self {
            Change::Removed { path, .. } => tree.has_entry(path),
            Change::Place { before, .. } => tree.has_entry(before),
            _ => true,
        }
    }

    // Whether the key can be put back: it holds the value left, and there is the entry that the value before needs.
    pub(crate) fn may_go_back(&self, tree: &Tree) -> bool
        ensures { IsTrue result ↔ MayGoBack tree.now (change_of self.now) }
    {
        self.fits(tree) && self.has_room(tree)
    }
}

// Whether there is a group, with the settings of a new one.
fn is_new(settings: Option<&CompactSettings>) -> bool
    ensures { IsTrue result ↔ (option_copied settings.entry ≡ Some fresh) }
{
    match settings {
        Some(settings) => *settings == CompactSettings::fresh(),
        None => false,
    }
}
