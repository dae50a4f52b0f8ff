//! Sound trees.
ghost use Rattle.std.specs.Prelude.{◌≡◌, IfOk, IfErr, slice_get};
ghost use Rattle.std.specs.Option.{option_copied, option_map};
ghost use Rattle.cg_maps.specs.FiniteMap.{entries};
ghost use Rattle.cg_model.specs.Sound.{Sound};
ghost use Rattle.cg_model.specs.Tree.{group, place_of};
ghost use Rattle.cg_world.specs.Representable.{IsRepresentable};

use crate::plain::PlainTree;
use cg_boxed::CompactSettings;
use cg_cpus::CpuSet;
use cg_name::Path;
use cg_text::Controllers;
use std::alloc::{AllocError, Global};
use std::marker::Model;

/// A sound tree.
#[derive(Drop)]
pub struct World {
    tree: PlainTree,
}

impl Model for World {
    ghost use Rattle.cg_model.specs.Tree.{Tree};
    ghost use Rattle.cg_model.specs.Code.{tree_code};
    ghost use Rattle.cg_model.specs.Sound.{Sound};

    ghost Value = { Tree };

    ghost coded = { tree_code };

    ghost view = { λ w. w.tree };

    ghost invariant = { λ w. Sound w.tree };
}

impl World {
    /// The world of a sound tree.
    pub fn from_tree(tree: PlainTree) -> World
        requires { Sound tree }
        ensures { result ≡ tree }
    {
        World { tree }
    }

    /// The world as a plain tree.
    pub fn tree(&self) -> &PlainTree
        ensures value { result.now ≡ self.now }
        ensures sound { Sound self.now }
        ensures valid { IsRepresentable self.now }
    {
        // With its controllers a plain tree tells that code can hold it.
        let _ = self.tree.controllers();
        &self.tree
    }

    /// An equal world; an error where there is no memory for it.
    pub fn copy(&self, alloc: Global) -> Result<World, AllocError>
        ensures { IfOk result (λ w. w ≡ self.now) }
    {
        Ok(World {
            tree: self.tree.copy(alloc)?,
        })
    }

    /// The computer's controllers.
    pub fn controllers(&self) -> Controllers
        ensures { result ≡ self.now.controllers }
    {
        self.tree.controllers()
    }

    /// The CPUs that are online, none of them above 1,023.
    pub fn online(&self) -> CpuSet
        ensures { result ≡ self.now.online }
    {
        self.tree.online()
    }

    /// The settings of a group, where there is one at this path.
    pub fn settings(&self, path: &Path) -> Option<&CompactSettings>
        ensures { option_copied result ≡ group self.now path.now }
    {
        self.tree.settings(path)
    }

    /// The group of a process, where there is one with this PID.
    pub fn location(&self, pid: u32) -> Option<&Path>
        ensures { option_copied result ≡ place_of self.now pid }
    {
        self.tree.location(pid)
    }

    /// The group with that many groups before it in the order of the paths, and its settings: the root at 0, `None` from
    /// the number of groups on.
    pub fn group_at(&self, index: u64) -> Option<(&Path, &CompactSettings)>
        ensures { option_map (λ e. (e.0.now, e.1.now)) result ≡ slice_get (entries self.now.groups) index }
    {
        self.tree.groups().iter().nth(index as usize)
    }

    /// The process with that many processes before it by ascending PID, and the path of its group; `None` from the number
    /// of processes on.
    pub fn proc_at(&self, index: u64) -> Option<(u32, &Path)>
        ensures { option_map (λ e. (e.0, e.1.now)) result ≡ slice_get (entries self.now.places) index }
    {
        let (pid, path) = self.tree.places().iter().nth(index as usize)?;
        Some((*pid, path))
    }
}
