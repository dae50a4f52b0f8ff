//! Trees of which the groups and the processes come one by one.
ghost use Rattle.std.specs.Prelude.{◌≡◌, IfOk, OnOk, Some, is_some};
ghost use Rattle.cg_maps.specs.FiniteMap.{empty, from_entries, set_at};
ghost use Rattle.cg_name.specs.Path.{path_cmp};
ghost use Rattle.cg_model.specs.Tree.{group, place_of};
ghost use Rattle.cg_world.specs.Gathered.{entries_of};
ghost use Rattle.cg_world.specs.Representable.{IsPid};

use crate::gathered::{Gathered, Kept};
use crate::gathered_groups::GatheredGroups;
use crate::plain::PlainTree;
use cg_boxed::CompactSettings;
use cg_cpus::CpuSet;
use cg_name::Path;
use cg_text::Controllers;
use std::alloc::{AllocError, Global};
use std::marker::Model;

/// A tree of which the groups and the processes come one by one: fastest where they come by ascending paths and PIDs. A plain tree is
/// made of it once all have come.
pub struct GatheredTree {
    controllers: Controllers,
    online: CpuSet,
    groups: GatheredGroups,
    places: Gathered<u32, Path>,
    // Whether each process is known to be in a group that may have processes.
    are_places_sound: bool,
}

// By hand, so that whoever drops one calls this, and doesn't drop each thing in it: that makes proofs shorter.
impl Drop for GatheredTree {
    fn drop(self) {
        let GatheredTree {
            controllers: _,
            online: _,
            groups: _,
            places: _,
            are_places_sound: _,
        } = self;
    }
}

impl Model for GatheredTree {
    ghost use Rattle.cg_model.specs.Tree.{Tree};
    ghost use Rattle.cg_model.specs.Code.{tree_code};

    ghost Value = { Tree };

    ghost coded = { tree_code };

    ghost use Rattle.cg_world.specs.GatheredTree.{gathered_tree};
    ghost use Rattle.cg_world.specs.Known.{IsAsKnown};

    ghost view = { gathered_tree };

    ghost invariant = { λ t. IsAsKnown (gathered_tree t) t.are_places_sound };
}

impl GatheredTree {
    /// A tree of no groups and no processes.
    pub fn new(alloc: Global, controllers: Controllers, online: CpuSet) -> GatheredTree
        ensures { result ≡ record { controllers = controllers; online = online; groups = empty; places = empty } }
    {
        // A set of CPUs tells of its numbers when it is asked for one.
        let _ = online.contains(0);
        GatheredTree {
            controllers,
            online,
            groups: GatheredGroups::new(alloc),
            places: Gathered::new(alloc),
            are_places_sound: false,
        }
    }

    /// The groups so far.
    pub fn groups(&self) -> &Kept<Path, CompactSettings>
        ensures { from_entries path_cmp (entries_of result.now) ≡ self.now.groups }
    {
        self.groups.kept()
    }

    /// Makes the group at this path, or gives it these settings, and answers whether there was one. After an error, where there is
    /// no memory, nothing is told of the tree.
    pub fn set_group(
        &mut self,
        alloc: Global,
        path: Path,
        settings: CompactSettings,
    ) -> Result<bool, AllocError>
        ensures ok { OnOk result (self.new ≡ record self.old { groups = set_at self.old.groups path (Some settings) }) }
        ensures had { IfOk result (λ had. had ≡ is_some (group self.old path)) }
    {
        // The path and the CPUs tell what holds of them.
        let _ = path.names();
        let _ = settings.cpus().contains(0);
        self.are_places_sound = false;
        let had = self.groups.insert(alloc, path, settings)?;
        Ok(had)
    }

    /// Puts the process with this PID, from 1 to 4,194,303, into the group at this path, and answers whether there was one. After an
    /// error, where there is no memory, nothing is told of the tree.
    pub fn set_place(&mut self, alloc: Global, pid: u32, mut path: Path) -> Result<bool, AllocError>
        requires { IsPid pid }
        ensures ok { OnOk result (self.new ≡ record self.old { places = set_at self.old.places pid (Some path) }) }
        ensures had { IfOk result (λ had. had ≡ is_some (place_of self.old pid)) }
    {
        // The path tells what holds of it.
        let _ = path.names();
        let so_far = self.places.len();
        let is_allowed = self.groups.admit(alloc, so_far, &mut path)?;
        let are_places_sound = is_allowed && (self.are_places_sound || so_far == 0);
        self.are_places_sound = false;
        let had = self.places.insert(alloc, pid, path)?;
        self.are_places_sound = are_places_sound;
        Ok(had)
    }

    /// The tree as a plain tree; an error where there is no memory for it.
    pub fn finish(self, alloc: Global) -> Result<PlainTree, AllocError>
        ensures { IfOk result (λ t. t ≡ self) }
    {
        let GatheredTree {
            controllers,
            online,
            groups,
            places,
            are_places_sound,
        } = self;
        let groups = groups.finish(alloc)?;
        let places = places.finish(alloc)?;
        Ok(PlainTree::from_maps(controllers, online, groups, places, are_places_sound))
    }
}
