//! Trees in plain ordered maps, sound or not.
ghost use Rattle.std.specs.Prelude.{◌≡◌, IsTrue, IfOk, IfErr, IfSome, OnOk, OnErr, Some, Option, is_some};
ghost use Rattle.std.specs.Option.{option_copied, option_map};
ghost use Rattle.std.specs.Ordering.{nat_cmp};
ghost use Rattle.cg_maps.specs.FiniteMap.{set_at, empty, from_entries};
ghost use Rattle.cg_name.specs.Path.{path_cmp};
ghost use Rattle.cg_model.specs.Tree.{Tree, group, place_of};
ghost use Rattle.cg_world.specs.Entries.{tree_of_entries};
ghost use Rattle.cg_world.specs.Known.{IsAsKnown};
ghost use Rattle.cg_world.specs.Representable.{IsPid, IsRepresentable};
ghost use Rattle.cg_world.specs.Soundness.{HasSoundPlaces};

use cg_boxed::CompactSettings;
use cg_cpus::CpuSet;
use cg_name::Path;
use cg_text::Controllers;
use std::alloc::{AllocError, Global};
use std::collections::BTreeMap;
use std::marker::Model;

/// The computer's controllers and online CPUs, groups by path and processes by PID.
pub struct PlainTree {
    controllers: Controllers,
    online: CpuSet,
    groups: BTreeMap<Path, CompactSettings>,
    places: BTreeMap<u32, Path>,
    // Whether each process is known to be in a group that may have processes.
    are_places_sound: bool,
}

// By hand, so that whoever drops one calls this, and doesn't drop each thing in it: that makes proofs shorter.
impl Drop for PlainTree {
    fn drop(self) {
        let PlainTree {
            controllers: _,
            online: _,
            groups: _,
            places: _,
            are_places_sound: _,
        } = self;
    }
}

impl Model for PlainTree {
    ghost use Rattle.cg_model.specs.Tree.{Tree};
    ghost use Rattle.cg_model.specs.Code.{tree_code};

    ghost Value = { Tree };

    ghost coded = { tree_code };

    ghost use Rattle.cg_world.specs.Plain.{tree_of};
    ghost use Rattle.cg_world.specs.Known.{IsAsKnown};

    ghost view = { tree_of };

    ghost invariant = { λ t. IsAsKnown (tree_of t) t.are_places_sound };
}

impl PlainTree {
    /// A tree of no groups and no processes.
    pub fn new(alloc: Global, controllers: Controllers, online: CpuSet) -> PlainTree
        ensures { result ≡ record { controllers = controllers; online = online; groups = empty; places = empty } }
    {
        // A set of CPUs tells of its numbers when it is asked for one.
        let _ = online.contains(0);
        PlainTree {
            controllers,
            online,
            groups: BTreeMap::new(alloc),
            places: BTreeMap::new(alloc),
            are_places_sound: false,
        }
    }

    // The tree of these maps. Whether each process is known to be in a group that may have processes goes with it.
    pub(crate) fn from_maps(
        controllers: Controllers,
        online: CpuSet,
        groups: BTreeMap<Path, CompactSettings>,
        places: BTreeMap<u32, Path>,
        are_places_sound: bool,
    ) -> PlainTree
        requires { IsAsKnown (tree_of_entries controllers online groups.entries places.entries) are_places_sound }
        ensures { result ≡ tree_of_entries controllers online groups.entries places.entries }
    {
        PlainTree {
            controllers,
            online,
            groups,
            places,
            are_places_sound,
        }
    }

    /// The computer's controllers.
    pub fn controllers(&self) -> Controllers
        ensures value { result ≡ self.now.controllers }
        ensures valid { IsRepresentable self.now }
    {
        self.controllers
    }

    /// The CPUs that are online, none of them above 1,023.
    pub fn online(&self) -> CpuSet
        ensures { result ≡ self.now.online }
    {
        self.online
    }

    /// The settings of a group, where there is one at this path.
    pub fn settings(&self, path: &Path) -> Option<&CompactSettings>
        ensures { option_copied result ≡ group self.now path.now }
    {
        self.groups.get(path)
    }

    // The path and the settings of the group at this path, where there is one.
    pub(crate) fn entry(&self, path: &Path) -> Option<(&Path, &CompactSettings)>
        ensures key { IfSome result (λ e. e.0.now ≡ path.now) }
        ensures value { option_map (λ e. e.1.now) result ≡ group self.now path.now }
    {
        self.groups.get_key_value(path)
    }

    /// The group of a process, where there is one with this PID.
    pub fn location(&self, pid: u32) -> Option<&Path>
        ensures { option_copied result ≡ place_of self.now pid }
    {
        self.places.get(&pid)
    }

    // Whether each process is known to be in a group that may have processes.
    pub(crate) fn are_places_sound(&self) -> bool
        ensures { IsTrue result → HasSoundPlaces self.now }
    {
        self.are_places_sound
    }

    /// Makes the group at this path, or gives it these settings, and answers whether there was one. An error, where there is
    /// no memory, leaves the tree as it was.
    pub fn set_group(&mut self, path: Path, settings: CompactSettings) -> Result<bool, AllocError>
        ensures ok { OnOk result (self.new ≡ record self.old { groups = set_at self.old.groups path (Some settings) }) }
        ensures had { IfOk result (λ had. had ≡ is_some (group self.old path)) }
        ensures err { OnErr result (self.new ≡ self.old) }
    {
        // The path and the CPUs tell what holds of them.
        let _ = path.names();
        let _ = settings.cpus().contains(0);
        self.are_places_sound = false;
        let former = self.groups.insert(path, settings)?;
        Ok(former.is_some())
    }

    /// Puts the process with this PID, from 1 to 4,194,303, into the group at this path, and answers whether there was one. An
    /// error, where there is no memory, leaves the tree as it was.
    pub fn set_place(&mut self, pid: u32, path: Path) -> Result<bool, AllocError>
        requires { IsPid pid }
        ensures ok { OnOk result (self.new ≡ record self.old { places = set_at self.old.places pid (Some path) }) }
        ensures had { IfOk result (λ had. had ≡ is_some (place_of self.old pid)) }
        ensures err { OnErr result (self.new ≡ self.old) }
    {
        // The path tells what holds of it.
        let _ = path.names();
        self.are_places_sound = false;
        let former = self.places.insert(pid, path)?;
        Ok(former.is_some())
    }

    /// An equal tree; an error where there is no memory for it.
    pub fn copy(&self, alloc: Global) -> Result<PlainTree, AllocError>
        ensures { IfOk result (λ t. t ≡ self.now) }
    {
        Ok(PlainTree {
            controllers: self.controllers,
            online: self.online,
            groups: copy_groups(alloc, &self.groups)?,
            places: copy_places(alloc, &self.places)?,
            are_places_sound: self.are_places_sound,
        })
    }

    /// The settings of the groups, by path.
    pub fn groups(&self) -> &BTreeMap<Path, CompactSettings>
        ensures { from_entries path_cmp result.now.entries ≡ self.now.groups }
    {
        &self.groups
    }

    /// The paths of the groups of the processes, by PID.
    pub fn places(&self) -> &BTreeMap<u32, Path>
        ensures { from_entries nat_cmp result.now.entries ≡ self.now.places }
    {
        &self.places
    }
}

// A map of the same groups.
fn copy_groups(
    alloc: Global,
    groups: &BTreeMap<Path, CompactSettings>,
) -> Result<BTreeMap<Path, CompactSettings>, AllocError>
    ensures { IfOk result (λ made. from_entries path_cmp made.entries ≡ from_entries path_cmp groups.now.entries) }
{
    let mut made = BTreeMap::new(alloc);
    for (path, settings) in groups {
        made.insert(path.copy(alloc)?, settings.copy(alloc)?)?;
    }
    Ok(made)
}

// A map of the same processes.
fn copy_places(
    alloc: Global,
    places: &BTreeMap<u32, Path>,
) -> Result<BTreeMap<u32, Path>, AllocError>
    ensures { IfOk result (λ made. from_entries nat_cmp made.entries ≡ from_entries nat_cmp places.now.entries) }
{
    let mut made = BTreeMap::new(alloc);
    for (pid, path) in places {
        made.insert(*pid, path.copy(alloc)?)?;
    }
    Ok(made)
}
