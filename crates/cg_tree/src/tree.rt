//! Groups and processes, and which paths have an entry.
ghost use Rattle.std.specs.Prelude.{◌≡◌, ◌↔◌, [], IsTrue, is_some, false, true, Some, IfOk, IfSome, IsOk, IsSome, OnOk, OnErr, slice_get, option_copied, option_map, None};
ghost use Rattle.cg_maps.specs.FiniteMap.{domain, entries, keys, set_at};
ghost use Rattle.cg_model.specs.Sound.{Sound};
ghost use Rattle.cg_model.specs.Key.{replaced};
ghost use Rattle.cg_model.specs.Tree.{group, parent_group, place_of};
ghost use Rattle.cg_model.specs.Derived.{is_in, is_in_subtree};
ghost use Rattle.cg_tree.specs.Alive.{AreGroups};
ghost use Rattle.cg_tree.specs.Unlimited.{AreUnlimited};
ghost use Rattle.cg_tree.specs.NewValue.{value_there, with_new};
ghost use Rattle.cg_tree.specs.Present.{present};
ghost use Rattle.cg_tree.specs.Room.{has_entry, may_have_entry, with_entry, without_dead, IsRooted, MaySweepIfDead};
ghost use Rattle.cg_world.specs.Representable.{AreCpusUpTo};

use crate::groups::Groups;
use crate::limits::{has_limit, have_limit, is_limited};
use crate::new_value::NewValue;
use crate::pids::Pids;
use crate::placed::Placed;
use crate::worlds::{add_groups, add_places, add_processes, pids_of, with_entries};
use cg_boxed::{BoxedText, CompactSettings, RecentTexts};
use cg_cpus::CpuSet;
use cg_name::Path;
use cg_path_tree::NodeKey;
use cg_text::Controllers;
use cg_world::{PlainTree, World};
use std::alloc::{AllocError, Global};
use std::marker::Model;
use std::mem::replace;

/// Groups and processes, with an entry for each group and for dead paths: those of groups that were taken away and may
/// have to be put back.
pub struct Tree {
    controllers: Controllers,
    online: CpuSet,
    // The settings of each group, `None` at each dead path, and the group of each process.
    groups: Groups,
    // The PIDs of all processes, ascending. No process comes or goes.
    pids: Vec<u32>,
    // Whether a group may have a limit: not as long as none ever had one.
    may_limit: bool,
    // Texts of files that were shown last, which those that are shown next share.
    texts: RecentTexts,
    // Room in which the next text is made.
    room: Vec<u8>,
}

// By hand, so that whoever drops one calls this, and doesn't drop each thing in it: that makes proofs shorter.
impl Drop for Tree {
    fn drop(self) {
        let Tree {
            controllers: _,
            online: _,
            groups: _,
            pids: _,
            may_limit: _,
            texts: _,
            room: _,
        } = self;
    }
}

impl Model for Tree {
    ghost use Rattle.cg_tree.specs.Code.{room_code};
    ghost use Rattle.cg_tree.specs.Room.{TreeWithRoom};
    ghost use Rattle.cg_tree.specs.Inside.{room_of, IsWhole};

    ghost Value = { TreeWithRoom };

    ghost coded = { room_code };

    ghost view = { room_of };

    ghost invariant = { λ t. IsWhole t };
}

impl Tree {
    /// The tree of a world: its groups are the paths that have an entry. An error where there is no memory for it.
    pub fn from_world(alloc: Global, world: &World) -> Result<Tree, AllocError>
        ensures tree { IfOk result (λ t. t.tree ≡ world.now) }
        ensures entries { IfOk result (λ t. t.entries ≡ domain world.now.groups) }
        ensures sound { Sound world.now }
    {
        let plain = world.tree();
        let listed = plain.groups();
        let places = plain.places();
        let mut groups = with_entries(alloc, listed)?;
        add_processes(&mut groups, places)?;
        Ok(Tree {
            controllers: plain.controllers(),
            online: plain.online(),
            groups,
            pids: pids_of(alloc, places)?,
            may_limit: have_limit(listed),
            texts: RecentTexts::new(alloc),
            room: Vec::new(alloc),
        })
    }

    /// A world that equals the tree, which has to be sound; an error where there is no memory for it.
    pub fn to_world(&self, alloc: Global) -> Result<World, AllocError>
        requires { Sound self.now.tree }
        ensures { IfOk result (λ w. w ≡ self.now.tree) }
    {
        let mut tree = PlainTree::new(alloc, self.controllers, self.online);
        add_groups(alloc, &self.groups, &mut tree)?;
        add_places(alloc, self, &mut tree)?;
        Ok(World::from_tree(tree))
    }

    /// The controllers of the computer.
    pub fn controllers(&self) -> Controllers
        ensures { result ≡ self.now.tree.controllers }
    {
        self.controllers
    }

    /// The CPUs that are online.
    pub fn online(&self) -> CpuSet
        ensures { result ≡ self.now.tree.online }
    {
        self.online
    }

    /// Whether some group may have a limit other than `max`, on its descendants or on its depth. Where the answer is no, none has;
    /// it is no as long as none had one in the world or since.
    pub fn may_limit(&self) -> bool
        ensures { result ≡ false → AreUnlimited self.now.tree.groups }
    {
        self.may_limit
    }

    /// What holds of every tree: each group has an entry, and what else `IsRooted` says. Does nothing.
    pub fn laws(&self)
        ensures { IsRooted self.now }
    {
        // A tree tells what holds of it when a part of it is looked at.
        let _ = &self.controllers;
    }

    /// Whether there is a group at the path.
    pub fn find(&self, path: &Path) -> bool
        ensures value { result ≡ is_some (group self.now.tree path.now) }
        ensures rooted { IsRooted self.now }
    {
        // A tree tells what holds of it when a part of it is looked at.
        let _ = &self.controllers;
        self.groups.has_group(path)
    }

    /// The settings of the group at the path, if there is one.
    pub fn settings(&self, path: &Path) -> Option<&CompactSettings>
        ensures { option_copied result ≡ group self.now.tree path.now }
    {
        self.groups.get(path)?.as_ref()
    }

    /// The settings of the parent of the path, if there is such a group: none for the root, which has no parent. One look-up, which
    /// takes no memory.
    pub fn parent_settings(&self, path: &Path) -> Option<&CompactSettings>
        ensures { option_copied result ≡ parent_group self.now.tree path.now }
    {
        self.groups.get_parent(path)?.as_ref()
    }

    /// Whether the process is in the group at the path itself; no where no process has this PID.
    pub fn is_at(&self, pid: u32, path: &Path) -> bool
        ensures { result ≡ is_in path.now (place_of self.now.tree pid) }
    {
        self.groups.is_at(pid, path)
    }

    /// Whether the process is in the group at the path or in one below it; no where no process has this PID.
    pub fn is_below(&self, pid: u32, path: &Path) -> bool
        ensures { result ≡ is_in_subtree path.now (place_of self.now.tree pid) }
    {
        match self.groups.place(pid) {
            Some(place) => place.begins_with(path),
            None => false,
        }
    }

    /// The path of the group of a process, if one has this PID; an error where there is no memory for the path.
    #[inline(always)]
    pub fn location(&self, alloc: Global, pid: u32) -> Result<Option<Path>, AllocError>
        ensures { IfOk result (λ place. place ≡ place_of self.now.tree pid) }
    {
        match self.groups.place(pid) {
            Some(place) => Ok(Some(place.to_path(alloc)?)),
            None => Ok(None),
        }
    }

    /// The PID of the process with that many processes before it by ascending PID. There is none from the number of
    /// processes on.
    pub fn pid_at(&self, index: u32) -> Option<u32>
        ensures { result ≡ slice_get (keys self.now.tree.places) index }
    {
        self.pids.get(index as usize).copied()
    }

    /// The PIDs of all processes, ascending.
    pub fn pids(&self) -> Pids<'_>
        ensures { result ≡ keys self.now.tree.places }
    {
        Pids::new(&self.pids)
    }

    /// Whether some process has this PID.
    pub fn has_process(&self, pid: u32) -> bool
        ensures { result ≡ is_some (place_of self.now.tree pid) }
    {
        self.groups.has_process(pid)
    }

    /// Whether the path has an entry: that of a group, or a dead one.
    pub fn has_entry(&self, path: &Path) -> bool
        ensures { result ≡ has_entry self.now path.now }
    {
        self.groups.contains(path)
    }

    /// Whether some entry may be dead. Where the answer is no, each is a group's; it is no as long as the root is a group and no
    /// path is dead. Compares two counts.
    pub fn has_dead_entries(&self) -> bool
        ensures { result ≡ false → AreGroups self.now }
    {
        self.groups.has_dead()
    }

    /// Looks the path up once, so that the calls that follow with the same path find it by a comparison. Gives the number of its entry,
    /// where it has one: below 2^32, and the same, and no other path's, for as long as the entry stays. That is for speed alone, and
    /// no clause tells of it. Takes no memory.
    pub fn visit(&mut self, path: &Path) -> Option<u32>
        ensures { self.new ≡ self.old }
    {
        match self.groups.visit(path) {
            Some(key) => Some(key.number()),
            None => None,
        }
    }

    /// The text of these bytes. Where an equal one was made shortly before, it takes no memory.
    #[inline(always)]
    pub fn text(&mut self, alloc: Global, bytes: &[u8]) -> Result<BoxedText, AllocError>
        ensures text { IfOk result (λ t. t ≡ bytes.now) }
        ensures same { self.new ≡ self.old }
    {
        self.texts.text(alloc, bytes)
    }

    /// An empty list of bytes, with the room of the one that was given back last. Takes no memory.
    pub fn take_room(&mut self) -> Vec<u8>
        ensures empty { result.items ≡ [] }
        ensures same { self.new ≡ self.old }
    {
        let alloc = *self.room.allocator();
        let mut room = replace(&mut self.room, Vec::new(alloc));
        room.clear();
        room
    }

    /// Gives a list's room back, for the next one.
    pub fn give_room(&mut self, room: Vec<u8>)
        ensures { self.new ≡ self.old }
    {
        self.room = room;
    }

    /// Where the path's text is long and it has an entry, it shares the text of that from now on, and lets go of its own: so what
    /// is kept of many commands keeps each path once. It stays the same path. Takes no memory.
    #[inline(always)]
    pub fn share(&self, alloc: Global, path: &mut Path)
        ensures { path.new ≡ path.old }
    {
        self.groups.share(alloc, path);
    }

    // The settings of each group, `None` at each dead path, and the group of each process.
    pub(crate) fn groups(&self) -> &Groups
        ensures present { present result.now.groups ≡ self.now.tree.groups }
        ensures entries { domain result.now.groups ≡ self.now.entries }
        ensures places { result.now.places ≡ self.now.tree.places }
        ensures rooted { IsRooted self.now }
    {
        &self.groups
    }

    /// All processes by ascending PID, each with the path of its group. Takes no memory.
    pub fn places(&self) -> Placed<'_>
        ensures { result ≡ entries self.now.tree.places }
    {
        Placed::new(&self.groups, &self.pids)
    }

    /// Makes a group with the settings at the path, which is the root's or whose parent is a group. An error, where there is no
    /// memory for a new entry, leaves the tree as it was; where the entry is there, it takes none.
    pub fn make_group(
        &mut self,
        alloc: Global,
        path: &Path,
        settings: CompactSettings,
    ) -> Result<(), AllocError>
        requires { may_have_entry self.old.tree path.now ≡ true }
        ensures tree { OnOk result (self.new.tree ≡ record self.old.tree { groups = set_at self.old.tree.groups path.now (Some settings) }) }
        ensures entries { OnOk result (self.new.entries ≡ with_entry (Some path.now) self.old.entries) }
        ensures err { OnErr result (self.new ≡ self.old) }
        ensures has_room { has_entry self.old path.now ≡ true → IsOk result }
    {
        // The path and the CPUs tell what holds of them.
        let _ = path.names();
        let _ = settings.cpus().contains(0);
        let is_limited = is_limited(settings.max_descendants(), settings.max_depth());
        self.groups.make_group(alloc, path, settings)?;
        self.may_limit |= is_limited;
        Ok(())
    }

    /// Forgets the dead entry of the path, if there is one. No entry lies below it, and no process is in it.
    pub fn sweep(&mut self, path: &Path)
        requires { MaySweepIfDead self.old path.now }
        ensures tree { self.new.tree ≡ self.old.tree }
        ensures entries { self.new.entries ≡ without_dead self.old path.now }
    {
        if !self.find(path) {
            self.groups.remove(path);
        }
    }

    /// The number of the entry that was visited last, or made, as `visit` gives it; any, where none was. It is for calls that look
    /// near it, to which any number may be given, so no clause tells of it.
    #[inline(always)]
    pub fn near(&self) -> u32 {
        self.groups.near().number()
    }

    /// Puts a group with the settings at the path, which has an entry, or takes the group there away. The entry stays. Where its
    /// number is `near`, it is found by a comparison; any number may be given. Takes no memory.
    pub fn put_group(&mut self, path: &Path, near: u32, mut settings: Option<CompactSettings>)
        requires { IsSome settings → has_entry self.old path.now ≡ true }
        ensures tree { self.new.tree ≡ record self.old.tree { groups = set_at self.old.tree.groups path.now settings } }
        ensures entries { self.new.entries ≡ self.old.entries }
    {
        // The path and the CPUs tell what holds of them.
        let _ = path.names();
        tell_cpus(&settings);
        self.may_limit |= has_limit(&settings);
        self.groups.replace(path, NodeKey::new(near), &mut settings);
    }

    /// Takes the group at the path away, if there is one, and gives its settings. The entry stays.
    pub fn take_group(&mut self, path: &Path) -> Option<CompactSettings>
        ensures group { result ≡ group self.old.tree path.now }
        ensures tree { self.new.tree ≡ record self.old.tree { groups = set_at self.old.tree.groups path.now None } }
        ensures entries { self.new.entries ≡ self.old.entries }
    {
        // As above.
        let _ = path.names();
        let mut taken = None;
        let near = self.groups.near();
        self.groups.replace(path, near, &mut taken);
        taken
    }

    /// Puts the value of one setting of the group at the path, if there is one. Where the number of its entry is `near`, it is found
    /// by a comparison; any number may be given. Takes no memory.
    pub fn put_value(&mut self, path: &Path, near: u32, value: NewValue)
        ensures tree { self.new.tree ≡ record self.old.tree { groups = set_at self.old.tree.groups path.now (with_new value (group self.old.tree path.now)) } }
        ensures entries { self.new.entries ≡ self.old.entries }
    {
        let _ = self.swap_value(path, near, value);
    }

    /// The same, and gives the value that the setting had. Takes no memory.
    #[inline(always)]
    pub fn swap_value(&mut self, path: &Path, near: u32, value: NewValue) -> Option<NewValue>
        ensures before { result ≡ option_map (value_there value) (group self.old.tree path.now) }
        ensures tree { self.new.tree ≡ record self.old.tree { groups = set_at self.old.tree.groups path.now (with_new value (group self.old.tree path.now)) } }
        ensures entries { self.new.entries ≡ self.old.entries }
    {
        // As above.
        let _ = path.names();
        value.tell_cpus();
        let is_limit = value.is_limit();
        let before = self.groups.change(path, NodeKey::new(near), value);
        self.may_limit |= before.is_some() & is_limit;
        before
    }

    /// Puts the process into the group at the path, which has an entry, if there is a process with this PID. Takes no memory.
    pub fn put_place(&mut self, pid: u32, path: &Path)
        requires { has_entry self.old path.now ≡ true }
        ensures tree { self.new.tree ≡ record self.old.tree { places = set_at self.old.tree.places pid (replaced (place_of self.old.tree pid) (Some path.now)) } }
        ensures entries { self.new.entries ≡ self.old.entries }
    {
        // As above.
        let _ = path.names();
        self.groups.put_process(pid, path);
    }

    /// Sets the CPUs that are online.
    pub fn put_online(&mut self, online: CpuSet)
        ensures tree { self.new.tree ≡ record self.old.tree { online = online } }
        ensures entries { self.new.entries ≡ self.old.entries }
    {
        // As above.
        let _ = online.contains(0);
        self.online = online;
    }
}

// Settings that are there tell what holds of their CPUs.
fn tell_cpus(settings: &Option<CompactSettings>)
    ensures { IfSome settings.now (λ s. AreCpusUpTo 1023 s.cpus) }
{
    if let Some(settings) = settings {
        let _ = settings.cpus().contains(0);
    }
}
