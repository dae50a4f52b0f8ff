// The groups of a tree and its dead paths, each found by one look-up, with how many groups are below and whether it is populated,
// and the processes in them.
ghost use Rattle.std.specs.Prelude.{◌≡◌, ◌≢◌, ◌≤◌, ◌<◌, ℕ, false, filter, is_some, length, option_copied, option_map, suc, true, take, IsSome, IfOk, IsOk, OnErr, OnOk, Some, None};
ghost use Rattle.std.specs.Option.{option_flatten};
ghost use Rattle.cg_maps.specs.FiniteMap.{empty, entries, get, is_nonempty, keys, retain, set_at};
ghost use Rattle.cg_model.specs.Control.{used_below};
ghost use Rattle.cg_model.specs.Derived.{is_in, is_in_subtree};
ghost use Rattle.cg_model.specs.Key.{replaced};
ghost use Rattle.cg_name.specs.Path.{is_above, is_parent, is_root};
ghost use Rattle.cg_path_tree.specs.Nodes.{number_of, parent_path};
ghost use Rattle.cg_tree.specs.Alive.{HaveSettings};
ghost use Rattle.cg_tree.specs.Ancestors.{ancestor_in, downward};
ghost use Rattle.cg_tree.specs.Entries.{group_count};
ghost use Rattle.cg_tree.specs.Listing.{asks_for_cpus};
ghost use Rattle.cg_tree.specs.NewValue.{value_there, with_new};
ghost use Rattle.cg_tree.specs.Present.{present};

use crate::ancestors::{Ancestors, deepest, deepest_above};
use crate::counting::{add_dead, count_process, put, put_value};
use crate::entry::Entry;
use crate::listed::{Listed, asking_for_cpus};
use crate::looking::{entry, parent_entry, prefix_entry};
use crate::new_value::NewValue;
use cg_boxed::CompactSettings;
use cg_name::{Path, PathRef};
use cg_path_tree::{NodeKey, PathTree};
use cg_places::Places;
use cg_text::Controllers;
use std::alloc::{AllocError, Global};
use std::marker::Model;

// The settings of each group, `None` at each dead path, and the group of each process.
pub(crate) struct Groups {
    nodes: PathTree<Entry>,
    // A group's number is that of its node's key.
    places: Places,
}

// By hand, so that whoever drops one calls this, and doesn't drop each thing in it: that makes proofs shorter.
impl Drop for Groups {
    fn drop(self) {
        let Groups {
            nodes: _,
            places: _,
        } = self;
    }
}

impl Model for Groups {
    ghost use Rattle.cg_tree.specs.Contents.{contents_code, contents_of, AreKept, Contents};

    ghost Value = { Contents };

    ghost coded = { contents_code };

    ghost view = { λ g. contents_of g.nodes g.places };

    ghost invariant = { λ g. AreKept g.nodes g.places };
}

impl Groups {
    // No entry, and no process.
    pub(crate) fn new(alloc: Global) -> Groups
        ensures groups { result.groups ≡ empty }
        ensures places { result.places ≡ empty }
    {
        Groups {
            nodes: PathTree::new(alloc),
            places: Places::new(alloc),
        }
    }

    // What the map has at the path.
    pub(crate) fn get(&self, path: &Path) -> Option<&Option<CompactSettings>>
        ensures { option_copied result ≡ get self.now.groups path.now }
    {
        Some(&entry(&self.nodes, path)?.settings)
    }

    // What the map has at the path one name shorter; none for the root's.
    pub(crate) fn get_parent(&self, path: &Path) -> Option<&Option<CompactSettings>>
        ensures root { is_root path.now ≡ true → option_copied result ≡ None }
        ensures value { is_root path.now ≡ false → option_copied result ≡ get self.now.groups (parent_path path.now) }
    {
        Some(&parent_entry(&self.nodes, path)?.settings)
    }

    // Whether there is a group at the path.
    pub(crate) fn has_group(&self, path: &Path) -> bool
        ensures { result ≡ is_some (option_flatten (get self.now.groups path.now)) }
    {
        match entry(&self.nodes, path) {
            Some(entry) => entry.settings.is_some(),
            None => false,
        }
    }

    // Whether the map has an entry at the path.
    pub(crate) fn contains(&self, path: &Path) -> bool
        ensures { result ≡ is_some (get self.now.groups path.now) }
    {
        self.nodes.laws();
        self.nodes.find(path).is_some()
    }

    // Whether the map may have an entry with no settings. The root's entry tells how many groups are below it.
    pub(crate) fn has_dead(&self) -> bool
        ensures { result ≡ false → HaveSettings self.now.groups }
    {
        self.nodes.laws();
        let Some(root) = self.nodes.root_value() else {
            return true;
        };
        root.settings.is_none() || self.nodes.len() != root.below as usize + 1
    }

    // Looks the path up once, so that the calls that follow with the same path find it by a comparison, and gives its node, where it
    // has one. Takes no memory.
    pub(crate) fn visit(&mut self, path: &Path) -> Option<NodeKey>
        ensures { self.new ≡ self.old }
    {
        self.nodes.visit(path)
    }

    // The path gets the text of its node, where it has one, and stays the same.
    pub(crate) fn share(&self, alloc: Global, path: &mut Path)
        ensures { path.new ≡ path.old }
    {
        self.nodes.share(alloc, path);
    }

    // Makes a group at a path that has no entry, the root's or one whose parent has an entry; an error where there is no
    // memory for its entry, which leaves all as it was.
    #[inline(always)]
    pub(crate) fn insert(
        &mut self,
        alloc: Global,
        path: &Path,
        settings: CompactSettings,
    ) -> Result<(), AllocError>
        requires absent { get self.old.groups path.now ≡ None }
        requires parent { is_root path.now ≡ false → IsSome (get self.old.groups (parent_path path.now)) }
        ensures ok { OnOk result (self.new.groups ≡ set_at self.old.groups path.now (Some (Some settings))) }
        ensures places { self.new.places ≡ self.old.places }
        ensures err { OnErr result (self.new ≡ self.old) }
    {
        self.nodes.laws();
        let key = add_dead(&mut self.nodes, alloc, path)?;
        self.nodes.laws();
        let Ok(()) = make_room(&mut self.places, key) else {
            self.nodes.remove(key);
            return Err(AllocError);
        };
        put(&mut self.nodes, key, &mut Some(settings));
        Ok(())
    }

    // Makes a group at a path, the root's or one whose parent has an entry: in the entry that is there, or in a new one. An
    // error, where there is no memory for that, leaves all as it was.
    pub(crate) fn make_group(
        &mut self,
        alloc: Global,
        path: &Path,
        settings: CompactSettings,
    ) -> Result<(), AllocError>
        requires { is_root path.now ≡ false → IsSome (get self.old.groups (parent_path path.now)) }
        ensures ok { OnOk result (self.new.groups ≡ set_at self.old.groups path.now (Some (Some settings))) }
        ensures places { self.new.places ≡ self.old.places }
        ensures err { OnErr result (self.new ≡ self.old) }
        ensures there { IsSome (get self.old.groups path.now) → IsOk result }
    {
        let found = self.nodes.visit(path);
        self.nodes.laws();
        let Some(key) = found else {
            return self.insert(alloc, path, settings);
        };
        put(&mut self.nodes, key, &mut Some(settings));
        Ok(())
    }

    // The key of the node that was found last, to look near.
    pub(crate) fn near(&self) -> NodeKey {
        self.nodes.near()
    }

    // Puts the settings into the entry at the path, if there is one, and leaves those before in their place. The entry's node is
    // most likely the one near, which may be any.
    pub(crate) fn replace(
        &mut self,
        path: &Path,
        near: NodeKey,
        settings: &mut Option<CompactSettings>,
    )
        ensures there { IsSome (get self.old.groups path.now) → self.new.groups ≡ set_at self.old.groups path.now (Some settings.old) }
        ensures absent { get self.old.groups path.now ≡ None → self.new.groups ≡ self.old.groups }
        ensures places { self.new.places ≡ self.old.places }
        ensures before { IsSome (get self.old.groups path.now) → settings.new ≡ option_flatten (get self.old.groups path.now) }
        ensures untouched { get self.old.groups path.now ≡ None → settings.new ≡ settings.old }
    {
        let found = self.nodes.visit_from(path, near);
        self.nodes.laws();
        if let Some(key) = found {
            put(&mut self.nodes, key, settings);
        }
    }

    // Puts the value of one setting of the group at the path, if there is a group, and gives the value before. Its node is most
    // likely the one near, which may be any.
    pub(crate) fn change(&mut self, path: &Path, near: NodeKey, value: NewValue) -> Option<NewValue>
        ensures before { result ≡ option_map (value_there value) (option_flatten (get self.old.groups path.now)) }
        ensures groups { self.new.groups ≡ set_at self.old.groups path.now (option_map (with_new value) (get self.old.groups path.now)) }
        ensures places { self.new.places ≡ self.old.places }
    {
        let found = self.nodes.visit_from(path, near);
        self.nodes.laws();
        let Some(key) = found else {
            return None;
        };
        put_value(&mut self.nodes, key, value)
    }

    // Takes out the entry at the path, if there is one: it is no group's, none is right below it, and no process is in it.
    pub(crate) fn remove(&mut self, path: &Path)
        requires dead { option_flatten (get self.old.groups path.now) ≡ None }
        requires leaf { IsSome (get self.old.groups path.now) → (q : _) → is_parent path.now q ≡ true → get self.old.groups q ≡ None }
        requires unused { IsSome (get self.old.groups path.now) → (pid : ℕ) → get self.old.places pid ≢ Some path.now }
        ensures groups { self.new.groups ≡ set_at self.old.groups path.now None }
        ensures places { self.new.places ≡ self.old.places }
    {
        let found = self.nodes.visit(path);
        self.nodes.laws();
        if let Some(key) = found {
            self.nodes.remove(key);
            self.nodes.laws();
        }
    }

    // How many groups are below the path of the first `depth` names, or of all where there are fewer.
    pub(crate) fn descendants(&self, path: &Path, depth: u32) -> u32
        ensures { result ≡ group_count self.now.groups (is_above (take depth path.now)) }
    {
        self.nodes.laws();
        match prefix_entry(&self.nodes, path, depth) {
            Some(entry) => entry.below,
            None => 0,
        }
    }

    // What the map has at the path and at each above it.
    pub(crate) fn ancestors(&self, path: &Path) -> Ancestors<'_>
        ensures { result ≡ downward (ancestor_in self.now.groups path.now) (suc (length path.now)) }
    {
        self.nodes.laws();
        let (at, depth) = deepest(&self.nodes, path);
        Ancestors::new(&self.nodes, at, depth + 1)
    }

    // What the map has at each path above.
    pub(crate) fn above(&self, path: &Path) -> Ancestors<'_>
        ensures { result ≡ downward (ancestor_in self.now.groups path.now) (length path.now) }
    {
        self.nodes.laws();
        let at = deepest_above(&self.nodes, path);
        Ancestors::new(&self.nodes, at, path.depth())
    }

    // Whether a group is right below the path.
    pub(crate) fn has_children(&self, path: &Path) -> bool
        ensures { result ≡ is_nonempty (entries (retain (present self.now.groups) (is_parent path.now))) }
    {
        self.nodes.laws();
        match entry(&self.nodes, path) {
            Some(entry) => entry.right_below > 0,
            None => false,
        }
    }

    // The groups, in the order of their paths.
    pub(crate) fn present_groups(&self, alloc: Global) -> Result<Listed<'_>, AllocError>
        ensures { IfOk result (λ l. l ≡ entries (present self.now.groups)) }
    {
        self.nodes.laws();
        let keys = self.nodes.sorted(alloc)?;
        Ok(Listed::new(&self.nodes, keys))
    }

    // The groups right below the path, in the order of their paths.
    pub(crate) fn children(&self, alloc: Global, path: &Path) -> Result<Listed<'_>, AllocError>
        ensures { IfOk result (λ l. l ≡ entries (retain (present self.now.groups) (is_parent path.now))) }
    {
        self.nodes.laws();
        let Some(key) = self.nodes.find(path) else {
            return Ok(Listed::new(&self.nodes, Vec::new(alloc)));
        };
        let keys = self.nodes.sort(alloc, self.nodes.children(key))?;
        Ok(Listed::new(&self.nodes, keys))
    }

    // The groups right below the path that ask for CPUs, in the order of their paths. Only these are put in order.
    pub(crate) fn children_with_cpus(
        &self,
        alloc: Global,
        path: &Path,
    ) -> Result<Listed<'_>, AllocError>
        ensures { IfOk result (λ l. l ≡ filter asks_for_cpus (entries (retain (present self.now.groups) (is_parent path.now)))) }
    {
        self.nodes.laws();
        let Some(key) = self.nodes.find(path) else {
            return Ok(Listed::new(&self.nodes, Vec::new(alloc)));
        };
        let asking = asking_for_cpus(alloc, &self.nodes, self.nodes.children(key))?;
        let keys = self.nodes.sort(alloc, &asking)?;
        Ok(Listed::new(&self.nodes, keys))
    }

    // The controllers that a group right below the path passes on.
    pub(crate) fn control_below(&self, path: &Path) -> Controllers
        ensures { result ≡ used_below (entries (retain (present self.now.groups) (is_parent path.now))) }
    {
        self.nodes.laws();
        match entry(&self.nodes, path) {
            Some(entry) => entry.passing.controllers(),
            None => Controllers::empty(),
        }
    }

    // Puts a process that isn't there into the group at the path, which has an entry; an error where there is no memory.
    pub(crate) fn add_process(&mut self, pid: u32, path: &Path) -> Result<(), AllocError>
        requires absent { get self.old.places pid ≡ None }
        requires entry { IsSome (get self.old.groups path.now) }
        ensures groups { self.new.groups ≡ self.old.groups }
        ensures places { OnOk result (self.new.places ≡ set_at self.old.places pid (Some path.now)) }
    {
        let found = self.nodes.visit(path);
        self.nodes.laws();
        let Some(key) = found else {
            return Err(AllocError);
        };
        self.places.add(pid, key.number())?;
        // They can tell how many they are, fewer than 2^32, so that each count has room.
        let _ = self.places.len();
        count_process(&mut self.nodes, key, true);
        Ok(())
    }

    // Moves the process to the group at the path, which has an entry, if there is a process with this PID.
    pub(crate) fn put_process(&mut self, pid: u32, path: &Path)
        requires { IsSome (get self.old.groups path.now) }
        ensures groups { self.new.groups ≡ self.old.groups }
        ensures places { self.new.places ≡ set_at self.old.places pid (replaced (get self.old.places pid) (Some path.now)) }
    {
        let found = self.nodes.visit(path);
        self.nodes.laws();
        let Some(key) = found else {
            return;
        };
        let Some(group) = self.places.group_of(pid) else {
            return;
        };
        count_process(&mut self.nodes, NodeKey::new(group), false);
        self.places.put(pid, key.number());
        // As in `add_process`.
        let _ = self.places.len();
        count_process(&mut self.nodes, key, true);
    }

    // Whether some process has this PID.
    pub(crate) fn has_process(&self, pid: u32) -> bool
        ensures { result ≡ is_some (get self.now.places pid) }
    {
        self.places.has(pid)
    }

    // The path of the group of the process, if one has this PID.
    pub(crate) fn place(&self, pid: u32) -> Option<PathRef<'_>>
        ensures { result ≡ get self.now.places pid }
    {
        self.nodes.laws();
        let group = self.places.group_of(pid)?;
        Some(self.nodes.path(NodeKey::new(group)))
    }

    // Whether the process is in the group at the path.
    pub(crate) fn is_at(&self, pid: u32, path: &Path) -> bool
        ensures { result ≡ is_in path.now (get self.now.places pid) }
    {
        self.nodes.laws();
        let Some(group) = self.places.group_of(pid) else {
            return false;
        };
        match self.nodes.find(path) {
            Some(key) => key.number() == group,
            None => false,
        }
    }

    // Whether some process is in the group at the path.
    pub(crate) fn has_processes(&self, path: &Path) -> bool
        ensures { result ≡ is_nonempty (keys (retain self.now.places (λ k. is_in path.now (get self.now.places k)))) }
    {
        self.nodes.laws();
        match self.nodes.find(path) {
            Some(key) => !self.places.is_empty(key.number()),
            None => false,
        }
    }

    // Whether some process is in the group at the path or in one below it.
    pub(crate) fn is_populated(&self, path: &Path) -> bool
        ensures { result ≡ is_nonempty (keys (retain self.now.places (λ k. is_in_subtree path.now (get self.now.places k)))) }
    {
        self.nodes.laws();
        match entry(&self.nodes, path) {
            Some(entry) => entry.populated_by > 0,
            None => false,
        }
    }

    // The processes in the group at the path, ascending.
    pub(crate) fn processes(&self, alloc: Global, path: &Path) -> Result<Vec<u32>, AllocError>
        ensures { IfOk result (λ pids. pids.items ≡ keys (retain self.now.places (λ k. is_in path.now (get self.now.places k)))) }
    {
        self.nodes.laws();
        match self.nodes.find(path) {
            Some(key) => self.places.pids_in(alloc, key.number()),
            None => Ok(Vec::new(alloc)),
        }
    }
}

// Makes room for processes in the group of the node. Where there is no memory for it, all is as it was.
fn make_room(places: &mut Places, key: NodeKey) -> Result<(), AllocError>
    ensures places { places.new.places ≡ places.old.places }
    ensures more { places.old.groups ≤ places.new.groups }
    ensures room { OnOk result (number_of key < places.new.groups) }
{
    let Some(groups) = key.number().checked_add(1) else {
        return Err(AllocError);
    };
    places.make_room(groups)
}
