//! Trees of paths.
ghost use Rattle.std.specs.Prelude.{◌≡◌, ◌↔◌, ◌==◌, Bool, false, true, ◌<◌, ℕ, List, Contains, length, slice_get, not, is_some, IsTrue, IfOk, IfErr, IfSome, OnOk, OnErr, None, Some};
ghost use Rattle.std.specs.Borrow.{sem};
ghost use Rattle.std.specs.Fn.{FnReturnsAt};
ghost use Rattle.cg_maps.specs.FiniteMap.{empty, entries, get, len, retain, set_at};
ghost use Rattle.cg_name.specs.Packed.{names_in, IsPacked};
ghost use Rattle.cg_name.specs.Path.{is_parent, is_root};
ghost use Rattle.cg_path_tree.specs.Nodes.{parent_path, path_of, with_paths, AreClosed, ArePassing, HaveOnePath, HasParent, IsKey, IsLeaf, IsRightBelow};

use crate::chains::{hash_of, link, make_chains, unlink};
use crate::entering::{enter, leave};
use crate::last_found::LastFound;
use crate::node::{NO_KEY, Node, NodeKey, add_child, make_room, remove_child};
use crate::path_text::text;
use crate::sorting::in_order;
use cg_name::{Path, PathRef};
use slab::Slab;
use std::alloc::{AllocError, AllocFailed, Global};
use std::marker::Model;

// How many bytes a text has at least that is worth a look-up, to be shared. A shorter one stands in its path.
const WORTH_SHARING: usize = 13;

/// A tree of paths with a value at each. Where it has a node it has one at each prefix of its path. A node is found by its
/// path in one look-up, and then known by its key, from which its value and its parent are a step away.
pub struct PathTree<V> {
    // The first node of each chain, or `NO_KEY`. A path's node is in the chain for the hash of its text.
    pub(crate) heads: Vec<NodeKey>,
    // The keys of all nodes. A node knows the number of its key.
    pub(crate) order: Vec<NodeKey>,
    pub(crate) nodes: Slab<Node<V>>,
    // What was found for the path that was looked up last.
    pub(crate) last: LastFound,
}

// By hand, so that whoever drops one calls this, and doesn't drop each thing in it: that makes proofs shorter.
impl<V: Drop> Drop for PathTree<V> {
    fn drop(self) {
        let PathTree {
            heads: _,
            order: _,
            nodes: _,
            last: _,
        } = self;
    }
}

impl<V> Model for PathTree<V> {
    ghost use Rattle.cg_path_tree.specs.Nodes.{Nodes, nodes_code};

    ghost Value = { Nodes V };

    ghost coded = { nodes_code V.code };

    ghost use Rattle.cg_path_tree.specs.LastFound.{AreKept};
    ghost use Rattle.cg_path_tree.specs.Linked.{entries_of, seen};

    ghost view = { λ t. seen (entries_of t.nodes t.order.items) t.nodes };

    ghost invariant = { λ t. AreKept t.heads.items t.order.items t.nodes t.last };
}

impl<V: Drop> PathTree<V> {
    ghost use Rattle.cg_path_tree.specs.Lends.{lends_value};

    /// A tree with no node.
    pub fn new(alloc: Global) -> PathTree<V>
        ensures values { result.values ≡ empty }
        ensures keys { result.keys ≡ empty }
    {
        PathTree {
            heads: Vec::new(alloc),
            order: Vec::new(alloc),
            nodes: Slab::new(alloc),
            last: LastFound::new(alloc),
        }
    }

    /// What holds of every tree: where it has a node it has one at each prefix, no key is that of two paths, and the same
    /// paths have keys and values. Does nothing.
    pub fn laws(&self)
        ensures closed { AreClosed self.now.keys }
        ensures one_path { HaveOnePath self.now.keys }
        ensures both { (p : List (List ℕ)) → is_some (get self.now.values p) ≡ is_some (get self.now.keys p) }
    {
        let _ = &self.order;
    }

    /// How many nodes there are: fewer than 2^32.
    pub fn len(&self) -> usize
        ensures value { result ≡ len self.now.keys }
        ensures few { result < 4294967296 }
    {
        self.order.len()
    }

    /// Whether there is no node.
    pub fn is_empty(&self) -> bool
        ensures { result ≡ (len self.now.keys == 0) }
    {
        self.len() == 0
    }

    /// Whether the key is that of a node. One that `find` gave is, until its node is removed.
    pub fn is_live_key(&self, key: NodeKey) -> bool
        ensures { IsTrue result ↔ IsKey self.now.keys key }
    {
        self.nodes.contains(key.number() as usize)
    }

    /// The value of the node with that key.
    pub fn get(&self, key: NodeKey) -> &V
        requires { IsKey self.now.keys key }
        ensures { (p : List (List ℕ)) → get self.now.keys p ≡ Some key → get self.now.values p ≡ Some result.now }
    {
        &self.nodes[key.number() as usize].value
    }

    /// The value of the node with that key, to be written.
    pub fn get_mut(&mut self, key: NodeKey) -> &mut V
        requires { IsKey self.old.keys key }
        ensures* writes_back { sem 𝓛 (lends_value V.row self.entry key result) }
        ensures path { (p : List (List ℕ)) → get self.old.keys p ≡ Some key → path_of self.old.keys key ≡ p }
        ensures value { (p : List (List ℕ)) → get self.old.keys p ≡ Some key → get self.old.values p ≡ Some result.now }
    {
        &mut self.nodes[key.number() as usize].value
    }

    /// The node one name shorter; `None` for the root's alone.
    pub fn parent(&self, key: NodeKey) -> Option<NodeKey>
        requires { IsKey self.now.keys key }
        ensures root { (p : List (List ℕ)) → get self.now.keys p ≡ Some key → is_some result ≡ not (is_root p) }
        ensures value { (p : List (List ℕ)) → get self.now.keys p ≡ Some key → is_root p ≡ false → result ≡ get self.now.keys (parent_path p) }
    {
        let node = &self.nodes[key.number() as usize];
        node.parent()
    }

    /// How many names the path of the node has, from 0 to 64.
    pub fn depth(&self, key: NodeKey) -> u32
        requires { IsKey self.now.keys key }
        ensures { (p : List (List ℕ)) → get self.now.keys p ≡ Some key → result ≡ length p }
    {
        self.nodes[key.number() as usize].depth
    }

    // How many names the path has, of which this is the node one name shorter.
    fn depth_below(&self, path: &Path, parent: Option<NodeKey>) -> u32
        requires there { HasParent self.now.keys path.now }
        requires root { is_root path.now ≡ true → parent ≡ None }
        requires parent { is_root path.now ≡ false → parent ≡ get self.now.keys (parent_path path.now) }
        ensures { result ≡ length path.now }
    {
        // The path tells that it has few names.
        let _ = path.names();
        match parent {
            Some(parent) => self.depth(parent) + 1,
            None => 0,
        }
    }

    /// How many nodes lie right below the one with that key.
    pub fn child_count(&self, key: NodeKey) -> u32
        requires { IsKey self.now.keys key }
        ensures count { (p : List (List ℕ)) → get self.now.keys p ≡ Some key → result ≡ len (retain self.now.keys (is_parent p)) }
        ensures leaf { (p : List (List ℕ)) → get self.now.keys p ≡ Some key → result ≡ 0 → IsLeaf self.now.keys p }
    {
        self.nodes[key.number() as usize].children.len() as u32
    }

    /// The nodes right below the one with that key, in no order.
    pub fn children(&self, key: NodeKey) -> &[NodeKey]
        requires { IsKey self.now.keys key }
        ensures below { (p : List (List ℕ)) → get self.now.keys p ≡ Some key → (k : NodeKey) → Contains result.now k ↔ IsRightBelow self.now.keys p k }
        ensures once { (i j : ℕ) (k : NodeKey) → slice_get result.now i ≡ Some k → slice_get result.now j ≡ Some k → i ≡ j }
        ensures count { (p : List (List ℕ)) → get self.now.keys p ≡ Some key → length result.now ≡ len (retain self.now.keys (is_parent p)) }
    {
        &self.nodes[key.number() as usize].children
    }

    /// These nodes, in the order of their paths: all that pass a test which the paths of these pass, and of no other node.
    pub fn sort(&self, alloc: Global, nodes: &[NodeKey]) -> Result<Vec<NodeKey>, AllocError>
        requires live { (i : ℕ) (k : NodeKey) → slice_get nodes.now i ≡ Some k → IsKey self.now.keys k }
        requires once { (i j : ℕ) (k : NodeKey) → slice_get nodes.now i ≡ Some k → slice_get nodes.now j ≡ Some k → i ≡ j }
        ensures { IfOk result (λ found. (test : List (List ℕ) → Bool) → ArePassing self.now.keys test nodes.now → with_paths self.now.keys found.items ≡ entries (retain self.now.keys test)) }
    {
        self.laws();
        let mut found = Vec::with_capacity(alloc, nodes.len())?;
        for node in nodes {
            found.push((self.text_of(*node), *node))?;
        }
        in_order(alloc, found)
    }

    /// Whether all values pass the test. Looks at each, until one doesn't, and takes no memory.
    pub fn all<F: Fn(&V) -> bool>(&self, test: F) -> bool
        requires { F.IsAlwaysCallable test }
        ensures { IsTrue result → (p : List (List ℕ)) (v : _) → get self.now.values p ≡ Some v → FnReturnsAt F.Fn test v true }
    {
        for key in &self.order {
            if !test(&self.nodes[key.number() as usize].value) {
                return false;
            }
        }
        true
    }

    /// All nodes, in the order of their paths.
    pub fn sorted(&self, alloc: Global) -> Result<Vec<NodeKey>, AllocError>
        ensures { IfOk result (λ found. with_paths self.now.keys found.items ≡ entries self.now.keys) }
    {
        self.sort(alloc, &self.order)
    }

    // The text of the path of the node with that key.
    pub(crate) fn text_of(&self, key: NodeKey) -> &str
        requires { IsKey self.now.keys key }
        ensures packed { IsPacked result.now }
        ensures found { get self.now.keys (names_in result.now) ≡ Some key }
    {
        text(self.own_path(key))
    }

    // The path of the node with that key, as that keeps it.
    pub(crate) fn own_path(&self, key: NodeKey) -> &Path
        requires { IsKey self.now.keys key }
        ensures { get self.now.keys result.now ≡ Some key }
    {
        &self.nodes[key.number() as usize].path
    }

    /// Where the path's text is long and it has a node, it shares the text of that from now on, and lets go of its own. It stays
    /// the same path. Takes no memory.
    pub fn share(&self, alloc: Global, path: &mut Path)
        ensures { path.new ≡ path.old }
    {
        if path.as_bytes().len() < WORTH_SHARING {
            return;
        }
        self.laws();
        let Some(key) = self.find(path) else {
            return;
        };
        if let Ok(own) = self.own_path(key).copy(alloc) {
            *path = own;
        }
    }

    /// The path of the node with that key.
    pub fn path(&self, key: NodeKey) -> PathRef<'_>
        requires { IsKey self.now.keys key }
        ensures { get self.now.keys result ≡ Some key }
    {
        PathRef::new(self.text_of(key).as_bytes())
    }

    /// Puts a node with that value at a path that has none, the root's or right below a node. Where there is no memory for
    /// it the value is handed back, and all is as it was.
    pub fn add(&mut self, alloc: Global, path: &Path, value: V) -> Result<NodeKey, AllocFailed<V>>
        requires absent { get self.old.keys path.now ≡ None }
        requires parent { HasParent self.old.keys path.now }
        ensures keys { IfOk result (λ key. self.new.keys ≡ set_at self.old.keys path.now (Some key)) }
        ensures values { OnOk result (self.new.values ≡ set_at self.old.values path.now (Some value)) }
        ensures fresh { IfOk result (λ key. ¬ (IsKey self.old.keys key)) }
        ensures value_returned { IfErr result (λ failed. failed.value ≡ value) }
        ensures err { OnErr result (self.new ≡ self.old) }
    {
        let parent = self.find_parent(path);
        self.add_below(alloc, path, parent, value)
    }

    /// The same, where the node of the path one name shorter is known already, as `find_parent` gives it: the path is looked
    /// up once.
    #[inline(always)]
    pub fn add_below(
        &mut self,
        alloc: Global,
        path: &Path,
        parent: Option<NodeKey>,
        value: V,
    ) -> Result<NodeKey, AllocFailed<V>>
        requires absent { get self.old.keys path.now ≡ None }
        requires there { HasParent self.old.keys path.now }
        requires root { is_root path.now ≡ true → parent ≡ None }
        requires parent { is_root path.now ≡ false → parent ≡ get self.old.keys (parent_path path.now) }
        ensures keys { IfOk result (λ key. self.new.keys ≡ set_at self.old.keys path.now (Some key)) }
        ensures values { OnOk result (self.new.values ≡ set_at self.old.values path.now (Some value)) }
        ensures fresh { IfOk result (λ key. ¬ (IsKey self.old.keys key)) }
        ensures value_returned { IfErr result (λ failed. failed.value ≡ value) }
        ensures err { OnErr result (self.new ≡ self.old) }
    {
        let depth = self.depth_below(path, parent);
        let Ok(own) = path.copy(alloc) else {
            return Err(AllocFailed { value });
        };
        let Ok(()) = self.last.turn_to(alloc, path, parent) else {
            return Err(AllocFailed { value });
        };
        let Ok(()) = make_chains(&mut self.heads, &mut self.nodes, alloc, &self.order) else {
            return Err(AllocFailed { value });
        };
        let Ok(place) = make_room(&mut self.nodes, parent) else {
            return Err(AllocFailed { value });
        };
        let Ok((key, entry)) = enter(&mut self.order, &mut self.nodes) else {
            return Err(AllocFailed { value });
        };
        self.nodes.insert_reserved(Node {
            hash: hash_of(text(&own)),
            path: own,
            next: NO_KEY,
            entry,
            parent: parent.unwrap_or(key),
            depth,
            place,
            children: Vec::new(alloc),
            value,
        });
        link(&mut self.heads, &mut self.nodes, key);
        add_child(&mut self.nodes, parent, key);
        self.last.gain(key);
        Ok(key)
    }

    /// Takes out a node that has none right below, and gives its value. Takes no memory.
    #[inline(always)]
    pub fn remove(&mut self, key: NodeKey) -> V
        requires there { IsKey self.old.keys key }
        requires leaf { (p : List (List ℕ)) → get self.old.keys p ≡ Some key → IsLeaf self.old.keys p }
        ensures keys { (p : List (List ℕ)) → get self.old.keys p ≡ Some key → self.new.keys ≡ set_at self.old.keys p None }
        ensures values { (p : List (List ℕ)) → get self.old.keys p ≡ Some key → self.new.values ≡ set_at self.old.values p None }
        ensures value { (p : List (List ℕ)) → get self.old.keys p ≡ Some key → get self.old.values p ≡ Some result }
    {
        unlink(&mut self.heads, &mut self.nodes, key);
        let node = self.nodes.remove(key.number() as usize);
        leave(&mut self.order, &mut self.nodes, node.entry);
        remove_child(&mut self.nodes, node.parent(), node.place);
        self.last.lose(key);
        node.value
    }

    /// Takes all nodes out. The memory for as many stays.
    pub fn clear(&mut self)
        ensures values { self.new.values ≡ empty }
        ensures keys { self.new.keys ≡ empty }
    {
        self.heads.fill(NO_KEY);
        self.order.clear();
        self.nodes.clear();
        self.last.clear();
    }
}
