// The path that a tree looked up last, with what was found.
ghost use Rattle.std.specs.Prelude.{◌≡◌, ◌≢◌, ℕ, List, None, Some, IsTrue, OnErr, OnOk};
ghost use Rattle.cg_maps.specs.FiniteMap.{empty, get, set_at, FiniteMap};
ghost use Rattle.cg_name.specs.Path.{path_cmp};
ghost use Rattle.cg_path_tree.specs.declared.node.NodeKey.{NodeKey};
ghost use Rattle.cg_path_tree.specs.LastFound.{IsTrueOf};
ghost use Rattle.cg_path_tree.specs.Nodes.{HaveOnePath};

use crate::node::NodeKey;
use cg_name::Path;
use std::alloc::{AllocError, Global};

// A path, with what its tree has there. Most calls come in rows for one path: each after the first is then a comparison.
#[derive(Drop)]
pub(crate) struct LastFound {
    path: Path,
    // The node at the path, if there is one.
    pub(crate) node: Option<NodeKey>,
    // The node of the path one name shorter, if there is one; `None` for the root's.
    pub(crate) parent: Option<NodeKey>,
}

impl LastFound {
    // What is so of a tree that has no node.
    pub(crate) fn new(alloc: Global) -> LastFound
        ensures { IsTrueOf empty result }
    {
        LastFound {
            path: Path::root(alloc),
            node: None,
            parent: None,
        }
    }

    // Whether this is the path.
    #[inline(always)]
    pub(crate) fn is_of(&self, path: &Path) -> bool
        ensures { IsTrue result → self.now.path ≡ path.now }
    {
        self.path.is_same(path)
    }

    // Remembers this path and what was found for it. Takes no memory; an error where the path's text is shared by too many
    // to count, and all is then as it was.
    #[inline(always)]
    pub(crate) fn note(
        &mut self,
        alloc: Global,
        path: &Path,
        node: Option<NodeKey>,
        parent: Option<NodeKey>,
    ) -> Result<(), AllocError>
        ensures ok { OnOk result (self.new ≡ record { path = path.now; node = node; parent = parent }) }
        ensures err { OnErr result (self.new ≡ self.old) }
    {
        *self = LastFound {
            path: path.copy(alloc)?,
            node,
            parent,
        };
        Ok(())
    }

    // The same for a path that has no node, where it isn't remembered already.
    #[inline(always)]
    pub(crate) fn turn_to(
        &mut self,
        alloc: Global,
        path: &Path,
        parent: Option<NodeKey>,
    ) -> Result<(), AllocError>
        ensures path { OnOk result (self.new.path ≡ path.now) }
        ensures still { (keys : FiniteMap path_cmp NodeKey) → IsTrueOf keys (record { path = path.now; node = None; parent = parent }) → IsTrueOf keys self.old → IsTrueOf keys self.new }
    {
        if self.is_of(path) {
            return Ok(());
        }
        self.note(alloc, path, None, parent)
    }

    // The path has a node from now on.
    pub(crate) fn gain(&mut self, key: NodeKey)
        ensures { (keys : FiniteMap path_cmp NodeKey) → IsTrueOf keys self.old → IsTrueOf (set_at keys self.old.path (Some key)) self.new }
    {
        self.node = Some(key);
    }

    // The node with this key goes.
    pub(crate) fn lose(&mut self, key: NodeKey)
        ensures { (keys : FiniteMap path_cmp NodeKey) (p : List (List ℕ)) → HaveOnePath keys → get keys p ≡ Some key → IsTrueOf keys self.old → IsTrueOf (set_at keys p None) self.new }
    {
        self.node = other_than(self.node, key);
        self.parent = other_than(self.parent, key);
    }

    // All nodes go.
    pub(crate) fn clear(&mut self)
        ensures { IsTrueOf empty self.new }
    {
        self.node = None;
        self.parent = None;
    }
}

// What was found, where it is another node than this.
fn other_than(found: Option<NodeKey>, gone: NodeKey) -> Option<NodeKey>
    ensures gone { found ≡ Some gone → result ≡ None }
    ensures other { found ≢ Some gone → result ≡ found }
{
    if found == Some(gone) {
        return None;
    }
    found
}
