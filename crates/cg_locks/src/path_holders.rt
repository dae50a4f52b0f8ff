//! The holders of marks at paths, in one tree of them.
ghost use Rattle.std.specs.Prelude.{◌≡◌, ◌<◌, ◌≤◌, ◌↔◌, List, ◌∷◌, ℕ, None, Some, IfNone, IfSome, IsTrue, OnErr, OnOk, length, option_map, take};
ghost use Rattle.cg_maps.specs.FiniteMap.{get};
ghost use Rattle.cg_path_tree.specs.Nodes.{IsKey};
ghost use Rattle.cg_locks.specs.Counts.{prefixes, AreDescending};
ghost use Rattle.cg_locks.specs.Held.{in_way, of_kind, AreCountedMore, IsMarkedAlike, IsMarkedMore};
ghost use Rattle.cg_locks.specs.Holders.{held_at, held_on, number_of, times_on, IsLeastOther};
ghost use Rattle.cg_locks.specs.declared.held.Kind.{Kind};

use crate::counted;
use crate::held::{Held, Kind, Part};
use crate::holders::lesser;
use crate::numbered::Numbered;
use crate::upward::{add_mark, drop_unneeded, least_above, reach, remove_mark};
use cg_name::{Path, TxnNumber};
use cg_path_tree::{NodeKey, PathTree};
use std::alloc::{AllocError, Global};
use std::marker::Model;

// Who holds marks at paths. Where there is a node, there is one at each prefix.
pub(crate) struct PathHolders {
    nodes: PathTree<Held>,
    // These tell nothing but where to look first: for a path with a number, and for the one that was visited last.
    found: Numbered,
    near: NodeKey,
}

// By hand, so that whoever drops one calls this, and doesn't drop each thing in it: that makes proofs shorter.
impl Drop for PathHolders {
    fn drop(self) {
        let PathHolders {
            nodes: _,
            found: _,
            near: _,
        } = self;
    }
}

impl Model for PathHolders {
    ghost use Rattle.cg_locks.specs.Held.{Marked, marked_code};

    ghost Value = { Marked };

    ghost coded = { marked_code };

    ghost use Rattle.cg_locks.specs.HeldByPath.{marked, AreSummedUp};

    ghost view = { λ h. marked h.nodes.values };

    ghost invariant = { λ h. AreSummedUp h.nodes.values };
}

impl PathHolders {
    // No marks.
    pub(crate) fn new(alloc: Global) -> PathHolders
        ensures { (k : Kind) (p : List (List ℕ)) (u : ℕ) → held_at (of_kind result k) p u ≡ 0 }
    {
        PathHolders {
            nodes: PathTree::new(alloc),
            found: Numbered::new(alloc),
            near: no_node(),
        }
    }

    // Looks the path up, so that the calls that come next with it find its node by a comparison. Takes no memory.
    pub(crate) fn visit(&mut self, path: &Path)
        ensures { self.new ≡ self.old }
    {
        self.near = self.nodes.visit(path).unwrap_or(no_node());
    }

    // The same of a path with a number of its own: what was found for that number before is looked at first.
    pub(crate) fn visit_numbered(&mut self, path: &Path, number: u32)
        ensures { self.new ≡ self.old }
    {
        let noted = self.found.get(number);
        self.near = self.nodes.visit_near(path, noted).unwrap_or(no_node());
        if self.near != noted {
            self.found.note(number, self.near);
        }
    }

    // Makes room for what visits are to note. An error, where there is no memory for it, leaves all as it was.
    #[inline(always)]
    pub(crate) fn make_room(&mut self) -> Result<(), AllocError>
        ensures { self.new ≡ self.old }
    {
        self.found.make_room()
    }

    // How often the transaction holds the mark of this kind at the path.
    pub(crate) fn count(&self, kind: Kind, path: &Path, transaction: TxnNumber) -> u32
        ensures { result ≡ held_at (of_kind self.now kind) path.now transaction.0 }
    {
        self.nodes.laws();
        match self.nodes.find(path) {
            Some(key) => {
                let held = self.nodes.get(key);
                held.count(kind.at_path(), transaction)
            }
            None => 0,
        }
    }

    // Whether the root's node tells of no mark at a path.
    #[inline(always)]
    pub(crate) fn is_quiet(&self) -> bool {
        match self.nodes.root_value() {
            Some(root) => root.is_empty(),
            None => true,
        }
    }

    // The least other transaction that holds what clashes with the mark of this kind at the path.
    #[inline(always)]
    pub(crate) fn least_in_way(
        &self,
        kind: Kind,
        path: &Path,
        transaction: TxnNumber,
    ) -> Option<TxnNumber>
        ensures { IsLeastOther transaction.0 (in_way self.now kind path.now) (option_map number_of result) }
    {
        if self.is_alone(kind, path, transaction) {
            return None;
        }
        self.least_on_way(kind, path, transaction)
    }

    // The same, by a walk. Where the path has no node, nothing is held at it or below it.
    #[inline(never)]
    fn least_on_way(&self, kind: Kind, path: &Path, transaction: TxnNumber) -> Option<TxnNumber>
        ensures { IsLeastOther transaction.0 (in_way self.now kind path.now) (option_map number_of result) }
    {
        self.nodes.laws();
        match self.nodes.find_near(path, self.near) {
            Some(key) => lesser(
                self.nodes.get(key).least_here(kind, transaction),
                least_above(&self.nodes, key, kind, transaction),
            ),
            None => match self.nodes.deepest_above(path) {
                Some((key, _depth)) => least_above(&self.nodes, key, kind, transaction),
                None => None,
            },
        }
    }

    // Whether the root's node tells that no other transaction holds what could clash with a mark of this kind, wherever that
    // is: all marks of subtrees and of groups that stay are counted there.
    #[inline(always)]
    fn is_alone(&self, kind: Kind, path: &Path, transaction: TxnNumber) -> bool
        ensures { IsTrue result → IsLeastOther transaction.0 (in_way self.now kind path.now) None }
    {
        if kind.at_or_below().is_none() {
            return false;
        }
        match self.nodes.root_value() {
            Some(root) => root.is_alone(transaction),
            None => false,
        }
    }

    // The least other transaction that holds the number of descendants at a path of so many names with which this one begins.
    // Where the path has a node, the way up begins there: no other is looked up.
    pub(crate) fn least_counted(
        &self,
        path: &Path,
        depths: &[u32],
        transaction: TxnNumber,
    ) -> Option<TxnNumber>
        requires { AreDescending (length path.now) depths.now }
        ensures { IsLeastOther transaction.0 (held_on self.now.descendants (prefixes path.now depths.now)) (option_map number_of result) }
    {
        self.nodes.laws();
        match self.nodes.find_near(path, self.near) {
            Some(key) => counted::least(&self.nodes, key, depths, transaction),
            None => self.least_looked_up(path, depths, transaction),
        }
    }

    // The same of a path that may have no node: one look-up finds the first of these, as a rule.
    fn least_looked_up(
        &self,
        path: &Path,
        depths: &[u32],
        transaction: TxnNumber,
    ) -> Option<TxnNumber>
        requires { AreDescending (length path.now) depths.now }
        ensures { IsLeastOther transaction.0 (held_on self.now.descendants (prefixes path.now depths.now)) (option_map number_of result) }
    {
        self.nodes.laws();
        let Some((depth, shorter)) = depths.split_first() else {
            return None;
        };
        match self.nodes.find_prefix(path, *depth) {
            Some(key) => counted::least(&self.nodes, key, depths, transaction),
            None => self.least_looked_up(path, shorter, transaction),
        }
    }

    // Whether the transaction holds each of these numbers.
    pub(crate) fn holds_counted(&self, path: &Path, depths: &[u32], transaction: TxnNumber) -> bool
        requires { AreDescending (length path.now) depths.now }
        ensures { IsTrue result ↔ ((q : List (List ℕ)) → times_on q (prefixes path.now depths.now) ≤ held_at self.now.descendants q transaction.0) }
    {
        let Some((depth, shorter)) = depths.split_first() else {
            return true;
        };
        self.count_counted(path, *depth, transaction) > 0
            && self.holds_counted(path, shorter, transaction)
    }

    // How often it holds that of the path's first names.
    fn count_counted(&self, path: &Path, depth: u32, transaction: TxnNumber) -> u32
        ensures { result ≡ held_at self.now.descendants (take depth path.now) transaction.0 }
    {
        self.nodes.laws();
        match self.nodes.find_prefix(path, depth) {
            Some(key) => {
                let held = self.nodes.get(key);
                held.count(Part::CountedAt, transaction)
            }
            None => 0,
        }
    }

    // One holding more by the transaction, and the node where it is. An error, where there is no memory for it, leaves what
    // was held.
    pub(crate) fn add(
        &mut self,
        alloc: Global,
        kind: Kind,
        path: &Path,
        transaction: TxnNumber,
    ) -> Result<NodeKey, AllocError>
        ensures ok { OnOk result (IsMarkedMore self.old kind path.now transaction.0 self.new) }
        ensures err { OnErr result (IsMarkedAlike self.old self.new) }
    {
        let key = reach(&mut self.nodes, alloc, path, self.near)?;
        add_mark(&mut self.nodes, key, kind, transaction)?;
        Ok(key)
    }

    // One holding less by the transaction, which has one, most likely at the node with this key. Takes no memory.
    pub(crate) fn remove(&mut self, kind: Kind, path: &Path, near: NodeKey, transaction: TxnNumber)
        requires { 0 < held_at (of_kind self.old kind) path.now transaction.0 }
        ensures { IsMarkedMore self.new kind path.now transaction.0 self.old }
    {
        self.nodes.laws();
        let Some(key) = self.nodes.find_near(path, near) else {
            return;
        };
        remove_mark(&mut self.nodes, key, kind, transaction);
        drop_unneeded(&mut self.nodes, key, self.found.len());
    }

    // One holding more by the transaction of each of these numbers. An error, where there is no memory for them, leaves what
    // was held.
    pub(crate) fn add_counted(
        &mut self,
        alloc: Global,
        path: &Path,
        depths: &[u32],
        transaction: TxnNumber,
    ) -> Result<(), AllocError>
        ensures ok { OnOk result (AreCountedMore self.old (prefixes path.now depths.now) transaction.0 self.new) }
        ensures err { OnErr result (IsMarkedAlike self.old self.new) }
    {
        let key = reach(&mut self.nodes, alloc, path, self.near)?;
        counted::add(&mut self.nodes, key, depths, transaction)
    }

    // One holding less by the transaction of each of these, which it has. The path's own node is most likely that with this
    // key. Takes no memory.
    #[inline(never)]
    pub(crate) fn remove_counted(
        &mut self,
        path: &Path,
        depths: &[u32],
        near: NodeKey,
        transaction: TxnNumber,
    )
        requires { (q : List (List ℕ)) → times_on q (prefixes path.now depths.now) ≤ held_at self.old.descendants q transaction.0 }
        ensures { AreCountedMore self.new (prefixes path.now depths.now) transaction.0 self.old }
    {
        self.nodes.laws();
        let Some(key) = counted_node(&self.nodes, path, depths, near) else {
            return;
        };
        counted::remove(&mut self.nodes, key, depths, transaction);
        drop_unneeded(&mut self.nodes, key, self.found.len());
    }
}

// A key that is most likely no node's.
fn no_node() -> NodeKey {
    NodeKey::new(u32::MAX)
}

// The node from which the way up to these numbers is walked: the path's own, most likely that with this key, or else that of
// the first number.
fn counted_node(
    nodes: &PathTree<Held>,
    path: &Path,
    depths: &[u32],
    near: NodeKey,
) -> Option<NodeKey>
    ensures key { IfSome result (λ key. IsKey nodes.now.keys key) }
    ensures same { IfSome result (λ key. (q : List (List ℕ)) → get nodes.now.keys q ≡ Some key → prefixes q depths.now ≡ prefixes path.now depths.now) }
    ensures none { IfNone result ((d : ℕ) (shorter : List ℕ) → depths.now ≡ d ∷ shorter → get nodes.now.keys (take d path.now) ≡ None) }
{
    nodes.laws();
    if let Some(key) = nodes.find_near(path, near) {
        return Some(key);
    }
    let deepest = depths.first()?;
    nodes.find_prefix(path, *deepest)
}
