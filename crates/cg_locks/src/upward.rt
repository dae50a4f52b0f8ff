//! Walks from a node upward, and the nodes that they need.
ghost use Rattle.std.specs.Prelude.{◌≡◌, ◌+◌, ◌<◌, ◌≤◌, true, false, List, ℕ, IfOk, None, OnErr, OnOk, Some, length, option_map, suc, take, IsSome, IsTrue};
ghost use Rattle.cg_maps.specs.FiniteMap.{get, set_at};
ghost use Rattle.cg_name.specs.Path.{is_root};
ghost use Rattle.cg_path_tree.specs.Nodes.{parent_path, HasParent, IsKey};
ghost use Rattle.cg_locks.specs.Held.{above_of, at_path};
ghost use Rattle.cg_locks.specs.HeldByPath.{in_part, weighed_above, AreSummedUp, HasBeyond, HasBranches, HasMoreThanBranches, IsMarkMore, IsOneMoreBeyond, IsOneMoreIn, IsOneMoreUp, IsSameHeld};
ghost use Rattle.cg_locks.specs.Holders.{held_at, number_of, IsLeastOther};
ghost use Rattle.cg_locks.specs.declared.held.Part.{Part};

use crate::held::{Held, Kind, Part};
use crate::holders::lesser;
use cg_name::{Path, TxnNumber};
use cg_path_tree::{NodeKey, PathTree};
use std::alloc::{AllocError, Global};

// So many nodes stay at least when nobody holds anything there any more: what is marked again finds its node. Where there is room
// for more numbers of groups, as many stay as these, since marks may come to any group.
const LEAST_KEPT: usize = 4096;

// And so many at most.
const MOST_KEPT: usize = 65_536;

// The nodes above a mark that went stay until there are so many times more: marks come below them more often than at the mark's own
// path.
const ABOVE: usize = 4;

// The least other transaction with a mark at the node's path or above that clashes with one of this kind there.
pub(crate) fn least_above(
    nodes: &PathTree<Held>,
    key: NodeKey,
    kind: Kind,
    transaction: TxnNumber,
) -> Option<TxnNumber>
    requires { IsKey nodes.now.keys key }
    ensures { (p : List (List ℕ)) → get nodes.now.keys p ≡ Some key → IsLeastOther transaction.0 (weighed_above (above_of kind) nodes.now.values p) (option_map number_of result) }
{
    nodes.laws();
    let mut at = key;
    let mut least = None;
    'up: loop {
        least = lesser(least, nodes.get(at).least_above(kind, transaction));
        let Some(parent) = nodes.parent(at) else {
            return least;
        };
        at = parent;
    }
}

// One holding more by the transaction in this part of the node, and how many it has there then. An error, where there is no
// memory for it, changes nothing.
#[inline(always)]
pub(crate) fn add_at(
    nodes: &mut PathTree<Held>,
    key: NodeKey,
    part: Part,
    transaction: TxnNumber,
) -> Result<usize, AllocError>
    requires { IsKey nodes.old.keys key }
    ensures keys { nodes.new.keys ≡ nodes.old.keys }
    ensures ok { OnOk result ((p : List (List ℕ)) → get nodes.old.keys p ≡ Some key → IsOneMoreIn nodes.old.values part p transaction.0 nodes.new.values) }
    ensures count { IfOk result (λ n. (p : List (List ℕ)) → get nodes.old.keys p ≡ Some key → n ≡ held_at (in_part part nodes.old.values) p transaction.0 + 1) }
    ensures err { OnErr result (nodes.new ≡ nodes.old) }
{
    nodes.get_mut(key).add(part, transaction)
}

// One holding less by the transaction in this part of the node, where it has one, and how many are left to it there.
#[inline(always)]
pub(crate) fn remove_at(
    nodes: &mut PathTree<Held>,
    key: NodeKey,
    part: Part,
    transaction: TxnNumber,
) -> usize
    requires there { IsKey nodes.old.keys key }
    requires held { (p : List (List ℕ)) → get nodes.old.keys p ≡ Some key → 0 < held_at (in_part part nodes.old.values) p transaction.0 }
    ensures keys { nodes.new.keys ≡ nodes.old.keys }
    ensures less { (p : List (List ℕ)) → get nodes.old.keys p ≡ Some key → IsOneMoreIn nodes.new.values part p transaction.0 nodes.old.values }
    ensures left { (p : List (List ℕ)) → get nodes.old.keys p ≡ Some key → result + 1 ≡ held_at (in_part part nodes.old.values) p transaction.0 }
{
    nodes.get_mut(key).remove(part, transaction)
}

// One holding more by the transaction in this part of the node. Where that is its first there, the node above has one more
// too: it counts the nodes right below it at which something is held, and not how often. An error, where there is no memory
// for them, leaves what was held.
fn add_up(
    nodes: &mut PathTree<Held>,
    key: NodeKey,
    part: Part,
    transaction: TxnNumber,
) -> Result<(), AllocError>
    requires { IsKey nodes.old.keys key }
    ensures keys { nodes.new.keys ≡ nodes.old.keys }
    ensures ok { OnOk result ((p : List (List ℕ)) → get nodes.old.keys p ≡ Some key → IsOneMoreUp nodes.old.values part p transaction.0 nodes.new.values) }
    ensures err { OnErr result (IsSameHeld nodes.old.values nodes.new.values) }
{
    nodes.laws();
    let mut at = key;
    'up: loop {
        let Ok(count) = add_at(nodes, at, part, transaction) else {
            let depth = nodes.depth(at);
            remove_beyond(nodes, key, depth, part, transaction);
            return Err(AllocError);
        };
        if count > 1 {
            return Ok(());
        }
        let Some(parent) = nodes.parent(at) else {
            return Ok(());
        };
        at = parent;
    }
}

// One holding less by the transaction in this part of the node and of each above it whose path has more than so many names.
#[cold]
fn remove_beyond(
    nodes: &mut PathTree<Held>,
    key: NodeKey,
    depth: u32,
    part: Part,
    transaction: TxnNumber,
)
    requires there { IsKey nodes.old.keys key }
    requires held { (p : List (List ℕ)) → get nodes.old.keys p ≡ Some key → HasBeyond nodes.old.values part p depth transaction.0 }
    ensures keys { nodes.new.keys ≡ nodes.old.keys }
    ensures less { (p : List (List ℕ)) → get nodes.old.keys p ≡ Some key → IsOneMoreBeyond nodes.new.values part p depth transaction.0 nodes.old.values }
{
    nodes.laws();
    let mut at = key;
    'up: while nodes.depth(at) > depth {
        remove_at(nodes, at, part, transaction);
        let Some(parent) = nodes.parent(at) else {
            return;
        };
        at = parent;
    }
}

// One holding less by the transaction in this part of the node, where it has one that no node below brought. Where that was
// its last there, the node above has one less too.
fn remove_up(nodes: &mut PathTree<Held>, key: NodeKey, part: Part, transaction: TxnNumber)
    requires there { IsKey nodes.old.keys key }
    requires branches { HasBranches nodes.old.values part transaction.0 }
    requires more { (p : List (List ℕ)) → get nodes.old.keys p ≡ Some key → HasMoreThanBranches nodes.old.values part transaction.0 p }
    ensures keys { nodes.new.keys ≡ nodes.old.keys }
    ensures less { (p : List (List ℕ)) → get nodes.old.keys p ≡ Some key → IsOneMoreUp nodes.new.values part p transaction.0 nodes.old.values }
{
    nodes.laws();
    let mut at = key;
    'up: loop {
        let left = remove_at(nodes, at, part, transaction);
        if left > 0 {
            return;
        }
        let Some(parent) = nodes.parent(at) else {
            return;
        };
        at = parent;
    }
}

// One holding more by the transaction of the mark of this kind at the node's path. An error, where there is no memory for
// it, leaves what was held.
pub(crate) fn add_mark(
    nodes: &mut PathTree<Held>,
    key: NodeKey,
    kind: Kind,
    transaction: TxnNumber,
) -> Result<(), AllocError>
    requires { IsKey nodes.old.keys key }
    ensures keys { nodes.new.keys ≡ nodes.old.keys }
    ensures ok { OnOk result ((p : List (List ℕ)) → get nodes.old.keys p ≡ Some key → IsMarkMore nodes.old.values kind p transaction.0 nodes.new.values) }
    ensures err { OnErr result (IsSameHeld nodes.old.values nodes.new.values) }
{
    add_at(nodes, key, kind.at_path(), transaction)?;
    let Some(below) = kind.at_or_below() else {
        return Ok(());
    };
    let added = add_up(nodes, key, below, transaction);
    if added.is_err() {
        remove_at(nodes, key, kind.at_path(), transaction);
    }
    added
}

// One holding less by the transaction of the mark of this kind at the node's path, where it has one.
#[inline(always)]
pub(crate) fn remove_mark(
    nodes: &mut PathTree<Held>,
    key: NodeKey,
    kind: Kind,
    transaction: TxnNumber,
)
    requires there { IsKey nodes.old.keys key }
    requires summed { AreSummedUp nodes.old.values }
    requires held { (p : List (List ℕ)) → get nodes.old.keys p ≡ Some key → 0 < held_at (in_part (at_path kind) nodes.old.values) p transaction.0 }
    ensures keys { nodes.new.keys ≡ nodes.old.keys }
    ensures less { (p : List (List ℕ)) → get nodes.old.keys p ≡ Some key → IsMarkMore nodes.new.values kind p transaction.0 nodes.old.values }
{
    remove_at(nodes, key, kind.at_path(), transaction);
    if let Some(below) = kind.at_or_below() {
        remove_up(nodes, key, below, transaction);
    }
}

// Takes out the node where nobody holds anything and no node lies below; and then those above that are so, as long as there are
// more than so many.
fn drop_free(nodes: &mut PathTree<Held>, key: NodeKey, kept_above: usize)
    requires { IsKey nodes.old.keys key }
    ensures { IsSameHeld nodes.old.values nodes.new.values }
{
    if nodes.child_count(key) > 0 || !nodes.get(key).is_empty() {
        return;
    }
    let parent = nodes.parent(key);
    nodes.laws();
    let _ = nodes.remove(key);
    if let Some(parent) = parent {
        if nodes.len() > kept_above {
            nodes.laws();
            drop_free(nodes, parent, kept_above);
        }
    }
}

// Whether nobody holds anything at any node. The root's tells of all marks but those on numbers of descendants, which come
// and go with others: so as a rule it alone is looked at where somebody holds something, and each node once where nobody does.
fn is_free(nodes: &PathTree<Held>) -> bool
    ensures { IsTrue result → (r : Part) (q : List (List ℕ)) (u : ℕ) → held_at (in_part r nodes.now.values) q u ≡ 0 }
{
    let Some(root) = nodes.root_value() else {
        return false;
    };
    root.is_empty() && nodes.all(|held| held.is_empty())
}

// Takes out what is of no use any more, where there are more nodes than stay beside room for the numbers of so many groups.
#[inline(always)]
pub(crate) fn drop_unneeded(nodes: &mut PathTree<Held>, key: NodeKey, groups: usize)
    requires { IsKey nodes.old.keys key }
    ensures { IsSameHeld nodes.old.values nodes.new.values }
{
    let kept = groups.clamp(LEAST_KEPT, MOST_KEPT);
    if nodes.len() > kept {
        drop_unheld(nodes, key, kept);
    }
}

// Takes out all nodes, where nobody holds anything at any of them, and else this one and those above, as `drop_free` does. The
// first costs no more than the nodes did that were made since it was last done, and leaves their memory to those to come, and their
// places: paths that don't come again take none from those that do.
fn drop_unheld(nodes: &mut PathTree<Held>, key: NodeKey, kept: usize)
    requires { IsKey nodes.old.keys key }
    ensures { IsSameHeld nodes.old.values nodes.new.values }
{
    if is_free(nodes) {
        nodes.clear();
    } else {
        drop_free(nodes, key, kept.saturating_mul(ABOVE));
    }
}

// Makes a node at a path that has none, right below this one; below none, where it is the root's.
fn put(
    nodes: &mut PathTree<Held>,
    alloc: Global,
    path: &Path,
    parent: Option<NodeKey>,
) -> Result<NodeKey, AllocError>
    requires absent { get nodes.old.keys path.now ≡ None }
    requires there { HasParent nodes.old.keys path.now }
    requires root { is_root path.now ≡ true → parent ≡ None }
    requires parent { is_root path.now ≡ false → parent ≡ get nodes.old.keys (parent_path path.now) }
    ensures keys { IfOk result (λ key. nodes.new.keys ≡ set_at nodes.old.keys path.now (Some key)) }
    ensures held { IsSameHeld nodes.old.values nodes.new.values }
{
    nodes.laws();
    let key = nodes.add_below(alloc, path, parent, Held::new(alloc))?;
    Ok(key)
}

// How many names the first path has that has no node, among those with which this one begins, of that many names; and the
// node of the one before, if there is one. It looks from the path upward: for one more than there are to make.
fn first_missing(nodes: &PathTree<Held>, path: &Path, end: u32) -> (u32, Option<NodeKey>)
    requires absent { get nodes.now.keys path.now ≡ None }
    requires end { end ≡ length path.now }
    ensures within { result.0 ≤ length path.now }
    ensures absent { (d : ℕ) → result.0 ≤ d → d ≤ length path.now → get nodes.now.keys (take d path.now) ≡ None }
    ensures there { (d : ℕ) → suc d ≡ result.0 → IsSome (get nodes.now.keys (take d path.now)) }
    ensures none { result.0 ≡ 0 → result.1 ≡ None }
    ensures key { (d : ℕ) → suc d ≡ result.0 → result.1 ≡ get nodes.now.keys (take d path.now) }
{
    let mut first = end;
    'up: while first > 0 {
        if let Some(key) = nodes.find_prefix(path, first - 1) {
            return (first, Some(key));
        }
        first -= 1;
    }
    (0, None)
}

// Makes the nodes that are missing above a path that has none, and gives the one right above. An error, where there is no
// memory for them, leaves some of them, which hold nothing.
fn make_above(
    nodes: &mut PathTree<Held>,
    alloc: Global,
    path: &Path,
) -> Result<Option<NodeKey>, AllocError>
    requires { get nodes.old.keys path.now ≡ None }
    ensures absent { OnOk result (get nodes.new.keys path.now ≡ None) }
    ensures there { OnOk result (HasParent nodes.new.keys path.now) }
    ensures root { IfOk result (λ parent. is_root path.now ≡ true → parent ≡ None) }
    ensures parent { IfOk result (λ parent. is_root path.now ≡ false → parent ≡ get nodes.new.keys (parent_path path.now)) }
    ensures held { IsSameHeld nodes.old.values nodes.new.values }
{
    let end = path.depth();
    let (first, mut parent) = first_missing(nodes, path, end);
    for depth in first..end {
        let above = path.prefix(alloc, depth)?;
        parent = Some(put(nodes, alloc, &above, parent)?);
    }
    Ok(parent)
}

// The node at the path, most likely that with this key, which it makes where there is none. An error, where there is no memory
// for it, leaves what was held.
pub(crate) fn reach(
    nodes: &mut PathTree<Held>,
    alloc: Global,
    path: &Path,
    near: NodeKey,
) -> Result<NodeKey, AllocError>
    ensures key { IfOk result (λ key. get nodes.new.keys path.now ≡ Some key) }
    ensures held { IsSameHeld nodes.old.values nodes.new.values }
{
    if let Some(key) = nodes.find_near(path, near) {
        return Ok(key);
    }
    make(nodes, alloc, path)
}

// Makes the node at a path that has none, and those that are missing above. An error, where there is no memory for them, leaves
// what was held.
#[inline(never)]
fn make(nodes: &mut PathTree<Held>, alloc: Global, path: &Path) -> Result<NodeKey, AllocError>
    requires { get nodes.old.keys path.now ≡ None }
    ensures key { IfOk result (λ key. get nodes.new.keys path.now ≡ Some key) }
    ensures held { IsSameHeld nodes.old.values nodes.new.values }
{
    let parent = nodes.find_parent(path);
    if parent.is_some() || path.is_root() {
        return put(nodes, alloc, path, parent);
    }
    let parent = make_above(nodes, alloc, path)?;
    put(nodes, alloc, path, parent)
}
