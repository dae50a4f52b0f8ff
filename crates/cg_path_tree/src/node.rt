//! One path of a tree.
ghost use Rattle.std.specs.Prelude.{◌≡◌, ◌≢◌, ◌<◌, ◌++◌, ◌∷◌, [], List, length, slice_get, swap_remove, None, Some, IsSome, IfOk, OnOk, vec_len, vec_capacity};
ghost use Rattle.cg_path_tree.specs.declared.node.NodeKey.{NodeKey};
ghost use Rattle.cg_path_tree.specs.Chains.{SameLinks};
ghost use Rattle.cg_path_tree.specs.Linked.{NodeView, node_in, HasRoom, Writes, TakesChild};
ghost use Rattle.cg_path_tree.specs.Nodes.{number_of};

use cg_name::Path;
use slab::Slab;
use std::alloc::AllocError;

/// Names a node of a tree, as long as the node is there. The key of a node that was removed may be given out again.
#[derive(Clone, Copy, PartialEq, Eq, Hash, Debug)]
pub struct NodeKey(u32);

// The key of no node. It ends each chain.
pub(crate) const NO_KEY: NodeKey = NodeKey(u32::MAX);

// What is kept at one path. A look-up reads the first fields alone. What is done next wants the value, which stands beside them,
// and not the children.
#[derive(Drop)]
pub(crate) struct Node<V> {
    pub(crate) path: Path,
    // That of the path's text.
    pub(crate) hash: u32,
    // The next node in the chain of those with hashes of one slot; `NO_KEY` in the last.
    pub(crate) next: NodeKey,
    // Its number among the keys of all nodes.
    pub(crate) entry: u32,
    // The node of the path one name shorter; of the root, its own.
    pub(crate) parent: NodeKey,
    // How many names the path has.
    pub(crate) depth: u32,
    // Its place among the children of its parent; of the root, 0.
    pub(crate) place: u32,
    pub(crate) value: V,
    // The nodes right below, in no order. Each knows its place.
    pub(crate) children: Vec<NodeKey>,
}

impl NodeKey {
    /// The key with that number; a node's, where that is the number of a node's key.
    pub fn new(number: u32) -> NodeKey
        ensures { number_of result ≡ number }
    {
        NodeKey(number)
    }

    /// Its number: no other key of the tree has it.
    pub fn number(self) -> u32
        ensures { result ≡ number_of self }
    {
        self.0
    }
}

impl<V> Node<V> {
    // The node of the path one name shorter, if this isn't the root's.
    pub(crate) fn parent(&self) -> Option<NodeKey>
        ensures root { self.now.depth ≡ 0 → result ≡ None }
        ensures value { self.now.depth ≢ 0 → result ≡ Some self.now.parent }
    {
        if self.depth == 0 {
            return None;
        }
        Some(self.parent)
    }
}

// The number in 32 bits; an error where it doesn't fit, or is the greatest.
pub(crate) fn narrow(number: usize) -> Result<u32, AllocError>
    ensures value { IfOk result (λ n. n ≡ number) }
    ensures below { IfOk result (λ n. n < 4294967295) }
{
    if number < 4294967295 {
        return Ok(number as u32);
    }
    Err(AllocError)
}

// Notes that the node now has another number among all.
pub(crate) fn set_entry<V: Drop>(nodes: &mut Slab<Node<V>>, key: NodeKey, entry: u32)
    requires { IsSome (node_in nodes.old key) }
    ensures value { (n : NodeView V) → node_in nodes.old key ≡ Some n → Writes nodes.old nodes.new key (Some (record n { entry = entry })) }
    ensures links { SameLinks nodes.old nodes.new }
{
    nodes[key.number() as usize].entry = entry;
}

// Notes the node's place among its parent's children.
fn set_place<V: Drop>(nodes: &mut Slab<Node<V>>, key: NodeKey, place: u32)
    requires { IsSome (node_in nodes.old key) }
    ensures value { (n : NodeView V) → node_in nodes.old key ≡ Some n → Writes nodes.old nodes.new key (Some (record n { place = place })) }
    ensures links { SameLinks nodes.old nodes.new }
{
    nodes[key.number() as usize].place = place;
}

// Makes room for one key more, and gives the place that it will have.
fn reserve_one(keys: &mut Vec<NodeKey>) -> Result<u32, AllocError>
    ensures items { keys.new.items ≡ keys.old.items }
    ensures place { IfOk result (λ r. r ≡ length keys.old.items) }
    ensures below { IfOk result (λ r. r < 4294967295) }
    ensures room { OnOk result (vec_len keys.new < vec_capacity keys.new) }
{
    keys.reserve(1)?;
    narrow(keys.len())
}

// Makes room for one child more, if there is a node that it is to lie below, and gives the place that it will have.
pub(crate) fn make_room<V: Drop>(
    nodes: &mut Slab<Node<V>>,
    parent: Option<NodeKey>,
) -> Result<u32, AllocError>
    requires there { (k : NodeKey) → parent ≡ Some k → IsSome (node_in nodes.old k) }
    ensures same { (k : NodeKey) → node_in nodes.new k ≡ node_in nodes.old k }
    ensures place { IfOk result (λ r. (k : NodeKey) (n : NodeView V) → parent ≡ Some k → node_in nodes.old k ≡ Some n → r ≡ length n.children) }
    ensures below { IfOk result (λ r. r < 4294967295) }
    ensures room { OnOk result ((k : NodeKey) → parent ≡ Some k → HasRoom nodes.new k) }
    ensures links { SameLinks nodes.old nodes.new }
{
    let Some(key) = parent else {
        return Ok(0);
    };
    reserve_one(&mut nodes[key.number() as usize].children)
}

// Lists a node among the children of the one that it lies below, if there is one. There is room for it.
pub(crate) fn add_child<V: Drop>(nodes: &mut Slab<Node<V>>, parent: Option<NodeKey>, child: NodeKey)
    requires there { (k : NodeKey) → parent ≡ Some k → IsSome (node_in nodes.old k) }
    requires room { (k : NodeKey) → parent ≡ Some k → HasRoom nodes.old k }
    ensures none { parent ≡ None → nodes.new ≡ nodes.old }
    ensures some { (k : NodeKey) (n : NodeView V) → parent ≡ Some k → node_in nodes.old k ≡ Some n → Writes nodes.old nodes.new k (Some (record n { children = n.children ++ child ∷ [] })) }
    ensures links { SameLinks nodes.old nodes.new }
{
    if let Some(key) = parent {
        nodes[key.number() as usize].children.push_reserved(child);
    }
}

// Takes the key at the place out, and puts the last one there. Gives what stands there then, if anything does.
pub(crate) fn take_out(keys: &mut Vec<NodeKey>, place: u32) -> Option<NodeKey>
    requires { place < length keys.old.items }
    ensures items { (k : NodeKey) → slice_get keys.old.items place ≡ Some k → keys.new.items ≡ swap_remove keys.old.items place k }
    ensures moved { result ≡ slice_get keys.new.items place }
{
    let _ = keys.swap_remove(place as usize);
    keys.get(place as usize).copied()
}

// Takes the child at the place out of the node's list. Gives the one that stands there then, if one does.
fn take_child<V: Drop>(nodes: &mut Slab<Node<V>>, key: NodeKey, place: u32) -> Option<NodeKey>
    requires there { IsSome (node_in nodes.old key) }
    requires listed { (n : NodeView V) → node_in nodes.old key ≡ Some n → place < length n.children }
    ensures taken { (n : NodeView V) (c : NodeKey) → node_in nodes.old key ≡ Some n → slice_get n.children place ≡ Some c → Writes nodes.old nodes.new key (Some (record n { children = swap_remove n.children place c })) }
    ensures moved { (n : NodeView V) (c : NodeKey) → node_in nodes.old key ≡ Some n → slice_get n.children place ≡ Some c → result ≡ slice_get (swap_remove n.children place c) place }
    ensures links { SameLinks nodes.old nodes.new }
{
    take_out(&mut nodes[key.number() as usize].children, place)
}

// Takes the child at the place out of the list of the node that it lay below, if there is one. The last child gets the
// place, and learns of it.
pub(crate) fn remove_child<V: Drop>(nodes: &mut Slab<Node<V>>, parent: Option<NodeKey>, place: u32)
    requires there { (k : NodeKey) → parent ≡ Some k → IsSome (node_in nodes.old k) }
    requires listed { (k : NodeKey) (n : NodeView V) → parent ≡ Some k → node_in nodes.old k ≡ Some n → place < length n.children }
    requires others { (k d : NodeKey) (n : NodeView V) (c : NodeKey) → parent ≡ Some k → node_in nodes.old k ≡ Some n → slice_get n.children place ≡ Some c → slice_get (swap_remove n.children place c) place ≡ Some d → (d ≢ k) × IsSome (node_in nodes.old d) }
    ensures none { parent ≡ None → nodes.new ≡ nodes.old }
    ensures some { (k : NodeKey) (n : NodeView V) (c : NodeKey) → parent ≡ Some k → node_in nodes.old k ≡ Some n → slice_get n.children place ≡ Some c → TakesChild nodes.old nodes.new k n (swap_remove n.children place c) place }
    ensures links { SameLinks nodes.old nodes.new }
{
    let Some(key) = parent else {
        return;
    };
    if let Some(moved) = take_child(nodes, key, place) {
        set_place(nodes, moved, place);
    }
}
