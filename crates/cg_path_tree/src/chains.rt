// The chains by which nodes are found: nodes whose paths' texts have hashes of one slot, each with the key of the next.
ghost use Rattle.std.specs.Prelude.{◌≡◌, ◌≢◌, ◌<◌, ◌++◌, ◌∷◌, [], ℕ, List, length, slice_get, IsSome, OnOk, Some};
ghost use Rattle.slab.specs.Slab as slab;
ghost use Rattle.cg_path_tree.specs.Chains.{slot_in, text_hash, link_in, AreChained, AreLeft, IsBefore, IsBehind, StandsIn};
ghost use Rattle.cg_path_tree.specs.declared.node.NodeKey.{NodeKey};
ghost use Rattle.cg_path_tree.specs.Linked.{node_in};

use crate::node::{NO_KEY, Node, NodeKey};
use slab::Slab;
use std::alloc::{AllocError, Global};
use std::hash::{FoldHasher, Hasher};

// How many chains there are at first.
const FEWEST_HEADS: usize = 16;

// The hash of a text.
pub(crate) fn hash_of(text: &str) -> u32
    ensures { result ≡ text_hash text.now }
{
    let mut hasher = FoldHasher::default();
    hasher.write(text.as_bytes());
    (hasher.finish() & 0xFFFF_FFFF) as u32
}

// The number of the chain for a hash, where there are so many chains, a power of two.
pub(crate) fn slot_of(chains: usize, hash: u32) -> usize
    requires { 0 < chains }
    ensures value { result ≡ slot_in chains hash }
    ensures within { result < chains }
{
    hash as usize & (chains - 1)
}

// Puts the node first in the chain for its hash.
pub(crate) fn link<V: Drop>(heads: &mut Vec<NodeKey>, nodes: &mut Slab<Node<V>>, key: NodeKey)
    requires there { IsSome (node_in nodes.old key) }
    requires below { key.0 < 4294967295 }
    requires some { 0 < length heads.old.items }
    ensures same { (k : NodeKey) → node_in nodes.new k ≡ node_in nodes.old k }
    ensures rest { (k : NodeKey) → k ≢ key → slab.get nodes.new k.0 ≡ slab.get nodes.old k.0 }
    ensures count { length heads.new.items ≡ length heads.old.items }
    ensures chained { (ks : List NodeKey) → AreChained ks heads.old.items (link_in nodes.old) → ¬ (StandsIn ks key) → AreChained (ks ++ key ∷ []) heads.new.items (link_in nodes.new) }
{
    let node = &mut nodes[key.number() as usize];
    let slot = slot_of(heads.len(), node.hash);
    node.next = heads[slot];
    heads[slot] = key;
}

// Takes the node, which stays, out of the chain for its hash.
pub(crate) fn unlink<V: Drop>(heads: &mut Vec<NodeKey>, nodes: &mut Slab<Node<V>>, key: NodeKey)
    requires chained { (ks : List NodeKey) × AreChained ks heads.old.items (link_in nodes.old) × StandsIn ks key }
    ensures same { (k : NodeKey) → node_in nodes.new k ≡ node_in nodes.old k }
    ensures chained { (ks left : List NodeKey) → AreChained ks heads.old.items (link_in nodes.old) → StandsIn ks key → AreLeft ks key left → AreChained left heads.new.items (link_in nodes.new) }
{
    let node = &nodes[key.number() as usize];
    let next = node.next;
    let slot = slot_of(heads.len(), node.hash);
    let head = heads[slot];
    if head == key {
        heads[slot] = next;
        return;
    }
    let before = find_before(nodes, head, key);
    nodes[before.number() as usize].next = next;
}

// The node right before this one in the chain that begins so.
fn find_before<V: Drop>(nodes: &Slab<Node<V>>, head: NodeKey, key: NodeKey) -> NodeKey
    requires { IsBehind (link_in nodes.now) head key }
    ensures { IsBefore (link_in nodes.now) head key result }
{
    let mut at = head;
    for _ in 0..u32::MAX {
        let next = nodes[at.number() as usize].next;
        if next == key {
            return at;
        }
        at = next;
    }
    unreachable!()
}

// Makes more chains where there are no more than two for each node: so a look-up seldom comes to a node that it isn't for. Where
// there is no memory for that, all stays.
#[inline(always)]
pub(crate) fn make_chains<V: Drop>(
    heads: &mut Vec<NodeKey>,
    nodes: &mut Slab<Node<V>>,
    alloc: Global,
    order: &[NodeKey],
) -> Result<(), AllocError>
    requires chained { AreChained order.now heads.old.items (link_in nodes.old) }
    requires there { (j : ℕ) (k : NodeKey) → slice_get order.now j ≡ Some k → IsSome (node_in nodes.old k) }
    requires once { (i j : ℕ) (k : NodeKey) → slice_get order.now i ≡ Some k → slice_get order.now j ≡ Some k → i ≡ j }
    ensures same { (k : NodeKey) → node_in nodes.new k ≡ node_in nodes.old k }
    ensures chained { AreChained order.now heads.new.items (link_in nodes.new) }
    ensures some { OnOk result (0 < length heads.new.items) }
{
    if order.len() < heads.len() / 2 {
        return Ok(());
    }
    grow(heads, nodes, alloc, order)
}

// Makes twice as many chains, and links each node anew.
#[cold]
fn grow<V: Drop>(
    heads: &mut Vec<NodeKey>,
    nodes: &mut Slab<Node<V>>,
    alloc: Global,
    order: &[NodeKey],
) -> Result<(), AllocError>
    requires chained { AreChained order.now heads.old.items (link_in nodes.old) }
    requires there { (j : ℕ) (k : NodeKey) → slice_get order.now j ≡ Some k → IsSome (node_in nodes.old k) }
    requires once { (i j : ℕ) (k : NodeKey) → slice_get order.now i ≡ Some k → slice_get order.now j ≡ Some k → i ≡ j }
    ensures same { (k : NodeKey) → node_in nodes.new k ≡ node_in nodes.old k }
    ensures chained { AreChained order.now heads.new.items (link_in nodes.new) }
    ensures some { OnOk result (0 < length heads.new.items) }
{
    let Some(count) = heads.len().checked_mul(2) else {
        return Err(AllocError);
    };
    let mut wider = vec![in alloc; NO_KEY; count.max(FEWEST_HEADS)]?;
    for key in order {
        link(&mut wider, nodes, *key);
    }
    *heads = wider;
    Ok(())
}
