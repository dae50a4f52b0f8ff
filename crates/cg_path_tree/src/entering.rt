// How keys enter the list of all nodes' keys and leave it.
ghost use Rattle.std.specs.Prelude.{◌≡◌, ◌<◌, ◌++◌, ◌∷◌, [], length, slice_get, swap_remove, IfOk, OnOk, OnErr, IsSome, Some, None};
ghost use Rattle.slab.specs.Slab as slab;
ghost use Rattle.cg_path_tree.specs.Chains.{SameLinks};
ghost use Rattle.cg_path_tree.specs.declared.node.NodeKey.{NodeKey};
ghost use Rattle.cg_path_tree.specs.Linked.{NodeView, node_in, Writes};

use crate::node::{Node, NodeKey, narrow, set_entry, take_out};
use slab::Slab;
use std::alloc::AllocError;

// Puts the key that the next node gets behind the others, and makes room for that node: gives the key and its number. Where
// there is no memory for them, the keys stay as they are.
pub(crate) fn enter<V: Drop>(
    order: &mut Vec<NodeKey>,
    nodes: &mut Slab<Node<V>>,
) -> Result<(NodeKey, u32), AllocError>
    ensures keys { IfOk result (λ r. order.new.items ≡ order.old.items ++ r.0 ∷ []) }
    ensures entry { IfOk result (λ r. r.1 ≡ length order.old.items) }
    ensures below { IfOk result (λ r. r.1 < 4294967295) }
    ensures key { IfOk result (λ r. r.0.0 ≡ nodes.old.vacant_key) }
    ensures key_below { IfOk result (λ r. r.0.0 < 4294967295) }
    ensures vacant { IfOk result (λ r. node_in nodes.old r.0 ≡ None) }
    ensures room { OnOk result (slab.HasRoomFor nodes.new 1) }
    ensures slots { nodes.new ≡ record nodes.old { capacity = nodes.new.capacity } }
    ensures err { OnErr result (order.new.items ≡ order.old.items) }
{
    let entry = narrow(order.len())?;
    let key = NodeKey::new(narrow(nodes.vacant_key())?);
    nodes.reserve(1)?;
    order.push(key)?;
    Ok((key, entry))
}

// Takes out the key with that number. The last one gets the number, and its node learns of it.
pub(crate) fn leave<V: Drop>(order: &mut Vec<NodeKey>, nodes: &mut Slab<Node<V>>, entry: u32)
    requires within { entry < length order.old.items }
    requires moved { (e f : NodeKey) → slice_get order.old.items entry ≡ Some e → slice_get (swap_remove order.old.items entry e) entry ≡ Some f → IsSome (node_in nodes.old f) }
    ensures keys { (e : NodeKey) → slice_get order.old.items entry ≡ Some e → order.new.items ≡ swap_remove order.old.items entry e }
    ensures moved { (e : NodeKey) (n : NodeView V) → slice_get order.new.items entry ≡ Some e → node_in nodes.old e ≡ Some n → Writes nodes.old nodes.new e (Some (record n { entry = entry })) }
    ensures unmoved { slice_get order.new.items entry ≡ None → nodes.new ≡ nodes.old }
    ensures links { SameLinks nodes.old nodes.new }
{
    if let Some(moved) = take_out(order, entry) {
        set_entry(nodes, moved, entry);
    }
}
