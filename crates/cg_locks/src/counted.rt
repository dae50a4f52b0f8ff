//! Marks on numbers of descendants, at nodes on one way up: they are told by the node where it begins, and by how many names
//! the paths of the others have, the deepest first.
ghost use Rattle.std.specs.Prelude.{◌≡◌, List, ℕ, OnErr, OnOk, Some, option_map, take};
ghost use Rattle.cg_maps.specs.FiniteMap.{get};
ghost use Rattle.cg_path_tree.specs.Nodes.{IsKey};
ghost use Rattle.cg_locks.specs.Counts.{prefixes};
ghost use Rattle.cg_locks.specs.HeldByPath.{in_part, AreCountsMore, HasCounts, IsSameHeld};
ghost use Rattle.cg_locks.specs.Holders.{held_on, number_of, IsLeastOther};
ghost use Rattle.cg_locks.specs.declared.held.Part.TheVariants.{CountedAt};

use crate::held::{Held, Kind, Part};
use crate::holders::lesser;
use crate::upward::{add_at, remove_at};
use cg_name::TxnNumber;
use cg_path_tree::{NodeKey, PathTree};
use std::alloc::AllocError;

// The node at the first so many names of the node's path, or itself, where that has no more.
fn climb(nodes: &PathTree<Held>, key: NodeKey, depth: u32) -> NodeKey
    requires { IsKey nodes.now.keys key }
    ensures { (p : List (List ℕ)) → get nodes.now.keys p ≡ Some key → get nodes.now.keys (take depth p) ≡ Some result }
{
    nodes.laws();
    let mut at = key;
    'up: while nodes.depth(at) > depth {
        let Some(parent) = nodes.parent(at) else {
            return at;
        };
        at = parent;
    }
    at
}

// The least other transaction with such a mark.
pub(crate) fn least(
    nodes: &PathTree<Held>,
    key: NodeKey,
    depths: &[u32],
    transaction: TxnNumber,
) -> Option<TxnNumber>
    requires { IsKey nodes.now.keys key }
    ensures { (p : List (List ℕ)) → get nodes.now.keys p ≡ Some key → IsLeastOther transaction.0 (held_on (in_part CountedAt nodes.now.values) (prefixes p depths.now)) (option_map number_of result) }
{
    let mut at = key;
    let mut least = None;
    for depth in depths {
        at = climb(nodes, at, *depth);
        least = lesser(
            least,
            nodes.get(at).least_here(Kind::Descendants, transaction),
        );
    }
    least
}

// One holding more by the transaction of each mark. An error, where there is no memory for them, leaves what was held.
pub(crate) fn add(
    nodes: &mut PathTree<Held>,
    key: NodeKey,
    depths: &[u32],
    transaction: TxnNumber,
) -> Result<(), AllocError>
    requires { IsKey nodes.old.keys key }
    ensures keys { nodes.new.keys ≡ nodes.old.keys }
    ensures ok { OnOk result ((p : List (List ℕ)) → get nodes.old.keys p ≡ Some key → AreCountsMore nodes.old.values (prefixes p depths.now) transaction.0 nodes.new.values) }
    ensures err { OnErr result (IsSameHeld nodes.old.values nodes.new.values) }
{
    let mut at = key;
    for index in 0..depths.len() {
        at = climb(nodes, at, depths[index]);
        if let Err(error) = add_at(nodes, at, Part::CountedAt, transaction) {
            remove(nodes, key, &depths[..index], transaction);
            return Err(error);
        }
    }
    Ok(())
}

// One holding less by the transaction of each mark, which it has.
pub(crate) fn remove(
    nodes: &mut PathTree<Held>,
    key: NodeKey,
    depths: &[u32],
    transaction: TxnNumber,
)
    requires there { IsKey nodes.old.keys key }
    requires held { (p : List (List ℕ)) → get nodes.old.keys p ≡ Some key → HasCounts nodes.old.values (prefixes p depths.now) transaction.0 }
    ensures keys { nodes.new.keys ≡ nodes.old.keys }
    ensures less { (p : List (List ℕ)) → get nodes.old.keys p ≡ Some key → AreCountsMore nodes.new.values (prefixes p depths.now) transaction.0 nodes.old.values }
{
    nodes.laws();
    let mut at = key;
    for depth in depths {
        at = climb(nodes, at, *depth);
        remove_at(nodes, at, Part::CountedAt, transaction);
    }
}
