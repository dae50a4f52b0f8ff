//! What one command holds is let go: at the end of its transaction, or as it is taken off.
ghost use Rattle.cg_txn.specs.LettingGo.{IsLetGo, MayLetGo};
ghost use Rattle.cg_txn.specs.TakingOff.{ComesOff, MayComeOff};

use crate::entry::Entry;
use cg_locks::{Footprint, LockTable};
use cg_name::TxnNumber;
use cg_tree::Tree;

// Lets go of the footprint of one command of the transaction, and of the dead entry that it kept, where no other command of
// the transaction keeps it.
#[inline(always)]
pub(crate) fn let_go(
    tree: &mut Tree,
    locks: &mut LockTable,
    number: TxnNumber,
    footprint: &Footprint,
)
    requires { MayLetGo number.0 footprint.now tree.old locks.old }
    ensures { IsLetGo number.0 footprint.now tree.old locks.old tree.new locks.new }
{
    locks.release(number, footprint);
    // As a rule each entry is a group's, and none goes.
    if !tree.has_dead_entries() {
        return;
    }
    if let Some(path) = footprint.changed() {
        if tree.find(path) {
            return;
        }
        if !locks.holds_changed(number, path) {
            tree.sweep(path);
        }
    }
}

// Takes one command of the transaction off: what it changed is put back, and what it holds is let go.
#[inline(always)]
pub(crate) fn take_off(tree: &mut Tree, locks: &mut LockTable, number: TxnNumber, entry: Entry)
    requires { MayComeOff number.0 entry.inverse entry.footprint tree.old locks.old }
    ensures { ComesOff number.0 entry.inverse entry.footprint tree.old locks.old tree.new locks.new }
{
    let Entry {
        inverse,
        footprint,
        ..
    } = entry;
    inverse.undo(tree);
    let_go(tree, locks, number, &footprint);
}
