//! Going back, by one command, to a savepoint or to the start, and the end of a transaction.
ghost use Rattle.std.specs.Prelude.{◌≡◌, ◌↔◌, IfErr, IfOk, OnErr, OnOk, drop, false, length, reverse, take, true};
ghost use Rattle.std.specs.Result.{IsErrOf};
ghost use Rattle.cg_txn.specs.Laws.{below, commands_above};
ghost use Rattle.cg_txn.specs.Stack.{ends_in_command, has_savepoint};
ghost use Rattle.cg_txn.specs.TakingOff.{AllComeOff, AllLetGo, AllMayComeOff, AllMayLetGo};

use crate::letting_go::{let_go, take_off};
use crate::txn::{Room, Txn};
use cg_locks::LockTable;
use cg_name::{Refusal, SaveName};
use cg_tree::Tree;

/// Takes the newest command of the transaction off; `NothingToUndo` where the newest item on its stack is a savepoint or
/// nothing stands, and all is then as it was. Takes no memory.
pub fn undo(tree: &mut Tree, locks: &mut LockTable, txn: &mut Txn) -> Result<(), Refusal>
    requires { AllMayComeOff txn.old.number (take 1 txn.old.items) tree.old locks.old }
    ensures off { OnOk result (AllComeOff txn.old.number (take 1 txn.old.items) tree.old locks.old tree.new locks.new) }
    ensures stack { OnOk result (txn.new ≡ record txn.old { items = drop 1 txn.old.items }) }
    ensures nothing { IsErrOf result Refusal.NothingToUndo ↔ (ends_in_command txn.old.items ≡ false) }
    ensures refusals { IfErr result (λ r. r ≡ Refusal.NothingToUndo) }
    ensures tree_kept { OnErr result (tree.new ≡ tree.old) }
    ensures locks_kept { OnErr result (locks.new ≡ locks.old) }
    ensures stack_kept { OnErr result (txn.new ≡ txn.old) }
{
    let number = txn.number();
    let entry = txn.undo()?;
    take_off(tree, locks, number, entry);
    Ok(())
}

/// Goes back to the savepoint with this name: all commands above it come off, the newest first, and the savepoint goes with
/// them. Gives how many came off; `NoSavepoint` where none has this name, and all is then as it was. Takes no memory.
pub fn back(
    tree: &mut Tree,
    locks: &mut LockTable,
    txn: &mut Txn,
    name: SaveName,
) -> Result<usize, Refusal>
    requires { has_savepoint name txn.old.items ≡ true → AllMayComeOff txn.old.number (commands_above name txn.old.items) tree.old locks.old }
    ensures off { OnOk result (AllComeOff txn.old.number (commands_above name txn.old.items) tree.old locks.old tree.new locks.new) }
    ensures stack { OnOk result (txn.new ≡ record txn.old { items = below name txn.old.items; reserved = false }) }
    ensures count { IfOk result (λ n. n ≡ length (commands_above name txn.old.items)) }
    ensures absent { IsErrOf result Refusal.NoSavepoint ↔ (has_savepoint name txn.old.items ≡ false) }
    ensures refusals { IfErr result (λ r. r ≡ Refusal.NoSavepoint) }
    ensures tree_kept { OnErr result (tree.new ≡ tree.old) }
    ensures locks_kept { OnErr result (locks.new ≡ locks.old) }
    ensures stack_kept { OnErr result (txn.new ≡ txn.old) }
{
    if !txn.has_savepoint(name) {
        return Err(Refusal::NoSavepoint);
    }
    let number = txn.number();
    // No more commands come off than items stand.
    let standing = txn.len();
    let mut count = 0;
    // The savepoint stands until the last step, so its name is looked up once, before the first.
    while let Some(entry) = txn.step_back(name) {
        take_off(tree, locks, number, entry);
        prove!(count < standing);
        count += 1;
    }
    Ok(count)
}

/// Ends the transaction without a trace: all its commands come off, the newest first. Gives the room that they had. Takes no memory.
pub fn abort(tree: &mut Tree, locks: &mut LockTable, mut txn: Txn) -> Room
    requires { AllMayComeOff txn.number txn.items tree.old locks.old }
    ensures { AllComeOff txn.number txn.items tree.old locks.old tree.new locks.new }
{
    let number = txn.number();
    while let Some(entry) = txn.drain_newest_first() {
        take_off(tree, locks, number, entry);
    }
    txn.into_room()
}

/// Ends the transaction for good: its commands stay done, and what they hold is let go, of the oldest first. Gives the room that they
/// had. Takes no memory.
pub fn commit(tree: &mut Tree, locks: &mut LockTable, txn: Txn) -> Room
    requires { AllMayLetGo txn.number (reverse txn.items) tree.old locks.old }
    ensures let_go { AllLetGo txn.number (reverse txn.items) tree.old locks.old tree.new locks.new }
    ensures tree { tree.new.tree ≡ tree.old.tree }
{
    let number = txn.number();
    for index in 0..txn.len() {
        if let Some(entry) = txn.command_at(index) {
            let_go(tree, locks, number, &entry.footprint);
        }
    }
    txn.into_room()
}
