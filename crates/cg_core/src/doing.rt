//! A command is carried out in its transaction.
ghost use Rattle.std.specs.Prelude.{◌≡◌, ℕ, IfOk, OnErr};
ghost use Rattle.cg_command.specs.Applied.{outcome_of};
ghost use Rattle.cg_command.specs.Meaning.{command_of};
ghost use Rattle.cg_core.specs.Alike.{AreCopies};
ghost use Rattle.cg_core.specs.Doing.{IsApplied, IsCarriedOut};
ghost use Rattle.cg_locks.specs.Holdings.{holdings};
ghost use Rattle.cg_model.specs.Command.{IsAccepted};
ghost use Rattle.cg_model.specs.Effect.{effect};
ghost use Rattle.cg_model.specs.Footprint.{Mark};
ghost use Rattle.cg_model.specs.History as model;

use crate::answers::Copies;
use cg_command::{Command, Outcome};
use cg_inverse::Inverse;
use cg_locks::{Footprint, LockTable};
use cg_tree::Tree;
use cg_txn::{Entry, Txn};
use std::alloc::{AllocError, Global};

// Carries the accepted command out: the transaction takes its footprint, the tree changes, and the command stands on the
// stack. An error, where there is no memory, leaves tree, stack and holdings as they were.
pub(crate) fn carry_out(
    alloc: Global,
    tree: &mut Tree,
    locks: &mut LockTable,
    txn: &mut Txn,
    place: u32,
    command: &Command,
    mut footprint: Footprint,
    copies: &mut Copies,
) -> Result<Outcome, AllocError>
    requires { IsAccepted (effect (command_of command.now) tree.old.tree) }
    ensures done { IfOk result (λ r. IsCarriedOut (command_of command.now) place footprint tree.old locks.old txn.old (model.Gave (outcome_of r)) tree.new locks.new txn.new) }
    ensures copies { IfOk result (λ r. AreCopies (model.Gave (outcome_of r)) copies.old.is_logged copies.new) }
    ensures tree { OnErr result (tree.new ≡ tree.old) }
    ensures locks { OnErr result ((u : ℕ) (m : Mark) → holdings locks.new u m ≡ holdings locks.old u m) }
    ensures number { OnErr result (txn.new.number ≡ txn.old.number) }
    ensures items { OnErr result (txn.new.items ≡ txn.old.items) }
{
    txn.reserve()?;
    locks.take(alloc, txn.number(), &mut footprint)?;
    match apply(alloc, tree, command, copies) {
        Ok((outcome, inverse)) => {
            txn.push_reserved(Entry {
                place,
                inverse,
                footprint,
            });
            Ok(outcome)
        }
        Err(error) => {
            locks.release(txn.number(), &footprint);
            Err(error)
        }
    }
}

// Changes the tree as the accepted command does, and gives the outcome, of which the copies are made, with the inverse. An
// error, where there is no memory, leaves the tree as it was.
fn apply(
    alloc: Global,
    tree: &mut Tree,
    command: &Command,
    copies: &mut Copies,
) -> Result<(Outcome, Inverse), AllocError>
    requires { IsAccepted (effect (command_of command.now) tree.old.tree) }
    ensures ok { IfOk result (λ r. IsApplied (command_of command.now) tree.old (model.Gave (outcome_of r.0)) r.1 tree.new) }
    ensures copies { IfOk result (λ r. AreCopies (model.Gave (outcome_of r.0)) copies.old.is_logged copies.new) }
    ensures err { OnErr result (tree.new ≡ tree.old) }
{
    let applied = command.apply(alloc, tree)?;
    match copies.copy(alloc, &applied.0) {
        Ok(()) => Ok(applied),
        Err(error) => {
            applied.1.undo(tree);
            Err(error)
        }
    }
}
