//! A command is run.
ghost use Rattle.std.specs.Prelude.{◌≡◌, ◌+◌, ◌≤◌, ℕ, IfErr, IfOk, OnErr, OnOk, false, length};
ghost use Rattle.std.specs.Bool.{OnFalse, OnTrue};
ghost use Rattle.cg_command.specs.Meaning.{command_of};
ghost use Rattle.cg_core.specs.Alike.{AreCopies, IsCopy};
ghost use Rattle.cg_core.specs.Answers.{is_memory};
ghost use Rattle.cg_core.specs.Refusing.{IsFree, IsRefusedBy};
ghost use Rattle.cg_core.specs.Settled.{IsSettled, IsUnheard};
ghost use Rattle.cg_core.specs.State.{after, has_record, reply};
ghost use Rattle.cg_history.specs.Meaning.{answer_of};
ghost use Rattle.cg_locks.specs.Holdings.{holdings};
ghost use Rattle.cg_model.specs.Command.{IsAccepted};
ghost use Rattle.cg_model.specs.Effect.{effect};
ghost use Rattle.cg_model.specs.Footprint.{Mark};
ghost use Rattle.cg_model.specs.History as model;

use crate::answers::{Copies, again, answer_with};
use crate::doing::carry_out;
use crate::machine::Core;
use cg_command::Command;
use cg_commits::CommitHistory;
use cg_history::{Answer, Record, Request, SessionId};
use cg_locks::{Footprint, LockTable};
use cg_name::{Refusal, TxnNumber};
use cg_tree::Tree;
use cg_txn::Txn;
use std::alloc::Global;

impl Core {
    // Looks the path that the command names up once, in the tree and in the table of locks, where what follows asks for it several
    // times. The command shares the tree's text of it from now on, and so does what is kept of the command. Takes no memory.
    pub(crate) fn look_up(&mut self, alloc: Global, command: &mut Command)
        ensures core { self.new ≡ self.old }
        ensures command { command.new ≡ command.old }
    {
        if let Some(path) = command.path() {
            let number = self.tree.visit(path);
            self.locks.visit(path, number);
        }
        command.share(alloc, &self.tree);
    }

    // Runs a command in the session's transaction. Of a text that it shows the copy for the session to write down, where it does,
    // stays in the copies.
    pub(crate) fn run(
        &mut self,
        alloc: Global,
        session: SessionId,
        command: Command,
        copies: &mut Copies,
    ) -> Answer
        ensures answer { OnFalse (is_memory result) (answer_of result ≡ reply self.old session.0 (model.Do (command_of command))) }
        ensures state { OnFalse (is_memory result) (self.new ≡ after self.old session.0 (model.Do (command_of command))) }
        ensures memory { OnTrue (is_memory result) (self.new ≡ self.old) }
        ensures unrecorded { has_record self.old session.0 (model.Do (command_of command)) ≡ false → is_memory result ≡ false }
        ensures copy { OnTrue copies.old.is_logged (IsCopy (answer_of result) copies.new.logged) }
    {
        let full = self.is_full();
        let Some(txn) = self.open.get_mut(session) else {
            // By a call, here as below: else its destructor is a part of this body, with a way out for each case.
            drop(command);
            return Answer::Refused(Refusal::NoTransaction);
        };
        let number = txn.number();
        match settle(
            alloc,
            &mut self.tree,
            &mut self.locks,
            txn,
            &mut self.history,
            full,
            &command,
            copies,
        ) {
            Ok(answer) => {
                let recorded = again(&answer, &mut copies.recorded);
                self.history.push(Record {
                    session,
                    txn: number,
                    request: Request::Do(command),
                    answer: recorded,
                });
                answer
            }
            Err(refusal) => {
                drop(command);
                Answer::Refused(refusal)
            }
        }
    }
}

// Settles the command of an open transaction: it is refused, or carried out, and a slot is reserved for the record that is
// due. An error, where the history is full or there is no memory, has no record, and leaves all as it was.
fn settle(
    alloc: Global,
    tree: &mut Tree,
    locks: &mut LockTable,
    txn: &mut Txn,
    history: &mut CommitHistory,
    full: bool,
    command: &Command,
    copies: &mut Copies,
) -> Result<Answer, Refusal>
    requires { length history.old.0 + history.old.1 ≤ 1048576 }
    ensures settled { IfOk result (λ r. IsSettled (command_of command.now) tree.old locks.old txn.old history.old (answer_of r) tree.new locks.new txn.new history.new) }
    ensures copies { IfOk result (λ r. AreCopies (answer_of r) copies.old.is_logged copies.new) }
    ensures room { OnOk result (full ≡ false) }
    ensures unheard { IfErr result (IsUnheard full) }
    ensures tree { OnErr result (tree.new ≡ tree.old) }
    ensures locks { OnErr result ((u : ℕ) (m : Mark) → holdings locks.new u m ≡ holdings locks.old u m) }
    ensures number { OnErr result (txn.new.number ≡ txn.old.number) }
    ensures items { OnErr result (txn.new.items ≡ txn.old.items) }
    ensures history { OnErr result (history.new ≡ history.old) }
{
    if full {
        return Err(Refusal::Full);
    }
    let Ok(footprint) = Footprint::of(alloc, command, tree) else {
        return Err(Refusal::Memory);
    };
    let Ok(()) = locks.share(alloc, txn.number()) else {
        return Err(Refusal::Memory);
    };
    let Ok(()) = history.reserve(2) else {
        return Err(Refusal::Memory);
    };
    if let Err(refusal) = may_run(tree, locks, txn.number(), &footprint, command) {
        history.release(1);
        return Ok(Answer::Refused(refusal));
    }
    let place = history.len() as u32;
    let Ok(outcome) = carry_out(alloc, tree, locks, txn, place, command, footprint, copies) else {
        history.release(2);
        return Err(Refusal::Memory);
    };
    Ok(answer_with(outcome))
}

// Whether the command can be carried out: no other transaction is in its way, and the tree is as it asks. Takes no memory.
fn may_run(
    tree: &Tree,
    locks: &LockTable,
    number: TxnNumber,
    footprint: &Footprint,
    command: &Command,
) -> Result<(), Refusal>
    ensures free { OnOk result (IsFree locks.now number.0 footprint.now) }
    ensures accepted { OnOk result (IsAccepted (effect (command_of command.now) tree.now.tree)) }
    ensures refused { IfErr result (λ r. IsRefusedBy locks.now number.0 footprint.now (effect (command_of command.now) tree.now.tree) r) }
{
    match locks.clash(number, footprint) {
        Some(holder) => Err(Refusal::Busy(holder)),
        None => command.check(tree),
    }
}
