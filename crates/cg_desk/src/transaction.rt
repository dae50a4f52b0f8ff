//! Transactions, which have to be spent.
ghost use Rattle.std.specs.Prelude.{◌≡◌, ◌+◌, ◌≤◌, [], false, length, true};
ghost use Rattle.cg_command.specs.Meaning.{command_of};
ghost use Rattle.cg_core.specs.Answers.{is_memory, takes_memory};
ghost use Rattle.cg_desk.specs.Replies.{MayAnswer, may_meet};
ghost use Rattle.cg_desk.specs.Transactions.{session_left, session_of, txn_number, IsSame};
ghost use Rattle.cg_history.specs.Meaning.{answer_of, request_of};
ghost use Rattle.cg_log.specs.Call.{after_call};
ghost use Rattle.cg_log.specs.Standing.{goes_back, standing};
ghost use Rattle.cg_model.specs.History as model;
ghost use Rattle.cg_name.specs.declared.refusal.Refusal.TheVariants as refusals;

use crate::desk::Desk;
use crate::session::Session;
use crate::stepping::{step_for_pair, step_for_without_memory};
use cg_command::Command;
use cg_core::{Answer, Request};
use cg_log::Log;
use cg_name::{Refusal, SaveName, TxnNumber};
use std::alloc::Global;
use std::sync::Wait;

/// A transaction of a session. It isn't dropped: `commit` and `abort` end it, and the session can be used again.
///
/// `L` is always the session's log. It is a parameter because a clause can tell what a struct leaves behind a reference in it
/// only where the struct names no type that owns memory.
pub struct Transaction<'s, L = Log> {
    pub(crate) session: &'s mut Session,
    pub(crate) desk: &'s Desk,
    pub(crate) number: TxnNumber,
    // Taken out of the session, and put back at the end.
    pub(crate) log: L,
}

impl<'s> Transaction<'s> {
    /// Its number.
    pub fn number(&self) -> TxnNumber
        ensures { result.0 ≡ txn_number self.now }
    {
        self.number
    }

    /// Runs a command.
    pub fn run(&mut self, rt: &impl Wait, alloc: Global, command: Command) -> Answer
        ensures answers { MayAnswer (txn_number self.old) (model.Do (command_of command)) (answer_of result) }
        ensures logged { session_of self.new ≡ after_call (session_of self.old) (model.Do (command_of command)) (answer_of result) }
        ensures same { IsSame self.old self.new }
    {
        self.ask(rt, alloc, Request::Do(command))
    }

    /// Sets a savepoint with a name.
    pub fn save(&mut self, rt: &impl Wait, alloc: Global, name: SaveName) -> Answer
        ensures answers { MayAnswer (txn_number self.old) (model.Save name) (answer_of result) }
        ensures logged { session_of self.new ≡ after_call (session_of self.old) (model.Save name) (answer_of result) }
        ensures same { IsSame self.old self.new }
    {
        self.ask(rt, alloc, Request::Save(name))
    }

    /// Takes the newest command off, where nothing came after it.
    pub fn undo(&mut self, rt: &impl Wait) -> Answer
        ensures answers { MayAnswer (txn_number self.old) model.Undo (answer_of result) }
        ensures logged { session_of self.new ≡ after_call (session_of self.old) model.Undo (answer_of result) }
        ensures same { IsSame self.old self.new }
        ensures infallible { is_memory result ≡ false }
    {
        if !self.log.has_way_back() {
            return self.find_nothing(Refusal::NothingToUndo);
        }
        self.go_back(rt, Request::Undo, Request::Undo)
    }

    /// Takes all that came after the savepoint with the name off, and the savepoint.
    pub fn back(&mut self, rt: &impl Wait, name: SaveName) -> Answer
        ensures answers { MayAnswer (txn_number self.old) (model.Back name) (answer_of result) }
        ensures logged { session_of self.new ≡ after_call (session_of self.old) (model.Back name) (answer_of result) }
        ensures same { IsSame self.old self.new }
        ensures infallible { is_memory result ≡ false }
    {
        if !self.log.has_way_back() {
            return self.find_nothing(Refusal::NoSavepoint);
        }
        self.go_back(rt, Request::Back(name), Request::Back(name))
    }

    /// Keeps what the transaction changed, and ends it.
    pub fn commit(self, rt: &impl Wait) -> Answer
        ensures answers { MayAnswer (txn_number self.entry) model.Commit (answer_of result) }
        ensures logged { session_left self.exit ≡ after_call (session_of self.entry) model.Commit (answer_of result) }
        ensures infallible { is_memory result ≡ false }
    {
        self.end(rt, Request::Commit, Request::Commit)
    }

    /// Takes all that the transaction did off, and ends it.
    pub fn abort(self, rt: &impl Wait) -> Answer
        ensures answers { MayAnswer (txn_number self.entry) model.Abort (answer_of result) }
        ensures logged { session_left self.exit ≡ after_call (session_of self.entry) model.Abort (answer_of result) }
        ensures infallible { is_memory result ≡ false }
    {
        self.end(rt, Request::Abort, Request::Abort)
    }

    // Asks for what may take memory: room in the log and the copy for it come first.
    fn ask(&mut self, rt: &impl Wait, alloc: Global, request: Request) -> Answer
        requires { may_meet (request_of request) refusals.Memory ≡ true }
        ensures answers { MayAnswer (txn_number self.old) (request_of request) (answer_of result) }
        ensures logged { session_of self.new ≡ after_call (session_of self.old) (request_of request) (answer_of result) }
        ensures same { IsSame self.old self.new }
    {
        let Ok(copy) = request.copy(alloc) else {
            return Answer::Refused(Refusal::Memory);
        };
        let Ok(()) = self.log.reserve() else {
            return Answer::Refused(Refusal::Memory);
        };
        let (answer, second) = self.step(rt, alloc, request);
        self.log.note(copy, second);
        answer
    }

    // Refuses to go back without a step, where by the log nothing stands.
    fn find_nothing(&self, refusal: Refusal) -> Answer
        requires { standing (session_of self.now).log ≡ [] }
        ensures { answer_of result ≡ model.Refused refusal }
    {
        Answer::Refused(refusal)
    }

    // Asks to go back, with the same again for the log, which has room reserved for it.
    fn go_back(&mut self, rt: &impl Wait, request: Request, copy: Request) -> Answer
        requires way_back { 2 ≤ self.old.log.reserved }
        requires back { goes_back (request_of request) ≡ true }
        requires no_memory { takes_memory request ≡ false }
        requires same { request_of copy ≡ request_of request }
        ensures answers { MayAnswer (txn_number self.old) (request_of request) (answer_of result) }
        ensures logged { session_of self.new ≡ after_call (session_of self.old) (request_of request) (answer_of result) }
        ensures same { IsSame self.old self.new }
        ensures infallible { is_memory result ≡ false }
    {
        let (answer, second) = self.step_without_memory(rt, request);
        self.log.note_back(copy, second);
        answer
    }

    // Asks for what ends the transaction, with the same again for the log, which the session has back then.
    fn end(self, rt: &impl Wait, request: Request, copy: Request) -> Answer
        requires no_memory { takes_memory request ≡ false }
        requires same { request_of copy ≡ request_of request }
        ensures answers { MayAnswer (txn_number self.entry) (request_of request) (answer_of result) }
        ensures logged { session_left self.exit ≡ after_call (session_of self.entry) (request_of request) (answer_of result) }
        ensures infallible { is_memory result ≡ false }
    {
        let (answer, second) = self.step_without_memory(rt, request);
        let Transaction {
            session,
            desk: _,
            number: _,
            log,
        } = self;
        session.log = log.close(copy, second);
        answer
    }

    // One step of the desk's machine, under its lock. Room for it in the log is there before.
    fn step(&self, rt: &impl Wait, alloc: Global, request: Request) -> (Answer, Answer)
        requires { length self.now.log.calls + self.now.log.reserved + 2 ≤ self.now.log.capacity }
        ensures copy { answer_of result.1 ≡ answer_of result.0 }
        ensures answers { MayAnswer (txn_number self.now) (request_of request) (answer_of result.0) }
    {
        let session = self.session.id();
        let mut locked = self.desk.locked.lock(rt);
        step_for_pair(alloc, &mut locked.core, session, self.number, request)
    }

    // The same of a request that takes no memory.
    fn step_without_memory(&self, rt: &impl Wait, request: Request) -> (Answer, Answer)
        requires { takes_memory request ≡ false }
        ensures copy { answer_of result.1 ≡ answer_of result.0 }
        ensures answers { MayAnswer (txn_number self.now) (request_of request) (answer_of result.0) }
        ensures infallible { is_memory result.0 ≡ false }
    {
        let session = self.session.id();
        let mut locked = self.desk.locked.lock(rt);
        step_for_without_memory(&mut locked.core, session, self.number, request)
    }
}
