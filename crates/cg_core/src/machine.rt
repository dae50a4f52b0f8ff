//! The machine: its state.
ghost use Rattle.std.specs.Prelude.{◌≡◌, ◌≤◌, ℕ, IfOk, [], false, length, map, option_map, Some};
ghost use Rattle.std.specs.Bool.{OnFalse, OnTrue};
ghost use Rattle.cg_core_laws.specs.CommittedCommands.{command_at, commit_of, script_commands, script_places, AreCommits, GoUp};
ghost use Rattle.cg_core_laws.specs.Laws.{GoBack, IsBusyExactly};
ghost use Rattle.cg_core_laws.specs.MachineOf.{Reached};
ghost use Rattle.cg_core_laws.specs.Room.{RoomKept};
ghost use Rattle.cg_core_laws.specs.Serial.{IsFaithful, IsSerial, OthersStay};
ghost use Rattle.cg_core.specs.Alike.{is_text_answer, IsCopy};
ghost use Rattle.cg_core.specs.Answers.{is_memory, takes_memory};
ghost use Rattle.cg_core.specs.Held.{keeps_entry, times_held};
ghost use Rattle.cg_core.specs.State.{after, has_record, machine, reply, StepsAsReplied};
ghost use Rattle.cg_history.specs.SessionMap.{oldest};
ghost use Rattle.cg_locks.specs.Holdings.{holdings};
ghost use Rattle.cg_model.specs.Cgroups.{cgroups};
ghost use Rattle.cg_model.specs.Footprint.{Mark};
ghost use Rattle.cg_model.specs.Machine.{step};
ghost use Rattle.cg_model.specs.Opens.{commits, opens, transaction_in};
ghost use Rattle.cg_model.specs.Reply.{is_full, slots};
ghost use Rattle.cg_model.specs.Run.{tree_of};
ghost use Rattle.cg_model.specs.Sound.{Sound};
ghost use Rattle.cg_name.specs.Path.{Path};
ghost use Rattle.cg_tree.specs.Room.{has_entry};

use crate::answers::{Copies, again};
use crate::ending::Ending;
use cg_commits::CommitHistory;
use cg_history::{Answer, Record, Request, SessionId, SessionMap};
use cg_locks::LockTable;
use cg_name::TxnNumber;
use cg_tree::Tree;
use cg_txn::{Room, Txn};
use cg_world::World;
use std::alloc::{AllocError, Global};
use std::marker::Model;

/// A tree, the transactions that are open on it, what they hold, and the history of all requests.
pub struct Core {
    pub(crate) opening: World,
    pub(crate) limit: u32,
    pub(crate) tree: Tree,
    pub(crate) locks: LockTable,
    pub(crate) open: SessionMap<Txn>,
    // With a slot reserved for the end of each open transaction, and for each item on its stack.
    pub(crate) history: CommitHistory,
    // The room of the stack that ended last, for the next one.
    pub(crate) spare: Room,
}

// By hand, so that whoever drops one calls this, and doesn't drop each thing in it: that makes proofs shorter.
impl Drop for Core {
    fn drop(self) {
        let Core {
            opening: _,
            limit: _,
            tree: _,
            locks: _,
            open: _,
            history: _,
            spare: _,
        } = self;
    }
}

impl Model for Core {
    ghost use Rattle.cg_core.specs.Code.{core_code};
    ghost use Rattle.cg_core.specs.Core.{state_of, IsCore};
    ghost use Rattle.cg_core.specs.State.{CoreState};

    ghost Value = { CoreState };

    ghost coded = { core_code };

    ghost view = { state_of };

    ghost invariant = { IsCore };
}

impl Core {
    ghost use Rattle.cg_history.specs.Meaning.{answer_of, history_of, request_of};

    /// A machine on this world's tree, whose history has at most `limit` slots, from 2 to 1,048,576, reserved ones included;
    /// an error where there is no memory for it.
    pub fn open(alloc: Global, world: World, limit: u32) -> Result<Core, AllocError>
        requires low { 2 ≤ limit }
        requires high { limit ≤ 1048576 }
        ensures { IfOk result (λ core. core ≡ record { opening = world; bound = limit; history = [] }) }
    {
        let tree = Tree::from_world(alloc, &world)?;
        Ok(Core {
            opening: world,
            limit,
            tree,
            locks: LockTable::new(alloc),
            open: SessionMap::new(alloc),
            history: CommitHistory::new(alloc),
            spare: Room::new(alloc),
        })
    }

    /// The tree as it stands: that of the history. Besides its groups just those paths have an entry that going back over what
    /// stands of the open transactions may need.
    pub fn tree(&self) -> &Tree
        ensures value { result.now.tree ≡ tree_of cgroups self.now.opening self.now.history }
        ensures sound { Sound result.now.tree }
        ensures entries { (p : Path) → has_entry result.now p ≡ keeps_entry self.now p }
    {
        &self.tree
    }

    /// The marks that the open transactions hold: those of what stands of them.
    pub fn locks(&self) -> &LockTable
        ensures { (u : ℕ) (m : Mark) → holdings result.now u m ≡ times_held self.now u m }
    {
        &self.locks
    }

    /// The world that the machine was opened on.
    pub fn opening(&self) -> &World
        ensures { result.now ≡ self.now.opening }
    {
        &self.opening
    }

    /// The records so far, oldest first.
    pub fn history(&self) -> &[Record]
        ensures { history_of result.now ≡ self.now.history }
    {
        self.history.records()
    }

    /// How many transactions committed.
    pub fn commit_count(&self) -> u32
        ensures { result ≡ commits self.now.history }
    {
        self.history.committed()
    }

    /// Which committed script has the record at this index as a command's, counted from 1 in commit order; 0 where none has, as
    /// where the command was undone, returned over or aborted, or its transaction is open, and where there is no such record.
    pub fn commit_of(&self, index: u32) -> u32
        ensures { result ≡ commit_of index self.now.history }
    {
        self.history.commit_of(index)
    }

    /// The script that committed as this one, counted from 1: the indices, ascending, of the records that asked for its commands.
    /// There are none of a script without a command, and where there is no such script.
    pub fn script(&self, number: u32) -> &[u32]
        ensures places { result.now ≡ script_places number self.now.history }
        ensures commands { map (command_at self.now.history) result.now ≡ map Some (script_commands number self.now.history) }
        ensures ascending { GoUp result.now }
    {
        self.history.script(number)
    }

    /// The session's open transaction, where it has one.
    pub fn txn_of(&self, session: SessionId) -> Option<TxnNumber>
        ensures { option_map (λ t. t.0) result ≡ transaction_in session.0 (opens self.now.history) }
    {
        match self.open.get(session) {
            Some(txn) => Some(txn.number()),
            None => None,
        }
    }

    /// How many transactions are open.
    pub fn open_count(&self) -> u32
        ensures { result ≡ length (opens self.now.history) }
    {
        self.open.len() as u32
    }

    /// The session of the open transaction with the least number, where one is open.
    pub fn oldest(&self) -> Option<SessionId>
        ensures { option_map (λ s. s.0) result ≡ oldest (opens self.now.history) }
    {
        self.open.oldest()
    }

    /// Tells what holds of any core, whatever was asked of it. Does nothing: it is called for what its contract says.
    pub fn laws(&self)
        ensures opening { Sound self.now.opening }
        ensures low { 2 ≤ self.now.bound }
        ensures high { self.now.bound ≤ 1048576 }
        ensures within_bound { slots self.now.history ≤ self.now.bound }
        ensures sound { Sound (tree_of cgroups self.now.opening self.now.history) }
        ensures reached { Reached self.now.opening self.now.bound self.now.history }
        ensures serial { IsSerial cgroups self.now.opening (machine self.now) }
        ensures faithful { IsFaithful cgroups self.now.opening (machine self.now) }
        ensures room { RoomKept self.now.opening (machine self.now) }
        ensures going_back { GoBack (machine self.now) }
        ensures others { OthersStay cgroups (machine self.now) }
        ensures busy { IsBusyExactly self.now.opening (machine self.now) }
        ensures commits { AreCommits cgroups self.now.opening self.now.history }
    {
        // All of it follows from the invariant, which is known where a part is looked at.
        let _ = &self.limit;
    }

    /// Answers a request of a session. `Refused(Memory)` comes to Begin, commands and Save alone, in place of an answer that would
    /// be recorded, and leaves all as it was. So what has no record, as `AlreadyOpen`, `Full` and `NameTaken`, is always answered.
    #[inline(always)]
    pub fn step(&mut self, alloc: Global, session: SessionId, request: Request) -> Answer
        ensures answer { OnFalse (is_memory result) (answer_of result ≡ reply self.old session.0 (request_of request)) }
        ensures state { OnFalse (is_memory result) (self.new ≡ after self.old session.0 (request_of request)) }
        ensures machine { OnFalse (is_memory result) (step cgroups (machine self.old) session.0 (request_of request) ≡ (machine self.new, answer_of result)) }
        ensures memory { OnTrue (is_memory result) (self.new ≡ self.old) }
        ensures infallible { takes_memory request ≡ false → is_memory result ≡ false }
        ensures unrecorded { has_record self.old session.0 (request_of request) ≡ false → is_memory result ≡ false }
        ensures reached { Reached self.new.opening self.new.bound self.new.history }
        ensures serial { IsSerial cgroups self.new.opening (machine self.new) }
        ensures faithful { IsFaithful cgroups self.new.opening (machine self.new) }
        ensures room { RoomKept self.new.opening (machine self.new) }
        ensures going_back { GoBack (machine self.new) }
        ensures others { OthersStay cgroups (machine self.new) }
        ensures busy { IsBusyExactly self.new.opening (machine self.new) }
    {
        let mut copies = Copies::none(false);
        self.tell_steps();
        let answer = self.answer(alloc, session, request, &mut copies);
        self.laws();
        answer
    }

    /// As `step`, with the answer twice: the second is for whoever writes it down. A text is copied for it before the step is
    /// recorded, so that no memory is wanted for it afterwards.
    pub fn step_pair(
        &mut self,
        alloc: Global,
        session: SessionId,
        request: Request,
    ) -> (Answer, Answer)
        ensures answer { OnFalse (is_memory result.0) (answer_of result.0 ≡ reply self.old session.0 (request_of request)) }
        ensures state { OnFalse (is_memory result.0) (self.new ≡ after self.old session.0 (request_of request)) }
        ensures machine { OnFalse (is_memory result.0) (step cgroups (machine self.old) session.0 (request_of request) ≡ (machine self.new, answer_of result.0)) }
        ensures memory { OnTrue (is_memory result.0) (self.new ≡ self.old) }
        ensures infallible { takes_memory request ≡ false → is_memory result.0 ≡ false }
        ensures unrecorded { has_record self.old session.0 (request_of request) ≡ false → is_memory result.0 ≡ false }
        ensures copy { answer_of result.1 ≡ answer_of result.0 }
        ensures reached { Reached self.new.opening self.new.bound self.new.history }
        ensures serial { IsSerial cgroups self.new.opening (machine self.new) }
        ensures faithful { IsFaithful cgroups self.new.opening (machine self.new) }
        ensures room { RoomKept self.new.opening (machine self.new) }
        ensures going_back { GoBack (machine self.new) }
        ensures others { OthersStay cgroups (machine self.new) }
        ensures busy { IsBusyExactly self.new.opening (machine self.new) }
    {
        let mut copies = Copies::none(true);
        self.tell_steps();
        let answer = self.answer(alloc, session, request, &mut copies);
        self.laws();
        let second = again(&answer, &mut copies.logged);
        (answer, second)
    }

    /// Answers `Back`, `Undo`, `Commit` or `Abort` as `step_pair` does. These take no memory, and so it takes no allocator.
    pub fn step_without_memory(&mut self, session: SessionId, request: Request) -> (Answer, Answer)
        requires { takes_memory request ≡ false }
        ensures answer { answer_of result.0 ≡ reply self.old session.0 (request_of request) }
        ensures state { self.new ≡ after self.old session.0 (request_of request) }
        ensures machine { step cgroups (machine self.old) session.0 (request_of request) ≡ (machine self.new, answer_of result.0) }
        ensures infallible { is_memory result.0 ≡ false }
        ensures copy { answer_of result.1 ≡ answer_of result.0 }
        ensures reached { Reached self.new.opening self.new.bound self.new.history }
        ensures serial { IsSerial cgroups self.new.opening (machine self.new) }
        ensures faithful { IsFaithful cgroups self.new.opening (machine self.new) }
        ensures room { RoomKept self.new.opening (machine self.new) }
        ensures going_back { GoBack (machine self.new) }
        ensures others { OthersStay cgroups (machine self.new) }
        ensures busy { IsBusyExactly self.new.opening (machine self.new) }
    {
        self.tell_steps();
        let answer = self.answer_without_memory(session, request);
        self.laws();
        let second = again(&answer, &mut None);
        (answer, second)
    }

    // Answers a request as its kind asks for.
    fn answer(
        &mut self,
        alloc: Global,
        session: SessionId,
        request: Request,
        copies: &mut Copies,
    ) -> Answer
        ensures answer { OnFalse (is_memory result) (answer_of result ≡ reply self.old session.0 (request_of request)) }
        ensures state { OnFalse (is_memory result) (self.new ≡ after self.old session.0 (request_of request)) }
        ensures memory { OnTrue (is_memory result) (self.new ≡ self.old) }
        ensures infallible { takes_memory request ≡ false → is_memory result ≡ false }
        ensures unrecorded { has_record self.old session.0 (request_of request) ≡ false → is_memory result ≡ false }
        ensures copy { OnTrue copies.old.is_logged (IsCopy (answer_of result) copies.new.logged) }
    {
        match request {
            Request::Begin => self.begin(alloc, session),
            Request::Do(mut command) => {
                self.look_up(alloc, &mut command);
                self.run(alloc, session, command, copies)
            }
            Request::Save(name) => self.save(session, name),
            other => self.answer_without_memory(session, other),
        }
    }

    // Answers a request that takes no memory as its kind asks for.
    fn answer_without_memory(&mut self, session: SessionId, request: Request) -> Answer
        requires { takes_memory request ≡ false }
        ensures answer { answer_of result ≡ reply self.old session.0 (request_of request) }
        ensures state { self.new ≡ after self.old session.0 (request_of request) }
        ensures infallible { is_memory result ≡ false }
        ensures no_text { is_text_answer (answer_of result) ≡ false }
    {
        match request {
            Request::Back(name) => self.back(session, name),
            Request::Undo => self.undo(session),
            Request::Commit => self.end(session, Ending::Commit),
            Request::Abort => self.end(session, Ending::Abort),
            Request::Begin | Request::Do(_) | Request::Save(_) => unreachable!(),
        }
    }

    // Tells which step the machine of the definitions takes next.
    fn tell_steps(&self)
        ensures { StepsAsReplied self.now }
    {
        let _ = &self.limit;
    }

    // Whether two more slots would exceed the limit.
    pub(crate) fn is_full(&self) -> bool
        ensures { result ≡ is_full self.now.bound self.now.history }
    {
        self.history.len() + self.history.reserved() + 2 > self.limit as usize
    }
}
