//! The history with its committed scripts.
ghost use Rattle.std.specs.Prelude.{◌≡◌, ◌+◌, ◌-◌, ◌<◌, ◌≤◌, ◌^◌, ◌∷◌, [], false, length, true, OnErr, OnOk};
ghost use Rattle.cg_commits.specs.Answers.{is_commit};
ghost use Rattle.cg_core_laws.specs.CommittedCommands.{commit_of, places, script_places};
ghost use Rattle.cg_model.specs.Live.{live};
ghost use Rattle.cg_model.specs.Opens.{begins, commits};
ghost use Rattle.cg_txn.specs.Places.{places_on};

use crate::room::{AT_ONCE, end_after, give_number, make_room};
use cg_history::{History, Record};
use cg_txn::Txn;
use std::alloc::{AllocError, Global};
use std::marker::Model;

/// The records so far, with slots reserved for records to come, as a `History`, which tells of each committed script where its
/// commands have their records. A reserved slot has room for one place of a script, too.
pub struct CommitHistory {
    history: History,
    // Of one script after another, the oldest first.
    places: Vec<u32>,
    // Where each script ends among these.
    ends: Vec<usize>,
    // By places: which script has it, from 1, and 0 where none has.
    numbers: Vec<u32>,
    // For how many slots more than those that are reserved there is room in these three.
    spare: usize,
}

// By hand, so that whoever drops one calls this, and doesn't drop each thing in it: that makes proofs shorter.
impl Drop for CommitHistory {
    fn drop(self) {
        let CommitHistory {
            history: _,
            places: _,
            ends: _,
            numbers: _,
            spare: _,
        } = self;
    }
}

impl Model for CommitHistory {
    ghost use Rattle.std.specs.Prelude.{ℕ};
    ghost use Rattle.std.specs.Coded.{coded×, coded_ℕ};
    ghost use Rattle.cg_model.specs.Cgroups.{cgroups};
    ghost use Rattle.cg_model.specs.History as model;
    ghost use Rattle.cg_history.specs.Code.{history_code};
    ghost use Rattle.cg_commits.specs.Kept.{IsKept};

    ghost Value = { model.History cgroups × ℕ };

    ghost coded = { coded× history_code coded_ℕ };

    ghost view = { λ c. c.history };

    ghost invariant = { IsKept };
}

impl CommitHistory {
    ghost use Rattle.cg_history.specs.Meaning.{answer_of, history_of, record_of};

    /// A history of no records, with no slot reserved.
    pub fn new(alloc: Global) -> CommitHistory
        ensures { result ≡ ([], 0) }
    {
        CommitHistory {
            history: History::new(alloc),
            places: Vec::new(alloc),
            ends: Vec::new(alloc),
            numbers: Vec::new(alloc),
            spare: 0,
        }
    }

    /// The records, oldest first.
    pub fn records(&self) -> &[Record]
        ensures { history_of result.now ≡ self.now.0 }
    {
        self.history.records()
    }

    /// How many records there are.
    pub fn len(&self) -> usize
        ensures { result ≡ length self.now.0 }
    {
        self.history.len()
    }

    /// How many slots are reserved.
    pub fn reserved(&self) -> usize
        ensures { result ≡ self.now.1 }
    {
        self.history.reserved()
    }

    /// How many transactions were begun.
    pub fn begun(&self) -> u32
        ensures { result ≡ begins self.now.0 }
    {
        self.history.begun()
    }

    /// How many transactions committed.
    pub fn committed(&self) -> u32
        ensures { result ≡ commits self.now.0 }
    {
        self.history.committed()
    }

    /// Where the commands of the script that committed as this one, from 1, have their records: the indices of these, ascending.
    /// None where there is no such script.
    pub fn script(&self, number: u32) -> &[u32]
        ensures { result.now ≡ script_places number self.now.0 }
    {
        let count = number as usize;
        if count == 0 {
            return &self.places[0..0];
        }
        if self.ends.len() < count {
            return &self.places[0..0];
        }
        let start = end_after(&self.ends, count - 1);
        let end = end_after(&self.ends, count);
        &self.places[start..end]
    }

    /// Which committed script has the record at this index as a command's, from 1; 0 where none has, and where there is no record.
    pub fn commit_of(&self, index: u32) -> u32
        ensures { result ≡ commit_of index self.now.0 }
    {
        match self.numbers.get(index as usize) {
            Some(number) => *number,
            None => 0,
        }
    }

    /// Reserves so many slots more. An error, where there is no memory for them, leaves the history as it was.
    #[inline(always)]
    pub fn reserve(&mut self, more: usize) -> Result<(), AllocError>
        requires { length self.old.0 + (self.old.1 + more) < 2 ^ 32 }
        ensures ok { OnOk result (self.new ≡ (self.old.0, self.old.1 + more)) }
        ensures err { OnErr result (self.new ≡ self.old) }
    {
        if self.spare < more {
            let slots = self.history.reserved() + more + AT_ONCE;
            let size = self.history.len() + slots;
            make_room(
                &mut self.places,
                &mut self.ends,
                &mut self.numbers,
                slots,
                size,
            )?;
            self.spare = more + AT_ONCE;
        }
        self.history.reserve(more)?;
        self.spare -= more;
        Ok(())
    }

    /// Gives so many reserved slots up.
    pub fn release(&mut self, count: usize)
        requires { count ≤ self.old.1 }
        ensures { self.new ≡ (self.old.0, self.old.1 - count) }
    {
        self.history.release(count);
    }

    /// Adds a record, by which no transaction commits, in a slot that was reserved for it.
    pub fn push(&mut self, entry: Record)
        requires reserved { 0 < self.old.1 }
        requires few { length self.old.0 < 2 ^ 32 - 1 }
        requires other { is_commit (answer_of entry.answer) ≡ false }
        ensures { self.new ≡ (record_of entry ∷ self.old.0, self.old.1 - 1) }
    {
        self.history.push(entry);
    }

    /// Adds the record by which a transaction commits whose stack this is, in a slot that was reserved for it, and gives up the
    /// slots that were reserved for what stands of it. Takes no memory.
    pub fn commit(&mut self, entry: Record, txn: &Txn)
        requires reserved { length txn.now.items < self.old.1 }
        requires few { length self.old.0 < 2 ^ 32 - 1 }
        requires commits { is_commit (answer_of entry.answer) ≡ true }
        requires script { places_on txn.now.items ≡ places (live entry.txn.0 self.old.0) }
        ensures { self.new ≡ (record_of entry ∷ self.old.0, (self.old.1 - 1) - length txn.now.items) }
    {
        let number = self.history.committed() + 1;
        let start = self.places.len();
        txn.write_places(&mut self.places);
        let end = self.places.len();
        give_number(&mut self.numbers, &self.places[start..end], number);
        self.ends.push_reserved(end);
        self.history.push(entry);
        self.history.release(txn.len());
    }
}
