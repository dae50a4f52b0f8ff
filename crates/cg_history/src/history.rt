//! The history: the records so far, with slots reserved for records to come.
ghost use Rattle.std.specs.Prelude.{◌≡◌, ◌+◌, ◌-◌, ◌<◌, ◌≤◌, ◌^◌, ◌∷◌, [], length, OnErr, OnOk};
ghost use Rattle.cg_model.specs.Opens.{begins, commits};

use crate::record::{Answer, Record};
use std::alloc::{AllocError, Global};
use std::marker::Model;

/// The records so far, and how many slots are reserved for records to come. A record in a reserved slot takes no memory.
pub struct History {
    // The oldest first.
    records: Vec<Record>,
    reserved: usize,
    begun: u32,
    committed: u32,
}

// By hand, so that whoever drops one calls this, and doesn't drop each thing in it: that makes proofs shorter.
impl Drop for History {
    fn drop(self) {
        let History {
            records: _,
            reserved: _,
            begun: _,
            committed: _,
        } = self;
    }
}

impl Model for History {
    ghost use Rattle.std.specs.Prelude.{◌≡◌, ◌+◌, ◌≤◌, ℕ, vec_len};
    ghost use Rattle.std.specs.Vec.{vec_capacity};
    ghost use Rattle.std.specs.Coded.{coded×, coded_ℕ};
    ghost use Rattle.cg_model.specs.Cgroups.{cgroups};
    ghost use Rattle.cg_model.specs.History as model;
    ghost use Rattle.cg_model.specs.Opens.{begins, commits};
    ghost use Rattle.cg_history.specs.Code.{history_code};
    ghost use Rattle.cg_history.specs.Meaning.{history_of};

    ghost Value = { model.History cgroups × ℕ };

    ghost coded = { coded× history_code coded_ℕ };

    ghost view = { λ h. (history_of h.records.items, h.reserved) };

    ghost invariant = { λ h. (vec_len h.records + h.reserved ≤ vec_capacity h.records) × (h.begun ≡ begins (history_of h.records.items)) × (h.committed ≡ commits (history_of h.records.items)) };
}

impl History {
    ghost use Rattle.cg_history.specs.Meaning.{history_of, record_of};

    /// A history of no records, with no slot reserved.
    pub fn new(alloc: Global) -> History
        ensures { result ≡ ([], 0) }
    {
        History {
            records: Vec::new(alloc),
            reserved: 0,
            begun: 0,
            committed: 0,
        }
    }

    /// The records, oldest first.
    pub fn records(&self) -> &[Record]
        ensures { history_of result.now ≡ self.now.0 }
    {
        self.records.as_slice()
    }

    /// How many records there are.
    pub fn len(&self) -> usize
        ensures { result ≡ length self.now.0 }
    {
        self.records.len()
    }

    /// How many slots are reserved.
    pub fn reserved(&self) -> usize
        ensures { result ≡ self.now.1 }
    {
        self.reserved
    }

    /// How many transactions were begun.
    pub fn begun(&self) -> u32
        ensures { result ≡ begins self.now.0 }
    {
        self.begun
    }

    /// How many transactions committed.
    pub fn committed(&self) -> u32
        ensures { result ≡ commits self.now.0 }
    {
        self.committed
    }

    /// Reserves so many slots more. An error, where there is no memory for them, leaves the history as it was.
    #[inline(always)]
    pub fn reserve(&mut self, more: usize) -> Result<(), AllocError>
        requires { self.old.1 + more < 2 ^ 32 }
        ensures ok { OnOk result (self.new ≡ (self.old.0, self.old.1 + more)) }
        ensures err { OnErr result (self.new ≡ self.old) }
    {
        let reserved = self.reserved + more;
        self.records.reserve(reserved)?;
        self.reserved = reserved;
        Ok(())
    }

    /// Gives so many reserved slots up.
    pub fn release(&mut self, count: usize)
        requires { count ≤ self.old.1 }
        ensures { self.new ≡ (self.old.0, self.old.1 - count) }
    {
        self.reserved -= count;
    }

    /// Adds a record in a slot that was reserved for it.
    #[inline(always)]
    pub fn push(&mut self, entry: Record)
        requires reserved { 0 < self.old.1 }
        requires few { length self.old.0 < 2 ^ 32 - 1 }
        ensures { self.new ≡ (record_of entry ∷ self.old.0, self.old.1 - 1) }
    {
        // It is put together anew where it stays: one that lay elsewhere, written just before, would be waited for.
        let (session, txn, request, answer) = entry.into_parts();
        let answer = match answer {
            Answer::Begun(number) => {
                self.begun += 1;
                Answer::Begun(number)
            }
            Answer::Committed(number) => {
                self.committed += 1;
                Answer::Committed(number)
            }
            other => other,
        };
        self.records.push_reserved(Record {
            session,
            txn,
            request,
            answer,
        });
        self.reserved -= 1;
    }
}
