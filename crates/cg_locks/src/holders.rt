//! The transactions that hold one thing, each with how often.
ghost use Rattle.std.specs.Prelude.{◌≡◌, ◌+◌, ◌<◌, ◌≤◌, ◌==◌, [], ℕ, IfOk, IsTrue, OnErr, OnOk, T, length, option_map};
ghost use Rattle.std.specs.FinMap.Entries.{find, is_sorted, put};
ghost use Rattle.std.specs.Option.{unwrap_or};
ghost use Rattle.std.specs.Ordering.{nat_cmp};
ghost use Rattle.cg_locks.specs.Holders.{all_holders, held_by, lesser_of, number_of, one, place_of, without, IsHolderList, IsLeastOther};

use cg_name::TxnNumber;
use std::alloc::{AllocError, Global};
use std::marker::Model;

// The transactions that hold one thing. Almost always that is one at most, so the least stands apart from the others.
#[derive(Drop)]
pub(crate) struct Holders {
    // The least of them, and how often it holds the thing: 0 where nobody does.
    first: u32,
    times: u32,
    // The others, by ascending numbers, none with 0. They take no memory where there are none.
    others: Vec<(u32, u32)>,
}

impl Model for Holders {
    ghost use Rattle.std.specs.Prelude.{ℕ};
    ghost use Rattle.std.specs.Coded.{coded_ℕ};
    ghost use Rattle.std.specs.Ordering.{nat_cmp};
    ghost use Rattle.cg_maps.specs.Code.{map_code};
    ghost use Rattle.cg_maps.specs.FiniteMap.{FiniteMap, from_entries};
    ghost use Rattle.cg_locks.specs.Holders.{all_holders, AreHolders};

    ghost Value = { FiniteMap nat_cmp ℕ };

    ghost coded = { map_code coded_ℕ coded_ℕ };

    ghost view = { λ h. from_entries nat_cmp (all_holders h.first h.times h.others.items) };

    ghost invariant = { λ h. AreHolders h.first h.times h.others.items };
}

impl Holders {
    // None.
    pub(crate) fn new(alloc: Global) -> Holders
        ensures { (u : ℕ) → held_by result u ≡ 0 }
    {
        Holders {
            first: 0,
            times: 0,
            others: Vec::new(alloc),
        }
    }

    // Whether there are none.
    pub(crate) fn is_empty(&self) -> bool
        ensures { IsTrue result → (u : ℕ) → held_by self.now u ≡ 0 }
    {
        self.times == 0
    }

    // How often the transaction holds it.
    pub(crate) fn count(&self, transaction: TxnNumber) -> u32
        ensures { result ≡ held_by self.now transaction.0 }
    {
        if self.first == transaction.0 {
            return self.times;
        }
        count_in(&self.others, transaction.0)
    }

    // The least other transaction that holds it.
    #[inline(always)]
    pub(crate) fn least_other(&self, transaction: TxnNumber) -> Option<TxnNumber>
        ensures { IsLeastOther transaction.0 (held_by self.now) (option_map number_of result) }
    {
        if self.times == 0 {
            return None;
        }
        if self.first != transaction.0 {
            return Some(TxnNumber(self.first));
        }
        match self.others.first() {
            Some((holder, _times)) => Some(TxnNumber(*holder)),
            None => None,
        }
    }

    // One holding more by the transaction, and how many it has then. An error, where there is no memory for it, changes
    // nothing.
    #[inline(always)]
    pub(crate) fn add(&mut self, transaction: TxnNumber) -> Result<usize, AllocError>
        ensures ok { OnOk result ((u : ℕ) → held_by self.new u ≡ held_by self.old u + one (u == transaction.0)) }
        ensures count { IfOk result (λ n. n ≡ held_by self.old transaction.0 + 1) }
        ensures err { OnErr result (self.new ≡ self.old) }
    {
        if self.times == 0 {
            self.first = transaction.0;
            self.times = 1;
            return Ok(1);
        }
        if self.first == transaction.0 {
            let Some(more) = self.times.checked_add(1) else {
                return Err(AllocError);
            };
            self.times = more;
            return Ok(more as usize);
        }
        if self.first < transaction.0 {
            let more = add_in(&mut self.others, transaction.0)?;
            return Ok(more as usize);
        }
        self.others.insert(0, (self.first, self.times))?;
        self.first = transaction.0;
        self.times = 1;
        Ok(1)
    }

    // One holding less by the transaction, which has one, and how many are left to it. Takes no memory.
    #[inline(always)]
    pub(crate) fn remove(&mut self, transaction: TxnNumber) -> usize
        requires { 0 < held_by self.old transaction.0 }
        ensures less { (u : ℕ) → held_by self.old u ≡ held_by self.new u + one (u == transaction.0) }
        ensures left { result + 1 ≡ held_by self.old transaction.0 }
    {
        if self.first != transaction.0 {
            return remove_in(&mut self.others, transaction.0) as usize;
        }
        let left = self.times - 1;
        if left > 0 {
            self.times = left;
        } else {
            (self.first, self.times) = take_first(&mut self.others);
        }
        left as usize
    }
}

// The number that stands beside the transaction's, or 0.
fn count_in(entries: &[(u32, u32)], transaction: u32) -> u32
    ensures { result ≡ unwrap_or (find nat_cmp transaction entries.now) 0 }
{
    for (holder, count) in entries {
        if *holder == transaction {
            return *count;
        }
    }
    0
}

// How many lower numbers stand before the place of the transaction's, and the number that stands beside it there, or 0.
fn place_in(entries: &[(u32, u32)], transaction: u32) -> (usize, u32)
    requires { T (is_sorted nat_cmp entries.now) }
    ensures place { result.0 ≡ place_of transaction entries.now }
    ensures within { result.0 ≤ length entries.now }
    ensures count { result.1 ≡ unwrap_or (find nat_cmp transaction entries.now) 0 }
{
    for (index, (holder, count)) in entries.iter().enumerate() {
        if *holder == transaction {
            return (index, *count);
        }
        if *holder > transaction {
            return (index, 0);
        }
    }
    (entries.len(), 0)
}

// Writes one more beside the transaction's number, and gives how many stand there then. An error, where there is no memory for
// it, leaves the entries.
fn add_in(entries: &mut Vec<(u32, u32)>, transaction: u32) -> Result<u32, AllocError>
    requires { IsHolderList entries.old.items }
    ensures ok { IfOk result (λ n. entries.new.items ≡ put nat_cmp transaction n entries.old.items) }
    ensures count { IfOk result (λ n. n ≡ unwrap_or (find nat_cmp transaction entries.old.items) 0 + 1) }
    ensures err { OnErr result (entries.new.items ≡ entries.old.items) }
{
    let (place, count) = place_in(entries, transaction);
    let Some(more) = count.checked_add(1) else {
        return Err(AllocError);
    };
    if more > 1 {
        entries[place] = (transaction, more);
    } else {
        entries.insert(place, (transaction, more))?;
    }
    Ok(more)
}

// Writes one less beside the transaction's number, and gives how many stand there then: where that is 0, the entry goes.
fn remove_in(entries: &mut Vec<(u32, u32)>, transaction: u32) -> u32
    requires sorted { T (is_sorted nat_cmp entries.old.items) }
    requires there { 0 < unwrap_or (find nat_cmp transaction entries.old.items) 0 }
    ensures left { result + 1 ≡ unwrap_or (find nat_cmp transaction entries.old.items) 0 }
    ensures less { 0 < result → entries.new.items ≡ put nat_cmp transaction result entries.old.items }
    ensures gone { result ≡ 0 → entries.new.items ≡ without transaction entries.old.items }
{
    let (place, count) = place_in(entries, transaction);
    let left = count - 1;
    if left > 0 {
        entries[place] = (transaction, left);
    } else {
        entries.remove(place);
    }
    left
}

// Takes the first entry out; one with 0, where there is none.
fn take_first(entries: &mut Vec<(u32, u32)>) -> (u32, u32)
    requires { IsHolderList entries.old.items }
    ensures all { all_holders result.0 result.1 entries.new.items ≡ entries.old.items }
    ensures alone { result.1 ≡ 0 → entries.new.items ≡ [] }
{
    let Some(first) = entries.first().copied() else {
        return (0, 0);
    };
    entries.remove(0);
    first
}

// The lesser of two numbers, of which each may be missing.
#[inline(always)]
pub(crate) fn lesser(first: Option<TxnNumber>, second: Option<TxnNumber>) -> Option<TxnNumber>
    ensures { option_map number_of result ≡ lesser_of (option_map number_of first) (option_map number_of second) }
{
    match (first, second) {
        (Some(one), Some(other)) => Some(if other.0 < one.0 { other } else { one }),
        (Some(one), None) => Some(one),
        (None, other) => other,
    }
}
