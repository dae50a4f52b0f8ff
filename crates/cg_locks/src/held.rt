//! Who holds what at one path.
ghost use Rattle.std.specs.Prelude.{◌≡◌, ◌+◌, ◌<◌, ℕ, IfOk, IsTrue, None, OnErr, OnOk, option_map};
ghost use Rattle.cg_locks.specs.Held.{above_of, at_or_below, at_path, here_of, part_number, part_of, same_part, IsHeldMore};
ghost use Rattle.cg_locks.specs.Holders.{held_by, number_of, IsLeastOther};
ghost use Rattle.cg_locks.specs.declared.held.Kind.TheVariants as kinds;
ghost use Rattle.cg_locks.specs.declared.held.Part.{Part};

use crate::first_holders::Firsts;
use crate::holders::lesser;
use crate::other_holders::{Other, add_in, least_in, place_in, remove_in, take_least};
use cg_name::TxnNumber;
use std::alloc::{AllocError, Global};
use std::marker::Model;

// The kinds of marks at paths.
#[derive(Clone, Copy)]
pub(crate) enum Kind {
    // Of a subtree, to be changed.
    Changed,
    // Of a subtree, to be read.
    Read,
    // Of a group that stays.
    Stays,
    // Of a group's number of descendants.
    Descendants,
}

// The holders that are kept at a path: those of the marks of one kind at it; or of these and of its branches, one for each child
// at or below which a transaction holds such a mark (an intention to lock, in the terms of multigranularity locking). Most
// marks are of subtrees to be changed: what is read and written for them stands together.
#[derive(Clone, Copy)]
pub(crate) enum Part {
    ChangedAt = 0,
    ChangedBelow = 1,
    StaysBelow = 2,
    ReadBelow = 3,
    ReadAt = 4,
    StaysAt = 5,
    CountedAt = 6,
}

impl Kind {
    // The holders of the marks of this kind at a path.
    pub(crate) fn at_path(self) -> Part
        ensures { result ≡ at_path self }
    {
        match self {
            Kind::Changed => Part::ChangedAt,
            Kind::Read => Part::ReadAt,
            Kind::Stays => Part::StaysAt,
            Kind::Descendants => Part::CountedAt,
        }
    }

    // And of those at it and of its branches, if these are counted: they are where a mark of a subtree may clash with this kind.
    pub(crate) fn at_or_below(self) -> Option<Part>
        ensures { result ≡ at_or_below self }
    {
        match self {
            Kind::Changed => Some(Part::ChangedBelow),
            Kind::Read => Some(Part::ReadBelow),
            Kind::Stays => Some(Part::StaysBelow),
            Kind::Descendants => None,
        }
    }
}

impl Part {
    // Whether it is this one.
    #[inline(always)]
    pub(crate) fn is(self, other: Part) -> bool
        ensures { result ≡ same_part self other }
    {
        self.number() == other.number()
    }

    // Its number in the order in which the parts are listed.
    #[inline(always)]
    pub(crate) fn number(self) -> usize
        ensures number { result ≡ part_number self }
        ensures below { result < 7 }
    {
        self as usize
    }
}

// Who holds what at one path, and at or below its children. A tree has one at each of its nodes, and almost always there is one
// holder at most in each part: so the others of all parts stand in one list, which takes no memory where there are none.
#[derive(Drop)]
pub(crate) struct Held {
    // The least of each part.
    firsts: Firsts,
    // The others, in each part by ascending numbers.
    others: Vec<Other>,
}

impl Model for Held {
    ghost use Rattle.cg_locks.specs.Held.{HeldParts, held_code};

    ghost Value = { HeldParts };

    ghost coded = { held_code };

    ghost use Rattle.cg_locks.specs.FirstsAndOthers.{held_parts, AreParts};

    ghost view = { λ h. held_parts h.firsts h.others.items };

    ghost invariant = { λ h. AreParts h.firsts h.others.items };
}

impl Held {
    // Nobody holds anything.
    pub(crate) fn new(alloc: Global) -> Held
        ensures { (r : Part) (u : ℕ) → held_by (part_of r result) u ≡ 0 }
    {
        Held {
            firsts: Firsts::new(),
            others: Vec::new(alloc),
        }
    }

    // Whether nobody holds anything.
    #[inline(always)]
    pub(crate) fn is_empty(&self) -> bool
        ensures { IsTrue result → (r : Part) (u : ℕ) → held_by (part_of r self.now) u ≡ 0 }
    {
        self.firsts.are_none()
    }

    // Whether nobody holds anything in this part.
    #[inline(always)]
    fn has_none(&self, part: Part) -> bool
        ensures { IsTrue result → (u : ℕ) → held_by (part_of part self.now) u ≡ 0 }
    {
        self.firsts.get(part).times == 0
    }

    // How often the transaction holds what is in this part.
    pub(crate) fn count(&self, part: Part, transaction: TxnNumber) -> u32
        ensures { result ≡ held_by (part_of part self.now) transaction.0 }
    {
        let first = self.firsts.get(part);
        if first.holder == transaction.0 {
            return first.times;
        }
        let (_, times) = place_in(&self.others, part, transaction.0);
        times
    }

    // The least other transaction in this part.
    #[inline(always)]
    fn least_other(&self, part: Part, transaction: TxnNumber) -> Option<TxnNumber>
        ensures { IsLeastOther transaction.0 (held_by (part_of part self.now)) (option_map number_of result) }
    {
        let first = self.firsts.get(part);
        if first.times == 0 {
            return None;
        }
        if first.holder != transaction.0 {
            return Some(TxnNumber(first.holder));
        }
        match least_in(&self.others, part) {
            Some(holder) => Some(TxnNumber(holder)),
            None => None,
        }
    }

    // The least other transaction with a mark here that clashes with one of this kind at a path at this one or below.
    pub(crate) fn least_above(&self, kind: Kind, transaction: TxnNumber) -> Option<TxnNumber>
        ensures { IsLeastOther transaction.0 (above_of kind self.now) (option_map number_of result) }
    {
        // As a rule there is none, of whomever.
        if self.has_none(Part::ChangedAt) && self.has_none(Part::ReadAt) {
            return None;
        }
        match kind {
            Kind::Changed => self.least_subtree(transaction),
            Kind::Read => self.least_other(Part::ChangedAt, transaction),
            Kind::Stays => self.least_subtree(transaction),
            Kind::Descendants => None,
        }
    }

    // The least other transaction with a mark of a subtree here, to be changed or read.
    fn least_subtree(&self, transaction: TxnNumber) -> Option<TxnNumber>
        ensures { IsLeastOther transaction.0 (λ u. held_by self.now.changed u + held_by self.now.read u) (option_map number_of result) }
    {
        lesser(
            self.least_other(Part::ChangedAt, transaction),
            self.least_other(Part::ReadAt, transaction),
        )
    }

    // The least other transaction with a mark here or below that clashes with one of this kind here.
    #[inline(always)]
    pub(crate) fn least_here(&self, kind: Kind, transaction: TxnNumber) -> Option<TxnNumber>
        ensures { IsLeastOther transaction.0 (here_of kind self.now) (option_map number_of result) }
    {
        match kind {
            Kind::Changed => lesser(
                self.least_other(Part::ReadBelow, transaction),
                self.least_fixed(transaction),
            ),
            Kind::Read => self.least_fixed(transaction),
            Kind::Stays => None,
            Kind::Descendants => self.least_other(Part::CountedAt, transaction),
        }
    }

    // Whether no other transaction has a mark here or below that clashes with one of a subtree to be changed here. It may say no
    // where there is none: where two hold one thing it looks no further, since one of them is another.
    #[inline(always)]
    pub(crate) fn is_alone(&self, transaction: TxnNumber) -> bool
        ensures { IsTrue result → IsLeastOther transaction.0 (here_of kinds.Changed self.now) None }
    {
        self.others.is_empty() && self.least_here(Kind::Changed, transaction).is_none()
    }

    // The least other transaction with a mark of a subtree to be changed here or below, or of a group that stays.
    fn least_fixed(&self, transaction: TxnNumber) -> Option<TxnNumber>
        ensures { IsLeastOther transaction.0 (λ u. held_by self.now.changed_below u + held_by self.now.stays_below u) (option_map number_of result) }
    {
        lesser(
            self.least_other(Part::ChangedBelow, transaction),
            self.least_other(Part::StaysBelow, transaction),
        )
    }

    // One holding more by the transaction in this part, and how many it has there then. An error, where there is no memory
    // for it, changes nothing.
    #[inline(always)]
    pub(crate) fn add(&mut self, part: Part, transaction: TxnNumber) -> Result<usize, AllocError>
        ensures ok { OnOk result (IsHeldMore self.old part transaction.0 self.new) }
        ensures count { IfOk result (λ n. n ≡ held_by (part_of part self.old) transaction.0 + 1) }
        ensures err { OnErr result (self.new ≡ self.old) }
    {
        let first = self.firsts.get(part);
        if first.times == 0 {
            self.firsts.put(part, transaction.0, 1);
            return Ok(1);
        }
        if first.holder == transaction.0 {
            let Some(more) = first.times.checked_add(1) else {
                return Err(AllocError);
            };
            self.firsts.put(part, first.holder, more);
            return Ok(more as usize);
        }
        if first.holder < transaction.0 {
            let more = add_in(&mut self.others, part, transaction.0)?;
            return Ok(more as usize);
        }
        let next = Other {
            part,
            holder: first.holder,
            times: first.times,
        };
        self.others.insert(0, next)?;
        self.firsts.put(part, transaction.0, 1);
        Ok(1)
    }

    // One holding less by the transaction in this part, where it has one, and how many are left to it there. Takes no
    // memory.
    #[inline(always)]
    pub(crate) fn remove(&mut self, part: Part, transaction: TxnNumber) -> usize
        requires { 0 < held_by (part_of part self.old) transaction.0 }
        ensures less { IsHeldMore self.new part transaction.0 self.old }
        ensures left { result + 1 ≡ held_by (part_of part self.old) transaction.0 }
    {
        let first = self.firsts.get(part);
        if first.holder != transaction.0 {
            return remove_in(&mut self.others, part, transaction.0) as usize;
        }
        let left = first.times - 1;
        if left > 0 {
            self.firsts.put(part, first.holder, left);
        } else {
            let (holder, times) = take_least(&mut self.others, part);
            self.firsts.put(part, holder, times);
        }
        left as usize
    }
}
