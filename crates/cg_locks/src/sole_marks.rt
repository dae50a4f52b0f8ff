//! The marks of one transaction, apart from those of all others.
ghost use Rattle.std.specs.Prelude.{◌≡◌, ◌≢◌, ◌<◌, ◌≤◌, ◌↔◌, false, true, List, ℕ, IfNone, IfOk, IfSome, IsTrue, OnErr, length, option_map, take};
ghost use Rattle.cg_locks.specs.Holders.{number_of};
ghost use Rattle.cg_locks.specs.Holdings.{holdings};
ghost use Rattle.cg_locks.specs.Meaning.{mark_of};
ghost use Rattle.cg_locks.specs.Single.{IsHeldOnceMore, IsLeastInTheWay, IsNeat};
ghost use Rattle.cg_locks.specs.declared.sole_marks.SoleMark.{SoleMark};
ghost use Rattle.cg_locks.specs.Sole.{sole_times, slot_at, slot_of, AreFound, IsFree, IsOnceMore, StandsAt};
ghost use Rattle.cg_model.specs.Footprint as model;
ghost use Rattle.cg_model.specs.Footprint.{clash};

use crate::mark::Mark;
use cg_name::{Path, TxnNumber};
use cg_path_tree::NodeKey;
use std::alloc::{AllocError, Global};
use std::hash::{FoldHasher, Hasher};
use std::marker::Model;

// So many different marks stand here at most: whoever has to move them all waits no longer than for these.
const MOST: usize = 4096;

// For so many marks, a power of two, there is a place where one is looked for: that its own is another's is seldom.
const SLOTS: usize = 8192;

// A mark, and how often it is held.
#[derive(Drop)]
pub(crate) struct SoleMark {
    pub(crate) mark: Mark,
    pub(crate) slot: u32,
    pub(crate) times: u32,
}

// The marks of one transaction. While no other has any, as a rule, nobody asks what they clash with, and they are soon let go:
// here they are in a list, and the slots tell where each is. One whose slot is another's isn't put here, so none is looked for
// twice. Those that are let go stay, held never, until all behind them are: so what comes and goes in turn takes no time.
pub(crate) struct SoleMarks {
    holder: u32,
    marks: Vec<SoleMark>,
    slots: Vec<u32>,
}

// By hand, so that whoever drops one calls this, and doesn't drop each thing in it: that makes proofs shorter.
impl Drop for SoleMarks {
    fn drop(self) {
        let SoleMarks {
            holder: _,
            marks: _,
            slots: _,
        } = self;
    }
}

impl Model for SoleMarks {
    ghost use Rattle.cg_locks.specs.Holdings.{Holdings, holdings_code};

    ghost Value = { Holdings };

    ghost coded = { holdings_code };

    ghost use Rattle.cg_locks.specs.declared.sole_marks.SoleMark.{SoleMark};
    ghost use Rattle.cg_locks.specs.Sole.{sole_table, AreFound};

    ghost view = { λ s. sole_table s.holder s.marks.items };

    ghost invariant = { λ s. AreFound s.marks.items s.slots.items };
}

impl SoleMarks {
    // None.
    pub(crate) fn new(alloc: Global) -> SoleMarks
        ensures { (u : ℕ) (m : model.Mark) → holdings result u m ≡ 0 }
    {
        SoleMarks {
            holder: 0,
            marks: Vec::new(alloc),
            slots: Vec::new(alloc),
        }
    }

    // Whether there are none.
    #[inline(always)]
    pub(crate) fn is_empty(&self) -> bool {
        self.marks.is_empty()
    }

    // Whether there are some, and they are another transaction's. Else no other holds any.
    #[inline(always)]
    pub(crate) fn is_of_another(&self, transaction: TxnNumber) -> bool
        ensures own { result ≡ false → (u : ℕ) (m : model.Mark) → u ≢ transaction.0 → holdings self.now u m ≡ 0 }
    {
        self.holder != transaction.0 && !self.marks.is_empty()
    }

    // Tells that who holds a mark never isn't named.
    pub(crate) fn tell(&self)
        ensures { IsNeat self.now }
    {
        let _ = &self.holder;
    }

    // Tells that there are none on numbers of descendants.
    pub(crate) fn tell_counts(&self)
        ensures { (u : ℕ) (p : List (List ℕ)) → holdings self.now u (model.Count p) ≡ 0 }
    {
        let _ = &self.holder;
    }

    // How often the transaction holds the mark.
    pub(crate) fn count(&self, transaction: TxnNumber, mark: &Mark) -> u32
        ensures { result ≡ holdings self.now transaction.0 (mark_of mark.now) }
    {
        if self.holder != transaction.0 {
            return 0;
        }
        match find(&self.marks, &self.slots, slot_of(mark), mark) {
            Some(index) => self.marks[index as usize].times,
            None => 0,
        }
    }

    // Whether the transaction holds the subtree of the group at the path, to change it.
    pub(crate) fn holds_changed(&self, transaction: TxnNumber, path: &Path) -> bool
        ensures { IsTrue result ↔ (0 < holdings self.now transaction.0 (model.X path.now)) }
    {
        if self.holder != transaction.0 {
            return false;
        }
        match find_changed(&self.marks, &self.slots, path) {
            Some(index) => self.marks[index as usize].times > 0,
            None => false,
        }
    }

    // The least other transaction that holds a mark which clashes with this one: there is one at most.
    #[inline(always)]
    pub(crate) fn least_clashing(&self, transaction: TxnNumber, mark: &Mark) -> Option<TxnNumber>
        ensures { IsLeastInTheWay self.now transaction.0 (mark_of mark.now) (option_map number_of result) }
    {
        if self.holder == transaction.0 || !is_any_clashing(&self.marks, mark) {
            return None;
        }
        Some(TxnNumber(self.holder))
    }

    // Adds one holding of the mark by the transaction, and gives where it stands; none is added where the marks here are another
    // transaction's, or there is no place for this one. An error, where there is no memory for it, leaves them as they were.
    pub(crate) fn add(
        &mut self,
        alloc: Global,
        transaction: TxnNumber,
        mark: &Mark,
    ) -> Result<Option<NodeKey>, AllocError>
        ensures added { IfOk result (λ place. IfSome place (λ i. IsHeldOnceMore self.old transaction.0 (mark_of mark.now) self.new)) }
        ensures left { IfOk result (λ place. IfNone place (self.new ≡ self.old)) }
        ensures err { OnErr result (self.new ≡ self.old) }
    {
        if self.is_of_another(transaction) {
            return Ok(None);
        }
        self.holder = transaction.0;
        make_slots(&mut self.slots)?;
        put(&mut self.marks, &mut self.slots, alloc, mark)
    }

    // Takes away one holding of the mark by the transaction, most likely the one at this place; none where it has none here.
    #[inline(always)]
    pub(crate) fn remove(&mut self, transaction: TxnNumber, mark: &Mark, near: NodeKey) -> bool
        ensures gone { IsTrue result → IsHeldOnceMore self.new transaction.0 (mark_of mark.now) self.old }
        ensures none { result ≡ false → holdings self.old transaction.0 (mark_of mark.now) ≡ 0 }
        ensures left { result ≡ false → self.new ≡ self.old }
    {
        if self.holder != transaction.0 {
            return false;
        }
        if !take_one(&mut self.marks, &self.slots, mark, near.number()) {
            return false;
        }
        drop_unheld(&mut self.marks);
        true
    }

    // The last mark, and who holds it; none where there is none, or it isn't held. An error where it can't be copied.
    pub(crate) fn last(&self, alloc: Global) -> Result<Option<(TxnNumber, Mark)>, AllocError>
        ensures { IfOk result (λ last. IfSome last (λ l. 0 < holdings self.now l.0.0 (mark_of l.1))) }
    {
        match self.marks.last() {
            Some(last) if last.times > 0 => {
                Ok(Some((TxnNumber(self.holder), last.mark.copy(alloc)?)))
            }
            _ => Ok(None),
        }
    }
}

// Makes the slots, where there are none yet. An error, where there is no memory for them, leaves none.
#[inline(always)]
fn make_slots(slots: &mut Vec<u32>) -> Result<(), AllocError>
    ensures { (marks : List SoleMark) → AreFound marks slots.old.items → AreFound marks slots.new.items }
{
    if slots.is_empty() {
        slots.resize(SLOTS, 0)?;
    }
    Ok(())
}

// The slot of a mark at the path, of the kind with this number.
#[inline(always)]
fn slot_at(path: &Path, kind: u64) -> u32
    ensures { result ≡ slot_at path.now kind }
{
    let mut hasher = FoldHasher::default();
    hasher.write(path.as_bytes());
    ((hasher.finish() ^ kind) & (SLOTS as u64 - 1)) as u32
}

// The slot of the mark.
#[inline(always)]
fn slot_of(mark: &Mark) -> u32
    ensures { result ≡ slot_of (mark_of mark.now) }
{
    match mark {
        Mark::Changed(path) => slot_at(path, 0),
        Mark::Read(path) => slot_at(path, 1),
        Mark::Stays(path) => slot_at(path, 2),
        Mark::Process(pid) => *pid & (SLOTS as u32 - 1),
    }
}

// Where the mark stands, whose slot is this one.
#[inline(always)]
fn find(marks: &[SoleMark], slots: &[u32], slot: u32, mark: &Mark) -> Option<u32>
    requires found { AreFound marks.now slots.now }
    requires slot { slot ≡ slot_of (mark_of mark.now) }
    ensures there { IfSome result (λ i. StandsAt marks.now i (mark_of mark.now)) }
    ensures none { IfNone result (sole_times (mark_of mark.now) marks.now ≡ 0) }
{
    let index = *slots.get(slot as usize)?;
    if mark.is_same(&marks.get(index as usize)?.mark) {
        Some(index)
    } else {
        None
    }
}

// The same, most likely at this place.
#[inline(always)]
fn find_near(marks: &[SoleMark], slots: &[u32], mark: &Mark, near: u32) -> Option<u32>
    requires { AreFound marks.now slots.now }
    ensures there { IfSome result (λ i. StandsAt marks.now i (mark_of mark.now)) }
    ensures none { IfNone result (sole_times (mark_of mark.now) marks.now ≡ 0) }
{
    if let Some(there) = marks.get(near as usize) {
        if mark.is_same(&there.mark) {
            return Some(near);
        }
    }
    find(marks, slots, slot_of(mark), mark)
}

// The same of the mark of the subtree of the group at the path, to be changed.
fn find_changed(marks: &[SoleMark], slots: &[u32], path: &Path) -> Option<u32>
    requires { AreFound marks.now slots.now }
    ensures there { IfSome result (λ i. StandsAt marks.now i (model.X path.now)) }
    ensures none { IfNone result (sole_times (model.X path.now) marks.now ≡ 0) }
{
    let index = *slots.get(slot_at(path, 0) as usize)?;
    if marks.get(index as usize)?.mark.is_changed_at(path) {
        Some(index)
    } else {
        None
    }
}

// Whether a mark that is held clashes with this one.
#[inline(never)]
fn is_any_clashing(marks: &[SoleMark], mark: &Mark) -> bool
    ensures some { IsTrue result → (m : model.Mark) × (0 < sole_times m marks.now) × (clash m (mark_of mark.now) ≡ true) }
    ensures none { result ≡ false → (m : model.Mark) → 0 < sole_times m marks.now → clash m (mark_of mark.now) ≡ false }
{
    for own in marks {
        if own.times > 0 && own.mark.clashes(mark) {
            return true;
        }
    }
    false
}

// Whether the slot is another mark's, or there is none.
#[inline(always)]
fn is_taken(marks: &[SoleMark], slots: &[u32], slot: u32) -> bool
    requires { AreFound marks.now slots.now }
    ensures { result ≡ false → IsFree marks.now slots.now slot }
{
    match slots.get(slot as usize) {
        Some(index) => match marks.get(*index as usize) {
            Some(there) => there.slot == slot,
            None => false,
        },
        None => true,
    }
}

// Adds one holding of the mark, and gives where it stands, where there is a place for it. An error, where there is no memory for
// it, leaves the marks as they were.
#[inline(always)]
fn put(
    marks: &mut Vec<SoleMark>,
    slots: &mut Vec<u32>,
    alloc: Global,
    mark: &Mark,
) -> Result<Option<NodeKey>, AllocError>
    requires { AreFound marks.old.items slots.old.items }
    ensures found { AreFound marks.new.items slots.new.items }
    ensures added { IfOk result (λ place. IfSome place (λ i. IsOnceMore marks.old.items (mark_of mark.now) marks.new.items)) }
    ensures left { IfOk result (λ place. IfNone place (marks.new.items ≡ marks.old.items)) }
    ensures err { OnErr result (marks.new.items ≡ marks.old.items) }
{
    let slot = slot_of(mark);
    if let Some(index) = find(marks, slots, slot, mark) {
        let there = &mut marks[index as usize];
        let Some(more) = there.times.checked_add(1) else {
            return Err(AllocError);
        };
        there.times = more;
        return Ok(Some(NodeKey::new(index)));
    }
    if marks.len() >= MOST || is_taken(marks, slots, slot) {
        return Ok(None);
    }
    let index = marks.len() as u32;
    let copy = mark.copy(alloc)?;
    marks.push(SoleMark {
        mark: copy,
        slot,
        times: 1,
    })?;
    slots[slot as usize] = index;
    Ok(Some(NodeKey::new(index)))
}

// Takes away one holding of the mark, most likely the one at this place; none where it isn't held.
#[inline(always)]
fn take_one(marks: &mut Vec<SoleMark>, slots: &[u32], mark: &Mark, near: u32) -> bool
    requires { AreFound marks.old.items slots.now }
    ensures found { AreFound marks.new.items slots.now }
    ensures gone { IsTrue result → IsOnceMore marks.new.items (mark_of mark.now) marks.old.items }
    ensures none { result ≡ false → sole_times (mark_of mark.now) marks.old.items ≡ 0 }
    ensures left { result ≡ false → marks.new.items ≡ marks.old.items }
{
    let Some(index) = find_near(marks, slots, mark, near) else {
        return false;
    };
    let there = &mut marks[index as usize];
    if there.times == 0 {
        return false;
    }
    there.times -= 1;
    true
}

// How many marks stand before the last ones that aren't held.
#[inline(always)]
fn held_len(marks: &[SoleMark]) -> usize
    ensures within { result ≤ length marks.now }
    ensures same { (m : model.Mark) → sole_times m (take result marks.now) ≡ sole_times m marks.now }
{
    let mut len = marks.len();
    'last: while len > 0 && marks[len - 1].times == 0 {
        len -= 1;
    }
    len
}

// Drops the last marks, as long as they aren't held.
#[inline(always)]
fn drop_unheld(marks: &mut Vec<SoleMark>)
    ensures same { (m : model.Mark) → sole_times m marks.new.items ≡ sole_times m marks.old.items }
    ensures found { (slots : List ℕ) → AreFound marks.old.items slots → AreFound marks.new.items slots }
{
    let len = held_len(marks);
    marks.truncate(len);
}
