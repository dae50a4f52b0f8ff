//! The table of the marks that open transactions hold.
ghost use Rattle.std.specs.Prelude.{◌≡◌, ◌≢◌, ◌+◌, ◌==◌, ◌<◌, ◌≤◌, ◌↔◌, ℕ, cond, length, map, option_map, IfSome, IsTrue, OnErr, OnOk, None};
ghost use Rattle.cg_locks.specs.Counts.{AreDescending};
ghost use Rattle.cg_locks.specs.Holders.{number_of, IsLeast};
ghost use Rattle.cg_locks.specs.Holdings.{holdings, HoldsAll, HoldsMark, IsInTheWay};
ghost use Rattle.cg_locks.specs.Marks.{times};
ghost use Rattle.cg_locks.specs.Single.{IsHeldOnceMore, IsLeastInTheWay, IsNeat};
ghost use Rattle.cg_locks.specs.Meaning.{counts_of, mark_of};
ghost use Rattle.cg_model.specs.Footprint as model;

use crate::footprint::{Counted, Footprint, times_in};
use crate::holders::lesser;
use crate::mark::Mark;
use crate::shared_marks::SharedMarks;
use crate::sole_marks::SoleMarks;
use crate::taken_at::TakenAt;
use cg_name::{Path, TxnNumber};
use cg_path_tree::NodeKey;
use std::alloc::{AllocError, Global};
use std::marker::Model;

// So often nothing is held before marks stand apart again: transactions that come one after another for so long will most likely go
// on so, and where two have marks at once again and again, none is moved again and again.
const QUIET: u32 = 64;

/// Which transaction holds which mark, and how often.
pub struct LockTable {
    // As long as one transaction alone holds marks, they stand apart, where it costs less to take them and to let them go. Before
    // another takes any, they are put with its own.
    sole: SoleMarks,
    shared: SharedMarks,
    // Whether the marks that are taken next are to stand apart, and how often nothing was held since two transactions had marks at
    // once. That is for speed alone.
    is_sole: bool,
    quiet: u32,
}

// By hand, so that whoever drops one calls this, and doesn't drop each thing in it: that makes proofs shorter.
impl Drop for LockTable {
    fn drop(self) {
        let LockTable {
            sole: _,
            shared: _,
            is_sole: _,
            quiet: _,
        } = self;
    }
}

impl Model for LockTable {
    ghost use Rattle.cg_locks.specs.Holdings.{Holdings, holdings_code};

    ghost Value = { Holdings };

    ghost coded = { holdings_code };

    ghost use Rattle.cg_locks.specs.Both.{both};

    ghost view = { λ t. both t.sole t.shared };
}

impl LockTable {
    /// The table of no holdings.
    pub fn new(alloc: Global) -> LockTable
        ensures { (u : ℕ) (m : model.Mark) → holdings result u m ≡ 0 }
    {
        LockTable {
            sole: SoleMarks::new(alloc),
            shared: SharedMarks::new(alloc),
            is_sole: true,
            quiet: 0,
        }
    }

    /// Looks the path up once, so that the calls that follow find a mark at the same path by a comparison. Where it comes with a
    /// number of its own, as `Tree::visit` gives it, what was found for that number before is looked at first: any number may come.
    /// That is for speed alone. Takes no memory: what it notes has room made for it as marks are taken.
    pub fn visit(&mut self, path: &Path, number: Option<u32>)
        ensures { self.new ≡ self.old }
    {
        // Marks that stand apart aren't looked for at the nodes of others.
        if self.sole.is_empty() {
            self.shared.visit(path, number);
        }
    }

    /// Makes ready for a transaction that is about to ask what is in its way, and to take marks: those of another that stand apart are
    /// put where each is found, which costs as much as to take them there at once would have, and no more than 4,096 are moved. All
    /// calls answer the same without it, only slower. An error, where there is no memory for it, leaves the table as it was too.
    pub fn share(&mut self, alloc: Global, transaction: TxnNumber) -> Result<(), AllocError>
        ensures { self.new ≡ self.old }
    {
        if self.sole.is_of_another(transaction) {
            self.is_sole = false;
            self.quiet = 0;
            return self.share_all(alloc);
        }
        Ok(())
    }

    // Puts the marks that stand apart with the others.
    #[inline(never)]
    fn share_all(&mut self, alloc: Global) -> Result<(), AllocError>
        ensures { self.new ≡ self.old }
    {
        self.tell();
        let shared = self.share_each(alloc);
        self.tell();
        shared
    }

    // The same, one by one, from the last on.
    fn share_each(&mut self, alloc: Global) -> Result<(), AllocError>
        ensures { (u : ℕ) (m : model.Mark) → holdings self.new u m ≡ holdings self.old u m }
    {
        while let Some((holder, mark)) = self.sole.last(alloc)? {
            self.shared.take_mark(alloc, holder, &mark)?;
            self.sole.remove(holder, &mark, NodeKey::new(0));
            // By a call, so that there is one way to the end of a turn: that makes the proof shorter.
            drop(mark);
        }
        Ok(())
    }

    /// The least other transaction that holds a mark which clashes with one of the footprint. Takes no memory.
    pub fn clash(&self, transaction: TxnNumber, footprint: &Footprint) -> Option<TxnNumber>
        ensures some { IfSome result (λ u. IsInTheWay self.now transaction.0 footprint.now u.0) }
        ensures least { IfSome result (λ u. (v : ℕ) → IsInTheWay self.now transaction.0 footprint.now v → u.0 ≤ v) }
        ensures none { result ≡ None → (v : ℕ) → ¬ (IsInTheWay self.now transaction.0 footprint.now v) }
    {
        if let Some((_node, mark)) = footprint.single() {
            return self.clash_with(transaction, mark);
        }
        self.clash_with_several(transaction, footprint)
    }

    // The same, of any number of marks.
    #[inline(never)]
    fn clash_with_several(&self, transaction: TxnNumber, footprint: &Footprint) -> Option<TxnNumber>
        ensures { IsLeast (IsInTheWay self.now transaction.0 footprint.now) (option_map number_of result) }
    {
        let (marks, counted) = footprint.parts();
        let least = self.clash_with_all(transaction, marks);
        lesser(least, self.clash_with_counted(transaction, counted))
    }

    // The least other transaction that holds a mark which clashes with one of these.
    fn clash_with_all(&self, transaction: TxnNumber, marks: &[Mark]) -> Option<TxnNumber>
        ensures { IsLeast (IsInTheWay self.now transaction.0 (map mark_of marks.now)) (option_map number_of result) }
    {
        let mut least = None;
        for mark in marks {
            least = lesser(least, self.clash_with(transaction, mark));
        }
        least
    }

    // And with one of those on numbers of descendants, if there are any.
    fn clash_with_counted(
        &self,
        transaction: TxnNumber,
        counted: Option<Counted<'_>>,
    ) -> Option<TxnNumber>
        requires { IfSome counted (λ c. AreDescending (length c.path.now) c.depths.now) }
        ensures { IsLeast (IsInTheWay self.now transaction.0 (counts_of counted.entry)) (option_map number_of result) }
    {
        self.sole.tell_counts();
        self.shared.least_counted(transaction, counted)
    }

    // The least other transaction that holds a mark which clashes with this one.
    fn clash_with(&self, transaction: TxnNumber, mark: &Mark) -> Option<TxnNumber>
        ensures { IsLeastInTheWay self.now transaction.0 (mark_of mark.now) (option_map number_of result) }
    {
        lesser(
            self.sole.least_clashing(transaction, mark),
            self.shared.least_clashing(transaction, mark),
        )
    }

    /// Whether the transaction holds each mark at least as often as it stands in the footprint. Takes no memory.
    pub fn holds(&self, transaction: TxnNumber, footprint: &Footprint) -> bool
        ensures { IsTrue result ↔ HoldsAll self.now transaction.0 footprint.now }
    {
        let (marks, counted) = footprint.parts();
        self.holds_each(transaction, marks) && self.holds_counted(transaction, counted)
    }

    // Whether it holds each at least as often as it stands among these.
    fn holds_each(&self, transaction: TxnNumber, marks: &[Mark]) -> bool
        ensures { IsTrue result ↔ HoldsAll self.now transaction.0 (map mark_of marks.now) }
    {
        for mark in marks {
            if !self.holds_mark(transaction, marks, mark) {
                return false;
            }
        }
        true
    }

    // Whether it holds this mark so often.
    fn holds_mark(&self, transaction: TxnNumber, marks: &[Mark], mark: &Mark) -> bool
        ensures { IsTrue result ↔ HoldsMark self.now transaction.0 (map mark_of marks.now) (mark_of mark.now) }
    {
        times_in(marks, mark) <= self.count(transaction, mark)
    }

    // Whether it holds each of those on numbers of descendants, if there are any.
    fn holds_counted(&self, transaction: TxnNumber, counted: Option<Counted<'_>>) -> bool
        requires { IfSome counted (λ c. AreDescending (length c.path.now) c.depths.now) }
        ensures { IsTrue result ↔ HoldsAll self.now transaction.0 (counts_of counted.entry) }
    {
        self.sole.tell_counts();
        self.shared.holds_counted(transaction, counted)
    }

    // How often the transaction holds the mark.
    fn count(&self, transaction: TxnNumber, mark: &Mark) -> usize
        ensures { result ≡ holdings self.now transaction.0 (mark_of mark.now) }
    {
        self.sole.count(transaction, mark) as usize + self.shared.count(transaction, mark) as usize
    }

    /// Whether the transaction holds the subtree of the group at the path, to change it. Takes no memory.
    pub fn holds_changed(&self, transaction: TxnNumber, path: &Path) -> bool
        ensures { IsTrue result ↔ (0 < holdings self.now transaction.0 (model.X path.now)) }
    {
        self.sole.holds_changed(transaction, path) || self.shared.holds_changed(transaction, path)
    }

    /// Adds one holding by the transaction of each mark of the footprint. An error, where there is no memory for them, leaves
    /// the table as it was. The footprint stays the same: it is noted where its marks are, so that they are let go faster.
    pub fn take(
        &mut self,
        alloc: Global,
        transaction: TxnNumber,
        footprint: &mut Footprint,
    ) -> Result<(), AllocError>
        ensures ok { OnOk result ((u : ℕ) (m : model.Mark) → holdings self.new u m ≡ holdings self.old u m + cond (u == transaction.0) (times m footprint.old) 0) }
        ensures err { OnErr result (self.new ≡ self.old) }
        ensures footprint { footprint.new ≡ footprint.old }
    {
        self.make_room()?;
        if let Some((_node, mark)) = footprint.single() {
            let node = self.take_mark(alloc, transaction, mark)?;
            footprint.note(TakenAt::one(node));
            return Ok(());
        }
        self.take_several(alloc, transaction, footprint)
    }

    // The same, of any number of marks.
    #[inline(never)]
    fn take_several(
        &mut self,
        alloc: Global,
        transaction: TxnNumber,
        footprint: &mut Footprint,
    ) -> Result<(), AllocError>
        ensures ok { OnOk result ((u : ℕ) (m : model.Mark) → holdings self.new u m ≡ holdings self.old u m + cond (u == transaction.0) (times m footprint.old) 0) }
        ensures err { OnErr result (self.new ≡ self.old) }
        ensures footprint { footprint.new ≡ footprint.old }
    {
        self.tell();
        let (marks, counted) = footprint.parts();
        let taken_at = self.take_all(alloc, transaction, marks)?;
        let taken = self.take_counted(alloc, transaction, counted);
        if taken.is_err() {
            self.release_all(transaction, marks, taken_at);
            self.tell();
            return taken;
        }
        footprint.note(taken_at);
        taken
    }

    /// Takes away one holding by the transaction of each mark of the footprint, which it holds. Takes no memory.
    pub fn release(&mut self, transaction: TxnNumber, footprint: &Footprint)
        requires { HoldsAll self.old transaction.0 footprint.now }
        ensures { (u : ℕ) (m : model.Mark) → holdings self.new u m + cond (u == transaction.0) (times m footprint.now) 0 ≡ holdings self.old u m }
    {
        match footprint.single() {
            Some((node, mark)) => self.release_mark(transaction, mark, node),
            None => self.release_several(transaction, footprint),
        }
        if !self.is_sole {
            self.look_for_quiet();
        }
    }

    // The same, of any number of marks.
    #[inline(never)]
    fn release_several(&mut self, transaction: TxnNumber, footprint: &Footprint)
        requires { HoldsAll self.old transaction.0 footprint.now }
        ensures { (u : ℕ) (m : model.Mark) → holdings self.new u m + cond (u == transaction.0) (times m footprint.now) 0 ≡ holdings self.old u m }
    {
        let (marks, counted) = footprint.parts();
        let taken_at = footprint.taken_at();
        self.release_counted(transaction, counted, taken_at.first());
        self.release_all(transaction, marks, taken_at);
    }

    // Where nothing is held any more, and it was so often before, marks stand apart again: transactions come one after another.
    fn look_for_quiet(&mut self)
        ensures { self.new ≡ self.old }
    {
        if self.shared.is_quiet() {
            self.quiet = self.quiet.saturating_add(1);
            self.is_sole = self.quiet >= QUIET;
        }
    }

    // Makes room for what visits are to note. An error, where there is no memory for it, leaves the table as it was.
    fn make_room(&mut self) -> Result<(), AllocError>
        ensures { self.new ≡ self.old }
    {
        self.shared.make_room()
    }

    // A table tells what holds of it when a part of it is looked at: who holds a mark never isn't named.
    fn tell(&self)
        ensures { IsNeat self.now }
    {
        self.sole.tell();
        self.shared.tell();
    }

    // Adds one holding of each of the marks, and gives where they are. An error, where there is no memory for them, leaves the
    // table as it was.
    fn take_all(
        &mut self,
        alloc: Global,
        transaction: TxnNumber,
        marks: &[Mark],
    ) -> Result<TakenAt, AllocError>
        ensures ok { OnOk result ((u : ℕ) (m : model.Mark) → holdings self.new u m ≡ holdings self.old u m + cond (u == transaction.0) (times m (map mark_of marks.now)) 0) }
        ensures err { OnErr result (self.new ≡ self.old) }
    {
        self.tell();
        let mut taken_at = TakenAt::new();
        for index in 0..marks.len() {
            match self.take_mark(alloc, transaction, &marks[index]) {
                Ok(node) => taken_at.note(index, node),
                Err(error) => {
                    self.release_all(transaction, &marks[..index], taken_at);
                    self.tell();
                    return Err(error);
                }
            }
        }
        Ok(taken_at)
    }

    // And of those on numbers of descendants, if there are any.
    fn take_counted(
        &mut self,
        alloc: Global,
        transaction: TxnNumber,
        counted: Option<Counted<'_>>,
    ) -> Result<(), AllocError>
        ensures ok { OnOk result ((u : ℕ) (m : model.Mark) → holdings self.new u m ≡ holdings self.old u m + cond (u == transaction.0) (times m (counts_of counted.entry)) 0) }
        ensures err { OnErr result (self.new ≡ self.old) }
    {
        self.shared.take_counted(alloc, transaction, counted)
    }

    // Takes away one holding of each of those on numbers of descendants, if there are any: the transaction holds them. Their
    // path is that of the footprint's first mark, and its node most likely this one.
    fn release_counted(
        &mut self,
        transaction: TxnNumber,
        counted: Option<Counted<'_>>,
        near: NodeKey,
    )
        requires { HoldsAll self.old transaction.0 (counts_of counted) }
        ensures { (u : ℕ) (m : model.Mark) → holdings self.new u m + cond (u == transaction.0) (times m (counts_of counted.entry)) 0 ≡ holdings self.old u m }
    {
        self.sole.tell_counts();
        self.shared.release_counted(transaction, counted, near);
    }

    // Takes away one holding of each of the marks, which the transaction holds, most likely there.
    fn release_all(&mut self, transaction: TxnNumber, marks: &[Mark], taken_at: TakenAt)
        requires { HoldsAll self.old transaction.0 (map mark_of marks.now) }
        ensures { (u : ℕ) (m : model.Mark) → holdings self.new u m + cond (u == transaction.0) (times m (map mark_of marks.now)) 0 ≡ holdings self.old u m }
    {
        let mut taken_at = taken_at;
        for mark in marks {
            self.release_mark(transaction, mark, taken_at.next());
        }
    }

    // Adds one holding of the mark, and gives the node where it is; any, where that isn't at a path. An error, where there is
    // no memory for it, leaves the table as it was.
    fn take_mark(
        &mut self,
        alloc: Global,
        transaction: TxnNumber,
        mark: &Mark,
    ) -> Result<NodeKey, AllocError>
        ensures ok { OnOk result (IsHeldOnceMore self.old transaction.0 (mark_of mark.now) self.new) }
        ensures err { OnErr result (self.new ≡ self.old) }
    {
        if self.is_sole {
            if let Some(place) = self.sole.add(alloc, transaction, mark)? {
                return Ok(place);
            }
        }
        self.shared.take_mark(alloc, transaction, mark)
    }

    // Takes away one holding of the mark, which the transaction holds: if it is at a path, most likely at this node.
    fn release_mark(&mut self, transaction: TxnNumber, mark: &Mark, near: NodeKey)
        requires { 0 < holdings self.old transaction.0 (mark_of mark.now) }
        ensures { IsHeldOnceMore self.new transaction.0 (mark_of mark.now) self.old }
    {
        if !self.sole.remove(transaction, mark, near) {
            self.shared.release_mark(transaction, mark, near);
        }
    }
}
