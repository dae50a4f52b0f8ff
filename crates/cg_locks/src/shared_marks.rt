//! The marks of all transactions, where each is found on the way up from a path.
ghost use Rattle.std.specs.Prelude.{◌≡◌, ◌+◌, ◌==◌, ◌<◌, ◌↔◌, ℕ, cond, length, option_map, IfSome, IsTrue, OnErr, OnOk};
ghost use Rattle.cg_locks.specs.Counts.{AreDescending};
ghost use Rattle.cg_locks.specs.Holders.{number_of, IsLeast};
ghost use Rattle.cg_locks.specs.Holdings.{holdings, HoldsAll, IsInTheWay};
ghost use Rattle.cg_locks.specs.Marks.{times};
ghost use Rattle.cg_locks.specs.Meaning.{counts_of, mark_of};
ghost use Rattle.cg_locks.specs.Single.{IsHeldOnceMore, IsLeastInTheWay, IsNeat};
ghost use Rattle.cg_model.specs.Footprint as model;

use crate::footprint::Counted;
use crate::held::Kind;
use crate::holders::Holders;
use crate::mark::Mark;
use crate::path_holders::PathHolders;
use crate::pid_holders;
use cg_name::{Path, TxnNumber};
use cg_path_tree::NodeKey;
use indexmap::IndexMap;
use std::alloc::{AllocError, Global};
use std::marker::Model;

// Which transaction holds which mark, and how often.
pub(crate) struct SharedMarks {
    marks: PathHolders,
    processes: IndexMap<u32, Holders>,
}

// By hand, so that whoever drops one calls this, and doesn't drop each thing in it: that makes proofs shorter.
impl Drop for SharedMarks {
    fn drop(self) {
        let SharedMarks {
            marks: _,
            processes: _,
        } = self;
    }
}

impl Model for SharedMarks {
    ghost use Rattle.cg_locks.specs.Holdings.{Holdings, holdings_code};

    ghost Value = { Holdings };

    ghost coded = { holdings_code };

    ghost use Rattle.cg_locks.specs.Table.{by_kind, table_of};

    ghost view = { λ t. table_of (by_kind t.marks t.processes.entries) };
}

impl SharedMarks {
    // None.
    pub(crate) fn new(alloc: Global) -> SharedMarks
        ensures { (u : ℕ) (m : model.Mark) → holdings result u m ≡ 0 }
    {
        SharedMarks {
            marks: PathHolders::new(alloc),
            processes: IndexMap::new(alloc),
        }
    }

    // Looks the path up once, so that the calls that follow find a mark at the same path by a comparison. Where it comes with a
    // number of its own, as `Tree::visit` gives it, what was found for that number before is looked at first: any number may come.
    // That is for speed alone. Takes no memory: what it notes has room made for it as marks are taken.
    pub(crate) fn visit(&mut self, path: &Path, number: Option<u32>)
        ensures { self.new ≡ self.old }
    {
        match number {
            Some(number) => self.marks.visit_numbered(path, number),
            None => self.marks.visit(path),
        }
    }

    // Makes room for what visits are to note. An error, where there is no memory for it, leaves the table as it was.
    pub(crate) fn make_room(&mut self) -> Result<(), AllocError>
        ensures { self.new ≡ self.old }
    {
        self.marks.make_room()
    }

    // A table tells what holds of it when a part of it is looked at: who holds a mark never isn't named.
    pub(crate) fn tell(&self)
        ensures { IsNeat self.now }
    {
        let _ = &self.marks;
    }

    // Whether no mark at a path is held, as far as the root's node tells. That is for speed alone.
    #[inline(always)]
    pub(crate) fn is_quiet(&self) -> bool {
        self.marks.is_quiet()
    }

    // The least other transaction that holds a mark which clashes with this one.
    pub(crate) fn least_clashing(&self, transaction: TxnNumber, mark: &Mark) -> Option<TxnNumber>
        ensures { IsLeastInTheWay self.now transaction.0 (mark_of mark.now) (option_map number_of result) }
    {
        match mark {
            Mark::Changed(path) => self.marks.least_in_way(Kind::Changed, path, transaction),
            Mark::Read(path) => self.marks.least_in_way(Kind::Read, path, transaction),
            Mark::Stays(path) => self.marks.least_in_way(Kind::Stays, path, transaction),
            Mark::Process(pid) => pid_holders::least(&self.processes, *pid, transaction),
        }
    }

    // And with one of those on numbers of descendants, if there are any.
    pub(crate) fn least_counted(
        &self,
        transaction: TxnNumber,
        counted: Option<Counted<'_>>,
    ) -> Option<TxnNumber>
        requires { IfSome counted (λ c. AreDescending (length c.path.now) c.depths.now) }
        ensures { IsLeast (IsInTheWay self.now transaction.0 (counts_of counted.entry)) (option_map number_of result) }
    {
        match counted {
            Some(these) => self
                .marks
                .least_counted(these.path, these.depths, transaction),
            None => None,
        }
    }

    // How often the transaction holds the mark.
    pub(crate) fn count(&self, transaction: TxnNumber, mark: &Mark) -> u32
        ensures { result ≡ holdings self.now transaction.0 (mark_of mark.now) }
    {
        match mark {
            Mark::Changed(path) => self.marks.count(Kind::Changed, path, transaction),
            Mark::Read(path) => self.marks.count(Kind::Read, path, transaction),
            Mark::Stays(path) => self.marks.count(Kind::Stays, path, transaction),
            Mark::Process(pid) => pid_holders::count(&self.processes, *pid, transaction),
        }
    }

    // Whether it holds each of those on numbers of descendants, if there are any.
    pub(crate) fn holds_counted(&self, transaction: TxnNumber, counted: Option<Counted<'_>>) -> bool
        requires { IfSome counted (λ c. AreDescending (length c.path.now) c.depths.now) }
        ensures { IsTrue result ↔ HoldsAll self.now transaction.0 (counts_of counted.entry) }
    {
        match counted {
            Some(these) => self
                .marks
                .holds_counted(these.path, these.depths, transaction),
            None => true,
        }
    }

    // Whether the transaction holds the subtree of the group at the path, to change it. Takes no memory.
    pub(crate) fn holds_changed(&self, transaction: TxnNumber, path: &Path) -> bool
        ensures { IsTrue result ↔ (0 < holdings self.now transaction.0 (model.X path.now)) }
    {
        self.marks.count(Kind::Changed, path, transaction) > 0
    }

    // Adds one holding of the mark, and gives the node where it is; any, where that isn't at a path. An error, where there is
    // no memory for it, leaves the table as it was.
    pub(crate) fn take_mark(
        &mut self,
        alloc: Global,
        transaction: TxnNumber,
        mark: &Mark,
    ) -> Result<NodeKey, AllocError>
        ensures ok { OnOk result (IsHeldOnceMore self.old transaction.0 (mark_of mark.now) self.new) }
        ensures err { OnErr result (self.new ≡ self.old) }
    {
        match mark {
            Mark::Changed(path) => self.marks.add(alloc, Kind::Changed, path, transaction),
            Mark::Read(path) => self.marks.add(alloc, Kind::Read, path, transaction),
            Mark::Stays(path) => self.marks.add(alloc, Kind::Stays, path, transaction),
            Mark::Process(pid) => {
                pid_holders::add(&mut self.processes, alloc, *pid, transaction)?;
                Ok(NodeKey::new(0))
            }
        }
    }

    // And of those on numbers of descendants, if there are any.
    pub(crate) fn take_counted(
        &mut self,
        alloc: Global,
        transaction: TxnNumber,
        counted: Option<Counted<'_>>,
    ) -> Result<(), AllocError>
        ensures ok { OnOk result ((u : ℕ) (m : model.Mark) → holdings self.new u m ≡ holdings self.old u m + cond (u == transaction.0) (times m (counts_of counted.entry)) 0) }
        ensures err { OnErr result (self.new ≡ self.old) }
    {
        match counted {
            Some(these) => self
                .marks
                .add_counted(alloc, these.path, these.depths, transaction),
            None => Ok(()),
        }
    }

    // Takes away one holding of each of those on numbers of descendants, if there are any: the transaction holds them. Their
    // path is that of the footprint's first mark, and its node most likely this one.
    pub(crate) fn release_counted(
        &mut self,
        transaction: TxnNumber,
        counted: Option<Counted<'_>>,
        near: NodeKey,
    )
        requires { HoldsAll self.old transaction.0 (counts_of counted) }
        ensures { (u : ℕ) (m : model.Mark) → holdings self.new u m + cond (u == transaction.0) (times m (counts_of counted.entry)) 0 ≡ holdings self.old u m }
    {
        if let Some(these) = counted {
            self.marks
                .remove_counted(these.path, these.depths, near, transaction);
        }
    }

    // Takes away one holding of the mark, which the transaction holds: if it is at a path, most likely at this node.
    pub(crate) fn release_mark(&mut self, transaction: TxnNumber, mark: &Mark, near: NodeKey)
        requires { 0 < holdings self.old transaction.0 (mark_of mark.now) }
        ensures { IsHeldOnceMore self.new transaction.0 (mark_of mark.now) self.old }
    {
        match mark {
            Mark::Changed(path) => self.marks.remove(Kind::Changed, path, near, transaction),
            Mark::Read(path) => self.marks.remove(Kind::Read, path, near, transaction),
            Mark::Stays(path) => self.marks.remove(Kind::Stays, path, near, transaction),
            Mark::Process(pid) => {
                pid_holders::remove(&mut self.processes, *pid, transaction);
            }
        }
    }
}
