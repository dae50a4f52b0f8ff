//! Inverses: what one command changed, by which it is undone.
ghost use Rattle.std.specs.Prelude.{◌≡◌, ◌↔◌, ◌++◌, ◌∷◌, [], IsTrue, map, IsOk, OnOk, OnErr};
ghost use Rattle.cg_inverse.specs.Meaning.{change_of};
ghost use Rattle.cg_model.specs.Change.{undone, Fits};
ghost use Rattle.cg_model.specs.Room.{RoomFor};
ghost use Rattle.cg_tree.specs.Room.{has_entry};

use crate::change::Change;
use cg_tree::Tree;
use std::alloc::{AllocError, Global};
use std::marker::Model;
use std::mem;
use std::slice::from_ref;

/// The changes that one command made, the first one first. Most commands make one, which is kept without an allocation.
pub struct Inverse {
    kept: Kept,
}

#[derive(Drop)]
enum Kept {
    One(Change),
    // None, or any number.
    Many(Vec<Change>),
}

// One stands on a transaction's stack for each command.
const _: () = prove!(size_of::<Inverse>() == 48);

// By hand, so that whoever drops one calls this, and doesn't drop each thing in it: that makes proofs shorter. It
// stands in its callers all the same: most of these have nothing to give back.
impl Drop for Inverse {
    #[inline(always)]
    fn drop(self) {
        let Inverse { kept: _ } = self;
    }
}

impl Model for Inverse {
    ghost use Rattle.std.specs.Prelude.{List, map};
    ghost use Rattle.std.specs.Coded.{coded_list};
    ghost use Rattle.cg_inverse.specs.Code.{change_code};
    ghost use Rattle.cg_inverse.specs.Kept.{changes_in};
    ghost use Rattle.cg_inverse.specs.Meaning.{change_of};
    ghost use Rattle.cg_model.specs.Change as model;

    ghost Value = { List model.Change };

    ghost coded = { coded_list change_code };

    ghost view = { λ i. map change_of (changes_in i.kept) };
}

impl Inverse {
    /// The inverse of a command that changes nothing.
    pub fn new(alloc: Global) -> Inverse
        ensures { result ≡ [] }
    {
        Inverse {
            kept: Kept::Many(Vec::new(alloc)),
        }
    }

    /// The inverse of a command that makes one change. Takes no memory.
    #[inline(always)]
    pub fn of_one(change: Change) -> Inverse
        ensures { result ≡ change_of change ∷ [] }
    {
        Inverse {
            kept: Kept::One(change),
        }
    }

    /// Adds what was changed last. An error, where there is no memory, leaves the inverse as it was; the first change takes
    /// none.
    pub fn push(&mut self, alloc: Global, change: Change) -> Result<(), AllocError>
        ensures ok { OnOk result (self.new ≡ self.old ++ change_of change ∷ []) }
        ensures first { self.old ≡ [] → IsOk result }
        ensures err { OnErr result (self.new ≡ self.old) }
    {
        if self.changes().is_empty() {
            self.kept = Kept::One(change);
            return Ok(());
        }
        match &mut self.kept {
            Kept::One(_) => self.push_second(alloc, change),
            Kept::Many(changes) => {
                changes.push(change)?;
                Ok(())
            }
        }
    }

    // The same where there is one.
    fn push_second(&mut self, alloc: Global, change: Change) -> Result<(), AllocError>
        ensures ok { OnOk result (self.new ≡ self.old ++ change_of change ∷ []) }
        ensures err { OnErr result (self.new ≡ self.old) }
    {
        let mut changes = Vec::with_capacity(alloc, 2)?;
        match mem::replace(&mut self.kept, Kept::Many(Vec::new(alloc))) {
            Kept::One(first) => changes.push_reserved(first),
            Kept::Many(others) => changes = others,
        }
        let pushed = changes.push(change);
        self.kept = Kept::Many(changes);
        pushed?;
        Ok(())
    }

    /// The changes, the first one first.
    pub fn changes(&self) -> &[Change]
        ensures { map change_of result.now ≡ self.now }
    {
        match &self.kept {
            Kept::One(change) => from_ref(change),
            Kept::Many(changes) => changes.as_slice(),
        }
    }

    /// Whether the inverse can be undone: each key holds the value left, and there is room for the values before. Takes no
    /// memory.
    pub fn fits(&self, tree: &Tree) -> bool
        ensures { IsTrue result ↔ (Fits self.now tree.now.tree × RoomFor (has_entry tree.now) self.now) }
    {
        self.changes().iter().all(|change| change.may_go_back(tree))
    }

    /// Puts every key back to its value before, the last one first. It always succeeds, takes no memory, and takes no room
    /// away.
    #[inline(always)]
    pub fn undo(self, tree: &mut Tree)
        requires fits { Fits self tree.old.tree }
        requires room { RoomFor (has_entry tree.old) self }
        ensures tree { tree.new.tree ≡ undone self tree.old.tree }
        ensures entries { tree.new.entries ≡ tree.old.entries }
    {
        let Inverse { kept } = self;
        match kept {
            Kept::One(change) => change.put_before(tree),
            Kept::Many(changes) => put_all_before(changes, tree),
        }
    }
}

// Puts the keys of any number of changes back, the last one first.
fn put_all_before(mut changes: Vec<Change>, tree: &mut Tree)
    requires { RoomFor (has_entry tree.old) (map change_of changes.items) }
    ensures tree { tree.new.tree ≡ undone (map change_of changes.items) tree.old.tree }
    ensures entries { tree.new.entries ≡ tree.old.entries }
{
    while let Some(change) = changes.pop() {
        change.put_before(tree);
    }
}
