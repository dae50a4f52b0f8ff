//! Marks: what a command has until its transaction ends or it is taken off (this project's own choice: two-phase locking of
//! subtrees, of single groups and processes, and of numbers of descendants).
ghost use Rattle.std.specs.Prelude.{◌≡◌, ◌∷◌, IfOk, List, option_copied};
ghost use Rattle.cg_locks.specs.Marks.{same_mark};
ghost use Rattle.cg_locks.specs.Meaning.{mark_of};
ghost use Rattle.cg_model.specs.Footprint as model;
ghost use Rattle.cg_model.specs.Footprint.{changed, clash};

use cg_name::Path;
use std::alloc::{AllocError, Global};

/// What a command locks, of the tree; but for numbers of descendants, for which a footprint has `Counted`.
#[derive(Drop)]
pub enum Mark {
    /// The subtree of the group at the path, to be changed.
    Changed(Path),
    /// The subtree of the group at the path, to be read.
    Read(Path),
    /// The group at the path, which has to stay.
    Stays(Path),
    /// The place of the process with this PID, from 1 to 4,194,303.
    Process(u32),
}

impl Mark {
    // The path of the group whose subtree this marks to be changed, if it marks one. So it is told of a footprint whose first
    // this is.
    pub(crate) fn changed(&self) -> Option<&Path>
        ensures { (f : List model.Mark) → option_copied result ≡ changed (mark_of self.now ∷ f) }
    {
        match self {
            Mark::Changed(path) => Some(path),
            _ => None,
        }
    }

    // The same mark; an error where there is no memory for it.
    pub(crate) fn copy(&self, alloc: Global) -> Result<Mark, AllocError>
        ensures { IfOk result (λ m. mark_of m ≡ mark_of self.now) }
    {
        Ok(match self {
            Mark::Changed(path) => Mark::Changed(path.copy(alloc)?),
            Mark::Read(path) => Mark::Read(path.copy(alloc)?),
            Mark::Stays(path) => Mark::Stays(path.copy(alloc)?),
            Mark::Process(pid) => Mark::Process(*pid),
        })
    }

    // Whether the two are one mark.
    #[tactic(auto, using(crate::proofs::Marks::compared))]
    pub(crate) fn is_same(&self, other: &Mark) -> bool
        ensures { result ≡ same_mark (mark_of self.now) (mark_of other.now) }
    {
        match (self, other) {
            (Mark::Changed(path), Mark::Changed(other)) => path == other,
            (Mark::Read(path), Mark::Read(other)) => path == other,
            (Mark::Stays(path), Mark::Stays(other)) => path == other,
            (Mark::Process(pid), Mark::Process(other)) => pid == other,
            _ => false,
        }
    }

    // Whether it is that of the subtree of the group at the path, to be changed.
    #[tactic(auto, using(crate::proofs::Marks::compared))]
    pub(crate) fn is_changed_at(&self, path: &Path) -> bool
        ensures { result ≡ same_mark (model.X path.now) (mark_of self.now) }
    {
        match self {
            Mark::Changed(own) => path == own,
            _ => false,
        }
    }

    // Whether two transactions can't have the one and the other.
    pub(crate) fn clashes(&self, other: &Mark) -> bool
        ensures { result ≡ clash (mark_of self.now) (mark_of other.now) }
    {
        match (self, other) {
            (Mark::Changed(path), Mark::Changed(other) | Mark::Read(other)) => {
                path.comparable(other)
            }
            (Mark::Read(path), Mark::Changed(other)) => path.comparable(other),
            (Mark::Changed(path) | Mark::Read(path), Mark::Stays(other)) => path.is_prefix(other),
            (Mark::Stays(path), Mark::Changed(other) | Mark::Read(other)) => other.is_prefix(path),
            (Mark::Process(pid), Mark::Process(other)) => pid == other,
            _ => false,
        }
    }
}
