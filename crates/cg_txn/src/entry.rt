//! What stands on a stack.
ghost use Rattle.std.specs.Prelude.{◌≡◌, option_map};
ghost use Rattle.cg_txn.specs.Clashing.{clash_of, told_clash};
ghost use Rattle.cg_txn.specs.Items as model;
ghost use Rattle.cg_txn.specs.Places.{place_of};

use cg_inverse::Inverse;
use cg_locks::{AnyMark, Footprint};
use cg_name::SaveName;

/// An accepted command, as it is undone.
#[derive(Drop)]
pub struct Entry {
    /// The index of its record in the history.
    pub place: u32,
    /// What it changed.
    pub inverse: Inverse,
    /// The marks that it holds.
    pub footprint: Footprint,
}

/// A command that is in the way of a footprint.
#[derive(Clone, Copy)]
pub struct Clash<'a> {
    /// The index of its record in the history.
    pub place: u32,
    /// The first of its marks that clashes.
    pub mark: AnyMark<'a>,
}

// A command, or a savepoint.
#[derive(Drop)]
pub(crate) enum Item {
    Command(Entry),
    Savepoint(SaveName),
}

impl Item {
    // Whether it is a command.
    pub(crate) fn is_command(&self) -> bool
        ensures { result ≡ model.is_command self.now }
    {
        matches!(self, Item::Command(_))
    }

    // The place of its record, where it is a command.
    pub(crate) fn place(&self) -> Option<u32>
        ensures { result ≡ place_of self.now }
    {
        match self {
            Item::Command(entry) => Some(entry.place),
            Item::Savepoint(_) => None,
        }
    }

    // How it is in the way of the footprint, where it is a command and is so.
    pub(crate) fn clashing(&self, footprint: &Footprint) -> Option<Clash<'_>>
        ensures { option_map told_clash result ≡ clash_of footprint.now self.now }
    {
        let Item::Command(entry) = self else {
            return None;
        };
        match entry.footprint.clashing(footprint) {
            Some(mark) => Some(Clash {
                place: entry.place,
                mark,
            }),
            None => None,
        }
    }
}
