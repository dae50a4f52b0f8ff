//! Readers of what is published.
ghost use Rattle.std.specs.Prelude.{◌≡◌, ◌≢◌, ◌≤◌, [], ◌∷◌, Ok, Err, IfOk, IfErr, OnOk, length, max};
ghost use Rattle.cg_model.specs.File.{file};
ghost use Rattle.cg_name.specs.declared.refusal.Refusal.TheVariants.{Full, Memory};
ghost use Rattle.cg_view.specs.Operations.{commits_in, tree_after, StartsWith};
ghost use Rattle.cg_view.specs.Views.{IsFileOf, IsRefusalOf};
ghost use Rattle.left_right.specs.Sides.{view};

use crate::rule::{Sees, ShownReader};
use crate::shown::Shown;
use cg_name::{Path, Refusal};
use cg_text::FileName;
use core::mem::replace_with;
use std::alloc::Global;

/// How many operations a Publisher had published by then.
#[derive(Clone, Copy)]
pub struct Told {
    pub(crate) count: usize,
}

/// A reader of a Publisher's tree. It takes no lock and never waits.
#[derive(Drop)]
pub struct Viewer {
    pub(crate) reader: ShownReader,
    // It was told of so many operations.
    pub(crate) told: usize,
    // What it has seen last is of so many commits.
    pub(crate) commits: usize,
    ghost counted: { commits ≡ commits_in (view reader.place).seen },
}

impl Viewer {
    ghost use Rattle.cg_view.specs.Viewers.{seen_by};

    /// The text of the file of the group at the path, in the tree after a published list of operations. That list begins with
    /// what this Viewer has seen before, and is no shorter than what it was told of; afterwards the Viewer has seen it.
    /// `NoGroup` and `NoFile` as of that tree; `Full` where the entering is refused, or what is shown is shorter than what it
    /// was told of, which is so only of another Publisher's `Told`; `Memory` where there is none for the text.
    pub fn read(&mut self, alloc: Global, path: &Path, name: FileName) -> Result<Vec<u8>, Refusal>
        ensures value { IfOk result (λ text. IsFileOf (view self.new.reader.place) path.now name (Ok text.items)) }
        ensures refused { IfErr result (λ e. IsRefusalOf (view self.new.reader.place) path.now name e) }
        ensures later { StartsWith (view self.new.reader.place).seen (view self.old.reader.place).seen }
        ensures opening { StartsWith (view self.new.reader.place).opening (view self.old.reader.place).opening }
        ensures told { OnOk result (self.old.told ≤ length (view self.new.reader.place).seen) }
        ensures kept { self.new.told ≡ self.old.told }
    {
        let asked = Asked { alloc, path, name };
        replace_with(self, &asked, |viewer, asked| look(viewer, asked))
    }

    /// How many scripts were committed in what it has seen last: by what its last read saw, 0 before any. A read that isn't let in
    /// sees nothing new.
    pub fn commits(&self) -> usize
        ensures { result ≡ commits_in (seen_by self.now).seen }
    {
        self.commits
    }

    /// Takes in what its Publisher told: what is read from then on is no older.
    pub fn learn(&mut self, told: Told)
        ensures told { self.new.told ≡ max self.old.told told.count }
        ensures seen { self.new.reader ≡ self.old.reader }
    {
        self.told = self.told.max(told.count);
    }
}

// What a read is asked for.
#[derive(Drop)]
struct Asked<'a> {
    alloc: Global,
    path: &'a Path,
    name: FileName,
}

// Enters, looks and leaves.
fn look(viewer: Viewer, asked: &Asked<'_>) -> (Viewer, Result<Vec<u8>, Refusal>)
    ensures value { IfOk result.1 (λ text. IsFileOf (view result.0.reader.place) asked.now.path.now asked.now.name (Ok text.items)) }
    ensures refused { IfErr result.1 (λ e. IsRefusalOf (view result.0.reader.place) asked.now.path.now asked.now.name e) }
    ensures later { StartsWith (view result.0.reader.place).seen (view viewer.reader.place).seen }
    ensures opening { StartsWith (view result.0.reader.place).opening (view viewer.reader.place).opening }
    ensures told { OnOk result.1 (viewer.told ≤ length (view result.0.reader.place).seen) }
    ensures kept { result.0.told ≡ viewer.told }
{
    let Viewer {
        reader,
        told,
        commits,
    } = viewer;
    match reader.enter_as::<Sees>() {
        Ok(reading) => {
            let shown = reading.get();
            let text = text_of(shown, asked, told);
            let commits = shown.commits;
            let reader = reading.leave();
            (
                Viewer {
                    reader,
                    told,
                    commits,
                },
                text,
            )
        }
        Err(reader) => (
            Viewer {
                reader,
                told,
                commits,
            },
            Err(Refusal::Full),
        ),
    }
}

// The text of the file, where no less is shown than so many operations.
fn text_of(shown: &Shown, asked: &Asked<'_>, told: usize) -> Result<Vec<u8>, Refusal>
    ensures value { IfOk result (λ text. file (tree_after shown.now.opening shown.now.operations.items) asked.now.path.now asked.now.name ≡ Ok text.items) }
    ensures refused { IfErr result (λ e. e ≢ Memory → e ≢ Full → file (tree_after shown.now.opening shown.now.operations.items) asked.now.path.now asked.now.name ≡ Err e) }
    ensures told { OnOk result (told ≤ length shown.now.operations.items) }
{
    if shown.operations.len() < told {
        return Err(Refusal::Full);
    }
    cg_derive::file(asked.alloc, &shown.tree, asked.path, asked.name)
}
