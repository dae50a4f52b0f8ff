//! What is told of the way from a path up to the root.
ghost use Rattle.std.specs.Prelude.{◌≡◌, ◌++◌, ◌-◌, ◌≤◌, OnOk, IfOk, codes, length};
ghost use Rattle.std.specs.Fmt.{decimal};
ghost use Rattle.cg_explain.specs.Notes.{deep_note, deep_notes, lacking_note, lacking_notes, many_note, many_notes, missing_note, missing_notes, share, many_where, deep_where};

use crate::comment::{append_note_above, append_number};
use cg_name::{Controller, Path};
use cg_text::Limit;
use cg_tree::{Ancestor, Ancestors};
use std::alloc::{AllocError, Global};

// Each appends to a text; after an error, where there is no memory, nothing is said of it.

/// Appends which paths on the way are no groups.
pub(crate) fn append_missing(
    path: &Path,
    mut way: Ancestors<'_>,
    out: &mut Vec<u8>,
) -> Result<(), AllocError>
    ensures { OnOk result (out.new.items ≡ out.old.items ++ missing_notes path.now way.entry) }
{
    let Some(ancestor) = way.next() else {
        return Ok(());
    };
    append_missing_at(path, &ancestor, out)?;
    append_missing(path, way, out)
}

// The same of one path.
fn append_missing_at(path: &Path, ancestor: &Ancestor, out: &mut Vec<u8>) -> Result<(), AllocError>
    ensures { OnOk result (out.new.items ≡ out.old.items ++ missing_note path.now ancestor.now.depth ancestor.now.settings) }
{
    if ancestor.settings().is_some() {
        return Ok(());
    }
    append_note_above(path, ancestor.depth(), b" is no group", out)
}

/// Appends which groups on the way don't pass the controller on.
pub(crate) fn append_lacking(
    controller: Controller,
    path: &Path,
    mut way: Ancestors<'_>,
    out: &mut Vec<u8>,
) -> Result<(), AllocError>
    ensures { OnOk result (out.new.items ≡ out.old.items ++ lacking_notes controller path.now way.entry) }
{
    let Some(ancestor) = way.next() else {
        return Ok(());
    };
    append_lacking_at(controller, path, &ancestor, out)?;
    append_lacking(controller, path, way, out)
}

// The same of one group.
fn append_lacking_at(
    controller: Controller,
    path: &Path,
    ancestor: &Ancestor,
    out: &mut Vec<u8>,
) -> Result<(), AllocError>
    ensures { OnOk result (out.new.items ≡ out.old.items ++ lacking_note controller path.now ancestor.now.depth ancestor.now.settings) }
{
    let Some(settings) = ancestor.settings() else {
        return Ok(());
    };
    if settings.control().contains(controller) {
        return Ok(());
    }
    let mut said = Vec::new(*out.allocator());
    said.extend_from_slice(b" passes on no ")?;
    said.extend_from_slice(controller.word().as_bytes())?;
    append_note_above(path, ancestor.depth(), said.as_slice(), out)
}

/// Appends which groups on the way have as many descendants as they may have.
pub(crate) fn append_many(
    path: &Path,
    mut way: Ancestors<'_>,
    out: &mut Vec<u8>,
) -> Result<(), AllocError>
    ensures { OnOk result (out.new.items ≡ out.old.items ++ many_notes path.now way.entry) }
{
    let Some(ancestor) = way.next() else {
        return Ok(());
    };
    append_many_at(path, &ancestor, out)?;
    append_many(path, way, out)
}

// The same of one group.
fn append_many_at(path: &Path, ancestor: &Ancestor, out: &mut Vec<u8>) -> Result<(), AllocError>
    ensures { OnOk result (out.new.items ≡ out.old.items ++ many_note path.now ancestor.now.depth ancestor.now.descendants ancestor.now.settings) }
{
    let Some(settings) = ancestor.settings() else {
        return Ok(());
    };
    append_many_where(
        path,
        ancestor.depth(),
        ancestor.descendants(),
        settings.max_descendants(),
        out,
    )
}

// The same by how many descendants there are and may be.
fn append_many_where(
    path: &Path,
    depth: u32,
    count: u64,
    limit: Limit,
    out: &mut Vec<u8>,
) -> Result<(), AllocError>
    ensures { OnOk result (out.new.items ≡ out.old.items ++ many_where path.now depth count limit) }
{
    let Limit::UpTo(most) = limit else {
        return Ok(());
    };
    if count < most.number as u64 {
        return Ok(());
    }
    let said = shared(
        *out.allocator(),
        b" has ",
        count,
        b" descendants of ",
        most.number as u64,
    )?;
    append_note_above(path, depth, said.as_slice(), out)
}

/// Appends which groups on the way would have more levels below them than they allow.
pub(crate) fn append_deep(
    path: &Path,
    mut way: Ancestors<'_>,
    out: &mut Vec<u8>,
) -> Result<(), AllocError>
    ensures { OnOk result (out.new.items ≡ out.old.items ++ deep_notes path.now way.entry) }
{
    let Some(ancestor) = way.next() else {
        return Ok(());
    };
    append_deep_at(path, &ancestor, out)?;
    append_deep(path, way, out)
}

// The same of one group.
fn append_deep_at(path: &Path, ancestor: &Ancestor, out: &mut Vec<u8>) -> Result<(), AllocError>
    ensures { OnOk result (out.new.items ≡ out.old.items ++ deep_note path.now ancestor.now.depth ancestor.now.settings) }
{
    let Some(settings) = ancestor.settings() else {
        return Ok(());
    };
    append_deep_where(path, ancestor.depth(), settings.max_depth(), out)
}

// The same by how deep groups below may be.
fn append_deep_where(
    path: &Path,
    depth: u32,
    limit: Limit,
    out: &mut Vec<u8>,
) -> Result<(), AllocError>
    ensures { OnOk result (out.new.items ≡ out.old.items ++ deep_where path.now depth limit) }
{
    let Limit::UpTo(most) = limit else {
        return Ok(());
    };
    let levels = path.depth().saturating_sub(depth);
    if levels <= most.number {
        return Ok(());
    }
    let said = shared(
        *out.allocator(),
        b" would have ",
        levels as u64,
        b" levels of ",
        most.number as u64,
    )?;
    append_note_above(path, depth, said.as_slice(), out)
}

// A word, and so many of so many.
fn shared(
    alloc: Global,
    word: &[u8],
    count: u64,
    between: &[u8],
    most: u64,
) -> Result<Vec<u8>, AllocError>
    ensures { IfOk result (λ said. said.items ≡ word.now ++ share count between.now most) }
{
    let mut said = Vec::new(alloc);
    said.extend_from_slice(word)?;
    append_number(count, &mut said)?;
    said.extend_from_slice(between)?;
    append_number(most, &mut said)?;
    Ok(said)
}
