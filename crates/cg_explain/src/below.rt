//! What is told of a group itself, and of its children.
ghost use Rattle.std.specs.Prelude.{◌≡◌, ◌∷◌, ◌++◌, List, IfOk, OnOk, take};
ghost use Rattle.std.specs.List.{flat_map};
ghost use Rattle.cg_explain.specs.Notes.{child_said, children_notes, first_notes, is_wanted, path_note, processes_note, spaced_pid};
ghost use Rattle.cg_model.specs.Derived.{processes};
ghost use Rattle.cg_name.specs.Path.{Path};
ghost use Rattle.cg_text.specs.declared.settings.Settings.{Settings};

use crate::comment::{append_note, append_number};
use cg_boxed::CompactSettings;
use cg_name::{Controller, Path, PathRef};
use cg_tree::Tree;
use std::alloc::{AllocError, Global};

// How many children, or processes, are named at most.
const MOST_NAMED: usize = 8;

// Each appends to a text; after an error, where there is no memory, nothing is said of it.

/// Appends how many processes the group has, and the first of them.
pub(crate) fn append_processes(
    tree: &Tree,
    path: &Path,
    out: &mut Vec<u8>,
) -> Result<(), AllocError>
    ensures { OnOk result (out.new.items ≡ out.old.items ++ processes_note path.now (processes tree.now.tree path.now)) }
{
    let pids = tree.processes(*out.allocator(), path)?;
    let mut said = Vec::new(*out.allocator());
    said.extend_from_slice(b" has processes (")?;
    append_number(pids.len() as u64, &mut said)?;
    said.extend_from_slice(b"):")?;
    append_pids(first(pids.as_slice()), &mut said)?;
    append_note(path, said.as_slice(), out)
}

// The first of them, as many as are named.
fn first(pids: &[u32]) -> &[u32]
    ensures { result.now ≡ take 8 pids.now }
{
    if pids.len() > MOST_NAMED {
        &pids[..MOST_NAMED]
    } else {
        pids
    }
}

// Appends PIDs, each with a space before it.
fn append_pids(pids: &[u32], out: &mut Vec<u8>) -> Result<(), AllocError>
    ensures { OnOk result (out.new.items ≡ out.old.items ++ flat_map spaced_pid pids.now) }
{
    for pid in pids {
        append_pid(*pid, out)?;
    }
    Ok(())
}

// Appends a PID, with a space before it.
fn append_pid(pid: u32, out: &mut Vec<u8>) -> Result<(), AllocError>
    ensures { OnOk result (out.new.items ≡ out.old.items ++ spaced_pid pid) }
{
    out.push(b' ')?;
    append_number(pid as u64, out)
}

/// Appends the first children of the group, or of those that pass the controller on where one is asked for.
pub(crate) fn append_children(
    tree: &Tree,
    path: &Path,
    wanted: Option<Controller>,
    out: &mut Vec<u8>,
) -> Result<(), AllocError>
    ensures { OnOk result (out.new.items ≡ out.old.items ++ children_notes tree.now.tree path.now wanted) }
{
    let said = child_said(*out.allocator(), wanted)?;
    let mut left = MOST_NAMED;
    for (child, settings) in tree.children(*out.allocator(), path)? {
        left = append_wanted(wanted, &child, settings, said.as_slice(), left, out)?;
    }
    Ok(())
}

// Appends what is said of the child, where it is wanted and so many more are told; and gives how many more are told then.
fn append_wanted(
    wanted: Option<Controller>,
    child: &PathRef<'_>,
    settings: &CompactSettings,
    said: &[u8],
    left: usize,
    out: &mut Vec<u8>,
) -> Result<usize, AllocError>
    ensures { IfOk result (λ rest. (others : List (Path × Settings)) → out.new.items ++ first_notes (is_wanted wanted) said.now rest others
        ≡ out.old.items ++ first_notes (is_wanted wanted) said.now left ((child.now, settings.now) ∷ others)) }
{
    if left == 0 || !is_wanted(wanted, settings) {
        return Ok(left);
    }
    append_child(child, said, out)?;
    Ok(left - 1)
}

// What is said of a child.
fn child_said(alloc: Global, wanted: Option<Controller>) -> Result<Vec<u8>, AllocError>
    ensures { IfOk result (λ said. said.items ≡ child_said wanted) }
{
    let mut said = Vec::new(alloc);
    match wanted {
        None => said.extend_from_slice(b" is a child")?,
        Some(controller) => {
            said.extend_from_slice(b" passes on ")?;
            said.extend_from_slice(controller.word().as_bytes())?;
        }
    }
    Ok(said)
}

// Whether a child with these settings passes the controller on, where one is asked for.
fn is_wanted(wanted: Option<Controller>, settings: &CompactSettings) -> bool
    ensures { (path : Path) → result ≡ is_wanted wanted (path, settings.now) }
{
    match wanted {
        None => true,
        Some(controller) => settings.control().contains(controller),
    }
}

// Appends what is said of a child.
fn append_child(child: &PathRef<'_>, said: &[u8], out: &mut Vec<u8>) -> Result<(), AllocError>
    ensures { OnOk result (out.new.items ≡ out.old.items ++ path_note child.now said.now) }
{
    let child = child.to_path(*out.allocator())?;
    append_note(&child, said, out)
}
