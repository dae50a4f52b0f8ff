//! The difference of two trees.
ghost use Rattle.std.specs.Prelude.{◌≡◌, ◌++◌, IfOk, OnOk};
ghost use Rattle.std.specs.List.{flat_map};
ghost use Rattle.std.specs.Ordering.{nat_cmp};
ghost use Rattle.cg_name.specs.Path.{path_cmp};
ghost use Rattle.cg_diff.specs.Difference.{controllers_change, difference_text, groups_changes, online_change, processes_changes};
ghost use Rattle.cg_diff.specs.Sides.{group_side, process_side};

use crate::lines::{
    append_changed, append_group_line, append_moved, append_process_line, append_settings,
};
use cg_boxed::CompactSettings;
use cg_name::Path;
use cg_world::PlainTree;
use cg_world_text::{Version, version_of};
use itertools::{EitherOrBoth, Itertools};
use std::alloc::{AllocError, Global};
use std::cmp::Ordering;

/// A line for each change from the one tree to the other: their controllers, their CPUs that are online, their groups in the
/// order of the paths, and their processes by ascending PID. An error where there is no memory for it.
pub fn difference(
    alloc: Global,
    before: &PlainTree,
    after: &PlainTree,
) -> Result<Vec<u8>, AllocError>
    ensures { IfOk result (λ text. text.items ≡ difference_text before.now after.now) }
{
    let mut out = Vec::new(alloc);
    append_controllers(before, after, &mut out)?;
    append_online(before, after, &mut out)?;
    append_groups(before, after, &mut out)?;
    append_processes(before, after, &mut out)?;
    Ok(out)
}

// What follows appends to a text; after an error, where there is no memory, nothing is said of it.

// Appends the line of the computer's controllers, where they changed.
fn append_controllers(
    before: &PlainTree,
    after: &PlainTree,
    out: &mut Vec<u8>,
) -> Result<(), AllocError>
    ensures { OnOk result (out.new.items ≡ out.old.items ++ controllers_change before.now after.now) }
{
    append_changed(
        b"controllers",
        &before.controllers(),
        &after.controllers(),
        out,
    )
}

// Appends the line of the CPUs that are online, where they changed.
fn append_online(before: &PlainTree, after: &PlainTree, out: &mut Vec<u8>) -> Result<(), AllocError>
    ensures { OnOk result (out.new.items ≡ out.old.items ++ online_change before.now after.now) }
{
    append_changed(b"online", &before.online(), &after.online(), out)
}

// Appends the lines of the groups of either tree.
fn append_groups(before: &PlainTree, after: &PlainTree, out: &mut Vec<u8>) -> Result<(), AllocError>
    ensures { OnOk result (out.new.items ≡ out.old.items ++ groups_changes before.now after.now) }
{
    let (old, new) = (version_of(before), version_of(after));
    let sides = before.groups().iter().merge_join_by(
        after.groups().iter(),
        |left: &(&Path, &CompactSettings), right: &(&Path, &CompactSettings)| -> Ordering
            ensures { result ≡ path_cmp left.now.0.now right.now.0.now }
        { left.0.cmp(right.0) },
    );
    for side in sides {
        append_group(old, new, side, out)?;
    }
    Ok(())
}

// Appends the lines of a group.
fn append_group(
    old: Version,
    new: Version,
    side: EitherOrBoth<(&Path, &CompactSettings), (&Path, &CompactSettings)>,
    out: &mut Vec<u8>,
) -> Result<(), AllocError>
    ensures { OnOk result (out.new.items ≡ out.old.items ++ group_side old new side.entry) }
{
    match side {
        EitherOrBoth::Left((path, settings)) => {
            out.extend_from_slice(b"- ")?;
            append_group_line(old, path, settings, out)
        }
        EitherOrBoth::Right((path, settings)) => {
            out.extend_from_slice(b"+ ")?;
            append_group_line(new, path, settings, out)
        }
        EitherOrBoth::Both((path, before), (_, after)) => {
            append_settings(path, before, after, out)
        }
    }
}

// Appends the lines of the processes of either tree.
fn append_processes(
    before: &PlainTree,
    after: &PlainTree,
    out: &mut Vec<u8>,
) -> Result<(), AllocError>
    ensures { OnOk result (out.new.items ≡ out.old.items ++ processes_changes before.now after.now) }
{
    let sides = before.places().iter().merge_join_by(
        after.places().iter(),
        |left: &(&u32, &Path), right: &(&u32, &Path)| -> Ordering
            ensures { result ≡ nat_cmp left.now.0.now right.now.0.now }
        { left.0.cmp(right.0) },
    );
    for side in sides {
        append_process(side, out)?;
    }
    Ok(())
}

// Appends the line of a process.
fn append_process(
    side: EitherOrBoth<(&u32, &Path), (&u32, &Path)>,
    out: &mut Vec<u8>,
) -> Result<(), AllocError>
    ensures { OnOk result (out.new.items ≡ out.old.items ++ process_side side.entry) }
{
    match side {
        EitherOrBoth::Left((pid, path)) => {
            out.extend_from_slice(b"- ")?;
            append_process_line(*pid, path, out)
        }
        EitherOrBoth::Right((pid, path)) => {
            out.extend_from_slice(b"+ ")?;
            append_process_line(*pid, path, out)
        }
        EitherOrBoth::Both((pid, before), (_, after)) => append_moved(*pid, before, after, out),
    }
}
