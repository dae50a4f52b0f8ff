//! What is told of the command that is in the way of a refused one.
ghost use Rattle.std.specs.Prelude.{◌≡◌, ◌++◌, OnOk, Some};
ghost use Rattle.cg_command.specs.Meaning.{command_of};
ghost use Rattle.cg_explain.specs.InTheWay.{clash_note, line_note, mark_said, request_note, way_notes};
ghost use Rattle.cg_history.specs.Meaning.{history_of, request_of};
ghost use Rattle.cg_locks.specs.Clashing.{any_mark};
ghost use Rattle.cg_locks.specs.Meaning.{mark_of};
ghost use Rattle.cg_name.specs.Path.{path_word};
ghost use Rattle.cg_txn.specs.Clashing.{told_clash};

use crate::asked::Asked;
use crate::comment::{append_comment, append_number};
use cg_command::Command;
use cg_command_text::write_command;
use cg_core::{AnyMark, Clash, Core, Footprint, Mark, Record, Request};
use cg_name::{Path, TxnNumber};
use std::alloc::AllocError;

// Each appends to a text; after an error, where there is no memory, nothing is said of it.

/// Appends which line asked for the command of this transaction that is in the way of the refused command, and by which mark.
pub(crate) fn append_way(
    asked: &Asked,
    core: &Core,
    holder: TxnNumber,
    command: &Command,
    out: &mut Vec<u8>,
) -> Result<(), AllocError>
    ensures { OnOk result (out.new.items ≡ out.old.items ++ way_notes asked.now core.now holder.0 (command_of command.now)) }
{
    let footprint = Footprint::of(*out.allocator(), command, core.tree())?;
    match core.in_the_way(holder, &footprint) {
        Some(clash) => append_clash(asked, core.history(), &clash, out),
        None => Ok(()),
    }
}

// Appends which line asked for the command.
fn append_clash(
    asked: &Asked,
    records: &[Record],
    clash: &Clash<'_>,
    out: &mut Vec<u8>,
) -> Result<(), AllocError>
    ensures { OnOk result (out.new.items ≡ out.old.items ++ clash_note asked.now (history_of records.now) (Some (told_clash clash.now))) }
{
    let index = clash.place as usize;
    match records.get(index) {
        Some(record) => append_request(asked.line(index), clash.mark, &record.request, out),
        None => Ok(()),
    }
}

// Appends the line with this number, where it asked for a command.
fn append_request(
    number: u64,
    mark: AnyMark<'_>,
    request: &Request,
    out: &mut Vec<u8>,
) -> Result<(), AllocError>
    ensures { OnOk result (out.new.items ≡ out.old.items ++ request_note number (any_mark mark.entry) (request_of request.now)) }
{
    match request {
        Request::Do(command) => append_line(number, mark, command, out),
        _ => Ok(()),
    }
}

// Appends the line with this number.
fn append_line(
    number: u64,
    mark: AnyMark<'_>,
    command: &Command,
    out: &mut Vec<u8>,
) -> Result<(), AllocError>
    ensures { OnOk result (out.new.items ≡ out.old.items ++ line_note number (any_mark mark.entry) (command_of command.now)) }
{
    let mut said = Vec::new(*out.allocator());
    said.extend_from_slice(b"line ")?;
    append_number(number, &mut said)?;
    said.extend_from_slice(b" ")?;
    append_any(mark, &mut said)?;
    said.extend_from_slice(b": ")?;
    write_command(command, &mut said)?;
    append_comment(said.as_slice(), out)
}

// Appends what a command with this mark does.
fn append_any(mark: AnyMark<'_>, out: &mut Vec<u8>) -> Result<(), AllocError>
    ensures { OnOk result (out.new.items ≡ out.old.items ++ mark_said (any_mark mark.entry)) }
{
    match mark {
        AnyMark::Plain(mark) => append_plain(mark, out),
        AnyMark::Descendants(path, depth) => {
            let above = path.prefix(*out.allocator(), depth)?;
            append_path(b"counts the descendants of ", &above, b"", out)
        }
    }
}

// The same of one that isn't on a number of descendants.
fn append_plain(mark: &Mark, out: &mut Vec<u8>) -> Result<(), AllocError>
    ensures { OnOk result (out.new.items ≡ out.old.items ++ mark_said (mark_of mark.now)) }
{
    match mark {
        Mark::Changed(path) => append_path(b"changes ", path, b" and below", out),
        Mark::Read(path) => append_path(b"reads ", path, b" and below", out),
        Mark::Stays(path) => append_path(b"needs ", path, b" to stay", out),
        Mark::Process(pid) => {
            out.extend_from_slice(b"moves process ")?;
            append_number(*pid as u64, out)
        }
    }
}

// Appends a path between words.
fn append_path(
    before: &[u8],
    path: &Path,
    behind: &[u8],
    out: &mut Vec<u8>,
) -> Result<(), AllocError>
    ensures { OnOk result (out.new.items ≡ out.old.items ++ (before.now ++ path_word path.now ++ behind.now)) }
{
    out.extend_from_slice(before)?;
    path.write(out)?;
    out.extend_from_slice(behind)?;
    Ok(())
}
