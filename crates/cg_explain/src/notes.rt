//! What is in the way of a command that the tree refuses.
ghost use Rattle.std.specs.Prelude.{◌≡◌, ◌++◌, OnOk, option_copied};
ghost use Rattle.cg_command.specs.Meaning.{command_of};
ghost use Rattle.cg_explain.specs.Explained.{began_note, busy_note, record_notes, refusal_notes};
ghost use Rattle.cg_history.specs.Meaning.{answer_of, request_of};
ghost use Rattle.cg_explain.specs.Notes.{command_notes, computer_note, control_note, group_notes, unavailable_notes};

use crate::asked::Asked;
use crate::begun::Begun;
use crate::below::{append_children, append_processes};
use crate::comment::{append_comment, append_note, append_number};
use crate::in_the_way::append_way;
use crate::upward::{append_deep, append_lacking, append_many, append_missing};
use cg_boxed::CompactSettings;
use cg_command::Command;
use cg_core::Core;
use cg_history::{Answer, Record, Request};
use cg_name::{Controller, Path, Refusal, TxnNumber};
use cg_text::{Controllers, write_names};
use cg_tree::{Ancestors, Tree};
use std::alloc::AllocError;

// Each appends to a text; after an error, where there is no memory, nothing is said of it.

/// Appends what is told of a record: of a command that is refused what is in its way.
pub(crate) fn append_record_notes(
    begun: &Begun,
    asked: &Asked,
    core: &Core,
    newest: &Record,
    out: &mut Vec<u8>,
) -> Result<(), AllocError>
    ensures { OnOk result (out.new.items ≡ out.old.items ++ record_notes begun.now asked.now core.now (request_of newest.now.request) (answer_of newest.now.answer)) }
{
    match (&newest.request, &newest.answer) {
        (Request::Do(command), Answer::Refused(refusal)) => {
            append_refusal_notes(begun, asked, core, command, *refusal, out)
        }
        _ => Ok(()),
    }
}

// Appends who is in the way of a refused command and by which command, or else what is in its way in the tree.
fn append_refusal_notes(
    begun: &Begun,
    asked: &Asked,
    core: &Core,
    command: &Command,
    refusal: Refusal,
    out: &mut Vec<u8>,
) -> Result<(), AllocError>
    ensures { OnOk result (out.new.items ≡ out.old.items ++ refusal_notes begun.now asked.now core.now (command_of command.now) refusal) }
{
    match refusal {
        Refusal::Busy(transaction) => {
            append_busy(begun, transaction, out)?;
            append_way(asked, core, transaction, command, out)
        }
        _ => append_command_notes(core.tree(), command, refusal, out),
    }
}

// Appends the line that began the transaction, where one did.
fn append_busy(begun: &Begun, transaction: TxnNumber, out: &mut Vec<u8>) -> Result<(), AllocError>
    ensures { OnOk result (out.new.items ≡ out.old.items ++ busy_note begun.now transaction.0) }
{
    let line = begun.line(transaction);
    if line.is_empty() {
        return Ok(());
    }
    append_began(transaction, line, out)
}

// Appends the line that began a transaction.
fn append_began(transaction: TxnNumber, line: &[u8], out: &mut Vec<u8>) -> Result<(), AllocError>
    ensures { OnOk result (out.new.items ≡ out.old.items ++ began_note transaction.0 line.now) }
{
    let TxnNumber(number) = transaction;
    let mut said = Vec::new(*out.allocator());
    said.extend_from_slice(b"transaction ")?;
    append_number(number as u64, &mut said)?;
    said.extend_from_slice(b" began on line ")?;
    said.extend_from_slice(line)?;
    append_comment(said.as_slice(), out)
}

// Appends what is in the way of a command that the tree refuses so.
fn append_command_notes(
    tree: &Tree,
    command: &Command,
    refusal: Refusal,
    out: &mut Vec<u8>,
) -> Result<(), AllocError>
    ensures { OnOk result (out.new.items ≡ out.old.items ++ command_notes tree.now.tree (command_of command.now) refusal) }
{
    match command {
        Command::Create { path } => append_group_notes(tree, path, tree.above(path), refusal, out),
        Command::Remove { path }
        | Command::Migrate { pid: _, path }
        | Command::Subtree { path, ops: _ }
        | Command::Freeze { path, value: _ }
        | Command::LowCpus { path, cpus: _ }
        | Command::WideCpus { path, cpus: _ }
        | Command::Show { path, file: _ }
        | Command::MaxDescendants { path, limit: _ }
        | Command::MaxDepth { path, limit: _ } => {
            append_group_notes(tree, path, tree.ancestors(path), refusal, out)
        }
        Command::Online { cpus: _ } => Ok(()),
    }
}

// Appends what is in the way of a command on this group, where groups have to be on this way.
fn append_group_notes(
    tree: &Tree,
    path: &Path,
    way: Ancestors<'_>,
    refusal: Refusal,
    out: &mut Vec<u8>,
) -> Result<(), AllocError>
    ensures { OnOk result (out.new.items ≡ out.old.items ++ group_notes tree.now.tree path.now way.entry refusal) }
{
    match refusal {
        Refusal::NoGroup => append_missing(path, way, out),
        Refusal::HasChildren => append_children(tree, path, None, out),
        Refusal::HasProcesses => append_processes(tree, path, out),
        Refusal::Controlled => append_control(path, tree.settings(path), out),
        Refusal::Unavailable(controller) => append_unavailable(tree, path, controller, out),
        Refusal::InUse(controller) => append_children(tree, path, Some(controller), out),
        Refusal::TooMany => append_many(path, tree.above(path), out),
        Refusal::TooDeep => append_deep(path, tree.above(path), out),
        _ => Ok(()),
    }
}

// Appends who would have to pass the controller on.
fn append_unavailable(
    tree: &Tree,
    path: &Path,
    controller: Controller,
    out: &mut Vec<u8>,
) -> Result<(), AllocError>
    ensures { OnOk result (out.new.items ≡ out.old.items ++ unavailable_notes tree.now.tree path.now controller) }
{
    append_lacking(controller, path, tree.above(path), out)?;
    append_computer(tree.controllers(), controller, out)
}

// Appends that the computer hasn't the controller, where that is so.
fn append_computer(
    all: Controllers,
    controller: Controller,
    out: &mut Vec<u8>,
) -> Result<(), AllocError>
    ensures { OnOk result (out.new.items ≡ out.old.items ++ computer_note all controller) }
{
    if all.contains(controller) {
        return Ok(());
    }
    let mut said = Vec::new(*out.allocator());
    said.extend_from_slice(b"the computer has no ")?;
    said.extend_from_slice(controller.word().as_bytes())?;
    append_comment(said.as_slice(), out)
}

// Appends what a group with these settings passes on.
fn append_control(
    path: &Path,
    settings: Option<&CompactSettings>,
    out: &mut Vec<u8>,
) -> Result<(), AllocError>
    ensures { OnOk result (out.new.items ≡ out.old.items ++ control_note path.now (option_copied settings.entry)) }
{
    let Some(settings) = settings else {
        return Ok(());
    };
    let mut said = Vec::new(*out.allocator());
    said.extend_from_slice(b" passes on ")?;
    write_names(settings.control(), b',', &mut said)?;
    append_note(path, said.as_slice(), out)
}
