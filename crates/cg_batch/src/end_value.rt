//! What JSON tells of how a script ended.
ghost use Rattle.std.specs.Prelude.{◌≡◌, ◌++◌, OnOk, true};
ghost use Rattle.cg_json.specs.Text.{fields_of, fields_text, json_text};
ghost use Rattle.cg_batch.specs.EndValue.{commit_fields, commit_of, end_value, end_word, holder_fields, holder_of, line_of, refused_fields, refused_value};

use cg_json::{write_name, write_null, write_number, write_number_or_null, write_string};
use cg_json_world::write_refusal;
use cg_runner::ScriptEnd;
use std::alloc::AllocError;

// What appends does so to a text; after an error, where there is no memory, nothing is said of it.

// Appends what is told of a script that ended so.
pub(crate) fn append_value(
    number: u64,
    end: &ScriptEnd,
    out: &mut Vec<u8>,
) -> Result<(), AllocError>
    ensures { OnOk result (out.new.items ≡ out.old.items ++ json_text (end_value number end.now)) }
{
    out.push(b'{')?;
    write_name(false, "script", out)?;
    write_number(number, out)?;
    write_name(true, "end", out)?;
    write_string(end_word(end).as_bytes(), out)?;
    append_commit(end, out)
}

// What follows appends the last fields and the closing brace.

// From the commit on.
fn append_commit(end: &ScriptEnd, out: &mut Vec<u8>) -> Result<(), AllocError>
    ensures { OnOk result (out.new.items ≡ out.old.items ++ fields_text true (fields_of (commit_fields end.now))) }
{
    write_name(true, "commit", out)?;
    write_number_or_null(commit_of(end), out)?;
    write_name(true, "line", out)?;
    write_number_or_null(line_of(end), out)?;
    append_refused(end, out)
}

// From the refusal on.
fn append_refused(end: &ScriptEnd, out: &mut Vec<u8>) -> Result<(), AllocError>
    ensures { OnOk result (out.new.items ≡ out.old.items ++ fields_text true (fields_of (refused_fields end.now))) }
{
    write_name(true, "refused", out)?;
    append_refusal(end, out)?;
    append_holder(end, out)
}

// From the transaction in the way on.
fn append_holder(end: &ScriptEnd, out: &mut Vec<u8>) -> Result<(), AllocError>
    ensures { OnOk result (out.new.items ≡ out.old.items ++ fields_text true (fields_of (holder_fields end.now))) }
{
    write_name(true, "holder", out)?;
    write_number_or_null(holder_of(end), out)?;
    write_name(true, "tries", out)?;
    write_number(end.tries() as u64, out)?;
    out.push(b'}')?;
    Ok(())
}

// Appends why it was refused, where it was.
fn append_refusal(end: &ScriptEnd, out: &mut Vec<u8>) -> Result<(), AllocError>
    ensures { OnOk result (out.new.items ≡ out.old.items ++ json_text (refused_value end.now)) }
{
    match end {
        ScriptEnd::Failed { refusal, .. } => write_refusal(*refusal, out),
        _ => write_null(out),
    }
}

// The word for how a script ended.
fn end_word(end: &ScriptEnd) -> &'static str
    ensures { result.now ≡ end_word end.now }
{
    match end {
        ScriptEnd::Committed { .. } => "committed",
        ScriptEnd::Aborted { .. } => "aborted",
        ScriptEnd::Failed { .. } => "failed",
        ScriptEnd::GaveUp { .. } => "gaveup",
    }
}

// The number of its commit, where it was committed.
fn commit_of(end: &ScriptEnd) -> Option<u64>
    ensures { result ≡ commit_of end.now }
{
    match end {
        ScriptEnd::Committed { number, .. } => Some(*number as u64),
        _ => None,
    }
}

// The line at which it was refused, or given up, where it was.
fn line_of(end: &ScriptEnd) -> Option<u64>
    ensures { result ≡ line_of end.now }
{
    match end {
        ScriptEnd::Failed { line, .. } | ScriptEnd::GaveUp { line, .. } => Some(*line as u64),
        _ => None,
    }
}

// The transaction that was in its way, where it was given up.
fn holder_of(end: &ScriptEnd) -> Option<u64>
    ensures { result ≡ holder_of end.now }
{
    match end {
        ScriptEnd::GaveUp { holder, .. } => Some(holder.0 as u64),
        _ => None,
    }
}
