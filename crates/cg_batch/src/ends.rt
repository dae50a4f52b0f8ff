//! The lines that tell how scripts ended.
ghost use Rattle.std.specs.Prelude.{◌≡◌, ◌∷◌, ◌++◌, [], IfOk, OnOk, codes};
ghost use Rattle.std.specs.BTreeMap.{get};
ghost use Rattle.std.specs.Fmt.{decimal};
ghost use Rattle.std.specs.Ordering.{nat_cmp};
ghost use Rattle.cg_history.specs.Meaning.{history_of};
ghost use Rattle.cg_batch.specs.Ends.{end_line, explained_line, holder_note, json_end_line, lines_by, plain_end_line, way_words};
ghost use Rattle.cg_batch.specs.Outcomes.{outcome_in, outcome_words};

use crate::end_value::append_value;
use crate::outcomes::{Outcome, outcome_of, outcomes_of};
use cg_json::Form;
use cg_runner::{Record, ScriptEnd};
use itoa::Buffer;
use std::alloc::{AllocError, Global};
use std::collections::BTreeMap;
use std::fmt::Write;

// The lines of all scripts in this form, of which the first is script 1.
pub(crate) fn lines_of(alloc: Global, form: Form, ends: &[ScriptEnd]) -> Result<Vec<u8>, AllocError>
    ensures { IfOk result (λ text. text.items ≡ lines_by (end_line form) 1 ends.now) }
{
    let mut text = Vec::new(alloc);
    let mut number = 0;
    for end in ends {
        number += 1;
        append_line(form, number, end, &mut text)?;
    }
    Ok(text)
}

// The plain lines of all scripts, each of one that gave up with a comment behind it, by the records of their history, of which the
// oldest comes first.
pub(crate) fn explained_lines_of(
    alloc: Global,
    records: &[Record],
    ends: &[ScriptEnd],
) -> Result<Vec<u8>, AllocError>
    ensures { IfOk result (λ text. text.items ≡ lines_by (explained_line (outcome_in (history_of records.now))) 1 ends.now) }
{
    let outcomes = outcomes_of(alloc, records)?;
    let mut text = Vec::new(alloc);
    let mut number = 0;
    for end in ends {
        number += 1;
        append_explained(number, end, &outcomes, &mut text)?;
    }
    Ok(text)
}

// What follows appends to a text; after an error, where there is no memory, nothing is said of it.

// Appends the line of a script.
fn append_line(
    form: Form,
    number: u64,
    end: &ScriptEnd,
    text: &mut Vec<u8>,
) -> Result<(), AllocError>
    ensures { OnOk result (text.new.items ≡ text.old.items ++ end_line form number end.now) }
{
    match form {
        Form::Plain => append_plain(number, end, text),
        Form::Json => append_json(number, end, text),
    }
}

// Appends the plain line, and a comment where the script gave up.
fn append_explained(
    number: u64,
    end: &ScriptEnd,
    outcomes: &BTreeMap<u32, Outcome>,
    text: &mut Vec<u8>,
) -> Result<(), AllocError>
    ensures { OnOk result (text.new.items ≡ text.old.items ++ explained_line (get nat_cmp outcomes.now) number end.now) }
{
    append_plain(number, end, text)?;
    append_note(end, outcomes, text)
}

// Appends a comment where the script gave up.
fn append_note(
    end: &ScriptEnd,
    outcomes: &BTreeMap<u32, Outcome>,
    text: &mut Vec<u8>,
) -> Result<(), AllocError>
    ensures { OnOk result (text.new.items ≡ text.old.items ++ holder_note (get nat_cmp outcomes.now) end.now) }
{
    match end {
        ScriptEnd::GaveUp { line, holder, .. } => {
            append_way(holder.0, *line, text)?;
            append_outcome(outcome_of(outcomes, holder.0), text)
        }
        _ => Ok(()),
    }
}

// Appends that a transaction was in the way of a request.
fn append_way(holder: u32, line: u32, text: &mut Vec<u8>) -> Result<(), AllocError>
    ensures { OnOk result (text.new.items ≡ text.old.items ++ way_words holder line) }
{
    text.extend_from_slice(b"# transaction ")?;
    append_number(holder, text)?;
    text.extend_from_slice(b" was in the way of request ")?;
    append_number(line, text)?;
    text.extend_from_slice(b", and ")?;
    Ok(())
}

// Appends how that transaction ended, with a newline.
fn append_outcome(outcome: Option<Outcome>, text: &mut Vec<u8>) -> Result<(), AllocError>
    ensures { OnOk result (text.new.items ≡ text.old.items ++ outcome_words outcome) }
{
    match outcome {
        Some(Outcome::Committed(number)) => append_commit(number, text),
        Some(Outcome::Aborted) => text.extend_from_slice(b"was aborted\n"),
        None => text.extend_from_slice(b"is open\n"),
    }
}

// Appends that it committed, as the commit of this number.
fn append_commit(number: u32, text: &mut Vec<u8>) -> Result<(), AllocError>
    ensures { OnOk result (text.new.items ≡ text.old.items ++ codes "committed " ++ decimal number ++ 10 ∷ []) }
{
    text.extend_from_slice(b"committed ")?;
    append_number(number, text)?;
    text.push(b'\n')?;
    Ok(())
}

// Appends a number in decimal digits.
fn append_number(number: u32, text: &mut Vec<u8>) -> Result<(), AllocError>
    ensures { OnOk result (text.new.items ≡ text.old.items ++ decimal number) }
{
    let mut buffer = Buffer::new();
    text.extend_from_slice(buffer.format(number).as_bytes())
}

// Appends the plain line.
fn append_plain(number: u64, end: &ScriptEnd, text: &mut Vec<u8>) -> Result<(), AllocError>
    ensures { OnOk result (text.new.items ≡ text.old.items ++ plain_end_line number end.now) }
{
    let mut line = String::new(*text.allocator());
    writeln!(line, "script {number} {end}")?;
    text.extend_from_slice(line.as_bytes())
}

// Appends the line of JSON.
#[tactic(auto, unfolding(crate::specs::Ends::json_end_line))]
fn append_json(number: u64, end: &ScriptEnd, text: &mut Vec<u8>) -> Result<(), AllocError>
    ensures { OnOk result (text.new.items ≡ text.old.items ++ json_end_line number end.now) }
{
    append_value(number, end, text)?;
    text.push(b'\n')?;
    Ok(())
}
