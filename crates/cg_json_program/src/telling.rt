//! What is told of an answer.
ghost use Rattle.std.specs.Prelude.{◌≡◌, ◌++◌, OnOk, option_copied, option_map, true};
ghost use Rattle.cg_history.specs.Meaning.{answer_of};
ghost use Rattle.cg_json.specs.Text.{fields_of, fields_text, json_text, string_or_null};
ghost use Rattle.cg_json_program.specs.Meaning.{said_of, told_of};
ghost use Rattle.cg_json_program.specs.Report.{answer_fields, holder, refused_value, request_fields, session_fields, told_in, told_line, told_value};

use cg_history::Answer;
use cg_json::{
    write_name, write_null, write_number, write_number_or_null, write_string, write_string_or_null,
};
use cg_json_world::write_refusal;
use cg_name::{Refusal, TxnNumber};
use cg_script::{SessionName, write_answer};
use std::alloc::AllocError;

// What appends does so to a text; after an error, where there is no memory, nothing is said of it.

/// An answer, with the session and the transaction that it is of, where they are known.
pub(crate) struct Reply {
    pub(crate) session: Option<SessionName>,
    pub(crate) txn: Option<TxnNumber>,
    pub(crate) answer: Answer,
}

// By hand, so that whoever drops one calls this, and doesn't drop each thing in it: that makes proofs shorter.
impl Drop for Reply {
    fn drop(self) {
        let Reply {
            session: _,
            txn: _,
            answer: _,
        } = self;
    }
}

/// Appends the line that tells of an answer: to which line of the schedule it is, and to which request, where there is one.
#[tactic(auto, unfolding(crate::specs::Report::told_line))]
pub(crate) fn append_told(
    line: Option<u64>,
    request: Option<&[u8]>,
    reply: &Reply,
    out: &mut Vec<u8>,
) -> Result<(), AllocError>
    ensures { OnOk result (out.new.items ≡ out.old.items ++ told_line (told_of line (option_copied request.entry) reply.now)) }
{
    append_object(line, request, reply, out)?;
    out.push(b'\n')?;
    Ok(())
}

/// The transaction of an answer: the session's open one before, or the one that was begun.
pub(crate) fn told_in(before: Option<TxnNumber>, answer: &Answer) -> Option<TxnNumber>
    ensures { option_map (λ t. t.0) result ≡ told_in (option_map (λ t. t.0) before) (answer_of answer.now) }
{
    match (before, answer) {
        (Some(number), _) => Some(number),
        (None, Answer::Begun(number)) => Some(*number),
        (None, _) => None,
    }
}

// Appends what is told of an answer.
fn append_object(
    line: Option<u64>,
    request: Option<&[u8]>,
    reply: &Reply,
    out: &mut Vec<u8>,
) -> Result<(), AllocError>
    ensures { OnOk result (out.new.items ≡ out.old.items ++ json_text (told_value (told_of line (option_copied request.entry) reply.now))) }
{
    out.push(b'{')?;
    write_name(false, "line", out)?;
    write_number_or_null(line, out)?;
    append_session(request, reply, out)
}

// What follows appends the last fields and the closing brace.

// From the session on.
fn append_session(
    request: Option<&[u8]>,
    reply: &Reply,
    out: &mut Vec<u8>,
) -> Result<(), AllocError>
    ensures { OnOk result (out.new.items ≡ out.old.items ++ fields_text true (fields_of (session_fields (option_copied request.entry) (said_of reply.now)))) }
{
    write_name(true, "session", out)?;
    append_name(reply.session, out)?;
    write_name(true, "transaction", out)?;
    write_number_or_null(number_of(reply.txn), out)?;
    append_request(request, &reply.answer, out)
}

// From the request on.
fn append_request(
    request: Option<&[u8]>,
    answer: &Answer,
    out: &mut Vec<u8>,
) -> Result<(), AllocError>
    ensures { OnOk result (out.new.items ≡ out.old.items ++ fields_text true (fields_of (request_fields (option_copied request.entry) (answer_of answer.now)))) }
{
    write_name(true, "request", out)?;
    write_string_or_null(request, out)?;
    append_answer(answer, out)
}

// From the answer on.
fn append_answer(answer: &Answer, out: &mut Vec<u8>) -> Result<(), AllocError>
    ensures { OnOk result (out.new.items ≡ out.old.items ++ fields_text true (fields_of (answer_fields (answer_of answer.now)))) }
{
    let mut text = Vec::new(*out.allocator());
    write_answer(answer, &mut text)?;
    write_name(true, "answer", out)?;
    write_string(text.as_slice(), out)?;
    write_name(true, "refused", out)?;
    append_refused(answer, out)?;
    write_name(true, "holder", out)?;
    write_number_or_null(holder(answer), out)?;
    out.push(b'}')?;
    Ok(())
}

// What follows appends values.

// Appends the name of a session, where there is one.
fn append_name(session: Option<SessionName>, out: &mut Vec<u8>) -> Result<(), AllocError>
    ensures { OnOk result (out.new.items ≡ out.old.items ++ json_text (string_or_null session)) }
{
    match session {
        Some(name) => write_string(name.as_bytes(), out),
        None => write_null(out),
    }
}

// The number of a transaction, where there is one.
fn number_of(txn: Option<TxnNumber>) -> Option<u64>
    ensures { result ≡ option_map (λ t. t.0) txn }
{
    match txn {
        Some(TxnNumber(number)) => Some(number as u64),
        None => None,
    }
}

// Appends the refusal of an answer, where it is one.
fn append_refused(answer: &Answer, out: &mut Vec<u8>) -> Result<(), AllocError>
    ensures { OnOk result (out.new.items ≡ out.old.items ++ json_text (refused_value (answer_of answer.now))) }
{
    match answer {
        Answer::Refused(refusal) => write_refusal(*refusal, out),
        _ => write_null(out),
    }
}

// The transaction in the way, where the answer names one.
fn holder(answer: &Answer) -> Option<u64>
    ensures { result ≡ holder (answer_of answer.now) }
{
    match answer {
        Answer::Refused(Refusal::Busy(TxnNumber(number))) => Some(*number as u64),
        _ => None,
    }
}
