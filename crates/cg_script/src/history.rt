//! The text of a history.
ghost use Rattle.std.specs.Prelude.{◌≡◌, ◌<◌, ◌^◌, ◌++◌, length, OnErr, OnOk, take};
ghost use Rattle.std.specs.List.{AllByRecursion};
ghost use Rattle.cg_history.specs.Meaning.{answer_of, history_of, record_of, request_of};
ghost use Rattle.cg_script.specs.HistoryText.{HistoriesAreRead, IsAsked, comment_line, history_text, record_text, session_name};
ghost use Rattle.cg_script.specs.Request.{CanBeAsked, newline, request_line};

use crate::answer::append_answer;
use crate::request::{append_request, requests_can_be_asked_for};
use cg_history::{Answer, Record, Request, SessionId};
use cg_name::or_truncate;
use itoa::Buffer;
use std::alloc::AllocError;

/// Appends the text of a history, whose records come the oldest first: of each the line of its request, by a session whose
/// name is an `s` and its number, and then its answer as a comment. Each of these can ask so. An error, where there is no memory,
/// leaves `out` as it was.
pub fn write_history(records: &[Record], out: &mut Vec<u8>) -> Result<(), AllocError>
    ensures ok { OnOk result (out.new.items ≡ out.old.items ++ history_text (history_of records.now)) }
    ensures asked { OnOk result (AllByRecursion IsAsked (history_of records.now)) }
    ensures err { OnErr result (out.new.items ≡ out.old.items) }
{
    let start = out.len();
    let written = append_history(records, out);
    or_truncate(written, start, out)
}

/// The text of a history is a schedule that asks for what was asked for.
pub fn histories_are_read()
    ensures { HistoriesAreRead }
{}

// What follows appends to `out`, and an error leaves what stood there at the front.

// The lines of all records.
fn append_history(records: &[Record], out: &mut Vec<u8>) -> Result<(), AllocError>
    ensures ok { OnOk result (out.new.items ≡ out.old.items ++ history_text (history_of records.now)) }
    ensures asked { OnOk result (AllByRecursion IsAsked (history_of records.now)) }
    ensures kept { OnErr result (take (length out.old.items) out.new.items ≡ out.old.items) }
{
    for entry in records {
        append_record(entry, out)?;
    }
    Ok(())
}

// The two lines of a record.
fn append_record(entry: &Record, out: &mut Vec<u8>) -> Result<(), AllocError>
    ensures ok { OnOk result (out.new.items ≡ out.old.items ++ record_text (record_of entry.now)) }
    ensures asked { OnOk result (IsAsked (record_of entry.now)) }
    ensures kept { OnErr result (take (length out.old.items) out.new.items ≡ out.old.items) }
{
    append_call(entry.session, &entry.request, out)?;
    append_comment(&entry.answer, out)
}

// The line of a request, with its newline.
fn append_call(session: SessionId, request: &Request, out: &mut Vec<u8>) -> Result<(), AllocError>
    ensures ok { OnOk result (out.new.items ≡ out.old.items ++ (request_line (session_name session.0) (request_of request.now) ++ newline)) }
    ensures number { session.0 < 2 ^ 32 }
    ensures asked { CanBeAsked (request_of request.now) }
    ensures kept { OnErr result (take (length out.old.items) out.new.items ≡ out.old.items) }
{
    requests_can_be_asked_for(request);
    let mut buffer = Buffer::new();
    out.push(b's')?;
    out.extend_from_slice(buffer.format(session.0).as_bytes())?;
    out.push(b' ')?;
    append_request(request, out)?;
    out.push(b'\n')?;
    Ok(())
}

// The answer as a comment, with its newline.
fn append_comment(answer: &Answer, out: &mut Vec<u8>) -> Result<(), AllocError>
    ensures ok { OnOk result (out.new.items ≡ out.old.items ++ (comment_line (answer_of answer.now) ++ newline)) }
    ensures kept { OnErr result (take (length out.old.items) out.new.items ≡ out.old.items) }
{
    out.extend_from_slice(b"# ")?;
    append_answer(answer, out)?;
    out.push(b'\n')?;
    Ok(())
}
