//! The lines of answers.
ghost use Rattle.std.specs.Prelude.{◌≡◌, ◌++◌, ◌∷◌, IfErr, OnOk, OnErr, length, take};
ghost use Rattle.std.specs.Fmt.{decimal};
ghost use Rattle.cg_name.specs.Refusal.{argument_of, refusal_text};
ghost use Rattle.cg_history.specs.Meaning.{answer_of};
ghost use Rattle.cg_script.specs.Answer.{answer_text};

use cg_history::Answer;
use cg_name::{Refusal, TxnNumber, or_truncate};
use cg_text::write_quoted;
use itoa::Buffer;
use std::alloc::AllocError;

/// Appends the answer's line, without a newline. An error, where there is no memory, leaves the bytes as they were.
pub fn write_answer(answer: &Answer, out: &mut Vec<u8>) -> Result<(), AllocError>
    ensures ok { OnOk result (out.new.items ≡ out.old.items ++ answer_text (answer_of answer.now)) }
    ensures err { OnErr result (out.new.items ≡ out.old.items) }
{
    let start = out.len();
    let written = append_answer(answer, out);
    or_truncate(written, start, out)
}

// What follows appends to `out`, and an error leaves what stood there at the front.

// The line of an answer.
pub(crate) fn append_answer(answer: &Answer, out: &mut Vec<u8>) -> Result<(), AllocError>
    ensures ok { OnOk result (out.new.items ≡ out.old.items ++ answer_text (answer_of answer.now)) }
    ensures kept { OnErr result (take (length out.old.items) out.new.items ≡ out.old.items) }
{
    match answer {
        Answer::Begun(TxnNumber(number)) => append_numbered("begun ", *number, out),
        Answer::Done => append_word("done", out),
        Answer::Text(text) => {
            append_word("text ", out)?;
            write_quoted(text.as_slice(), out)
        }
        Answer::Saved => append_word("saved", out),
        Answer::Back(count) => append_numbered("back ", *count, out),
        Answer::Committed(number) => append_numbered("committed ", *number, out),
        Answer::Aborted(TxnNumber(number)) => append_numbered("aborted ", *number, out),
        Answer::Refused(refusal) => append_refusal(*refusal, out),
    }
}

// A word.
fn append_word(word: &str, out: &mut Vec<u8>) -> Result<(), AllocError>
    ensures ok { OnOk result (out.new.items ≡ out.old.items ++ word.now) }
    ensures err { OnErr result (out.new.items ≡ out.old.items) }
{
    out.extend_from_slice(word.as_bytes())?;
    Ok(())
}

// A word with a space before it.
fn append_behind(word: &str, out: &mut Vec<u8>) -> Result<(), AllocError>
    ensures ok { OnOk result (out.new.items ≡ out.old.items ++ 32 ∷ word.now) }
    ensures kept { OnErr result (take (length out.old.items) out.new.items ≡ out.old.items) }
{
    out.push(b' ')?;
    append_word(word, out)
}

// A word and a number.
fn append_numbered(word: &str, number: u32, out: &mut Vec<u8>) -> Result<(), AllocError>
    ensures ok { OnOk result (out.new.items ≡ out.old.items ++ (word.now ++ decimal number)) }
    ensures kept { OnErr result (take (length out.old.items) out.new.items ≡ out.old.items) }
{
    append_word(word, out)?;
    out.extend_from_slice(Buffer::new().format(number).as_bytes())?;
    Ok(())
}

// The printed form of a refusal.
fn append_refusal(refusal: Refusal, out: &mut Vec<u8>) -> Result<(), AllocError>
    ensures ok { OnOk result (out.new.items ≡ out.old.items ++ refusal_text refusal) }
    ensures kept { OnErr result (take (length out.old.items) out.new.items ≡ out.old.items) }
{
    append_word(refusal.printed(), out)?;
    append_argument(refusal, out)
}

// The argument of a refusal, with the space before it; most have none.
fn append_argument(refusal: Refusal, out: &mut Vec<u8>) -> Result<(), AllocError>
    ensures ok { OnOk result (out.new.items ≡ out.old.items ++ argument_of refusal) }
    ensures kept { OnErr result (take (length out.old.items) out.new.items ≡ out.old.items) }
{
    match refusal {
        Refusal::Busy(TxnNumber(txn)) => append_numbered(" ", txn, out),
        Refusal::Unavailable(controller) => append_behind(controller.word(), out),
        Refusal::InUse(controller) => append_behind(controller.word(), out),
        _ => Ok(()),
    }
}
