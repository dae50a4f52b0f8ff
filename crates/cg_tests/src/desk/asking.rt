//! Transactions whose requests are words, and the lines of what is answered.
use cg_command_text::read_command;
use cg_desk::{Answer, Call, Desk, Refusal, SaveName, Session, Transaction};
use cg_script::write_answer;
use std::alloc::{AllocError, Global};
use std::sync::Wait;

// Asks for a savepoint with this name.
fn save(
    rt: &impl Wait,
    alloc: Global,
    transaction: &mut Transaction,
    name: &str,
) -> Result<Answer, Refusal> {
    Ok(transaction.save(rt, alloc, SaveName::read(name)?))
}

// Asks to go back to the savepoint with this name.
fn back(rt: &impl Wait, transaction: &mut Transaction, name: &str) -> Result<Answer, Refusal> {
    Ok(transaction.back(rt, SaveName::read(name)?))
}

// Asks for the command that these words are.
fn run(
    rt: &impl Wait,
    alloc: Global,
    transaction: &mut Transaction,
    words: &[&str],
) -> Result<Answer, Refusal> {
    Ok(transaction.run(rt, alloc, read_command(alloc, words)?))
}

/// Asks for what the words say, which leaves the transaction open.
pub(crate) fn ask(
    rt: &impl Wait,
    alloc: Global,
    transaction: &mut Transaction,
    words: &[&str],
) -> Result<Answer, Refusal> {
    match words {
        ["save", name] => save(rt, alloc, transaction, name),
        ["back", name] => back(rt, transaction, name),
        ["undo"] => Ok(transaction.undo(rt)),
        _ => run(rt, alloc, transaction, words),
    }
}

/// Appends the line of an answer.
pub(crate) fn write_reply(answer: &Answer, out: &mut Vec<u8>) -> Result<(), AllocError> {
    write_answer(answer, out)?;
    out.push(b'\n')?;
    Ok(())
}

/// Asks for what each row of words says, and appends the lines of the answers.
pub(crate) fn ask_all(
    rt: &impl Wait,
    alloc: Global,
    transaction: &mut Transaction,
    rows: &[&[&str]],
    out: &mut Vec<u8>,
) -> Result<(), Refusal> {
    for words in rows {
        let answer = ask(rt, alloc, transaction, words)?;
        write_reply(&answer, out)?;
    }
    Ok(())
}

/// Begins a transaction, asks in it for what each row of words says, and commits; appends the lines of the answers from the
/// second on.
pub(crate) fn commit_all(
    rt: &impl Wait,
    alloc: Global,
    desk: &Desk,
    session: &mut Session,
    rows: &[&[&str]],
    out: &mut Vec<u8>,
) -> Result<(), Refusal> {
    let mut transaction = session.begin(rt, alloc, desk)?;
    let asked = ask_all(rt, alloc, &mut transaction, rows, out);
    let answer = transaction.commit(rt);
    write_reply(&answer, out)?;
    asked
}

/// Appends the lines of the answers in a log.
pub(crate) fn write_log(log: &[Call], out: &mut Vec<u8>) -> Result<(), AllocError> {
    for call in log {
        write_reply(&call.answer, out)?;
    }
    Ok(())
}
