//! Requests, answers and records.
ghost use Rattle.std.specs.Prelude.{◌≡◌, IfOk};

use crate::session::SessionId;
use cg_command::{BoxedText, Command};
use cg_name::{Refusal, SaveName, TxnNumber};
use std::alloc::{AllocError, Global};

/// What a session asks for.
#[derive(PartialEq, Eq, Drop)]
pub enum Request {
    /// Opens a transaction.
    Begin,
    /// Runs a command in the open transaction.
    Do(Command),
    /// Sets a savepoint with a name.
    Save(SaveName),
    /// Takes off all that came after the savepoint with the name, and the savepoint.
    Back(SaveName),
    /// Takes off the newest command, where nothing came after it.
    Undo,
    /// Keeps what the transaction changed.
    Commit,
    /// Takes off all that the transaction did.
    Abort,
}

impl Request {
    ghost use Rattle.cg_history.specs.Meaning.{request_of};

    /// An equal request; an error where there is no memory for it.
    pub fn copy(&self, alloc: Global) -> Result<Request, AllocError>
        ensures { IfOk result (λ r. r ≡ self.now) }
    {
        Ok(match self {
            Request::Begin => Request::Begin,
            Request::Do(command) => Request::Do(command.copy(alloc)?),
            Request::Save(name) => Request::Save(*name),
            Request::Back(name) => Request::Back(*name),
            Request::Undo => Request::Undo,
            Request::Commit => Request::Commit,
            Request::Abort => Request::Abort,
        })
    }
}

/// What a session is answered.
#[derive(PartialEq, Eq, Drop)]
pub enum Answer {
    /// To Begin: the transaction's number, from 1 in the order of the Begins.
    Begun(TxnNumber),
    /// To an accepted command that shows nothing, and to Undo.
    Done,
    /// To Show: the file's text.
    Text(BoxedText),
    /// To Save.
    Saved,
    /// To Back: how many commands were taken off.
    Back(u32),
    /// To Commit: the commit's number, from 1 in commit order.
    Committed(u32),
    /// To Abort: the transaction's number.
    Aborted(TxnNumber),
    /// Why the request was refused.
    Refused(Refusal),
}

impl Answer {
    ghost use Rattle.cg_history.specs.Meaning.{answer_of};

    /// An equal answer; an error where there is no memory for it.
    pub fn copy(&self, alloc: Global) -> Result<Answer, AllocError>
        ensures { IfOk result (λ a. answer_of a ≡ answer_of self.now) }
    {
        Ok(match self {
            Answer::Begun(number) => Answer::Begun(*number),
            Answer::Done => Answer::Done,
            Answer::Text(text) => Answer::Text(text.copy(alloc)?),
            Answer::Saved => Answer::Saved,
            Answer::Back(count) => Answer::Back(*count),
            Answer::Committed(number) => Answer::Committed(*number),
            Answer::Aborted(number) => Answer::Aborted(*number),
            Answer::Refused(refusal) => Answer::Refused(*refusal),
        })
    }
}

/// One request of a session in a transaction, and its answer.
pub struct Record {
    /// Whose request it was.
    pub session: SessionId,
    /// The transaction that it was made in; of a Begin the one that was begun.
    pub txn: TxnNumber,
    /// What was asked for.
    pub request: Request,
    /// What was answered.
    pub answer: Answer,
}

impl Record {
    // Its parts.
    #[inline(always)]
    pub(crate) fn into_parts(self) -> (SessionId, TxnNumber, Request, Answer)
        ensures session { result.0 ≡ self.session }
        ensures txn { result.1 ≡ self.txn }
        ensures request { result.2 ≡ self.request }
        ensures answer { result.3 ≡ self.answer }
    {
        let Record {
            session,
            txn,
            request,
            answer,
        } = self;
        (session, txn, request, answer)
    }
}

// A history has up to 1,048,576 of them, which are most of the memory that a long run takes.
const _: () = prove!(size_of::<Record>() == 64);

// By hand, so that whoever drops one calls this, and doesn't drop each thing in it: that makes proofs shorter.
impl Drop for Record {
    fn drop(self) {
        let Record {
            session: _,
            txn: _,
            request: _,
            answer: _,
        } = self;
    }
}
