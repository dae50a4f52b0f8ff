//! A transaction ends: by an abort, or by a commit.
ghost use Rattle.std.specs.Prelude.{◌≡◌, false};
ghost use Rattle.cg_core.specs.Answers.{is_memory};
ghost use Rattle.cg_core.specs.Ending.{asked_by};
ghost use Rattle.cg_core.specs.State.{after, reply};
ghost use Rattle.cg_history.specs.Meaning.{answer_of};

use crate::machine::Core;
use cg_history::{Answer, Record, Request, SessionId};
use cg_name::Refusal;

// How a transaction ends.
#[derive(Drop)]
pub(crate) enum Ending {
    // All that stands of it is taken off.
    Abort,
    // All that stands of it is kept.
    Commit,
}

impl Core {
    // Ends the session's transaction.
    pub(crate) fn end(&mut self, session: SessionId, ending: Ending) -> Answer
        ensures infallible { is_memory result ≡ false }
        ensures answer { answer_of result ≡ reply self.old session.0 (asked_by ending) }
        ensures state { self.new ≡ after self.old session.0 (asked_by ending) }
    {
        let Some(txn) = self.open.remove(session) else {
            return Answer::Refused(Refusal::NoTransaction);
        };
        let number = txn.number();
        let items = txn.len();
        match ending {
            Ending::Abort => {
                self.spare = cg_txn::abort(&mut self.tree, &mut self.locks, txn);
                self.history.push(Record {
                    session,
                    txn: number,
                    request: Request::Abort,
                    answer: Answer::Aborted(number),
                });
                self.history.release(items);
                Answer::Aborted(number)
            }
            Ending::Commit => {
                let commit_number = self.history.committed() + 1;
                let entry = Record {
                    session,
                    txn: number,
                    request: Request::Commit,
                    answer: Answer::Committed(commit_number),
                };
                self.history.commit(entry, &txn);
                self.spare = cg_txn::commit(&mut self.tree, &mut self.locks, txn);
                Answer::Committed(commit_number)
            }
        }
    }
}
