//! Going back in an open transaction: by one command, and to a savepoint.
ghost use Rattle.std.specs.Prelude.{◌≡◌, false};
ghost use Rattle.cg_core.specs.Answers.{is_memory};
ghost use Rattle.cg_core.specs.State.{after, reply};
ghost use Rattle.cg_history.specs.Meaning.{answer_of};
ghost use Rattle.cg_model.specs.History as model;

use crate::machine::Core;
use cg_history::{Answer, Record, Request, SessionId};
use cg_name::{Refusal, SaveName};

impl Core {
    // Takes the newest command off, where no savepoint stands above it.
    pub(crate) fn undo(&mut self, session: SessionId) -> Answer
        ensures infallible { is_memory result ≡ false }
        ensures answer { answer_of result ≡ reply self.old session.0 model.Undo }
        ensures state { self.new ≡ after self.old session.0 model.Undo }
    {
        let Some(txn) = self.open.get_mut(session) else {
            return Answer::Refused(Refusal::NoTransaction);
        };
        let number = txn.number();
        if let Err(refusal) = cg_txn::undo(&mut self.tree, &mut self.locks, txn) {
            return Answer::Refused(refusal);
        }
        self.history.push(Record {
            session,
            txn: number,
            request: Request::Undo,
            answer: Answer::Done,
        });
        Answer::Done
    }

    // Takes all that came after the savepoint with the name off, and the savepoint.
    pub(crate) fn back(&mut self, session: SessionId, name: SaveName) -> Answer
        ensures infallible { is_memory result ≡ false }
        ensures answer { answer_of result ≡ reply self.old session.0 (model.Back name) }
        ensures state { self.new ≡ after self.old session.0 (model.Back name) }
    {
        let Some(txn) = self.open.get_mut(session) else {
            return Answer::Refused(Refusal::NoTransaction);
        };
        let number = txn.number();
        let before = txn.len();
        match cg_txn::back(&mut self.tree, &mut self.locks, txn, name) {
            Ok(count) => {
                let count = count as u32;
                let left = txn.len();
                self.history.push(Record {
                    session,
                    txn: number,
                    request: Request::Back(name),
                    answer: Answer::Back(count),
                });
                self.history.release(before - left - 1);
                Answer::Back(count)
            }
            Err(refusal) => Answer::Refused(refusal),
        }
    }
}
