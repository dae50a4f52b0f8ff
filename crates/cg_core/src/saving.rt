//! A savepoint is set.
ghost use Rattle.std.specs.Prelude.{◌≡◌, false};
ghost use Rattle.std.specs.Bool.{OnFalse, OnTrue};
ghost use Rattle.cg_core.specs.Answers.{is_memory};
ghost use Rattle.cg_core.specs.State.{after, has_record, reply};
ghost use Rattle.cg_history.specs.Meaning.{answer_of};
ghost use Rattle.cg_model.specs.History as model;

use crate::machine::Core;
use cg_history::{Answer, Record, Request, SessionId};
use cg_name::{Refusal, SaveName};

impl Core {
    // Sets a savepoint with the name in the session's transaction.
    pub(crate) fn save(&mut self, session: SessionId, name: SaveName) -> Answer
        ensures answer { OnFalse (is_memory result) (answer_of result ≡ reply self.old session.0 (model.Save name)) }
        ensures state { OnFalse (is_memory result) (self.new ≡ after self.old session.0 (model.Save name)) }
        ensures memory { OnTrue (is_memory result) (self.new ≡ self.old) }
        ensures unrecorded { has_record self.old session.0 (model.Save name) ≡ false → is_memory result ≡ false }
    {
        let full = self.is_full();
        let Some(txn) = self.open.get_mut(session) else {
            return Answer::Refused(Refusal::NoTransaction);
        };
        if txn.has_savepoint(name) {
            return Answer::Refused(Refusal::NameTaken);
        }
        if full {
            return Answer::Refused(Refusal::Full);
        }
        let Ok(()) = self.history.reserve(2) else {
            return Answer::Refused(Refusal::Memory);
        };
        let number = txn.number();
        let Ok(()) = txn.save(name) else {
            self.history.release(2);
            return Answer::Refused(Refusal::Memory);
        };
        self.history.push(Record {
            session,
            txn: number,
            request: Request::Save(name),
            answer: Answer::Saved,
        });
        Answer::Saved
    }
}
