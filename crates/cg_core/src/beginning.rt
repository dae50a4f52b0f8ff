//! A transaction begins.
ghost use Rattle.std.specs.Prelude.{◌≡◌, false};
ghost use Rattle.std.specs.Bool.{OnFalse, OnTrue};
ghost use Rattle.cg_core.specs.Answers.{is_memory};
ghost use Rattle.cg_core.specs.State.{after, has_record, reply};
ghost use Rattle.cg_history.specs.Meaning.{answer_of};
ghost use Rattle.cg_model.specs.History as model;

use crate::machine::Core;
use cg_history::{Answer, Record, Request, SessionId};
use cg_name::{Refusal, TxnNumber};
use cg_txn::{Room, Txn};
use std::alloc::Global;
use std::mem;

impl Core {
    // Begins a transaction of the session, which has none.
    pub(crate) fn begin(&mut self, alloc: Global, session: SessionId) -> Answer
        ensures answer { OnFalse (is_memory result) (answer_of result ≡ reply self.old session.0 model.Begin) }
        ensures state { OnFalse (is_memory result) (self.new ≡ after self.old session.0 model.Begin) }
        ensures memory { OnTrue (is_memory result) (self.new ≡ self.old) }
        ensures unrecorded { has_record self.old session.0 model.Begin ≡ false → is_memory result ≡ false }
    {
        if self.open.get(session).is_some() {
            return Answer::Refused(Refusal::AlreadyOpen);
        }
        if self.is_full() {
            return Answer::Refused(Refusal::Full);
        }
        let Ok(()) = self.history.reserve(2) else {
            return Answer::Refused(Refusal::Memory);
        };
        let number = TxnNumber(self.history.begun() + 1);
        let room = mem::replace(&mut self.spare, Room::new(alloc));
        let txn = Txn::within(alloc, number, room);
        let Ok(()) = self.open.insert(session, txn) else {
            self.history.release(2);
            return Answer::Refused(Refusal::Memory);
        };
        self.history.push(Record {
            session,
            txn: number,
            request: Request::Begin,
            answer: Answer::Begun(number),
        });
        Answer::Begun(number)
    }
}
