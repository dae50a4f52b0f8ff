//! Sessions.
ghost use Rattle.std.specs.Prelude.{◌≡◌, ◌+◌, ◌≤◌, ◌⊎◌, IfErr, IfOk, map, vec_len};
ghost use Rattle.std.specs.Vec.{vec_capacity};
ghost use Rattle.cg_desk.specs.Transactions.{session_of, txn_number};
ghost use Rattle.cg_log.specs.Call.{after_call};
ghost use Rattle.cg_log.specs.CallOf.{call_of};
ghost use Rattle.cg_model.specs.History as model;
ghost use Rattle.cg_name.specs.declared.refusal.Refusal.TheVariants as refusals;

use crate::desk::Desk;
use crate::transaction::Transaction;
use cg_core::{Answer, Request, SessionId};
use cg_log::{Call, Log};
use cg_name::{Refusal, TxnNumber};
use std::alloc::Global;
use std::marker::Model;
use std::mem;
use std::sync::Wait;

/// A session of a desk: its number, and a log of its calls.
#[derive(Drop)]
pub struct Session {
    pub(crate) number: SessionId,
    // Empty while a transaction is open, which then holds it; nobody sees it so, since that borrows the session.
    pub(crate) log: Vec<Call>,
}

impl Model for Session {
    ghost use Rattle.std.specs.Prelude.{map};
    ghost use Rattle.cg_log.specs.Call.{SessionState};
    ghost use Rattle.cg_log.specs.CallCode.{session_code};
    ghost use Rattle.cg_log.specs.CallOf.{call_of};

    ghost Value = { SessionState };

    ghost coded = { session_code };

    ghost view = { λ s. record { number = s.number.0; log = map call_of s.log.items } };
}

impl Session {
    ghost use Rattle.std.specs.Borrow.{sem, RestsIfErr};
    ghost use Rattle.cg_desk.specs.contracts.session.Session.{the_row};

    /// Its number at the desk that handed it out, from 1.
    pub fn id(&self) -> SessionId
        ensures { result.0 ≡ self.now.number }
    {
        self.number
    }

    /// Its calls that were to be recorded, oldest first.
    pub fn log(&self) -> &[Call]
        ensures { map call_of result.now ≡ self.now.log }
    {
        self.log.as_slice()
    }

    /// Begins a transaction at the desk. `AlreadyOpen`, where the desk's machine has one open for this number, `Full` and
    /// `Memory` leave the session as it was.
    pub fn begin<'s>(
        &'s mut self,
        rt: &impl Wait,
        alloc: Global,
        desk: &'s Desk,
    ) -> Result<Transaction<'s>, Refusal>
        ensures* refused { sem 𝓛 (RestsIfErr the_row self.entry (λ t. t.session.ghost_name) result (λ s. s ≡ self.old)) }
        ensures borrows { IfOk result (λ t. t.session.ghost_name ≡ self.entry.ghost_name) }
        ensures begun { IfOk result (λ t. session_of t ≡ after_call self.old model.Begin (model.Begun (txn_number t))) }
        ensures refusals { IfErr result (λ e. (e ≡ refusals.AlreadyOpen) ⊎ (e ≡ refusals.Full) ⊎ (e ≡ refusals.Memory)) }
    {
        // For Begin, and for the end.
        if self.log.reserve(2).is_err() {
            return Err(Refusal::Memory);
        }
        let number = begin_at(rt, alloc, desk, self.number, &self.log)?;
        let calls = mem::replace(&mut self.log, Vec::new(alloc));
        let log = Log::open(calls, number);
        Ok(Transaction {
            session: self,
            desk,
            number,
            log,
        })
    }
}

// The transaction that the desk's machine begins for the session, whose log has room for the Begin and the end.
fn begin_at(
    rt: &impl Wait,
    alloc: Global,
    desk: &Desk,
    session: SessionId,
    log: &Vec<Call>,
) -> Result<TxnNumber, Refusal>
    requires { vec_len log.now + 2 ≤ vec_capacity log.now }
    ensures { IfErr result (λ e. (e ≡ refusals.AlreadyOpen) ⊎ (e ≡ refusals.Full) ⊎ (e ≡ refusals.Memory)) }
{
    prove!(log.len() + 2 <= log.capacity());
    let mut locked = desk.locked.lock(rt);
    match locked.core.step(alloc, session, Request::Begin) {
        Answer::Begun(number) => Ok(number),
        Answer::Refused(refusal) => Err(refusal),
        _ => unreachable!(),
    }
}
