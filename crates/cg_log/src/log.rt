//! The log of a session while a transaction of it is open, with room reserved for calls to come.
ghost use Rattle.std.specs.Prelude.{◌≡◌, ◌+◌, ◌≤◌, ◌↔◌, [], cond, false, true, IsTrue, OnOk, length, map, vec_len};
ghost use Rattle.std.specs.Vec.{vec_capacity};
ghost use Rattle.cg_history.specs.Meaning.{answer_of, request_of};
ghost use Rattle.cg_log.specs.Call.{logged};
ghost use Rattle.cg_log.specs.CallOf.{call_of};
ghost use Rattle.cg_log.specs.Standing.{goes_back, is_refused, standing};
ghost use Rattle.cg_model.specs.History as history;

use crate::call::Call;
use cg_history::{Answer, Request};
use cg_name::{Refusal, TxnNumber};
use std::alloc::AllocError;
use std::marker::Model;

/// Calls, the oldest first, and for how many more room is reserved: the one that ends the transaction, and one that goes back for
/// each command and each savepoint that stands by the calls.
pub struct Log {
    calls: Vec<Call>,
    reserved: usize,
}

impl Model for Log {
    ghost use Rattle.std.specs.Prelude.{◌+◌, ◌≤◌, length, map, vec_len};
    ghost use Rattle.std.specs.Vec.{vec_capacity};
    ghost use Rattle.cg_log.specs.CallOf.{call_of};
    ghost use Rattle.cg_log.specs.LogState.{LogState};
    ghost use Rattle.cg_log.specs.Standing.{standing};

    ghost Value = { LogState };

    ghost view = { λ l. record { calls = l.calls.items; reserved = l.reserved; capacity = vec_capacity l.calls } };

    // Room for what is reserved: for the end of the transaction, and for going back over each item that stands.
    ghost invariant = { λ l. (vec_len l.calls + l.reserved ≤ vec_capacity l.calls) × (1 + length (standing (map call_of l.calls.items)) ≤ l.reserved) };
}

impl Log {
    /// These calls and a Begin, where they have room for it and for the end of what it began.
    pub fn open(mut calls: Vec<Call>, number: TxnNumber) -> Log
        requires { vec_len calls + 2 ≤ vec_capacity calls }
        ensures { map call_of result.calls ≡ logged (map call_of calls.items) history.Begin (history.Begun number.0) }
    {
        calls.push_reserved(Call {
            request: Request::Begin,
            answer: Answer::Begun(number),
        });
        Log { calls, reserved: 1 }
    }

    /// Makes room for one call more, and behind it for its going back. An error, where there is no memory for it, leaves the calls
    /// as they were.
    pub fn reserve(&mut self) -> Result<(), AllocError>
        ensures calls { self.new.calls ≡ self.old.calls }
        ensures room { OnOk result (length self.new.calls + self.new.reserved + 2 ≤ self.new.capacity) }
    {
        let more = self.reserved + 2;
        self.calls.reserve(more)
    }

    /// Adds a call where it is to be recorded, and reserves room for its going back where it was accepted.
    pub fn note(&mut self, request: Request, answer: Answer)
        requires { length self.old.calls + self.old.reserved + 2 ≤ self.old.capacity }
        ensures { map call_of self.new.calls ≡ logged (map call_of self.old.calls) (request_of request) (answer_of answer) }
    {
        if !is_recorded(&request, &answer) {
            return;
        }
        self.reserved += places_back(&answer);
        self.calls.push_reserved(Call { request, answer });
    }

    /// Whether room is reserved for more than the end. Else nothing stands that could be gone back over.
    pub fn has_way_back(&self) -> bool
        ensures room { IsTrue result ↔ (2 ≤ self.now.reserved) }
        ensures nothing { result ≡ false → standing (map call_of self.now.calls) ≡ [] }
    {
        self.reserved >= 2
    }

    /// Adds a call that goes back in room reserved for it, where it is to be recorded.
    pub fn note_back(&mut self, request: Request, answer: Answer)
        requires room { 2 ≤ self.old.reserved }
        requires back { goes_back (request_of request) ≡ true }
        ensures { map call_of self.new.calls ≡ logged (map call_of self.old.calls) (request_of request) (answer_of answer) }
    {
        if is_recorded(&request, &answer) {
            self.reserved -= 1;
            self.calls.push_reserved(Call { request, answer });
        }
    }

    /// The calls with the one that ends the transaction, in room reserved for it, where it is to be recorded.
    pub fn close(self, request: Request, answer: Answer) -> Vec<Call>
        ensures { map call_of result.items ≡ logged (map call_of self.calls) (request_of request) (answer_of answer) }
    {
        let Log {
            mut calls,
            reserved: _,
        } = self;
        if is_recorded(&request, &answer) {
            calls.push_reserved(Call { request, answer });
        }
        calls
    }
}

// How many places going back may need for a call with this answer.
fn places_back(answer: &Answer) -> usize
    ensures { result ≡ cond (is_refused (answer_of answer.now)) 0 1 }
{
    match answer {
        Answer::Refused(_) => 0,
        _ => 1,
    }
}

// Whether the answer to the request is one to be recorded.
fn is_recorded(request: &Request, answer: &Answer) -> bool
    ensures { result ≡ history.is_recorded (request_of request.now) (answer_of answer.now) }
{
    match (request, answer) {
        (Request::Do(_), Answer::Refused(refusal)) => is_command_refusal(*refusal),
        (_, Answer::Refused(_)) => false,
        _ => true,
    }
}

// Whether a command meets this refusal in its transaction.
fn is_command_refusal(refusal: Refusal) -> bool
    ensures { result ≡ history.is_command_refusal refusal }
{
    matches!(
        refusal,
        Refusal::Busy(_)
            | Refusal::NoGroup
            | Refusal::Exists
            | Refusal::IsRoot
            | Refusal::HasChildren
            | Refusal::HasProcesses
            | Refusal::NoProcess
            | Refusal::Controlled
            | Refusal::Unavailable(_)
            | Refusal::InUse(_)
            | Refusal::NoFile
            | Refusal::TooMany
            | Refusal::TooDeep
    )
}
