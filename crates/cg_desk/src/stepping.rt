//! A step in a transaction that has to be open.
ghost use Rattle.std.specs.Prelude.{◌≡◌, ◌≢◌, ◌↔◌, false, IsTrue};
ghost use Rattle.cg_core.specs.Answers.{is_memory, takes_memory};
ghost use Rattle.cg_desk.specs.Replies.{MayAnswer};
ghost use Rattle.cg_desk.specs.Step.{IsOpenIn, IsStep};
ghost use Rattle.cg_history.specs.Meaning.{answer_of, request_of};
ghost use Rattle.cg_history.specs.declared.record.Answer.TheVariants as answers;
ghost use Rattle.cg_name.specs.declared.refusal.Refusal.TheVariants as refusals;

use cg_core::{Answer, Core, Request, SessionId};
use cg_name::{Refusal, TxnNumber};
use std::alloc::Global;

/// Answers a request of a session in its open transaction with this number. `Refused(Lost)` comes exactly where that
/// transaction isn't open in that session, and leaves all as it was; else it is `Core::step`.
pub fn step_for(
    alloc: Global,
    core: &mut Core,
    session: SessionId,
    number: TxnNumber,
    request: Request,
) -> Answer
    ensures lost { ¬ IsOpenIn core.old session.0 number.0 → result ≡ answers.Refused refusals.Lost }
    ensures unchanged { ¬ IsOpenIn core.old session.0 number.0 → core.new ≡ core.old }
    ensures open { IsOpenIn core.old session.0 number.0 → result ≢ answers.Refused refusals.Lost }
    ensures step { IsOpenIn core.old session.0 number.0 → IsStep core.old session.0 request result core.new }
    ensures answers { MayAnswer number.0 (request_of request) (answer_of result) }
{
    step_for_pair(alloc, core, session, number, request).0
}

/// As `step_for`, with the answer twice: both are made before the request is recorded, so that the second, as for a log, takes
/// no memory afterwards.
pub fn step_for_pair(
    alloc: Global,
    core: &mut Core,
    session: SessionId,
    number: TxnNumber,
    request: Request,
) -> (Answer, Answer)
    ensures lost { ¬ IsOpenIn core.old session.0 number.0 → result.0 ≡ answers.Refused refusals.Lost }
    ensures unchanged { ¬ IsOpenIn core.old session.0 number.0 → core.new ≡ core.old }
    ensures open { IsOpenIn core.old session.0 number.0 → result.0 ≢ answers.Refused refusals.Lost }
    ensures step { IsOpenIn core.old session.0 number.0 → IsStep core.old session.0 request result.0 core.new }
    ensures answers { MayAnswer number.0 (request_of request) (answer_of result.0) }
    ensures copy { answer_of result.1 ≡ answer_of result.0 }
{
    if !is_open_in(core, session, number) {
        return lost();
    }
    core.step_pair(alloc, session, request)
}

/// As `step_for_pair`, of `Back`, `Undo`, `Commit` or `Abort`. These take no memory, and so it takes no allocator.
pub fn step_for_without_memory(
    core: &mut Core,
    session: SessionId,
    number: TxnNumber,
    request: Request,
) -> (Answer, Answer)
    requires { takes_memory request ≡ false }
    ensures lost { ¬ IsOpenIn core.old session.0 number.0 → result.0 ≡ answers.Refused refusals.Lost }
    ensures unchanged { ¬ IsOpenIn core.old session.0 number.0 → core.new ≡ core.old }
    ensures open { IsOpenIn core.old session.0 number.0 → result.0 ≢ answers.Refused refusals.Lost }
    ensures step { IsOpenIn core.old session.0 number.0 → IsStep core.old session.0 request result.0 core.new }
    ensures answers { MayAnswer number.0 (request_of request) (answer_of result.0) }
    ensures infallible { is_memory result.0 ≡ false }
    ensures copy { answer_of result.1 ≡ answer_of result.0 }
{
    if !is_open_in(core, session, number) {
        return lost();
    }
    core.step_without_memory(session, request)
}

// That there is no such transaction, twice.
fn lost() -> (Answer, Answer)
    ensures { result ≡ (answers.Refused refusals.Lost, answers.Refused refusals.Lost) }
{
    (
        Answer::Refused(Refusal::Lost),
        Answer::Refused(Refusal::Lost),
    )
}

// Whether the transaction is open in the session.
fn is_open_in(core: &Core, session: SessionId, number: TxnNumber) -> bool
    ensures { IsTrue result ↔ IsOpenIn core.now session.0 number.0 }
{
    match core.txn_of(session) {
        Some(open) => open == number,
        None => false,
    }
}
