//! One try of a script: one transaction.
ghost use Rattle.std.specs.Prelude.{◌≡◌, ◌+◌, ◌≤◌, ◌∷◌, [], ℕ, IfErr, IfNone, IfOk, IfSome, List, OnOk, length, map, vec_len};
ghost use Rattle.cg_desk.specs.Replies.{MayAnswer};
ghost use Rattle.cg_desk.specs.Transactions.{session_left, session_of, txn_number, IsSame};
ghost use Rattle.cg_history.specs.Meaning.{answer_of, request_of};
ghost use Rattle.cg_log.specs.Call.{after_call, Call};
ghost use Rattle.cg_model.specs.History as model;
ghost use Rattle.cg_script.specs.Script.{AreScriptRequests};
ghost use Rattle.cg_runner.specs.End.{tries_of};
ghost use Rattle.cg_runner.specs.EndOf.{AreAccepted, IsRefused, MayRefuse};
ghost use Rattle.cg_runner.specs.Trying.{ending, ending_call, Asked, CanEndBehind, EndsAt, Made, TriedLast};

use crate::end::ScriptEnd;
use crate::fault::RunFault;
use crate::gate::Gate;
use crate::passage::Passage;
use cg_desk::{Answer, Desk, Refusal, Request, Session, Transaction};
use cg_script::Script;
use std::alloc::Global;
use std::sync::Wait;

/// Which request was refused, from 1, and why.
#[derive(Drop)]
struct Stop {
    line: u32,
    refusal: Refusal,
}

// Runs the script in one transaction, which has ended then; how the script ends, whose last try this is, with this number. It may be
// begun anew where it gave up so. `Disagree`, where the transaction can't be aborted.
pub(crate) fn try_script<G: Gate>(
    rt: &impl Wait,
    alloc: Global,
    passage: &mut Passage<G>,
    desk: &Desk,
    session: &mut Session,
    script: &Script,
    tries: u32,
) -> Result<ScriptEnd, RunFault>
    ensures tries { IfOk result (λ end. tries_of end ≡ tries) }
    ensures last { IfOk result (TriedLast script.now session.old session.new) }
{
    passage.enter();
    let begun = session.begin(rt, alloc, desk);
    passage.leave();
    let mut transaction = match begun {
        Ok(transaction) => transaction,
        Err(refusal) => {
            return Ok(ScriptEnd::Failed {
                line: 0,
                refusal,
                tries,
            });
        }
    };
    passage.begun(rt, transaction.number());
    let asked = ask_all(
        rt,
        alloc,
        passage,
        &mut transaction,
        script.requests.as_slice(),
    );
    match asked {
        Ok(()) => Ok(finish(rt, passage, transaction, script, tries)),
        Err(stop) => match end(rt, passage, transaction, true) {
            Answer::Aborted(_) => Ok(refused(stop.line, stop.refusal, tries)),
            _ => Err(RunFault::Disagree),
        },
    }
}

// How a script ends that is refused so at a line of its last try.
fn refused(line: u32, refusal: Refusal, tries: u32) -> ScriptEnd
    ensures tries { tries_of result ≡ tries }
    ensures at { EndsAt line refusal result }
{
    match refusal {
        Refusal::Busy(holder) => ScriptEnd::GaveUp {
            line,
            holder,
            tries,
        },
        _ => ScriptEnd::Failed {
            line,
            refusal,
            tries,
        },
    }
}

// Asks for these, up to one that is refused.
fn ask_all<G: Gate>(
    rt: &impl Wait,
    alloc: Global,
    passage: &mut Passage<G>,
    transaction: &mut Transaction,
    requests: &[Request],
) -> Result<(), Stop>
    requires few { length requests.now ≤ 65536 }
    requires own { AreScriptRequests requests.now }
    ensures same { IsSame transaction.old transaction.new }
    ensures accepted { OnOk result ((calls : List Call) × AreAccepted (map request_of requests.now) calls × Made (session_of transaction.old) (session_of transaction.new) calls) }
    ensures refused { IfErr result (λ stop. (calls : List Call) × IsRefused (map request_of requests.now) stop.line stop.refusal calls × Made (session_of transaction.old) (session_of transaction.new) calls) }
{
    let mut line = 0;
    for request in requests {
        line += 1;
        if let Some(refusal) = ask(rt, alloc, passage, transaction, request) {
            return Err(Stop { line, refusal });
        }
    }
    Ok(())
}

// Asks for a copy of the request, since the script may be begun anew; why it is refused.
fn ask<G: Gate>(
    rt: &impl Wait,
    alloc: Global,
    passage: &mut Passage<G>,
    transaction: &mut Transaction,
    request: &Request,
) -> Option<Refusal>
    requires { AreScriptRequests (request.now ∷ []) }
    ensures same { IsSame transaction.old transaction.new }
    ensures accepted { IfNone result (Asked (session_of transaction.old) (session_of transaction.new) (request_of request.now)) }
    ensures may { IfSome result (MayRefuse (request_of request.now)) }
    ensures refused { IfSome result (λ e. session_of transaction.new ≡ after_call (session_of transaction.old) (request_of request.now) (model.Refused e)) }
{
    let Ok(copy) = request.copy(alloc) else {
        return Some(Refusal::Memory);
    };
    passage.enter();
    let answer = answer_to(rt, alloc, transaction, copy);
    passage.leave();
    match answer {
        Answer::Refused(refusal) => {
            passage.refused(refusal);
            Some(refusal)
        }
        _ => None,
    }
}

// The answer to the request in the transaction.
fn answer_to(
    rt: &impl Wait,
    alloc: Global,
    transaction: &mut Transaction,
    request: Request,
) -> Answer
    requires { AreScriptRequests (request ∷ []) }
    ensures same { IsSame transaction.old transaction.new }
    ensures answers { MayAnswer (txn_number transaction.old) (request_of request) (answer_of result) }
    ensures logged { session_of transaction.new ≡ after_call (session_of transaction.old) (request_of request) (answer_of result) }
{
    match request {
        Request::Do(command) => transaction.run(rt, alloc, command),
        Request::Save(name) => transaction.save(rt, alloc, name),
        Request::Back(name) => transaction.back(rt, name),
        Request::Undo => transaction.undo(rt),
        Request::Begin | Request::Commit | Request::Abort => unreachable!(),
    }
}

// Ends the transaction as the script says; how the script ends so.
fn finish<G: Gate>(
    rt: &impl Wait,
    passage: &mut Passage<G>,
    transaction: Transaction,
    script: &Script,
    tries: u32,
) -> ScriptEnd
    ensures can { CanEndBehind (vec_len script.now.requests) script.now.aborts tries result }
    ensures logged { Made (session_of transaction.entry) (session_left transaction.exit) (ending_call (txn_number transaction.entry) result) }
{
    let line = script.requests.len() as u32 + 1;
    match end(rt, passage, transaction, script.aborts) {
        Answer::Committed(number) => ScriptEnd::Committed { number, tries },
        Answer::Aborted(_) => ScriptEnd::Aborted { tries },
        Answer::Refused(refusal) => ScriptEnd::Failed {
            line,
            refusal,
            tries,
        },
        _ => unreachable!(),
    }
}

// Aborts, or commits.
fn end<G: Gate>(
    rt: &impl Wait,
    passage: &mut Passage<G>,
    transaction: Transaction,
    aborts: bool,
) -> Answer
    ensures answers { MayAnswer (txn_number transaction.entry) (ending aborts) (answer_of result) }
    ensures logged { session_left transaction.exit ≡ after_call (session_of transaction.entry) (ending aborts) (answer_of result) }
{
    passage.enter();
    let answer = if aborts {
        transaction.abort(rt)
    } else {
        transaction.commit(rt)
    };
    passage.ended(rt);
    passage.leave();
    answer
}
