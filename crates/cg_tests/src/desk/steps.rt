//! A step in a transaction that isn't open.
use crate::opening::{BARE, world};
use cg_desk::{Answer, Core, Refusal, Request, SessionId, TxnNumber, step_for};
use std::alloc::Global;

// What undo in a transaction is answered on a fresh machine.
fn undo(alloc: Global) -> Result<Answer, Refusal> {
    let mut core = Core::open(alloc, world(alloc, BARE)?, 8)?;
    let answer = step_for(alloc, &mut core, SessionId(1), TxnNumber(7), Request::Undo);
    drop(core);
    Ok(answer)
}

#[test]
fn a_step_in_a_transaction_that_is_not_open_is_lost(rt: HostRuntime) {
    let answer = undo(rt.alloc());
    assert!(rt; matches!(answer, Ok(Answer::Refused(Refusal::Lost))));
}
