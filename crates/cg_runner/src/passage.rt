//! The way of one script's calls through the gate, and its turns among the workers.
use crate::gate::Gate;
use crate::turns::Turns;
use cg_desk::{Refusal, TxnNumber};
use std::sync::Wait;

/// The gate, as a script comes to it.
#[derive(Drop)]
pub(crate) struct Passage<'a, G> {
    gate: &'a G,
    script: u32,
    // How many calls were let through.
    calls: u32,
    turns: &'a Turns,
    // That of the worker which runs the script.
    seat: usize,
    // The transaction that was in the way when the script was refused as busy.
    way: Option<TxnNumber>,
}

impl<'a, G: Gate> Passage<'a, G> {
    // No call of this script came to the gate yet.
    pub(crate) fn new(gate: &'a G, script: u32, turns: &'a Turns, seat: usize) -> Passage<'a, G> {
        Passage {
            gate,
            script,
            calls: 0,
            turns,
            seat,
            way: None,
        }
    }

    // Before the script's next call.
    pub(crate) fn enter(&mut self) {
        // At most 1,000 tries with 65,538 calls each.
        self.calls = self.calls.saturating_add(1);
        self.gate.before(self.script, self.calls);
    }

    // When that call was answered.
    pub(crate) fn leave(&self) {
        self.gate.after(self.script, self.calls);
    }

    // When the script has begun a transaction.
    pub(crate) fn begun(&self, rt: &impl Wait, transaction: TxnNumber) {
        self.turns.begin(rt, self.seat, transaction);
    }

    // When its transaction has ended.
    pub(crate) fn ended(&self, rt: &impl Wait) {
        self.turns.end(rt, self.seat);
    }

    // When a request was refused.
    pub(crate) fn refused(&mut self, refusal: Refusal) {
        if let Refusal::Busy(transaction) = refusal {
            self.way = Some(transaction);
        }
    }

    // Before the script is begun: where a transaction was in its way, waits for that one's end.
    pub(crate) fn wait(&mut self, rt: &impl Wait) {
        if let Some(transaction) = self.way.take() {
            self.turns.wait_for_end(rt, transaction);
        }
    }
}
