//! A gate that publishes each commit.
use crate::board::Board;
use cg_desk::Desk;
use cg_runner::{Gate, ScriptEnd};
use cg_view::Told;
use crossbeam_channel::Sender;
use std::alloc::Global;
use std::sync::Wait;

/// A gate round another one, which has published what the desk has committed as a committed script ends, and the watches told.
#[derive(Drop)]
pub(crate) struct Publishing<'a, G, R> {
    pub(crate) rt: &'a R,
    pub(crate) alloc: Global,
    pub(crate) gate: &'a G,
    pub(crate) board: &'a Board,
    pub(crate) watches: Vec<Sender<Told>>,
}

impl<G: Gate, R: Wait> Gate for Publishing<'_, G, R> {
    fn before(&self, script: u32, call: u32) {
        self.gate.before(script, call);
    }

    fn after(&self, script: u32, call: u32) {
        self.gate.after(script, call);
    }

    fn ended(&self, desk: &Desk, script: u32, end: ScriptEnd) {
        self.gate.ended(desk, script, end);
        if let ScriptEnd::Committed { .. } = end {
            let watches = self.watches.as_slice();
            self.board.publish(self.rt, self.alloc, desk, watches);
        }
    }
}
