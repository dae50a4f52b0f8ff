//! Calls of sessions.
ghost use Rattle.std.specs.Prelude.{◌≡◌, ◌↔◌, IsTrue};
ghost use Rattle.cg_history.specs.Meaning.{record_of};
ghost use Rattle.cg_log.specs.Call.{call_in};
ghost use Rattle.cg_log.specs.CallOf.{call_of};

use cg_history::{Answer, Record, Request};

/// One request of a session, and its answer.
pub struct Call {
    /// What was asked for.
    pub request: Request,
    /// What was answered.
    pub answer: Answer,
}

// By hand, so that whoever drops one calls this, and doesn't drop each thing in it: that makes proofs shorter.
impl Drop for Call {
    fn drop(self) {
        let Call {
            request: _,
            answer: _,
        } = self;
    }
}

impl Call {
    // Whether this call is recorded there.
    pub(crate) fn is_in(&self, entry: &Record) -> bool
        ensures { IsTrue result ↔ (call_of self.now ≡ call_in (record_of entry.now)) }
    {
        self.request == entry.request && self.answer == entry.answer
    }
}
