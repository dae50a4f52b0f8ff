//! What a caller does round each call of a script, and at its end.
use crate::end::ScriptEnd;
use cg_desk::Desk;

/// Called by the worker of a script round each call that it makes at its session or transaction: Begin, each request, and the
/// commit or the abort that ends a try; and once when the script has ended. Scripts count from 1, as they were handed over; a
/// script's calls count from 1, over all its tries. So a gate can hold a script's call until another's was answered. It must not
/// wait for a call that comes only behind the one that it holds.
pub trait Gate {
    /// Called before a call is made.
    fn before(&self, script: u32, call: u32);

    /// Called when it was answered.
    fn after(&self, script: u32, call: u32);

    /// Called when a script has ended, behind its last call, with the desk at which it was run, and how it ended. Does nothing where
    /// a gate has none.
    fn ended(&self, _desk: &Desk, _script: u32, _end: ScriptEnd) {}
}
