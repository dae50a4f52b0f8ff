//! Workers: sessions, and what was run on them.
use crate::end::ScriptEnd;
use crate::fault::RunFault;
use cg_desk::Session;

/// How a script ended.
#[derive(Clone, Copy)]
pub(crate) struct Finished {
    // The script's place, from 0.
    pub(crate) place: usize,
    pub(crate) end: ScriptEnd,
}

/// A session, and what was run on it.
#[derive(Drop)]
pub(crate) struct Worker {
    // Its place among the workers, from 0.
    pub(crate) seat: usize,
    pub(crate) session: Session,
    // The scripts that it ran, in their order.
    pub(crate) finished: Vec<Finished>,
    // Why it stopped before there was nothing left to run.
    pub(crate) fault: Option<RunFault>,
}
