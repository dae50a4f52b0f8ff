//! How far a run of scripts has come, as a terminal shows it, whether all were committed, and which failed or gave up.
use cg_batch::{Desk, Gate, ScriptEnd};
use cg_name::Refusal;
use std::alloc::Global;
use std::sync::{Mutex, Wait};

/// Where and why a script failed, or gave up.
#[derive(Clone, Copy)]
pub struct Failure {
    /// Which script, from 1.
    pub script: u32,
    /// Which of its requests, from 1; 0 is its Begin, and the number behind the last what ends it.
    pub request: u32,
    /// Why it was refused.
    pub refusal: Refusal,
}

/// What was told of the scripts so far.
#[derive(Drop)]
struct Told {
    ended: usize,
    begun_anew: usize,
    committed: usize,
    failures: Vec<Failure>,
}

/// Keeps what is told of scripts that have ended, and shows on standard error, where it is asked to, how many these are out of how many, and
/// how many of them were begun anew, on one line that is rewritten.
#[derive(Drop)]
pub struct Progress<'a, R> {
    rt: &'a R,
    is_shown: bool,
    scripts: usize,
    told: Mutex<Told>,
}

impl<'a, R: Wait + Eprint> Progress<'a, R> {
    /// No script has ended yet, of so many.
    pub fn new(rt: &'a R, alloc: Global, is_shown: bool, scripts: usize) -> Progress<'a, R> {
        Progress {
            rt,
            is_shown,
            scripts,
            told: Mutex::new(Told {
                ended: 0,
                begun_anew: 0,
                committed: 0,
                failures: Vec::new(alloc),
            }),
        }
    }

    /// Whether each of the scripts was told as committed.
    pub fn are_all_committed(&self) -> bool {
        self.told.lock(self.rt).committed == self.scripts
    }

    /// The scripts that failed or gave up, in their order; some may be missing where there was no memory.
    pub fn failures(&mut self) -> &[Failure] {
        let failures = &mut self.told.get_mut().failures;
        failures
            .as_mut_slice()
            .sort_unstable_by_key(|failure| failure.script);
        failures.as_slice()
    }

    // Rewrites the line, and ends it behind the last script. That it can't be shown stops nothing.
    fn show(&self, told: &Told) {
        let ended = told.ended;
        let begun_anew = told.begun_anew;
        let scripts = self.scripts;
        let _ = eprint!(self.rt;
            "\r{ended} of {scripts} scripts have ended, {begun_anew} begun anew"
        );
        if ended == scripts {
            let _ = eprint!(self.rt; "\n");
        }
    }
}

// Where and why the script failed or gave up, if it ended so.
fn failure_of(script: u32, end: ScriptEnd) -> Option<Failure> {
    let (request, refusal) = match end {
        ScriptEnd::Failed { line, refusal, .. } => (line, refusal),
        ScriptEnd::GaveUp { line, holder, .. } => (line, Refusal::Busy(holder)),
        ScriptEnd::Committed { .. } | ScriptEnd::Aborted { .. } => return None,
    };
    Some(Failure {
        script,
        request,
        refusal,
    })
}

impl<R: Wait + Eprint> Gate for Progress<'_, R> {
    fn before(&self, _script: u32, _call: u32) {}

    fn after(&self, _script: u32, _call: u32) {}

    fn ended(&self, _desk: &Desk, script: u32, end: ScriptEnd) {
        let mut told = self.told.lock(self.rt);
        told.ended = told.ended.saturating_add(1);
        if end.tries() > 1 {
            told.begun_anew = told.begun_anew.saturating_add(1);
        }
        if let ScriptEnd::Committed { .. } = end {
            told.committed = told.committed.saturating_add(1);
        }
        if let Some(failure) = failure_of(script, end) {
            let _ = told.failures.push(failure);
        }
        if self.is_shown {
            self.show(&told);
        }
    }
}
