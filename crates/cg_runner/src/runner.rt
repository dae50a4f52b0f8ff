//! Runs of scripts.
ghost use Rattle.std.specs.Prelude.{◌≡◌, ◌≤◌, ℕ, IfOk, length, map, vec_len};
ghost use Rattle.std.specs.List.{AllByRecursion, AllZip};
ghost use Rattle.cg_desk.specs.Audit.{IsAudited};
ghost use Rattle.cg_runner.specs.Closed.{HaveHappened, IsClosed};
ghost use Rattle.cg_runner.specs.End.{CanEnd};
ghost use Rattle.cg_runner.specs.Runs.{AreRun};
ghost use Rattle.cg_runner.specs.Workers.{IsNew};

use crate::end::ScriptEnd;
use crate::fault::RunFault;
use crate::gate::Gate;
use crate::gathering::gather;
use crate::worker::Worker;
use crate::workers::work_all;
use cg_desk::{Core, Desk, Refusal, Session, World};
use cg_script::Script;
use std::alloc::Global;
use std::sync::Wait;
use std::thread::Threads;

// The most slots that a history can have.
const LIMIT: u32 = 1_048_576;

/// How all scripts ended, and the machine behind them.
#[derive(Drop)]
pub struct RunReport {
    /// How each script ended, in their order.
    pub ends: Vec<ScriptEnd>,
    /// The machine, with the tree that they left and their history.
    pub core: Core,
}

/// Runs the scripts, at most 4,096, at a desk on this world, whose history has at most 1,048,576 slots, by 1 to 64 workers, each
/// with a session of its own, and in a thread of its own where one can be made. A script that meets `Busy` is aborted and begun
/// anew, from 1 to 1,000 times in all; any other refusal ends it. `Memory` comes where memory ran out outside the calls of a
/// script, and `Disagree` where a script's end is missing or told twice, or where the desk and its sessions don't agree.
pub fn run_scripts<G: Gate + Sync, R: Threads + Wait + Sync>(
    rt: &R,
    alloc: Global,
    gate: &G,
    world: World,
    scripts: Vec<Script>,
    workers: u32,
    tries: u32,
) -> Result<RunReport, RunFault>
    requires few { vec_len scripts ≤ 4096 }
    requires a_worker { 1 ≤ workers }
    requires few_workers { workers ≤ 64 }
    requires a_try { 1 ≤ tries }
    requires few_tries { tries ≤ 1000 }
    ensures ends { IfOk result (λ r. AllZip (CanEnd tries) scripts.items r.ends.items) }
    ensures happened { IfOk result (λ r. HaveHappened workers tries scripts.items r.ends.items r.core.history) }
    ensures closed { IfOk result (λ r. IsClosed workers r.core.history) }
{
    let desk = Desk::open(alloc, world, LIMIT)?;
    run_at(rt, alloc, gate, desk, scripts.as_slice(), workers, tries)
}

// The same at this desk.
fn run_at<G: Gate + Sync, R: Threads + Wait + Sync>(
    rt: &R,
    alloc: Global,
    gate: &G,
    desk: Desk,
    scripts: &[Script],
    workers: u32,
    tries: u32,
) -> Result<RunReport, RunFault>
    requires few { length scripts.now ≤ 4096 }
    requires a_try { 1 ≤ tries }
    ensures ends { IfOk result (λ r. AllZip (CanEnd tries) scripts.now r.ends.items) }
    ensures happened { IfOk result (λ r. HaveHappened workers tries scripts.now r.ends.items r.core.history) }
{
    let mut hired = hire(rt, alloc, &desk, workers)?;
    let ends = run_all(rt, alloc, gate, &desk, hired.as_mut_slice(), scripts, tries)?;
    let sessions = sessions_of(alloc, hired)?;
    let core = close(alloc, desk, sessions)?;
    Ok(RunReport { ends, core })
}

// So many workers, each with a session of the desk.
fn hire(rt: &impl Wait, alloc: Global, desk: &Desk, workers: u32) -> Result<Vec<Worker>, RunFault>
    ensures count { IfOk result (λ hired. vec_len hired ≡ workers) }
    ensures new { IfOk result (λ hired. AllByRecursion IsNew hired.items) }
{
    let mut hired = Vec::with_capacity(alloc, workers as usize)?;
    for seat in 0..workers {
        // A desk that was just opened has as many.
        let Ok(session) = desk.session(rt, alloc) else {
            return Err(RunFault::Disagree);
        };
        hired.push(Worker {
            seat: seat as usize,
            session,
            finished: Vec::new(alloc),
            fault: None,
        })?;
    }
    Ok(hired)
}

// The ends of the scripts, run by these workers.
fn run_all<G: Gate + Sync, R: Threads + Wait + Sync>(
    rt: &R,
    alloc: Global,
    gate: &G,
    desk: &Desk,
    workers: &mut [Worker],
    scripts: &[Script],
    tries: u32,
) -> Result<Vec<ScriptEnd>, RunFault>
    requires few { length scripts.now ≤ 4096 }
    requires a_try { 1 ≤ tries }
    requires new { AllByRecursion IsNew workers.old }
    ensures count { length workers.new ≡ length workers.old }
    ensures ends { IfOk result (λ ends. AllZip (CanEnd tries) scripts.now ends.items) }
    ensures run { IfOk result (λ ends. AreRun tries scripts.now ends.items (map (λ w. w.session) workers.new)) }
{
    work_all(rt, alloc, gate, desk, workers, scripts, tries)?;
    gather(alloc, workers, scripts.len())
}

// The sessions of the workers.
fn sessions_of(alloc: Global, workers: Vec<Worker>) -> Result<Vec<Session>, RunFault>
    ensures { IfOk result (λ sessions. sessions.items ≡ map (λ w. w.session) workers.items) }
{
    let mut sessions = Vec::with_capacity(alloc, workers.len())?;
    for worker in workers {
        sessions.push(worker.session)?;
    }
    Ok(sessions)
}

// Closes the desk with its sessions.
fn close(alloc: Global, desk: Desk, sessions: Vec<Session>) -> Result<Core, RunFault>
    ensures { IfOk result (λ core. (handed : ℕ) × IsAudited core.history handed sessions.items) }
{
    match desk.close(alloc, sessions) {
        Ok(core) => Ok(core),
        Err(fault) => Err(match fault.refusal {
            Refusal::Memory => RunFault::Memory,
            _ => RunFault::Disagree,
        }),
    }
}
