//! Each worker takes scripts, one after another, and runs them on its session.
ghost use Rattle.std.specs.Prelude.{◌≡◌, ◌≤◌, OnOk, length};
ghost use Rattle.std.specs.List.{AllZip};
ghost use Rattle.cg_runner.specs.Workers.{KeepsTelling};

use crate::fault::RunFault;
use crate::gate::Gate;
use crate::passage::Passage;
use crate::running::run_script;
use crate::turns::Turns;
use crate::worker::{Finished, Worker};
use cg_desk::Desk;
use cg_script::Script;
use crossbeam_channel::{Receiver, bounded};
use std::alloc::{AllocError, Global};
use std::sync::Wait;
use std::thread;
use std::thread::Threads;

/// What all workers share.
#[derive(Drop)]
struct Shared {
    // The places of the scripts that are still to be run.
    jobs: Receiver<usize>,
    turns: Turns,
}

/// How many workers a run has at most.
pub(crate) const MOST_WORKERS: usize = 64;

// Runs each script on the session of one of the workers, each of which has a thread where one can be made.
pub(crate) fn work_all<G: Gate + Sync, R: Threads + Wait + Sync>(
    rt: &R,
    alloc: Global,
    gate: &G,
    desk: &Desk,
    workers: &mut [Worker],
    scripts: &[Script],
    tries: u32,
) -> Result<(), AllocError>
    requires few { length scripts.now ≤ 4096 }
    requires a_try { 1 ≤ tries }
    ensures { OnOk result (AllZip (KeepsTelling tries scripts.now) workers.old workers.new) }
{
    let shared = Shared {
        jobs: jobs_of(rt, alloc, scripts.len())?,
        turns: Turns::new(),
    };
    let shared = &shared;
    thread::for_each_mut(
        rt,
        workers,
        MOST_WORKERS,
        &|_, worker: &mut Worker| { work(rt, alloc, gate, desk, worker, shared, scripts, tries) },
    );
    Ok(())
}

// The places of so many scripts. There are no others.
fn jobs_of(rt: &impl Wait, alloc: Global, scripts: usize) -> Result<Receiver<usize>, AllocError>
    requires few { scripts ≤ 4096 }
{
    let (sender, jobs) = bounded(alloc, scripts.max(1))?;
    for place in 0..scripts {
        // There is room. A job that didn't get in would leave its script without an end.
        let _ = sender.try_send(rt, place);
    }
    Ok(jobs)
}

// Takes scripts as long as there are any, and runs each on the worker's session.
fn work<G: Gate>(
    rt: &impl Wait,
    alloc: Global,
    gate: &G,
    desk: &Desk,
    worker: &mut Worker,
    shared: &Shared,
    scripts: &[Script],
    tries: u32,
)
    requires few { length scripts.now ≤ 4096 }
    requires a_try { 1 ≤ tries }
    ensures { KeepsTelling tries scripts.now worker.old worker.new }
{
    for place in shared.jobs.iter(rt) {
        let turns = &shared.turns;
        if let Err(fault) = run_next(rt, alloc, gate, desk, worker, turns, place, scripts, tries) {
            turns.end(rt, worker.seat);
            worker.fault = Some(fault);
            return;
        }
    }
}

// Runs the script at a place on the worker's session, and notes how it ended, with memory that is there before it is begun.
fn run_next<G: Gate>(
    rt: &impl Wait,
    alloc: Global,
    gate: &G,
    desk: &Desk,
    worker: &mut Worker,
    turns: &Turns,
    place: usize,
    scripts: &[Script],
    tries: u32,
) -> Result<(), RunFault>
    requires few { length scripts.now ≤ 4096 }
    requires a_try { 1 ≤ tries }
    ensures { OnOk result (KeepsTelling tries scripts.now worker.old worker.new) }
{
    let Some(script) = scripts.get(place) else {
        return Err(RunFault::Disagree);
    };
    worker.finished.reserve(1)?;
    let number = place as u32 + 1;
    let passage = Passage::new(gate, number, turns, worker.seat);
    let session = &mut worker.session;
    let end = run_script(rt, alloc, passage, desk, session, script, tries)?;
    gate.ended(desk, number, end);
    worker.finished.push_reserved(Finished { place, end });
    Ok(())
}
