//! Runs of scripts with watches beside them.
ghost use Rattle.std.specs.Prelude.{◌≡◌, ◌≤◌, IfOk, vec_len};
ghost use Rattle.std.specs.List.{AllZip};
ghost use Rattle.cg_runner.specs.Closed.{HaveHappened, IsClosed};
ghost use Rattle.cg_runner.specs.End.{CanEnd};
ghost use Rattle.cg_watch.specs.Watches.{HasTold};

use crate::board::Board;
use crate::following::{follow_all, subscribe_all};
use crate::publishing::Publishing;
use crate::watch::Watch;
use cg_lines::Sink;
use cg_runner::{Gate, RunFault, RunReport, World, run_scripts};
use cg_script::Script;
use cg_view::Publisher;
use std::alloc::Global;
use std::sync::Wait;
use std::thread::Threads;
use std::{mem, thread};

/// Runs the scripts as `run_scripts` does, and has the watches tell what they see of the committed tree beside that: first what the
/// world has, then each new value, with the number of commits behind which it was seen, and last that of the tree which is left. A
/// value that is gone before it was looked at isn't told. Each watch looks in a thread of its own; where none can be made, it looks
/// when the scripts have ended. At most 8 do, where there is memory for it; others tell nothing, and nobody does behind
/// a write that the sink refuses. None of this changes what the run gives. Where there is no memory for what is to be shown, that is
/// `Memory`, before a script is begun.
#[tactic(auto, using(crate::proofs::Telling::untold))]
pub fn run_watched<G: Gate + Sync, R: Threads + Wait + Sync, S: Sink + Send + Drop>(
    rt: &R,
    alloc: Global,
    gate: &G,
    watches: &mut Vec<Watch<S>>,
    world: World,
    scripts: Vec<Script>,
    workers: u32,
    tries: u32,
) -> Result<RunReport, RunFault>
    requires few { vec_len scripts ≤ 4096 }
    requires a_worker { 1 ≤ workers }
    requires few_workers { workers ≤ 64 }
    requires a_try { 1 ≤ tries }
    requires few_tries { tries ≤ 1000 }
    ensures ends { IfOk result (λ r. AllZip (CanEnd tries) scripts.items r.ends.items) }
    ensures happened { IfOk result (λ r. HaveHappened workers tries scripts.items r.ends.items r.core.history) }
    ensures closed { IfOk result (λ r. IsClosed workers r.core.history) }
    ensures told { AllZip (HasTold S.taken) watches.old.items watches.new.items }
{
    if watches.is_empty() {
        return run_scripts(rt, alloc, gate, world, scripts, workers, tries);
    }
    let board = Board::new(Publisher::new(alloc, &world)?);
    run_beside(
        rt, alloc, gate, watches, board, world, scripts, workers, tries,
    )
}

// The same, with a board that shows the world, which it spends.
fn run_beside<G: Gate + Sync, R: Threads + Wait + Sync, S: Sink + Send + Drop>(
    rt: &R,
    alloc: Global,
    gate: &G,
    watches: &mut Vec<Watch<S>>,
    mut board: Board,
    world: World,
    scripts: Vec<Script>,
    workers: u32,
    tries: u32,
) -> Result<RunReport, RunFault>
    requires few { vec_len scripts ≤ 4096 }
    requires a_worker { 1 ≤ workers }
    requires few_workers { workers ≤ 64 }
    requires a_try { 1 ≤ tries }
    requires few_tries { tries ≤ 1000 }
    ensures ends { IfOk result (λ r. AllZip (CanEnd tries) scripts.items r.ends.items) }
    ensures happened { IfOk result (λ r. HaveHappened workers tries scripts.items r.ends.items r.core.history) }
    ensures closed { IfOk result (λ r. IsClosed workers r.core.history) }
    ensures told { AllZip (HasTold S.taken) watches.old.items watches.new.items }
{
    let senders = subscribe_all(alloc, watches.as_mut_slice(), &mut board, scripts.len());
    let publishing = Publishing {
        rt,
        alloc,
        gate,
        board: &board,
        watches: senders,
    };
    let subscribed = mem::replace(watches, Vec::new(alloc));
    let (seen, report) = thread::join(
        rt,
        move || follow_all(rt, alloc, subscribed),
        move ||
            requires few { vec_len scripts ≤ 4096 }
            requires a_worker { 1 ≤ workers }
            requires few_workers { workers ≤ 64 }
            requires a_try { 1 ≤ tries }
            requires few_tries { tries ≤ 1000 }
        { run_at(rt, alloc, publishing, world, scripts, workers, tries) },
    );
    board.end(rt);
    *watches = seen;
    report
}

// Runs the scripts at the gate, which tells nothing any more then.
fn run_at<G: Gate + Sync, R: Threads + Wait + Sync>(
    rt: &R,
    alloc: Global,
    gate: Publishing<'_, G, R>,
    world: World,
    scripts: Vec<Script>,
    workers: u32,
    tries: u32,
) -> Result<RunReport, RunFault>
    requires few { vec_len scripts ≤ 4096 }
    requires a_worker { 1 ≤ workers }
    requires few_workers { workers ≤ 64 }
    requires a_try { 1 ≤ tries }
    requires few_tries { tries ≤ 1000 }
    ensures ends { IfOk result (λ r. AllZip (CanEnd tries) scripts.items r.ends.items) }
    ensures happened { IfOk result (λ r. HaveHappened workers tries scripts.items r.ends.items r.core.history) }
    ensures closed { IfOk result (λ r. IsClosed workers r.core.history) }
{
    run_scripts(rt, alloc, &gate, world, scripts, workers, tries)
}
