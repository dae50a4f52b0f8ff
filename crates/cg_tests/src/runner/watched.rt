//! Runs beside which a file is watched.
use crate::opening::{BARE, world};
use crate::runner::gates::Counting;
use crate::runner::running::{refusal_of, scripts};
use cg_lines::FromWrite;
use cg_name::Refusal;
use cg_runner::RunReport;
use cg_watch::{Watch, run_watched};
use std::alloc::Global;
use std::sync::Wait;
use std::sync::atomic::Ordering;
use std::thread::Threads;

// Scripts that commit, abort and fail, each at its first try.
static TEXTS: [&str; 4] = [
    "create /a\n",
    "create /b\nabort\n",
    "create /a\n",
    "remove /a\n",
];

// Runs them by one worker with this gate, and with a watch whose lines nobody looks at.
fn run<R: Threads + Wait + Sync>(
    rt: &R,
    alloc: Global,
    gate: &Counting,
) -> Result<RunReport, Refusal> {
    let sink = FromWrite::new(Vec::new(alloc));
    let watch = Watch::read(alloc, "/a:cgroup.procs", sink).map_err(|fault| fault.refusal())?;
    let mut watches = Vec::new(alloc);
    watches.push(watch)?;
    let world = world(alloc, BARE)?;
    let scripts = scripts(alloc, &TEXTS)?;
    run_watched(rt, alloc, gate, &mut watches, world, scripts, 1, 3).map_err(|fault| {
        refusal_of(fault)
    })
}

// What a gate was told: of how many scripts, and how often these were begun.
fn ends_told(gate: &Counting) -> (u32, u32) {
    (
        gate.ended.load(Ordering::SeqCst),
        gate.begun.load(Ordering::SeqCst),
    )
}

// And before and behind how many calls.
fn calls_told(gate: &Counting) -> (u32, u32) {
    (
        gate.asked.load(Ordering::SeqCst),
        gate.answered.load(Ordering::SeqCst),
    )
}

// Whether the gate is told of each script, and of its three calls: Begin, one request, and what ends it.
fn is_told_of_all<R: Threads + Wait + Sync>(rt: &R, alloc: Global) -> Result<bool, Refusal> {
    let gate = Counting::new();
    let report = run(rt, alloc, &gate)?;
    drop(report);
    Ok(ends_told(&gate) == (4, 4) && calls_told(&gate) == (12, 12))
}

#[test]
fn a_gate_is_told_of_each_call_and_end_beside_a_watch(rt: HostRuntime) {
    assert!(rt; is_told_of_all(&rt, rt.alloc()) == Ok(true));
}
