//! Runs of scripts, and how they end as text.
ghost use Rattle.std.specs.Prelude.{◌≤◌, IfOk, vec_len};

use crate::opening::{BARE, world};
use crate::runner::telling::write_report;
use cg_name::Refusal;
use cg_runner::{Gate, RunFault, RunReport, run_scripts};
use cg_script::{Script, read_script};
use std::alloc::Global;
use std::sync::Wait;
use std::thread::Threads;

/// These scripts, where they are as few as a run may have.
pub(crate) fn few(scripts: Vec<Script>) -> Result<Vec<Script>, Refusal>
    ensures { IfOk result (λ kept. vec_len kept ≤ 4096) }
{
    if scripts.len() > 4_096 {
        return Err(Refusal::Full);
    }
    Ok(scripts)
}

/// The scripts that these texts spell.
pub(crate) fn scripts(alloc: Global, texts: &[&str]) -> Result<Vec<Script>, Refusal>
    ensures { IfOk result (λ scripts. vec_len scripts ≤ 4096) }
{
    let mut scripts = Vec::new(alloc);
    for text in texts {
        scripts.push(read_script(alloc, text.as_bytes())?)?;
    }
    few(scripts)
}

/// The refusal that says the same as the fault.
pub(crate) fn refusal_of(fault: RunFault) -> Refusal {
    match fault {
        RunFault::Memory => Refusal::Memory,
        RunFault::Disagree => Refusal::Disagree,
    }
}

// What a run of these scripts gives.
fn run<G: Gate + Sync, R: Threads + Wait + Sync>(
    rt: &R,
    alloc: Global,
    gate: &G,
    texts: &[&str],
    workers: u32,
    tries: u32,
) -> Result<RunReport, Refusal>
    requires a_worker { 1 ≤ workers }
    requires few_workers { workers ≤ 64 }
    requires a_try { 1 ≤ tries }
    requires few_tries { tries ≤ 1000 }
{
    let scripts = scripts(alloc, texts)?;
    run_scripts(
        rt,
        alloc,
        gate,
        world(alloc, BARE)?,
        scripts,
        workers,
        tries,
    )
    .map_err(|fault| refusal_of(fault))
}

/// Appends how such a run ends.
pub(crate) fn write_run<G: Gate + Sync, R: Threads + Wait + Sync>(
    rt: &R,
    alloc: Global,
    gate: &G,
    texts: &[&str],
    workers: u32,
    tries: u32,
    out: &mut String,
) -> Result<(), Refusal>
    requires a_worker { 1 ≤ workers }
    requires few_workers { workers ≤ 64 }
    requires a_try { 1 ≤ tries }
    requires few_tries { tries ≤ 1000 }
{
    let report = run(rt, alloc, gate, texts, workers, tries)?;
    let written = write_report(alloc, &report, out);
    drop(report);
    Ok(written?)
}
