//! More scripts than workers.
ghost use Rattle.std.specs.Prelude.{◌≤◌, IfOk, vec_len};

use crate::opening::world;
use crate::replaying::{agrees_with_replay, commits_in};
use crate::runner::gates::Counting;
use crate::runner::running::{few, refusal_of};
use cg_desk::World;
use cg_name::Refusal;
use cg_runner::{RunReport, ScriptEnd, run_scripts};
use cg_script::{Script, read_script};
use std::alloc::{AllocError, Global};
use std::sync::Wait;
use std::sync::atomic::Ordering;
use std::thread::Threads;

const GROUPS: usize = 16;

const SCRIPTS: usize = 256;

const WORKERS: u32 = 8;

const TRIES: u32 = 8;

// The text of a world with groups that the scripts share.
fn world_text(alloc: Global) -> Result<String, AllocError> {
    let mut text = String::new(alloc);
    text.push_str("world 1\ncontrollers\nonline 0\ngroup / - 0 -\n")?;
    for group in 0..GROUPS {
        writeln!(text, "group /g{group} - 0 -")?;
    }
    text.push_str("end\n")?;
    Ok(text)
}

// That world.
fn shared(alloc: Global) -> Result<World, Refusal> {
    world(alloc, world_text(alloc)?.as_str())
}

// The script at this place: each group has a script after another, one with a group of its own in there, the next with a
// group that others make and take away as well.
fn script(alloc: Global, place: usize) -> Result<Script, Refusal> {
    let group = place / 16;
    let mut text = String::new(alloc);
    if place % 2 == 0 {
        writeln!(text, "create /g{group}/n{place}")?;
    } else {
        writeln!(text, "create /g{group}/x\nremove /g{group}/x")?;
    }
    read_script(alloc, text.as_str().as_bytes())
}

// All scripts.
fn scripts(alloc: Global) -> Result<Vec<Script>, Refusal>
    ensures { IfOk result (λ scripts. vec_len scripts ≤ 4096) }
{
    let mut scripts = Vec::new(alloc);
    for place in 0..SCRIPTS {
        scripts.push(script(alloc, place)?)?;
    }
    few(scripts)
}

// Whether the script at this place may end so.
fn may_end(place: usize, end: &ScriptEnd) -> bool {
    match end {
        ScriptEnd::Committed { tries, .. } => place % 2 == 1 || *tries == 1,
        ScriptEnd::GaveUp { line, tries, .. } => {
            place % 2 == 1 && (*line == 1 || *line == 2) && *tries == TRIES
        }
        _ => false,
    }
}

// Whether each script ended as it may.
fn all_may_end(ends: &[ScriptEnd]) -> bool {
    ends.len() == SCRIPTS
        && ends
            .iter()
            .enumerate()
            .all(|(place, end)| may_end(place, end))
}

// How many scripts were committed.
fn committed(ends: &[ScriptEnd]) -> usize {
    ends.iter()
        .filter(|end| matches!(end, ScriptEnd::Committed { .. }))
        .count()
}

// How often all scripts were begun.
fn begun(ends: &[ScriptEnd]) -> u32 {
    ends.iter()
        .fold(0u32, |begun, end| begun.saturating_add(end.tries()))
}

// Whether the gate was told of each end.
fn was_told(gate: &Counting, ends: &[ScriptEnd]) -> bool {
    gate.ended.load(Ordering::SeqCst) as usize == ends.len()
        && gate.begun.load(Ordering::SeqCst) == begun(ends)
}

// What is wrong with the report, and with what the gate was told.
fn fault_of(alloc: Global, gate: &Counting, report: &RunReport) -> Result<&'static str, Refusal> {
    let ends = report.ends.as_slice();
    if !all_may_end(ends) {
        return Ok("an end that can't be");
    }
    if !was_told(gate, ends) {
        return Ok("an end that wasn't told");
    }
    if committed(ends) != commits_in(report.core.history()) {
        return Ok("other commits");
    }
    if !agrees_with_replay(alloc, &report.core, shared(alloc)?)? {
        return Ok("another replay");
    }
    Ok("nothing")
}

// What all workers make of all scripts.
fn run<R: Threads + Wait + Sync>(
    rt: &R,
    alloc: Global,
    gate: &Counting,
) -> Result<RunReport, Refusal> {
    let scripts = scripts(alloc)?;
    run_scripts(rt, alloc, gate, shared(alloc)?, scripts, WORKERS, TRIES).map_err(|fault| {
        refusal_of(fault)
    })
}

// What is wrong with that.
fn run_fault<R: Threads + Wait + Sync>(
    rt: &R,
    alloc: Global,
    gate: &Counting,
) -> Result<&'static str, Refusal> {
    let report = run(rt, alloc, gate)?;
    let fault = fault_of(alloc, gate, &report);
    drop(report);
    fault
}

// The same with a gate of its own.
fn crowd<R: Threads + Wait + Sync>(rt: &R, alloc: Global) -> Result<&'static str, Refusal> {
    let gate = Counting::new();
    run_fault(rt, alloc, &gate)
}

#[test]
fn workers_run_256_scripts_and_a_replay_agrees(rt: HostRuntime) {
    assert!(rt; crowd(&rt, rt.alloc()) == Ok("nothing"));
}
