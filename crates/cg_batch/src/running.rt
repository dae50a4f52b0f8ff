//! Scripts run over a world, from their texts to what is told of them.
ghost use Rattle.std.specs.Prelude.{◌≡◌, ◌≢◌, ◌≤◌, ◌⊎◌, IfErr, IfOk, IfSome, OnErr, OnOk, length, map, true, vec_len};
ghost use Rattle.std.specs.Io.KnownBytes.{Appends};
ghost use Rattle.std.specs.List.{AllZip};
ghost use Rattle.std.specs.Result.{IsErrOf};
ghost use Rattle.cg_name.specs.declared.refusal.Refusal.{Refusal};
ghost use Rattle.cg_name.specs.declared.refusal.Refusal.TheVariants as refusals;
ghost use Rattle.cg_model.specs.Sound.{Sound};
ghost use Rattle.cg_core_laws.specs.MachineOf.{Reached};
ghost use Rattle.cg_lines.specs.Device.{Failed};
ghost use Rattle.cg_lines.specs.Lines.{pending};
ghost use Rattle.cg_script.specs.HistoryText.{history_text};
ghost use Rattle.cg_script.specs.WorldPart.{HasNoWorld};
ghost use Rattle.cg_script.specs.declared.fault.ScriptFault.TheVariants as faults;
ghost use Rattle.cg_runner.specs.Closed.{IsClosed};
ghost use Rattle.cg_batch.specs.Batch.{stops_run, AppendsGiven, BeginsWithWorld, EndSo, FailedGiven, SomeSpellsNone, StopsIn, Tells, batch_text};
ghost use Rattle.cg_batch.specs.Ends.{ends_text};
ghost use Rattle.cg_batch.specs.Fault.{refusal_of_fault};
ghost use Rattle.cg_watch.specs.Watches.{HasTold};
ghost use Rattle.cg_program.specs.Program.{IsBroken, WritesUnlessFailed};
ghost use Rattle.cg_program.specs.Status.{refusal_line, status_where};
ghost use Rattle.cg_batch.specs.declared.fault.BatchFault.TheVariants.{Stopped};

use crate::ends::{explained_lines_of, lines_of};
use crate::fault::BatchFault;
use crate::form::BatchForm;
use crate::scripts::read_scripts;
use cg_json::Form;
use cg_json_world::write_world;
use cg_lines::{LineReader, Sink, Source, write_all};
use cg_program::{Status, stop, tell_history};
use cg_runner::{Gate, RunReport};
use cg_script::{ScriptFault, read_world};
use cg_watch::{Watch, run_watched};
use cg_world_text::WriteWorld;
use std::alloc::{AllocError, Global};
use std::sync::Wait;
use std::thread::Threads;

/// Reads the world from `world`, and runs the scripts of these texts, at most 4,096, over it, by 1 to 64 workers; a script that
/// meets `Busy` is begun anew, 1 to 1,000 times in all. A line for each script, which tells how it ended, goes to `out`, and
/// behind them the world that they left, as plain text, with comments where that is asked for, or as JSON; then the text of their
/// history to `history`, where there is one. What `watches` see meanwhile they tell their own sinks, as `run_watched` says, and
/// nothing else depends on it. The status is 0 when all is written, whatever the ends are; 2 when the world or a script isn't in
/// its grammar, and then nothing is written; and 3 when memory, the source or a sink fails, or what the workers tell disagrees.
/// For 2 and 3 the refusal stands on a line in `err`.
pub fn run_to<
    G: Gate + Sync,
    R: Threads + Wait + Sync,
    S: Sink + Send + Drop,
    W: Source,
    O: Sink,
    H: Sink,
    E: Sink,
>(
    rt: &R,
    alloc: Global,
    gate: &G,
    watches: &mut Vec<Watch<S>>,
    world: &mut LineReader<W>,
    scripts: Vec<Vec<u8>>,
    workers: u32,
    tries: u32,
    form: BatchForm,
    history: &mut Option<H>,
    out: &mut O,
    err: &mut E,
) -> u8
    requires few { vec_len scripts ≤ 4096 }
    requires a_worker { 1 ≤ workers }
    requires few_workers { workers ≤ 64 }
    requires a_try { 1 ≤ tries }
    requires few_tries { tries ≤ 1000 }
    // All scripts ended, and all is told;
    ensures done { result ≡ 0 → Tells form workers tries (map (λ t. t.items) scripts.items) (λ told past. Appends (O.taken out.old) (O.taken out.new) told × AppendsGiven H.taken history.old history.new past) }
    ensures quiet { result ≡ 0 → err.new ≡ err.old }

    ensures read { result ≡ 0 → BeginsWithWorld (pending world.old) }

    // or there is a refusal, which is told and has its cause.
    ensures told { (result ≡ 0) ⊎ ((refusal : Refusal) × (result ≡ status_where refusal)
        × WritesUnlessFailed (E.taken err.old) (E.taken err.new) (E.failed err.old) (E.failed err.new) (refusal_line refusal)
        × (stops_run refusal ≡ true)
        × (refusal ≡ refusals.ReadFault → IsBroken world.new)
        × (refusal ≡ refusals.WriteFault → Failed (O.failed out.old) (O.failed out.new) ⊎ FailedGiven H.failed history.old history.new)) }
    ensures front { result ≡ 3 → ((out.new ≡ out.old) × (history.new ≡ history.old))
        ⊎ Tells form workers tries (map (λ t. t.items) scripts.items) (λ told past. StopsIn (O.taken out.old) (O.taken out.new) H.taken history.old history.new told past) }
    ensures refused { result ≡ 2 → (IfSome (pending world.old) HasNoWorld ⊎ SomeSpellsNone (map (λ t. t.items) scripts.items)) × (out.new ≡ out.old) × (history.new ≡ history.old) }

    // What each watch told is what a Viewer saw of its file.
    ensures watched { AllZip (HasTold S.taken) watches.old.items watches.new.items }
{
    match run(
        rt,
        alloc,
        gate,
        watches,
        world,
        scripts.as_slice(),
        workers,
        tries,
    ) {
        Ok(report) => finish(alloc, form, &report, history, out, err),
        Err(fault) => fault.tell(err),
    }
}

// Runs the scripts of these texts over the world.
fn run<G: Gate + Sync, R: Threads + Wait + Sync, S: Sink + Send + Drop, W: Source>(
    rt: &R,
    alloc: Global,
    gate: &G,
    watches: &mut Vec<Watch<S>>,
    world: &mut LineReader<W>,
    texts: &[Vec<u8>],
    workers: u32,
    tries: u32,
) -> Result<RunReport, BatchFault>
    requires few { length texts.now ≤ 4096 }
    requires a_worker { 1 ≤ workers }
    requires few_workers { workers ≤ 64 }
    requires a_try { 1 ≤ tries }
    requires few_tries { tries ≤ 1000 }
    ensures ends { IfOk result (λ r. EndSo workers tries (map (λ t. t.items) texts.now) r.ends.items r.core.history) }
    ensures closed { IfOk result (λ r. IsClosed workers r.core.history) }
    ensures sound { IfOk result (λ r. Sound r.core.opening) }
    ensures low { IfOk result (λ r. 2 ≤ r.core.bound) }
    ensures within { IfOk result (λ r. r.core.bound ≤ 1048576) }
    ensures reached { IfOk result (λ r. Reached r.core.opening r.core.bound r.core.history) }
    ensures syntax { IsErrOf result (Stopped faults.Syntax) → IfSome (pending world.old) HasNoWorld ⊎ SomeSpellsNone (map (λ t. t.items) texts.now) }
    ensures world { OnOk result (BeginsWithWorld (pending world.old)) }
    ensures refusals { IfErr result (λ f. stops_run (refusal_of_fault f) ≡ true) }
    ensures reads { IsErrOf result (Stopped faults.ReadFault) → IsBroken world.new }
    ensures writes { ¬ (IsErrOf result (Stopped faults.WriteFault)) }
    ensures watched { AllZip (HasTold S.taken) watches.old.items watches.new.items }
{
    let world = read_world(alloc, world)?;
    let scripts = read_scripts(alloc, texts)?;
    let report = run_watched(rt, alloc, gate, watches, world, scripts, workers, tries)?;
    report.core.laws();
    Ok(report)
}

// Tells what was run, and gives the status.
fn finish<O: Sink, H: Sink, E: Sink>(
    alloc: Global,
    form: BatchForm,
    report: &RunReport,
    history: &mut Option<H>,
    out: &mut O,
    err: &mut E,
) -> u8
    ensures told { result ≡ 0 → Appends (O.taken out.old) (O.taken out.new) (batch_text form report.now.ends.items report.now.core.opening report.now.core.history) }
    ensures past { result ≡ 0 → AppendsGiven H.taken history.old history.new (history_text report.now.core.history) }
    ensures quiet { result ≡ 0 → err.new ≡ err.old }
    ensures failed { (result ≡ 0) ⊎ ((refusal : Refusal) × (result ≡ status_where refusal)
        × WritesUnlessFailed (E.taken err.old) (E.taken err.new) (E.failed err.old) (E.failed err.new) (refusal_line refusal)
        × (stops_run refusal ≡ true)
        × ¬ (refusal ≡ refusals.ReadFault)
        × (refusal ≡ refusals.WriteFault → Failed (O.failed out.old) (O.failed out.new) ⊎ FailedGiven H.failed history.old history.new)) }
    ensures front { result ≢ 0 → StopsIn (O.taken out.old) (O.taken out.new) H.taken history.old history.new (batch_text form report.now.ends.items report.now.core.opening report.now.core.history) (history_text report.now.core.history) }
    ensures status { result ≢ 2 }
{
    match tell(alloc, form, report, history, out) {
        Ok(()) => Status::Done.code(),
        Err(fault) => stop(fault, err),
    }
}

// Writes how the scripts ended, the world that they left, and their history.
fn tell<O: Sink, H: Sink>(
    alloc: Global,
    form: BatchForm,
    report: &RunReport,
    history: &mut Option<H>,
    out: &mut O,
) -> Result<(), ScriptFault>
    ensures told { OnOk result (Appends (O.taken out.old) (O.taken out.new) (batch_text form report.now.ends.items report.now.core.opening report.now.core.history)) }
    ensures past { OnOk result (AppendsGiven H.taken history.old history.new (history_text report.now.core.history)) }
    ensures front { OnErr result (StopsIn (O.taken out.old) (O.taken out.new) H.taken history.old history.new (batch_text form report.now.ends.items report.now.core.opening report.now.core.history) (history_text report.now.core.history)) }
    ensures writes { IsErrOf result faults.WriteFault → Failed (O.failed out.old) (O.failed out.new) ⊎ FailedGiven H.failed history.old history.new }
    ensures refusals { IfErr result (λ e. (e ≡ faults.Memory) ⊎ (e ≡ faults.WriteFault)) }
{
    let text = text_of(alloc, form, report)?;
    write_all(out, text.as_slice())?;
    match history {
        None => Ok(()),
        Some(sink) => tell_history(alloc, &report.core, sink),
    }
}

// The text that tells how the scripts ended, and the world that they left.
fn text_of(alloc: Global, form: BatchForm, report: &RunReport) -> Result<Vec<u8>, AllocError>
    ensures { IfOk result (λ text. text.items ≡ batch_text form report.now.ends.items report.now.core.opening report.now.core.history) }
{
    let mut text = ends_of(alloc, form, report)?;
    match form {
        BatchForm::Plain | BatchForm::Explained => report.core.tree().write(&mut text)?,
        BatchForm::Json => write_world(report.core.tree(), &mut text)?,
    }
    Ok(text)
}

// The text that tells how the scripts ended.
fn ends_of(alloc: Global, form: BatchForm, report: &RunReport) -> Result<Vec<u8>, AllocError>
    ensures { IfOk result (λ text. text.items ≡ ends_text form report.now.core.history report.now.ends.items) }
{
    let ends = report.ends.as_slice();
    match form {
        BatchForm::Plain => lines_of(alloc, Form::Plain, ends),
        BatchForm::Explained => explained_lines_of(alloc, report.core.history(), ends),
        BatchForm::Json => lines_of(alloc, Form::Json, ends),
    }
}
