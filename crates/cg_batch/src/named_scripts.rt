//! A run of scripts whose texts, world and history words name.
ghost use Rattle.std.specs.Prelude.{◌≡◌, ◌≢◌, ◌≤◌, ◌⊎◌, false, true, List, ℕ, IfOk, IfSome, IsErr, IsSome, MatchOption, None, length, map};
ghost use Rattle.std.specs.List.{list_any, AllZip};
ghost use Rattle.std.specs.Option.{option_map};
ghost use Rattle.std.specs.Io.KnownBytes.{Appends};
ghost use Rattle.std.specs.Result.{IsErrOf};
ghost use Rattle.cg_name.specs.declared.refusal.Refusal.{Refusal};
ghost use Rattle.cg_name.specs.declared.refusal.Refusal.TheVariants as refusals;
ghost use Rattle.cg_lines.specs.Device.{AppendsFront, Failed};
ghost use Rattle.cg_lines.specs.Lines.{pending};
ghost use Rattle.cg_script.specs.declared.fault.ScriptFault.TheVariants as faults;
ghost use Rattle.cg_batch.specs.Files.{IsInput};
ghost use Rattle.cg_batch.specs.Batch.{stops_run, AreTexts, BeginsWithWorld, SomeTooLong, SpellNothing, Tells};
ghost use Rattle.cg_watch.specs.Watches.{HasTold};
ghost use Rattle.cg_program.specs.Files.{IsFileNamed, IsNotNamed};
ghost use Rattle.cg_program.specs.Named.{is_standard, named};
ghost use Rattle.cg_program.specs.Program.{WritesUnlessFailed};
ghost use Rattle.cg_program.specs.Status.{refusal_line, status_where};

use crate::form::BatchForm;
use crate::running::run_to;
use crate::scripts::read_all;
use cg_lines::{LineReader, Sink};
use cg_program::{CreateFault, Inputs, Outputs, Status, is_of_word, open_reader, stop};
use cg_runner::Gate;
use cg_script::ScriptFault;
use cg_watch::Watch;
use std::alloc::Global;
use std::sync::Wait;
use std::thread::Threads;

/// The words that name the files of a run of scripts.
#[derive(Clone, Copy, Debug)]
pub struct Words<'a> {
    /// The world: `-` is standard input, and any other word the file of this name.
    pub world: &'a str,
    /// Each script: the file of this name, `-` too.
    pub scripts: &'a [&'a str],
    /// The history, where it is asked for: the file of this name, `-` too.
    pub history: Option<&'a str>,
}

/// Runs the scripts that words name over a named world. Each script's file is opened and read, in their order; then the world is
/// opened, and then the history's file made. A file that can't be opened is a read fault, one that can't be made a write fault, and
/// a script of more than 16,777,216 bytes isn't in the grammar. A history is not made in place of a script or the world: that is a
/// write fault. It takes its name when all is told, and else no file has changed. What is written, and the status, are as `run_to`
/// says, and so is what watches tell.
pub fn run_named<
    P: Outputs,
    G: Gate + Sync,
    R: Threads + Wait + Sync,
    S: Sink + Send + Drop,
    O: Sink,
    E: Sink,
>(
    rt: &R,
    alloc: Global,
    files: &mut P,
    gate: &G,
    watches: &mut Vec<Watch<S>>,
    words: Words,
    workers: u32,
    tries: u32,
    form: BatchForm,
    out: &mut O,
    err: &mut E,
) -> u8
    requires few { length words.scripts.now ≤ 4096 }
    requires a_worker { 1 ≤ workers }
    requires few_workers { workers ≤ 64 }
    requires a_try { 1 ≤ tries }
    requires few_tries { tries ≤ 1000 }
    // All scripts ended, all is told, and the history is the file of its name;
    ensures done { result ≡ 0 → (texts : List (List ℕ)) × AreTexts (P.file files.old) (map (λ w. w.now) words.entry.scripts.now) texts
        × Tells form workers tries texts (λ told past. Appends (O.taken out.old) (O.taken out.new) told × IsFileNamed P.nothing (P.file files.new) (option_map (λ w. w.now) words.entry.history) past) }
    ensures read { result ≡ 0 → BeginsWithWorld (named (P.standard files.old) (P.file files.old) words.entry.world.now) }
    ensures quiet { result ≡ 0 → err.new ≡ err.old }

    // or there is a refusal, which is told and has its cause, and no file has changed.
    ensures told { (result ≡ 0) ⊎ ((refusal : Refusal) × (result ≡ status_where refusal)
        × WritesUnlessFailed (E.taken err.old) (E.taken err.new) (E.failed err.old) (E.failed err.new) (refusal_line refusal)
        × (stops_run refusal ≡ true)
        × (refusal ≡ refusals.WriteFault → Failed (O.failed out.old) (O.failed out.new) ⊎ IsSome words.entry.history)) }
    ensures refused { result ≡ 2 → (out.new ≡ out.old) × (SomeTooLong (P.file files.old) (map (λ w. w.now) words.entry.scripts.now)
        ⊎ SpellNothing (named (P.standard files.old) (P.file files.old) words.entry.world.now) (P.file files.old) (map (λ w. w.now) words.entry.scripts.now)) }
    ensures front { result ≡ 3 → (out.new ≡ out.old) ⊎ ((texts : List (List ℕ)) × AreTexts (P.file files.old) (map (λ w. w.now) words.entry.scripts.now) texts
        × Tells form workers tries texts (λ told past. AppendsFront (O.taken out.old) (O.taken out.new) told)) }
    ensures unchanged { result ≢ 0 → P.file files.new ≡ P.file files.old }

    // No file has changed but the history, which is none of the inputs.
    ensures others { (name : List ℕ) → IsNotNamed (option_map (λ w. w.now) words.entry.history) name → P.file files.new name ≡ P.file files.old name }
    ensures inputs { IfSome words.entry.history (λ name. IsInput (P.is_read files.old name.now) (P.is_same files.old name.now) words.entry.world.now (map (λ w. w.now) words.entry.scripts.now) → (result ≢ 0) × (out.new ≡ out.old)) }

    // A file that can't be opened or made: nothing is written.
    ensures no_script { list_any (P.is_missing files.old) (map (λ w. w.now) words.entry.scripts.now) ≡ true → (result ≢ 0) × (out.new ≡ out.old) }
    ensures no_world { is_standard words.entry.world.now ≡ false → P.is_missing files.old words.entry.world.now ≡ true → (result ≢ 0) × (out.new ≡ out.old) }
    ensures barred { IfSome words.entry.history (λ name. P.is_barred files.old name.now ≡ true → (result ≢ 0) × (out.new ≡ out.old)) }

    // What each watch told is what a Viewer saw of its file.
    ensures watched { AllZip (HasTold S.taken) watches.old.items watches.new.items }
{
    match open_all(alloc, files, words) {
        Ok((texts, mut world, mut history)) => {
            let status = run_to(
                rt,
                alloc,
                gate,
                watches,
                &mut world,
                texts,
                workers,
                tries,
                form,
                &mut history,
                out,
                err,
            );
            end_history(files, history, words.history, status, err)
        }
        Err(fault) => stop(fault, err),
    }
}

// The texts of the scripts, and the opened world and history.
fn open_all<P: Outputs>(
    alloc: Global,
    files: &P,
    words: Words,
) -> Result<(Vec<Vec<u8>>, LineReader<P::Input>, Option<P::Output>), ScriptFault>
    ensures texts { IfOk result (λ opened. AreTexts (P.file files.now) (map (λ w. w.now) words.entry.scripts.now) (map (λ t. t.items) opened.0.items)) }
    ensures world { IfOk result (λ opened. pending opened.1 ≡ named (P.standard files.now) (P.file files.now) words.entry.world.now) }
    ensures syntax { IsErrOf result faults.Syntax → SomeTooLong (P.file files.now) (map (λ w. w.now) words.entry.scripts.now) }
    ensures writes { IsErrOf result faults.WriteFault → IsSome words.entry.history }
    ensures history { IfOk result (λ opened. MatchOption opened.2 (words.entry.history ≡ None) (λ output. IsSome words.entry.history × (P.Output.taken output ≡ P.nothing))) }
    ensures inputs { IfSome words.entry.history (λ name. IsInput (P.is_read files.now name.now) (P.is_same files.now name.now) words.entry.world.now (map (λ w. w.now) words.entry.scripts.now) → IsErr result) }
    ensures no_script { list_any (P.is_missing files.now) (map (λ w. w.now) words.entry.scripts.now) ≡ true → IsErr result }
    ensures no_world { is_standard words.entry.world.now ≡ false → P.is_missing files.now words.entry.world.now ≡ true → IsErr result }
    ensures barred { IfSome words.entry.history (λ name. P.is_barred files.now name.now ≡ true → IsErr result) }
{
    let texts = read_named(alloc, files, words.scripts)?;
    let world = open_reader(alloc, files, words.world)?;
    match words.history {
        None => Ok((texts, world, None)),
        Some(name) => Ok((texts, world, Some(create_history(files, name, words)?))),
    }
}

// A file for the history of this name, which is that of no input.
fn create_history<P: Outputs>(files: &P, name: &str, words: Words) -> Result<P::Output, CreateFault>
    ensures empty { IfOk result (λ output. P.Output.taken output ≡ P.nothing) }
    ensures inputs { IsInput (P.is_read files.now name.now) (P.is_same files.now name.now) words.entry.world.now (map (λ w. w.now) words.entry.scripts.now) → IsErr result }
    ensures barred { P.is_barred files.now name.now ≡ true → IsErr result }
{
    if is_of_word(files, name, words.world) || is_script(files, name, words.scripts) {
        return Err(CreateFault::Unwritable);
    }
    files.create_file(name)
}

// Whether the file of this name is that of one of these scripts.
fn is_script<P: Outputs>(files: &P, name: &str, scripts: &[&str]) -> bool
    ensures { list_any (P.is_same files.now name.now) (map (λ w. w.now) scripts.now) ≡ true → result ≡ true }
{
    for script in scripts {
        if files.is_same(name, script) {
            return true;
        }
    }
    false
}

// Lets the history take its name where all is told, and else nothing of it stay. Gives the status of the run.
fn end_history<P: Outputs, E: Sink>(
    files: &mut P,
    history: Option<P::Output>,
    name: Option<&str>,
    status: u8,
    err: &mut E,
) -> u8
    ensures kept { result ≡ 0 → IfSome history (λ output. IfSome name.entry (λ w. P.file files.new w.now ≡ P.Output.taken output)) }
    ensures done { result ≡ 0 → (status ≡ 0) × (err.new ≡ err.old) }
    ensures failed { status ≢ 0 → (result ≡ status) × (err.new ≡ err.old) }
    ensures told { status ≡ 0 → (result ≡ 0) ⊎ ((refusal : Refusal) × (result ≡ status_where refusal)
        × WritesUnlessFailed (E.taken err.old) (E.taken err.new) (E.failed err.old) (E.failed err.new) (refusal_line refusal)
        × (stops_run refusal ≡ true) × IsSome name.entry) }
    ensures status { result ≡ 2 → status ≡ 2 }
    ensures unchanged { result ≢ 0 → P.file files.new ≡ P.file files.old }
    ensures others { (other : List ℕ) → IsNotNamed (option_map (λ w. w.now) name.entry) other → P.file files.new other ≡ P.file files.old other }
{
    let Some(output) = history else {
        return status;
    };
    match name {
        Some(name) if status == Status::Done.code() => match files.keep(output, name) {
            Ok(()) => status,
            Err(fault) => stop(fault.into(), err),
        },
        _ => {
            files.discard(output);
            status
        }
    }
}

// The texts of the files with these names.
fn read_named<P: Inputs>(
    alloc: Global,
    files: &P,
    names: &[&str],
) -> Result<Vec<Vec<u8>>, ScriptFault>
    ensures syntax { IsErrOf result faults.Syntax → SomeTooLong (P.file files.now) (map (λ w. w.now) names.now) }
    ensures writes { ¬ (IsErrOf result faults.WriteFault) }
    ensures texts { IfOk result (λ texts. AreTexts (P.file files.now) (map (λ w. w.now) names.now) (map (λ t. t.items) texts.items)) }
    ensures missing { list_any (P.is_missing files.now) (map (λ w. w.now) names.now) ≡ true → IsErr result }
{
    let mut texts = Vec::with_capacity(alloc, names.len())?;
    for name in names {
        let mut source = files.open_file(name)?;
        let text = read_all(alloc, &mut source)?;
        texts.push(text)?;
    }
    Ok(texts)
}
