//! Replays schedules of requests against a tree of control groups: `cgtx replay WORLD SCHEDULE` reads a world and the
//! lines of a schedule, and writes the answers and the tree that results. With no words both come on standard input.
//! `cgtx show WORLD PATH FILE` reads a world and writes an interface file of a group; `cgtx tree WORLD` writes its groups, one
//! below the other. `cgtx diff WORLD-1 WORLD-2` reads two worlds and writes what changed from the one to the other, and `cgtx plan
//! WORLD-1 WORLD-2` a script that turns the one into the other. `cgtx run WORLD SCRIPT...` runs scripts, each a transaction, over
//! a world, and writes how they ended and the world that they left. `cgtx check FILE...` tells what is wrong with worlds, schedules
//! and scripts, and where. `cgtx import` writes the world of a mounted tree.
#![tactic(auto)]

mod colour;
mod host;
mod paths;
mod progress;
mod reasons;
mod telling;

use crate::colour::{Coloured, is_coloured};
use crate::host::{Host, hold_standard};
use crate::paths::quoted;
use crate::progress::Progress;
use crate::reasons::{tell_failures, tell_words};
use crate::telling::Console;
use cg_batch::{BatchForm, Watch, Words, run_named};
use cg_check::Kind;
use cg_checked_files::check_named;
use cg_command_line::{
    Asked, Batch, Import, Plan, Replay, ReplayForm, Telling, Unasked, read_command_line,
};
use cg_diff::diff_named;
use cg_explain::Comments;
use cg_import::import_named;
use cg_json::Form;
use cg_json_program::{Json, show_json_named};
use cg_outline::outline_named;
use cg_plan::{PlanForm, plan_named};
use cg_program::{FromWrite, Plain, Playback, ScriptFault, Status, replay_named, show_named, stop};
use std::io::IsTerminal;
use std::process::ExitCode;
use std::rt::Stderr;
use std::sync::Wait;
use std::thread::Threads;
use std::{env, io};

// The status of a run of scripts that didn't all commit, where that was asked for.
const UNMET: u8 = 1;

fn main(rt: HostRuntime) -> ExitCode {
    hold_standard(&rt);
    ExitCode::from(match words(&rt) {
        Ok(words) => run(&rt, &rt, words.as_slice()),
        Err(fault) if fault.kind() == io::ErrorKind::OutOfMemory => tell(&rt, ScriptFault::Memory),
        Err(_) => {
            let _ = rt.eprintln("cgtx: a word is not UTF-8");
            Status::Refused.code()
        }
    })
}

// The words of the command line, the program's name first.
fn words(rt: &HostRuntime) -> io::Result<Vec<String>> {
    Ok(env::args(rt)?.collect(rt.alloc())?)
}

// Does what the words ask, with threads of `workers` where they ask for any, and gives the status.
fn run<R: Threads + Wait + Eprint + Sync>(rt: &HostRuntime, workers: &R, words: &[String]) -> u8 {
    match read_command_line(rt, words) {
        Ok(line) => {
            let console = Console {
                rt,
                telling: line.telling,
            };
            answer(console, workers, &line.asked)
        }
        Err(Unasked::Helped) => Status::Done.code(),
        Err(Unasked::Refused) => Status::Refused.code(),
        Err(Unasked::TooManyScripts | Unasked::TooManyWatches) => tell(rt, ScriptFault::Syntax),
        Err(Unasked::Unwritten) => tell(rt, ScriptFault::WriteFault),
        Err(Unasked::Memory) => tell(rt, ScriptFault::Memory),
    }
}

// Does what is asked, and gives the status.
fn answer<R: Threads + Wait + Eprint + Sync>(
    console: Console<'_>,
    workers: &R,
    asked: &Asked<'_>,
) -> u8 {
    match asked {
        Asked::Replay(asked) => replay(console, asked),
        Asked::Show {
            world,
            path,
            file,
            is_json,
        } => show(console, world, path, file, form_of(*is_json)),
        Asked::Tree {
            world,
            depth,
            is_json,
        } => tree(console, world, *depth, form_of(*is_json)),
        Asked::Diff { before, after } => diff(console, before, after),
        Asked::Plan(asked) => plan(console, asked),
        Asked::Run(batch) => run_batch(console, workers, batch),
        Asked::Check {
            kind,
            files,
            is_json,
        } => check(console, *kind, files.as_slice(), form_of(*is_json)),
        Asked::Import(asked) => import(console, asked),
    }
}

// The form in which all is told.
fn form_of(is_json: bool) -> Form {
    if is_json { Form::Json } else { Form::Plain }
}

// Replays what the words name, in the form that is asked for.
fn replay(console: Console<'_>, asked: &Replay) -> u8 {
    match asked.form {
        // Who looks for refused requests is the one that comments, though it be asked for no comment.
        ReplayForm::Plain if asked.is_strict => {
            let (echo, explain) = (false, false);
            replay_by(console, asked, &Comments { echo, explain })
        }
        ReplayForm::Plain => replay_by(console, asked, &Plain),
        ReplayForm::Comments { echo, explain } => {
            replay_by(console, asked, &Comments { echo, explain })
        }
        ReplayForm::Json => replay_by(console, asked, &Json),
    }
}

// Replays what the words name, played so.
fn replay_by<B: Playback>(console: Console<'_>, asked: &Replay, playback: &B) -> u8 {
    let rt = console.rt;
    let (mut out, mut err) = (console.out(), console.err());
    let (world, schedule) = (asked.world, asked.schedule);
    let status = replay_named(
        rt.alloc(),
        &mut Host(rt),
        playback,
        world,
        schedule,
        asked.history,
        asked.is_strict,
        &mut out,
        &mut err,
    );
    console.ended(status, &[world], Kind::Schedule, &[schedule])
}

// Shows the file that the words name.
fn show(console: Console<'_>, world: &str, path: &str, file: &str, form: Form) -> u8 {
    let rt = console.rt;
    let (mut out, mut err) = (console.out(), console.err());
    let Ok(quoted) = quoted(rt.alloc(), path) else {
        return stop(ScriptFault::Memory, &mut err);
    };
    let path = match &quoted {
        Some(word) => word.as_str(),
        None => path,
    };
    let (alloc, inputs) = (rt.alloc(), Host(rt));
    let status = match form {
        Form::Plain => show_named(alloc, &inputs, world, path, file, &mut out, &mut err),
        Form::Json => show_json_named(alloc, &inputs, world, path, file, &mut out, &mut err),
    };
    if console.telling == Telling::Verbose && status == Status::Refused.code() {
        if tell_words(rt, path, file) {
            return status;
        }
    }
    console.ended(status, &[world], Kind::Schedule, &[])
}

// Shows the groups of the world that the word names, the paths of an outline in bold where a terminal shows it.
fn tree(console: Console<'_>, world: &str, depth: u32, form: Form) -> u8 {
    let rt = console.rt;
    let (alloc, inputs) = (rt.alloc(), Host(rt));
    let mut err = console.err();
    let status = match form {
        Form::Plain if is_coloured(rt) => {
            let mut out = FromWrite::new(Coloured::new(rt.stdout()));
            outline_named(alloc, &inputs, world, depth, form, &mut out, &mut err)
        }
        _ => outline_named(
            alloc,
            &inputs,
            world,
            depth,
            form,
            &mut console.out(),
            &mut err,
        ),
    };
    console.ended(status, &[world], Kind::Schedule, &[])
}

// Tells what changed from the one world to the other, which the words name.
fn diff(console: Console<'_>, before: &str, after: &str) -> u8 {
    let rt = console.rt;
    let (mut out, mut err) = (console.out(), console.err());
    let status = diff_named(rt.alloc(), &Host(rt), before, after, &mut out, &mut err);
    console.ended(status, &[before, after], Kind::Schedule, &[])
}

// Writes a script that turns the one world into the other, which the words name.
fn plan(console: Console<'_>, asked: &Plan) -> u8 {
    let rt = console.rt;
    let (mut out, mut err) = (console.out(), console.err());
    let (from, to) = (asked.from, asked.to);
    let form = match asked.shell {
        Some(root) => PlanForm::Shell { root },
        None if asked.is_json => PlanForm::Json,
        None => PlanForm::Script,
    };
    let status = plan_named(rt.alloc(), &Host(rt), from, to, form, &mut out, &mut err);
    console.ended(status, &[from, to], Kind::Schedule, &[])
}

// Checks the texts that the words name, as of this kind where one is given.
fn check(console: Console<'_>, kind: Option<&str>, files: &[&str], form: Form) -> u8 {
    let rt = console.rt;
    let (mut out, mut err) = (console.out(), console.err());
    let kind = kind.and_then(Kind::read);
    let status = check_named(rt.alloc(), &Host(rt), kind, files, form, &mut out, &mut err);
    // As of schedules, of which no fault is told once more.
    console.ended(status, &[], Kind::Schedule, files)
}

// Prints the world of a mounted tree.
fn import(console: Console<'_>, asked: &Import) -> u8 {
    let host = Host(console.rt);
    let (mut out, mut err) = (console.out(), console.err());
    let (root, online) = (asked.root, asked.online);
    import_named(
        console.rt.alloc(),
        &host,
        root,
        online,
        asked.is_strict,
        &mut out,
        &mut err,
    )
}

// Runs the scripts that the words name.
fn run_batch<R: Threads + Wait + Eprint + Sync>(
    console: Console<'_>,
    workers: &R,
    batch: &Batch,
) -> u8 {
    let rt = console.rt;
    let mut watches = match watches(rt, batch.watches.as_slice()) {
        Ok(watches) => watches,
        Err(fault) => return stop(fault, &mut console.err()),
    };
    let scripts = batch.scripts.as_slice();
    let words = Words {
        world: batch.world,
        scripts,
        history: batch.history,
    };
    let is_shown = shows_progress(console, watches.as_slice());
    let mut progress = Progress::new(workers, rt.alloc(), is_shown, scripts.len());
    let (mut out, mut err) = (console.out(), console.err());
    let status = run_named(
        workers,
        rt.alloc(),
        &mut Host(rt),
        &progress,
        &mut watches,
        words,
        batch.workers,
        batch.tries,
        form_of_batch(batch),
        &mut out,
        &mut err,
    );
    if status == Status::Done.code() {
        if console.telling == Telling::Verbose {
            tell_failures(rt, scripts, progress.failures());
        }
        if batch.is_strict && !progress.are_all_committed() {
            return UNMET;
        }
    }
    console.ended(status, &[batch.world], Kind::Script, scripts)
}

// The form in which a run of scripts is told. No run is asked for both as JSON and with comments.
fn form_of_batch(batch: &Batch) -> BatchForm {
    match (batch.is_json, batch.is_explained) {
        (true, _) => BatchForm::Json,
        (false, true) => BatchForm::Explained,
        (false, false) => BatchForm::Plain,
    }
}

// Whether a terminal shows how far a run is. Its line is rewritten, and would stand between those of watches.
fn shows_progress<S>(console: Console<'_>, watches: &[Watch<S>]) -> bool {
    watches.is_empty() && console.telling != Telling::Quiet && console.rt.stderr().is_terminal()
}

// The watches of the files that the words name.
fn watches(rt: &HostRuntime, words: &[&str]) -> Result<Vec<Watch<FromWrite<Stderr>>>, ScriptFault> {
    let mut watches = Vec::with_capacity(rt.alloc(), words.len())?;
    for word in words {
        watches.push(Watch::read(rt.alloc(), word, FromWrite::new(rt.stderr()))?)?;
    }
    Ok(watches)
}

// Tells a fault, and gives the status.
fn tell(rt: &HostRuntime, fault: ScriptFault) -> u8 {
    stop(fault, &mut FromWrite::new(rt.stderr()))
}
