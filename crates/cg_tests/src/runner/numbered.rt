//! Files that are watched beside eight workers: of each line the number and the value, held to the history.
ghost use Rattle.std.specs.Prelude.{◌≤◌, IfOk, vec_len};

use crate::opening::{LARGER, world};
use crate::runner::gates::Open;
use crate::runner::running::{few, refusal_of};
use crate::views::prefixes::{FILES, Text, texts_by_commits};
use cg_command::BoxedText;
use cg_desk::{Answer, Core};
use cg_lines::FromWrite;
use cg_name::Refusal;
use cg_runner::RunReport;
use cg_script::{Script, read_script, write_answer};
use cg_watch::{Watch, run_watched};
use std::alloc::{AllocError, Global};
use std::sync::Wait;
use std::thread::Threads;

// A watch whose lines are kept.
type KeptWatch<'a> = Watch<FromWrite<&'a mut Vec<u8>>>;

// Scripts that change what is watched. Where others were first, some are refused.
static TEXTS: [&str; 9] = [
    "create /a\nmigrate 11 /a\n",
    "create /s\nmaxdescendants /s 1\n",
    "migrate 11 /\n",
    "create /d\ncreate /d/x\nmigrate 10 /d/x\n",
    "remove /s\n",
    "create /h\nfreeze /h 1\n",
    "remove /a\n",
    "migrate 10 /\nremove /d/x\nremove /d\n",
    "remove /h\n",
];

// So often each of them is run.
const ROUNDS: usize = 20;

const WORKERS: u32 = 8;

const TRIES: u32 = 1_000;

// These scripts, so often.
fn scripts(alloc: Global) -> Result<Vec<Script>, Refusal>
    ensures { IfOk result (λ scripts. vec_len scripts ≤ 4096) }
{
    let mut scripts = Vec::new(alloc);
    for place in 0..ROUNDS * TEXTS.len() {
        let text = TEXTS[place % TEXTS.len()];
        scripts.push(read_script(alloc, text.as_bytes())?)?;
    }
    few(scripts)
}

// A watch of each of the files, which keeps its lines in a text of these.
fn watches(alloc: Global, kept: &mut [Vec<u8>]) -> Result<Vec<KeptWatch<'_>>, Refusal> {
    let mut watches = Vec::new(alloc);
    for ((path, name), text) in FILES.iter().zip(kept.iter_mut()) {
        let word = format!(in alloc; "{path}:{name}")?;
        let watch = Watch::read(alloc, word.as_str(), FromWrite::new(text));
        watches.push(watch.map_err(|fault| fault.refusal())?)?;
    }
    Ok(watches)
}

// Runs the scripts beside a watch of each file, and what these told.
fn run<R: Threads + Wait + Sync>(
    rt: &R,
    alloc: Global,
    kept: &mut [Vec<u8>],
) -> Result<RunReport, Refusal> {
    let mut watches = watches(alloc, kept)?;
    let world = world(alloc, LARGER)?;
    let scripts = scripts(alloc)?;
    let gate = Open;
    run_watched(
        rt,
        alloc,
        &gate,
        &mut watches,
        world,
        scripts,
        WORKERS,
        TRIES,
    )
    .map_err(|fault| { refusal_of(fault) })
}

// The line of the file that was so behind so many commits.
fn line_of(alloc: Global, file: usize, commits: usize, text: &Text) -> Result<Vec<u8>, AllocError> {
    let (path, name) = FILES[file % FILES.len()];
    let head = format!(in alloc; "watch {path}:{name} commits {commits}: ")?;
    let mut line = head.into_bytes();
    let answer = match text {
        Ok(text) => Answer::Text(BoxedText::new(alloc, text.as_slice())?),
        Err(refusal) => Answer::Refused(*refusal),
    };
    write_answer(&answer, &mut line)?;
    Ok(line)
}

// What the file's line is behind no commit, behind the first one, and so on to the last.
fn lines_of(alloc: Global, file: usize, texts: &[Vec<Text>]) -> Result<Vec<Vec<u8>>, AllocError> {
    let mut lines = Vec::new(alloc);
    for (commits, texts) in texts.iter().enumerate() {
        lines.push(line_of(alloc, file, commits, &texts[file])?)?;
    }
    Ok(lines)
}

// Behind how many commits the last line stands, where all that was told are such lines, each behind more commits than the one before,
// and the first one behind none.
fn last_told(lines: &[Vec<u8>], told: &[u8]) -> Option<usize> {
    let mut last = None;
    for one in told.strip_suffix(b"\n")?.split(|byte| *byte == b'\n') {
        let next = last.map_or(0, |last| last + 1);
        let further = lines[next..]
            .iter()
            .position(|line| line.as_slice() == one)?;
        if next == 0 && further > 0 {
            return None;
        }
        last = Some(next + further);
    }
    last
}

// Whether the watch of the file told nothing but such lines, and at last what is left.
fn is_true(
    alloc: Global,
    file: usize,
    texts: &[Vec<Text>],
    told: &[u8],
) -> Result<bool, AllocError> {
    let lines = lines_of(alloc, file, texts)?;
    match (last_told(lines.as_slice(), told), texts.last()) {
        (Some(commits), Some(left)) => {
            let line = line_of(alloc, file, commits, &left[file])?;
            Ok(line.as_slice() == lines[commits].as_slice())
        }
        _ => Ok(false),
    }
}

// The first of the files of which something else was told.
fn first_wrong(alloc: Global, core: &Core, kept: &[Vec<u8>]) -> Result<Option<usize>, Refusal> {
    let texts = texts_by_commits(alloc, core)?;
    for (file, told) in kept.iter().enumerate() {
        if !is_true(alloc, file, texts.as_slice(), told.as_slice())? {
            return Ok(Some(file));
        }
    }
    Ok(None)
}

// The same of a run.
fn first_wrong_of_run<R: Threads + Wait + Sync>(
    rt: &R,
    alloc: Global,
) -> Result<Option<usize>, Refusal> {
    let mut kept = Vec::new(alloc);
    for _ in &FILES {
        kept.push(Vec::new(alloc))?;
    }
    let report = run(rt, alloc, kept.as_mut_slice())?;
    let wrong = first_wrong(alloc, &report.core, kept.as_slice());
    drop(report);
    wrong
}

#[test]
fn what_watches_tell_is_behind_as_many_commits(rt: HostRuntime) {
    assert!(rt; first_wrong_of_run(&rt, rt.alloc()) == Ok(None));
}
