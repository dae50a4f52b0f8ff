//! Why a run was refused or failed, and where scripts failed, as it is told where more is asked for.
use crate::progress::Failure;
use cg_check::{Kind, check_text};
use cg_checked_files::LONGEST_TEXT;
use cg_lines::{LineFault, read_at_most};
use cg_name::{FileName, Path, Refusal};
use cg_near::near_file;
use cg_program::{FromRead, is_standard};
use std::alloc::{AllocError, Global};
use std::fs;
use std::fs::File;

// The line of a world behind which nothing of it stands.
const END: &[u8] = b"end";

/// What may be told of a text.
#[derive(Clone, Copy, PartialEq, Eq)]
pub enum Reason {
    /// Why it can't be read.
    Unread,
    /// Its first fault. A schedule has none by which a replay is refused.
    Fault,
}

/// Tells this of the first of these worlds, and else of these other texts, each list in its order, of which there is something to
/// tell. What stood on standard input or in a pipe can't be read again, so nothing is told of it; nor is anything where there is no
/// memory.
pub fn tell_reason(rt: &HostRuntime, reason: Reason, worlds: &[&str], kind: Kind, others: &[&str]) {
    let of_worlds = first_line(rt, reason, Kind::World, worlds);
    let line = match of_worlds {
        Ok(None) => first_line(rt, reason, kind, others),
        _ => of_worlds,
    };
    if let Ok(Some(line)) = line {
        let _ = rt.eprintln(line.as_str());
    }
}

// What is told of the first of these texts of which there is something to tell.
fn first_line(
    rt: &HostRuntime,
    reason: Reason,
    kind: Kind,
    names: &[&str],
) -> Result<Option<String>, AllocError> {
    for name in names {
        let line = match reason {
            _ if is_standard(name) => None,
            Reason::Unread => unread_line(rt, name)?,
            Reason::Fault if kind == Kind::Schedule => None,
            Reason::Fault => fault_line(rt, kind, name)?,
        };
        if line.is_some() {
            return Ok(line);
        }
    }
    Ok(None)
}

// Why the file can't be read.
fn unread_line(rt: &HostRuntime, name: &str) -> Result<Option<String>, AllocError> {
    let fault = match fs::metadata(rt, name) {
        Ok(found) if found.is_dir() => {
            return Ok(Some(format!(in rt.alloc(); "{name}: this is a folder")?));
        }
        Ok(found) if found.is_file() => match File::open(rt, name) {
            Ok(_) => return Ok(None),
            Err(fault) => fault,
        },
        Ok(_) => return Ok(None),
        Err(fault) => fault,
    };
    Ok(Some(format!(in rt.alloc(); "{name}: {fault}")?))
}

// The first fault of the text of the file.
fn fault_line(rt: &HostRuntime, kind: Kind, name: &str) -> Result<Option<String>, AllocError> {
    match text_of(rt, name)? {
        Some(text) => first_fault(rt.alloc(), kind, name, part_of(kind, text.as_slice())),
        None => Ok(None),
    }
}

// The text of a regular file that can be read.
fn text_of(rt: &HostRuntime, name: &str) -> Result<Option<Vec<u8>>, AllocError> {
    match fs::metadata(rt, name) {
        Ok(found) if found.is_file() => {}
        _ => return Ok(None),
    }
    let Ok(file) = File::open(rt, name) else {
        return Ok(None);
    };
    match read_at_most(rt.alloc(), &mut FromRead::new(file), LONGEST_TEXT) {
        Ok(text) => Ok(text),
        Err(LineFault::Read) => Ok(None),
        Err(LineFault::Memory) => Err(AllocError),
    }
}

// The first fault of the text, as `check` tells it.
fn first_fault(
    alloc: Global,
    kind: Kind,
    name: &str,
    text: &[u8],
) -> Result<Option<String>, AllocError> {
    let faults = check_text(alloc, kind, text)?;
    match faults.told.first() {
        Some(fault) => {
            let (line, column, wrong) = (fault.line, fault.column, fault.wrong);
            Ok(Some(format!(in alloc; "{name}:{line}:{column}: {wrong}")?))
        }
        None => Ok(None),
    }
}

/// Tells of scripts that failed or gave up where in their texts, as far as these can be read again.
pub fn tell_failures(rt: &HostRuntime, scripts: &[&str], failures: &[Failure]) {
    for failure in failures {
        if let Some(name) = scripts.get((failure.script as usize).saturating_sub(1)) {
            tell_failure(rt, name, failure);
        }
    }
}

/// Tells what is wrong with the words of a path and of a file that isn't shown. Whether there was anything to tell.
pub fn tell_words(rt: &HostRuntime, path: &str, file: &str) -> bool {
    match words_line(rt.alloc(), path, file) {
        Ok(Some(line)) => {
            let _ = rt.eprintln(line.as_str());
            true
        }
        Ok(None) | Err(AllocError) => false,
    }
}

// The first of the words that is none.
fn words_line(alloc: Global, path: &str, file: &str) -> Result<Option<String>, AllocError> {
    match Path::read(alloc, path) {
        Ok(_) => {}
        Err(Refusal::Memory) => return Err(AllocError),
        Err(_) => {
            return Ok(Some(format!(in alloc;
                "`{path}` is no path: / or at most 64 names with a / before each may stand here"
            )?));
        }
    }
    if FileName::read(file).is_ok() {
        return Ok(None);
    }
    let near = match near_file(alloc, file)? {
        Some(near) => near.word(),
        None => "the name of an interface file, as cgroup.procs,",
    };
    Ok(Some(format!(in alloc; "`{file}` is no interface file: {near} may stand here")?))
}

// Tells it of one.
fn tell_failure(rt: &HostRuntime, name: &str, failure: &Failure) {
    let refusal = failure.refusal;
    let line = match text_of(rt, name) {
        Ok(Some(text)) => line_of(text.as_slice(), failure.request),
        Ok(None) | Err(AllocError) => None,
    };
    let _ = match line {
        Some(line) => eprintln!(rt; "{name}:{line}: {refusal}"),
        None => eprintln!(rt; "{name}: {refusal}"),
    };
}

// The number of the line of a script's request, where it has that one.
fn line_of(text: &[u8], request: u32) -> Option<usize> {
    let mut left = request;
    let mut number: usize = 0;
    for line in text.split(|byte| *byte == b'\n') {
        number = number.saturating_add(1);
        if left > 0 && says_something(line) {
            left -= 1;
            if left == 0 {
                return Some(number);
            }
        }
    }
    None
}

// Whether a line isn't blank and no comment.
fn says_something(line: &[u8]) -> bool {
    match line.trim_ascii_start().first() {
        Some(byte) => *byte != b'#',
        None => false,
    }
}

// The part of a text that a run reads: of a world its lines through `end`.
fn part_of(kind: Kind, text: &[u8]) -> &[u8] {
    if kind != Kind::World {
        return text;
    }
    let mut length: usize = 0;
    for line in text.split(|byte| *byte == b'\n') {
        length = length.saturating_add(line.len()).saturating_add(1);
        if line.trim_ascii() == END {
            break;
        }
    }
    &text[..length.min(text.len())]
}
