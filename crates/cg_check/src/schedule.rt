//! Faults of a schedule.
ghost use Rattle.std.specs.Prelude.{◌≡◌, ◌<◌, IfOk, OnOk, Some, is_some, true, option_map};
ghost use Rattle.cg_script.specs.Turns.{session_number, with_name};
ghost use Rattle.cg_check.specs.Passing.{Names, Passes};
ghost use Rattle.cg_check.specs.Right.{IsSchedule};

use crate::fault::{Fault, Faults, Wrong};
use crate::line::Line;
use crate::uncut::uncut;
use crate::want::Want;
use cg_name::Refusal;
use cg_script::{SessionName, read_line};
use cg_text::{LineWords, read_words};
use indexmap::IndexSet;
use std::alloc::{AllocError, Global};

// The most session names of a schedule.
const MOST_NAMES: usize = 4_096;

/// The faults of a schedule: of each line that says something, and no session's request, or that of a session too many.
pub(crate) fn check_schedule<'a>(alloc: Global, text: &'a [u8]) -> Result<Faults<'a>, AllocError>
    ensures right { IfOk result (λ faults. faults.count ≡ 0 → IsSchedule text.now) }
    ensures wrong { IfOk result (λ faults. 0 < faults.count → IsSchedule text.now → ⊥) }
{
    let mut faults = Faults::none(alloc);
    let mut names = IndexSet::new(alloc);
    let mut number = 0usize;
    for line in text.split(|byte| *byte == b'\n') {
        number = number.saturating_add(1);
        check_line(alloc, number, line, &mut names, &mut faults)?;
    }
    Ok(faults)
}

// Adds the fault of a line, where it has one, and else the name of its session.
fn check_line<'a>(
    alloc: Global,
    number: usize,
    line: &'a [u8],
    names: &mut IndexSet<SessionName>,
    faults: &mut Faults<'a>,
) -> Result<(), AllocError>
    ensures passes { OnOk result (faults.new.count ≡ 0 → (faults.old.count ≡ 0) × Passes names.old.keys line.now names.new.keys) }
    ensures fails { OnOk result (faults.old.count ≡ 0 → 0 < faults.new.count → (behind : Names) → Passes names.old.keys line.now behind → ⊥) }
{
    match read_line(alloc, line) {
        Ok(None) => Ok(()),
        Ok(Some((name, request))) => {
            // By a call: else its destructor is a part of this body, with a way out for each case.
            drop(request);
            if add_name(names, name)? {
                return Ok(());
            }
            faults.add(one_name_more(alloc, number, line)?)
        }
        Err(Refusal::Syntax) => faults.add(why_no_call(alloc, number, line)?),
        Err(_) => Err(AllocError),
    }
}

// Adds a session's name. False where it is one too many.
fn add_name(names: &mut IndexSet<SessionName>, name: SessionName) -> Result<bool, AllocError>
    ensures number { IfOk result (λ known. known ≡ is_some (session_number names.old.keys name)) }
    ensures names { IfOk result (λ known. known ≡ true → names.new.keys ≡ with_name names.old.keys name) }
{
    if names.get_index_of(&name).is_some() {
        return Ok(true);
    }
    if names.len() >= MOST_NAMES {
        return Ok(false);
    }
    names.insert(name)?;
    Ok(true)
}

// That the session of a line is one too many.
fn one_name_more<'a>(
    alloc: Global,
    number: usize,
    line: &'a [u8],
) -> Result<Fault<'a>, AllocError> {
    let is = "is the name of one session more than there may be";
    let wanted = "one of the 4096 names above may stand here";
    let mut words = LineWords::new(alloc);
    match read_words(line, &mut words) {
        Ok(true) => {
            let line = Line {
                number,
                bytes: line,
                words: words.as_slice(),
            };
            Ok(line.wrong_word(0, is, wanted))
        }
        Ok(false) | Err(Refusal::Syntax) => Ok(Fault {
            line: number,
            column: 1,
            wrong: Wrong::here(is, wanted),
        }),
        Err(_) => Err(AllocError),
    }
}

// Why a line is no session's request.
fn why_no_call<'a>(alloc: Global, number: usize, line: &'a [u8]) -> Result<Fault<'a>, AllocError> {
    let mut words = LineWords::new(alloc);
    match read_words(line, &mut words) {
        Ok(true) => why_no_words(
            alloc,
            Line {
                number,
                bytes: line,
                words: words.as_slice(),
            },
        ),
        Ok(false) | Err(Refusal::Syntax) => Ok(uncut(number, line)),
        Err(_) => Err(AllocError),
    }
}

// Why the words of a line are no session's request.
fn why_no_words<'a>(alloc: Global, line: Line<'a, '_>) -> Result<Fault<'a>, AllocError> {
    if let Some((offset, wrong)) = Want::Session.why_not(alloc, line.word(0))? {
        return Ok(line.fault(0, offset, wrong));
    }
    match line.why_no_request(alloc, 1)? {
        Some(fault) => Ok(fault),
        None => Ok(line.wrong_word(
            0,
            "begins no request of a session",
            "a session's name and a request may stand here",
        )),
    }
}
