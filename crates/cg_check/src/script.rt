//! Faults of a script.
ghost use Rattle.std.specs.Prelude.{◌≡◌, ◌<◌, IfOk, List, Bool};
ghost use Rattle.cg_model.specs.Cgroups.{cgroups};
ghost use Rattle.cg_model.specs.History as model;
ghost use Rattle.cg_script.specs.Script.{SpellsScript};

use crate::fault::{Fault, Faults, Wrong};
use crate::line::Line;
use crate::place::too_long;
use crate::uncut::uncut;
use cg_name::Refusal;
use cg_script::{LONGEST_SCRIPT, read_script};
use cg_text::{LineWords, read_words};
use std::alloc::{AllocError, Global};

// The most requests of a script.
const MOST_REQUESTS: usize = 65_536;

/// The faults of a script.
pub(crate) fn check_script<'a>(alloc: Global, text: &'a [u8]) -> Result<Faults<'a>, AllocError>
    ensures right { IfOk result (λ faults. faults.count ≡ 0 → (requests : List (model.Request cgroups)) × (aborts : Bool) × SpellsScript text.now requests aborts) }
    ensures wrong { IfOk result (λ faults. 0 < faults.count → (requests : List (model.Request cgroups)) (aborts : Bool) → SpellsScript text.now requests aborts → ⊥) }
{
    match read_script(alloc, text) {
        Ok(script) => {
            drop(script);
            Ok(Faults::none(alloc))
        }
        Err(Refusal::Syntax) => why_no_script(alloc, text),
        Err(_) => Err(AllocError),
    }
}

// The faults of a text that is no script: one at least.
fn why_no_script<'a>(alloc: Global, text: &'a [u8]) -> Result<Faults<'a>, AllocError>
    ensures { IfOk result (λ faults. 0 < faults.count) }
{
    let mut pass = Pass {
        requests: 0,
        has_aborted: false,
        faults: Faults::none(alloc),
    };
    let mut number = 0usize;
    for line in text.split(|byte| *byte == b'\n') {
        number = number.saturating_add(1);
        pass.take_line(alloc, number, line)?;
    }
    let mut faults = pass.faults;
    if text.len() > LONGEST_SCRIPT {
        faults.add(too_long(text, LONGEST_SCRIPT))?;
    }
    faults.or(
        "the text is no script",
        "the requests of one transaction may stand in it",
    )
}

// What was read of a script so far, and its faults.
#[derive(Drop)]
struct Pass<'a> {
    requests: usize,
    has_aborted: bool,
    faults: Faults<'a>,
}

impl<'a> Pass<'a> {
    // Takes the next line.
    fn take_line(
        &mut self,
        alloc: Global,
        number: usize,
        line: &'a [u8],
    ) -> Result<(), AllocError> {
        let mut words = LineWords::new(alloc);
        match read_words(line, &mut words) {
            Ok(false) => Ok(()),
            Ok(true) => self.take_words(
                alloc,
                Line {
                    number,
                    bytes: line,
                    words: words.as_slice(),
                },
            ),
            Err(Refusal::Syntax) => self.faults.add(uncut(number, line)),
            Err(_) => Err(AllocError),
        }
    }

    // Takes the words of the next line that says something.
    fn take_words(&mut self, alloc: Global, line: Line<'a, '_>) -> Result<(), AllocError> {
        if let Some(fault) = line.why_no_request(alloc, 0)? {
            return self.faults.add(fault);
        }
        match self.why_not_there(line) {
            Some(fault) => self.faults.add(fault),
            None => Ok(()),
        }
    }

    // Why the request of these words can't stand there.
    fn why_not_there(&mut self, line: Line<'a, '_>) -> Option<Fault<'a>> {
        if self.has_aborted {
            return Some(line.wrong_word(0, "stands behind abort", "abort ends a script"));
        }
        match line.word(0) {
            "begin" => Some(line.wrong_word(
                0,
                "stands in no script",
                "the transaction of a script begins by itself",
            )),
            "commit" => Some(line.wrong_word(
                0,
                "stands in no script",
                "a script commits behind its last request, where that isn't abort",
            )),
            "abort" => {
                self.has_aborted = true;
                None
            }
            _ => {
                self.requests = self.requests.saturating_add(1);
                (self.requests > MOST_REQUESTS).then_some(line.wrong_word(
                    0,
                    "is one request too many",
                    "a script has 65536 at most",
                ))
            }
        }
    }
}
