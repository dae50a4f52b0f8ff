//! Faults of a text, and where they are.
ghost use Rattle.std.specs.Prelude.{◌≡◌, ◌<◌, ◌≤◌, OnOk, min, vec_len, IfOk};

use std::alloc::{AllocError, Global};
use std::fmt;

/// How many faults of a text are told at most.
pub const MOST_TOLD: usize = 20;

/// What is wrong at a place of a text, and what may stand there.
#[derive(Clone, Copy)]
pub struct Fault<'a> {
    /// The line, from 1.
    pub line: usize,
    /// The byte of the line, from 1.
    pub column: usize,
    /// What is wrong there.
    pub wrong: Wrong<'a>,
}

/// What is wrong at a place, and what may stand there.
#[derive(Clone, Copy)]
pub struct Wrong<'a> {
    /// The word of which it is said, where there is one.
    pub word: Option<&'a str>,
    /// What is wrong, said of the word or by itself.
    pub is: &'static str,
    /// What may stand there.
    pub wanted: &'static str,
}

/// The faults of a text.
#[derive(Drop)]
pub struct Faults<'a> {
    /// How many there are, up to 2^64 - 1.
    pub count: u64,
    /// The first of them, 20 at most.
    pub told: Vec<Fault<'a>>,
    pub ghost first: { vec_len told ≡ min count 20 },
}

impl<'a> Faults<'a> {
    // None.
    pub(crate) fn none(alloc: Global) -> Faults<'a>
        ensures { result.count ≡ 0 }
    {
        Faults {
            count: 0,
            told: Vec::new(alloc),
        }
    }

    // One more.
    pub(crate) fn add(&mut self, fault: Fault<'a>) -> Result<(), AllocError>
        ensures { OnOk result (0 < self.new.count) }
    {
        if self.told.len() < MOST_TOLD {
            self.told.push(fault)?;
        }
        self.count = self.count.saturating_add(1);
        Ok(())
    }

    // These, or where there are none this one, said of the whole text.
    pub(crate) fn or(
        mut self,
        is: &'static str,
        wanted: &'static str,
    ) -> Result<Faults<'a>, AllocError>
        ensures { IfOk result (λ faults. 0 < faults.count) }
    {
        if self.count == 0 {
            self.add(Fault {
                line: 1,
                column: 1,
                wrong: Wrong::here(is, wanted),
            })?;
        }
        Ok(self)
    }
}

impl<'a> Wrong<'a> {
    // Said of no word.
    pub(crate) fn here(is: &'static str, wanted: &'static str) -> Wrong<'a> {
        Wrong {
            word: None,
            is,
            wanted,
        }
    }

    // Said of this word.
    pub(crate) fn of(word: &'a str, is: &'static str, wanted: &'static str) -> Wrong<'a> {
        Wrong {
            word: Some(word),
            is,
            wanted,
        }
    }
}

// The most bytes of a word that is shown.
const LONGEST_SHOWN: usize = 60;

/// Shows what is wrong and what may stand there, on one line. A word that is long, or has bytes that a terminal may not show, isn't
/// shown.
impl fmt::Display for Wrong<'_> {
    fn fmt<W: fmt::Write>(&self, f: &mut fmt::Formatter<W>) -> fmt::Result {
        match self.word {
            None => {}
            Some(word) if is_shown(word) => write!(f, "`{word}` ")?,
            Some(_) => f.write_str("this word ")?,
        }
        f.write_str(self.is)?;
        f.write_str(": ")?;
        f.write_str(self.wanted)
    }
}

// Whether a word is short, and all its bytes are printing characters of ASCII.
fn is_shown(word: &str) -> bool {
    word.len() <= LONGEST_SHOWN
        && word
            .bytes()
            .all(|byte| byte.is_ascii_graphic() || byte == b' ')
}
