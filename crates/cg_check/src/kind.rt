//! The kinds of texts.
ghost use Rattle.std.specs.Prelude.{◌≡◌, MatchOption, Some};
ghost use Rattle.cg_check.specs.Kinds.{kind_word};
ghost use Rattle.cg_check.specs.declared.kind.Kind.{Kind};

use crate::line::places_in_request;
use cg_name::Refusal;
use cg_text::{LineWords, read_words};
use std::alloc::{AllocError, Global};
use std::fmt;

/// What a text is read as.
#[derive(Clone, Copy, Debug, PartialEq, Eq)]
pub enum Kind {
    /// The text of a world.
    World,
    /// A schedule: lines of sessions and their requests.
    Schedule,
    /// A script: the requests of one transaction.
    Script,
}

/// Shows the word for it.
impl fmt::Display for Kind {
    ghost output = { λ kind. Some (kind_word kind) };

    fn fmt<W: fmt::Write>(&self, f: &mut fmt::Formatter<W>) -> fmt::Result {
        f.write_str(self.word())
    }
}

impl Kind {
    /// The word for it.
    pub fn word(self) -> &'static str
        ensures { result.now ≡ kind_word self }
    {
        match self {
            Kind::World => "world",
            Kind::Schedule => "schedule",
            Kind::Script => "script",
        }
    }

    /// The kind for which this is the word.
    pub fn read(word: &str) -> Option<Kind>
        ensures { MatchOption result ((kind : Kind) → word.now ≡ kind_word kind → ⊥) (λ kind. word.now ≡ kind_word kind) }
    {
        match word {
            "world" => Some(Kind::World),
            "schedule" => Some(Kind::Schedule),
            "script" => Some(Kind::Script),
            _ => None,
        }
    }

    /// The kind of a text, as its first line that tells it does: a script's begins with the keyword of a request, a schedule's has
    /// one behind its first word, and a world's begins with a keyword of a world. A schedule where none does. An error where there is
    /// no memory for a line's words.
    pub fn of_text(alloc: Global, text: &[u8]) -> Result<Kind, AllocError> {
        for line in text.split(|byte| *byte == b'\n') {
            let mut words = LineWords::new(alloc);
            match read_words(line, &mut words) {
                Ok(true) => {
                    if let Some(kind) = Kind::of_words(words.as_slice()) {
                        return Ok(kind);
                    }
                }
                Ok(false) | Err(Refusal::Syntax) => {}
                Err(_) => return Err(AllocError),
            }
        }
        Ok(Kind::Schedule)
    }

    // The kind of a text with a line of these words, where they tell it.
    fn of_words(words: &[&str]) -> Option<Kind> {
        match words {
            [first, ..] if is_keyword(first) => Some(Kind::Script),
            [_, second, ..] if is_keyword(second) => Some(Kind::Schedule),
            ["world" | "controllers" | "group" | "proc" | "end", ..] => Some(Kind::World),
            _ => None,
        }
    }
}

// Whether a request begins with this word.
fn is_keyword(word: &str) -> bool {
    places_in_request(word).is_some()
}
