//! How scripts end.
ghost use Rattle.std.specs.Prelude.{◌≡◌, Some};
ghost use Rattle.cg_runner.specs.End.{end_words, tries_of};

use cg_desk::{Refusal, TxnNumber};
use std::fmt;

/// How a script ended, and how often it was begun.
#[derive(Clone, Copy, Debug, PartialEq, Eq)]
pub enum ScriptEnd {
    /// It was committed.
    Committed {
        /// The commit's number, from 1 in commit order.
        number: u32,
        /// How often it was begun.
        tries: u32,
    },
    /// It was aborted, as it says.
    Aborted {
        /// How often it was begun.
        tries: u32,
    },
    /// It was refused.
    Failed {
        /// Where: 0 is the Begin, then come its requests from 1, and behind the last what ends it.
        line: u32,
        /// Why.
        refusal: Refusal,
        /// How often it was begun.
        tries: u32,
    },
    /// Another transaction was in the way of each try.
    GaveUp {
        /// Where it was in the last try: which of its requests, from 1.
        line: u32,
        /// Which transaction that was.
        holder: TxnNumber,
        /// How often it was begun.
        tries: u32,
    },
}

impl ScriptEnd {
    /// How often the script was begun.
    pub fn tries(self) -> u32
        ensures { result ≡ tries_of self }
    {
        match self {
            ScriptEnd::Committed { tries, .. }
            | ScriptEnd::Aborted { tries }
            | ScriptEnd::Failed { tries, .. }
            | ScriptEnd::GaveUp { tries, .. } => tries,
        }
    }
}

/// Prints how the script ended and, behind `tries`, how often it was begun.
impl fmt::Display for ScriptEnd {
    ghost output = { λ end. Some (end_words end) };

    fn fmt<W: fmt::Write>(&self, f: &mut fmt::Formatter<W>) -> fmt::Result {
        match *self {
            ScriptEnd::Committed { number, tries } => write!(f, "committed {number} tries {tries}"),
            ScriptEnd::Aborted { tries } => write!(f, "aborted tries {tries}"),
            ScriptEnd::Failed {
                line,
                refusal,
                tries,
            } => write!(f, "failed {line} {refusal} tries {tries}"),
            ScriptEnd::GaveUp { tries, .. } => write!(f, "gaveup tries {tries}"),
        }
    }
}
