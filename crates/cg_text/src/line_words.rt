//! The words of a line.
ghost use Rattle.std.specs.Prelude.{◌≡◌, ◌≤◌, ◌∷◌, ◌++◌, [], IsTrue, OnErr, OnOk, length, map, true};
ghost use Rattle.std.specs.List.{list_all};
ghost use Rattle.cg_text.specs.Cutting.{starts_word};
ghost use Rattle.cg_text.specs.WordEnds.{is_usual, word_ends};
ghost use Rattle.cg_text.specs.Words.{Cuts};

use std::alloc::{AllocError, Global};
use std::marker::Model;

// How many words take no memory.
const FEW: usize = 8;

/// The words of a line, as they stand in it. Most lines have few, which take no memory.
#[derive(Drop)]
pub struct LineWords<'a> {
    // How many words there are: the first ones of `few` where it has room for all, else those of `many`.
    len: usize,
    few: [&'a str; FEW],
    many: Vec<&'a str>,
}

impl<'a> Model for LineWords<'a> {
    ghost use Rattle.std.specs.Prelude.{◌≡◌, ◌<◌, List, if◌then◌else◌, length, map, nat_le, take, ℕ};

    ghost Value = { List (List ℕ) };

    ghost view = { λ w. map (λ word. word.now) (if nat_le w.len 8 then take w.len w.few else w.many.items) };

    ghost invariant = { λ w. 8 < w.len → length w.many.items ≡ w.len };
}

impl<'a> LineWords<'a> {
    /// No words.
    pub fn new(alloc: Global) -> LineWords<'a>
        ensures { result ≡ [] }
    {
        LineWords {
            len: 0,
            few: [""; FEW],
            many: Vec::new(alloc),
        }
    }

    // Takes all words out. The room of `many` is kept, for the next long line.
    #[inline(always)]
    pub(crate) fn clear(&mut self)
        ensures { self.new ≡ [] }
    {
        self.len = 0;
    }

    // Puts the words of a line in the place of those that there are, by where they end, where there are few and one blank
    // stands between each two. False where it can't, and then nothing is told of the words.
    #[inline(always)]
    pub(crate) fn cut(&mut self, line: &'a [u8], ends: u64) -> bool
        requires short { length line.now ≤ 63 }
        requires usual { list_all is_usual line.now ≡ true }
        requires ends { ends ≡ word_ends line.now }
        ensures { IsTrue result → (starts_word line.now ≡ true) × Cuts line.now self.new }
    {
        let mut start = 0;
        let mut ends = ends;
        for place in 0..FEW {
            let end = ends.trailing_zeros() as usize;
            if start == end {
                return false;
            }
            self.few[place] = unsafe { std::str::from_utf8_unchecked(&line[start..end]) };
            // The lowest bit is taken off.
            ends &= ends - 1;
            if ends == 0 {
                self.len = place + 1;
                return true;
            }
            start = end + 1;
        }
        false
    }

    // Puts a word behind the others. An error is want of memory, and leaves the words as they were.
    #[inline(always)]
    pub(crate) fn push(&mut self, word: &'a str) -> Result<(), AllocError>
        ensures ok { OnOk result (self.new ≡ self.old ++ word.now ∷ []) }
        ensures err { OnErr result (self.new ≡ self.old) }
    {
        if self.len < FEW {
            self.few[self.len] = word;
            self.len += 1;
            return Ok(());
        }
        self.push_behind(word)
    }

    // The same where `few` has no room.
    #[cold]
    fn push_behind(&mut self, word: &'a str) -> Result<(), AllocError>
        requires full { 8 ≤ length self.old }
        ensures ok { OnOk result (self.new ≡ self.old ++ word.now ∷ []) }
        ensures err { OnErr result (self.new ≡ self.old) }
    {
        if self.len == FEW {
            let few = self.few;
            // It may have words of a line before.
            self.many.clear();
            self.many.extend_from_slice(&few)?;
        }
        self.many.push(word)?;
        self.len = self.many.len();
        Ok(())
    }

    /// The words, in order.
    #[inline(always)]
    pub fn as_slice(&self) -> &[&'a str]
        ensures { map (λ w. w.now) result.now ≡ self.now }
    {
        if self.len <= FEW {
            &self.few[..self.len]
        } else {
            self.many.as_slice()
        }
    }
}
