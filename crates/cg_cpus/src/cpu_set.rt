//! Sets of CPU numbers.
ghost use Rattle.std.specs.Prelude.{◌≡◌, ◌∷◌, [], not, cond, ◌++◌, ◌+◌, ◌-◌, ◌*◌, ◌/◌, ◌%◌, ◌<◌, ◌≤◌, ◌↔◌, ◌⊎◌, IsTrue, IfOk, IfErr, IfNone, IfSome, OnOk, OnErr, ℕ};
ghost use Rattle.std.proofs.Common.{nat_eq, rules};
ghost use Rattle.std.specs.Cmp.Lexicographic.{pointwise};
ghost use Rattle.std.specs.Cmp.Rules.{comparing};
ghost use Rattle.std.specs.Result.{IsErrOf};
ghost use Rattle.std.specs.Int.{bit_at};
ghost use Rattle.cg_maps.specs.FiniteSet.{FiniteSet, has, in_common, is_empty_set, members, no_members, with_member};
ghost use Rattle.cg_name.specs.declared.refusal.Refusal.TheVariants.{Syntax};
ghost use Rattle.cg_cpus.specs.Ascending.{runs_from};
ghost use Rattle.cg_name.specs.Reads.{Reads};
ghost use Rattle.cg_cpus.specs.CpuList.{cpus_text, SpellsCpus};
ghost use Rattle.cg_cpus.specs.Words.{low_set};

use crate::list;
use cg_name::{Refusal, or_truncate};
use std::alloc::AllocError;
use std::marker::Model;
use std::str::FromStr;

/// A set of CPU numbers, each from 0 to 1,023.
#[derive(Clone, Copy, Debug)]
pub struct CpuSet {
    words: [u64; 16],
}

impl Model for CpuSet {
    ghost use Rattle.cg_maps.specs.FiniteSet.{FiniteSet};
    ghost use Rattle.cg_maps.specs.Code.{set_code};
    ghost use Rattle.cg_cpus.specs.Words.{AreWords, set_in, words_of};
    ghost use Rattle.cg_cpus.specs.WordsBack.{words_back};

    ghost Value = { FiniteSet };

    ghost coded = { set_code };

    ghost view = { λ s. set_in s.words };

    ghost invariant = { λ s. AreWords s.words };

    ghost inverse = { λ s. record { words = words_of s } };

    ghost inverse_ok = { λ s h i. record { words = words_back s.words h i } };
}

impl PartialEq for CpuSet {
    ghost eq = { λ s t. pointwise nat_eq (members s) (members t) };

    ghost laws = { Prim.search (comparing, rules) };

    fn eq(&self, other: &CpuSet) -> bool {
        self.words == other.words
    }
}

impl Eq for CpuSet {
    ghost laws = { Prim.search (comparing, rules) };
}

/// The set of no number.
impl Default for CpuSet {
    ghost is_default = { λ s. s ≡ no_members };

    fn default() -> CpuSet {
        CpuSet::empty()
    }
}

impl FromStr for CpuSet {
    type Err = Refusal;

    ghost from_str_gives = { Reads SpellsCpus };

    fn from_str(text: &str) -> Result<CpuSet, Refusal> {
        CpuSet::read(text)
    }
}

impl CpuSet {
    /// One more than the greatest number that a set can have.
    pub const LIMIT: u16 = 1024;

    /// The set of no number.
    pub fn empty() -> CpuSet
        ensures { result ≡ no_members }
    {
        CpuSet { words: [0; 16] }
    }

    /// The set of the numbers below 64 whose bits the word has.
    pub fn from_low(word: u64) -> CpuSet
        ensures { result ≡ low_set word }
    {
        let mut words = [0; 16];
        words[0] = word;
        CpuSet { words }
    }

    /// The word whose bits are the set's numbers; `None` where one of them is 64 or more.
    pub fn low(&self) -> Option<u64>
        ensures value { IfSome result (λ word. self.now ≡ low_set word) }
        ensures none { IfNone result ((n : ℕ) × IsTrue (has self.now n) × (64 ≤ n)) }
    {
        if self.words[1..].iter().all(|word| *word == 0) {
            Some(self.words[0])
        } else {
            None
        }
    }

    /// Whether the number is in the set; no number from 1,024 on is.
    pub fn contains(&self, cpu: u16) -> bool
        ensures member { result ≡ has self.now cpu }
        ensures below { (n : ℕ) → IsTrue (has self.now n) → n < 1024 }
    {
        cpu < CpuSet::LIMIT && self.words[usize::from(cpu / 64)] >> (cpu % 64) & 1 == 1
    }

    /// Whether the set has no number.
    pub fn is_empty(&self) -> bool
        ensures { result ≡ is_empty_set self.now }
    {
        self.words.iter().all(|word| *word == 0)
    }

    /// Puts in the number, which is at most 1,023.
    pub fn insert(&mut self, cpu: u16)
        requires { cpu < 1024 }
        ensures { self.new ≡ with_member self.old cpu }
    {
        self.words[usize::from(cpu / 64)] |= 1 << (cpu % 64);
    }

    // Puts in every number from the first to the last.
    pub(crate) fn insert_range(&mut self, first: u16, last: u16)
        requires order { first ≤ last }
        requires below { last < 1024 }
        ensures { (n : ℕ) → IsTrue (has self.new n) ↔ (IsTrue (has self.old n) ⊎ ((first ≤ n) × (n ≤ last))) }
    {
        for index in first / 64..last / 64 + 1 {
            self.words[usize::from(index)] |= bits_of_range(first, last, index);
        }
    }

    /// The greatest number of the set; `None` where it is empty.
    pub fn last(&self) -> Option<u16>
        ensures member { IfSome result (λ cpu. IsTrue (has self.now cpu)) }
        ensures greatest { IfSome result (λ cpu. (n : ℕ) → IsTrue (has self.now n) → n ≤ cpu) }
        ensures none { IfNone result (self.now ≡ no_members) }
        ensures below { (n : ℕ) → IsTrue (has self.now n) → n < 1024 }
    {
        // No word from `end` on has a bit.
        let mut end = self.words.len();
        while end > 0 {
            end -= 1;
            let word = self.words[end];
            if word != 0 {
                return Some(end as u16 * 64 + (63 - word.leading_zeros() as u16));
            }
        }
        None
    }

    /// Leaves those of its numbers that the other set has too, or all of them where there are none.
    pub fn narrow(&mut self, by: &CpuSet)
        ensures { let both = in_common by.now self.old in self.new ≡ cond (is_empty_set both) self.old both }
    {
        // The loop has no way out, so that the compiler can take several words at once.
        let mut common = by.words;
        let mut bits = 0;
        for i in 0..common.len() {
            common[i] &= self.words[i];
            bits |= common[i];
        }
        if bits != 0 {
            self.words = common;
        }
    }

    /// Leaves those of its numbers that are below 64 and whose bits the word has, or all of them where there are none.
    pub fn narrow_low(&mut self, word: u64)
        ensures { let both = in_common (low_set word) self.old in self.new ≡ cond (is_empty_set both) self.old both }
    {
        let common = word & self.words[0];
        if common != 0 {
            *self = CpuSet::from_low(common);
        }
    }

    // The first number from `from` on that is in the set, or that isn't; 1,024 where none is.
    fn first_where(&self, from: u16, present: bool) -> u16
        requires { from ≤ 1024 }
        ensures bounds { (from ≤ result) × (result ≤ 1024) }
        ensures before { (n : ℕ) → from ≤ n → n < result → has self.now n ≡ not present }
        ensures here { result < 1024 → has self.now result ≡ present }
    {
        if from == CpuSet::LIMIT {
            return CpuSet::LIMIT;
        }
        let found = self.bits_from(from, present);
        if found != 0 {
            return from + found.trailing_zeros() as u16;
        }
        self.first_from_word(from / 64 + 1, present)
    }

    // The same from the first number of this word on, so that no word has to be cut.
    fn first_from_word(&self, first: u16, present: bool) -> u16
        requires { first ≤ 16 }
        ensures bounds { (first * 64 ≤ result) × (result ≤ 1024) }
        ensures before { (n : ℕ) → first * 64 ≤ n → n < result → has self.now n ≡ not present }
        ensures here { result < 1024 → has self.now result ≡ present }
    {
        for index in first..CpuSet::LIMIT / 64 {
            let cpu = index * 64;
            let found = self.bits_from(cpu, present);
            if found != 0 {
                return cpu + found.trailing_zeros() as u16;
            }
        }
        CpuSet::LIMIT
    }

    // The rest of a word from this number on, a bit set for each number that is in the set, or that isn't.
    fn bits_from(&self, cpu: u16, present: bool) -> u64
        requires { cpu < 1024 }
        ensures found { (k : ℕ) → k < 64 - cpu % 64 → bit_at result k ≡ 1 → has self.now (cpu + k) ≡ present }
        ensures passed { (k : ℕ) → k < 64 - cpu % 64 → bit_at result k ≡ 0 → has self.now (cpu + k) ≡ not present }
        ensures rest { (k : ℕ) → 64 - cpu % 64 ≤ k → bit_at result k ≡ 0 }
    {
        let word = self.words[usize::from(cpu / 64)];
        (if present { word } else { !word }) >> (cpu % 64)
    }

    // The first run from `from` on, as its first and last number.
    pub(crate) fn run_from(&self, from: u16) -> Option<(u16, u16)>
        requires { from ≤ 1024 }
        ensures run { IfSome result (λ r. runs_from self.now from ≡ r ∷ runs_from self.now (r.1 + 1)) }
        ensures bounds { IfSome result (λ r. (from ≤ r.0) × (r.0 ≤ r.1) × (r.1 < 1024)) }
        ensures none { IfNone result (runs_from self.now from ≡ []) }
    {
        let first = self.first_where(from, true);
        if first == CpuSet::LIMIT {
            return None;
        }
        let end = self.first_where(first, false);
        Some((first, end - 1))
    }

    /// The set that a list of numbers and ranges spells, as `0-4,6`; `Syntax` where it spells none.
    pub fn read(text: &str) -> Result<CpuSet, Refusal>
        ensures value { IfOk result (λ s. SpellsCpus text.now s) }
        ensures syntax { IsErrOf result Syntax → (s : FiniteSet) → SpellsCpus text.now s → ⊥ }
        ensures refusals { IfErr result (λ e. e ≡ Syntax) }
        ensures below { IfOk result (λ s. (n : ℕ) → IsTrue (has s n) → n < 1024) }
    {
        list::read(text)
    }

    /// Appends the set's list: its runs, ascending, as `0-4,6`. An error, where there is no memory, leaves `out` as it
    /// was.
    pub fn write(&self, out: &mut Vec<u8>) -> Result<(), AllocError>
        ensures ok { OnOk result (out.new.items ≡ out.old.items ++ cpus_text self.now) }
        ensures err { OnErr result (out.new.items ≡ out.old.items) }
        ensures below { (n : ℕ) → IsTrue (has self.now n) → n < 1024 }
    {
        // What is known of the words bounds the numbers.
        let _ = &self.words;
        let start = out.len();
        let written = list::append_runs(self, out);
        or_truncate(written, start, out)
    }
}

// The numbers from the first to the last that stand in the word of this index, a bit set for each.
fn bits_of_range(first: u16, last: u16, index: u16) -> u64
    requires { (first / 64 ≤ index) × (index ≤ last / 64) }
    ensures { (k : ℕ) → k < 64 → (bit_at result k ≡ 1) ↔ ((first ≤ index * 64 + k) × (index * 64 + k ≤ last)) }
{
    let start = index * 64;
    let low = first.saturating_sub(start);
    let high = (last - start).min(63);
    (u64::MAX << low) & (u64::MAX >> (63 - high))
}
