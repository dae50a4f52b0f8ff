//! Sets of CPU numbers that fit in a word.
ghost use Rattle.std.specs.Prelude.{◌≡◌, ◌≤◌, ℕ, IfNone, IfSome, IsTrue};
ghost use Rattle.std.proofs.Common.{nat_eq, rules};
ghost use Rattle.std.specs.Cmp.Lexicographic.{pointwise};
ghost use Rattle.std.specs.Cmp.Rules.{comparing};
ghost use Rattle.cg_maps.specs.FiniteSet.{has, members};

use crate::cpus::BoxedCpus;
use cg_cpus::CpuSet;
use std::marker::Model;

/// A set of CPU numbers below 64, as the bits of a word.
#[derive(Clone, Copy)]
pub struct LowCpus {
    pub(crate) word: u64,
}

// Beside a path it is no larger than what the other commands have.
const _: () = prove!(size_of::<LowCpus>() == 8);

impl Model for LowCpus {
    ghost use Rattle.std.specs.Prelude.{◌<◌, ◌^◌};
    ghost use Rattle.cg_maps.specs.FiniteSet.{FiniteSet};

    ghost Value = { FiniteSet };

    ghost use Rattle.cg_cpus.specs.Words.{low_set};
    ghost use Rattle.cg_boxed.specs.LowBack.{low_word, word_back};

    ghost view = { λ l. low_set l.word };

    ghost invariant = { λ l. l.word < 2 ^ 64 };

    ghost inverse = { λ s. record { word = low_word s } };

    ghost inverse_ok = { λ l h i. record { word = word_back l.word h i } };
}

impl PartialEq for LowCpus {
    ghost eq = { λ s t. pointwise nat_eq (members s) (members t) };

    ghost laws = { Prim.search (comparing, rules) };

    fn eq(&self, other: &LowCpus) -> bool {
        self.word == other.word
    }
}

impl Eq for LowCpus {
    ghost laws = { Prim.search (comparing, rules) };
}

impl LowCpus {
    /// That set; `None` where one of its numbers is 64 or more.
    #[inline(always)]
    pub fn of(cpus: &CpuSet) -> Option<LowCpus>
        ensures value { IfSome result (λ low. low ≡ cpus.now) }
        ensures none { IfNone result ((n : ℕ) × IsTrue (has cpus.now n) × (64 ≤ n)) }
    {
        let word = cpus.low()?;
        Some(LowCpus { word })
    }

    /// The set.
    pub fn get(&self) -> CpuSet
        ensures { result ≡ self.now }
    {
        CpuSet::from_low(self.word)
    }

    /// The same set, as groups keep it. Takes no memory.
    pub fn boxed(&self) -> BoxedCpus
        ensures { result ≡ self.now }
    {
        BoxedCpus::from_low(self.word)
    }
}
