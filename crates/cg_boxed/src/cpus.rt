//! Sets of CPU numbers in memory that their copies share.
ghost use Rattle.std.specs.Prelude.{◌≡◌, ◌<◌, ◌≤◌, ℕ, cond, IfNone, IfOk, IfSome, IsOk, IsTrue, true};
ghost use Rattle.cg_cpus.specs.Words.{low_set};
ghost use Rattle.std.proofs.Common.{nat_eq, rules};
ghost use Rattle.std.specs.Cmp.Lexicographic.{pointwise};
ghost use Rattle.std.specs.Cmp.Rules.{comparing};
ghost use Rattle.cg_maps.specs.FiniteSet.{has, in_common, is_empty_set, members, no_members};

use crate::low::LowCpus;
use cg_cpus::CpuSet;
use std::alloc::{AllocError, Global};
use std::marker::Model;
use std::sync::Arc;

/// A set of CPU numbers, each from 0 to 1,023. A set of numbers below 64 takes no memory, and another one shares its with
/// its copies.
#[derive(Debug)]
pub struct BoxedCpus {
    kept: Kept,
}

// It stands in each group, and in many a command.
const _: () = prove!(size_of::<BoxedCpus>() == 16);

#[derive(Debug, Drop)]
enum Kept {
    // Numbers below 64, as the bits of a word. So is the empty set kept.
    Low(u64),
    // A set that has others.
    Wide(Arc<CpuSet, Global>),
}

// By hand, so that whoever drops one calls this, and doesn't drop each thing in it: that makes proofs shorter.
impl Drop for BoxedCpus {
    fn drop(self) {
        let BoxedCpus { kept: _ } = self;
    }
}

impl Model for BoxedCpus {
    ghost use Rattle.cg_maps.specs.FiniteSet.{FiniteSet};

    ghost Value = { FiniteSet };

    ghost use Rattle.cg_boxed.specs.Kept.{set_kept, IsKept};

    ghost view = { λ b. set_kept b.kept };

    ghost invariant = { λ b. IsKept b.kept };
}

impl PartialEq for BoxedCpus {
    ghost eq = { λ s t. pointwise nat_eq (members s) (members t) };

    ghost laws = { Prim.search (comparing, rules) };

    fn eq(&self, other: &BoxedCpus) -> bool {
        match (&self.kept, &other.kept) {
            (Kept::Low(left), Kept::Low(right)) => left == right,
            (Kept::Wide(left), Kept::Wide(right)) => **left == **right,
            (Kept::Low(_), Kept::Wide(_)) => false,
            (Kept::Wide(_), Kept::Low(_)) => false,
        }
    }
}

impl Eq for BoxedCpus {
    ghost laws = { Prim.search (comparing, rules) };
}

impl BoxedCpus {
    /// The set of no number.
    pub fn empty() -> BoxedCpus
        ensures { result ≡ no_members }
    {
        BoxedCpus { kept: Kept::Low(0) }
    }

    // The set of the numbers below 64 whose bits the word has.
    pub(crate) fn from_low(word: u64) -> BoxedCpus
        ensures { result ≡ low_set word }
    {
        BoxedCpus {
            kept: Kept::Low(word),
        }
    }

    /// The set in a word, where its numbers are below 64.
    #[inline(always)]
    pub fn low(&self) -> Option<LowCpus>
        ensures value { IfSome result (λ low. low ≡ self.now) }
        ensures none { IfNone result ((n : ℕ) × IsTrue (has self.now n) × (64 ≤ n)) }
    {
        match &self.kept {
            Kept::Low(word) => Some(LowCpus { word: *word }),
            Kept::Wide(_) => None,
        }
    }

    /// That set; an error where there is no memory for it. A set of numbers below 64 takes none, and so the empty one.
    pub fn new(alloc: Global, cpus: CpuSet) -> Result<BoxedCpus, AllocError>
        ensures value { IfOk result (λ b. b ≡ cpus) }
        ensures empty { is_empty_set cpus ≡ true → IsOk result }
        ensures low { ((n : ℕ) → IsTrue (has cpus n) → n < 64) → IsOk result }
    {
        let kept = match cpus.low() {
            Some(word) => Kept::Low(word),
            None => Kept::Wide(Arc::new(alloc, cpus)?),
        };
        Ok(BoxedCpus { kept })
    }

    /// The set.
    pub fn get(&self) -> CpuSet
        ensures { result ≡ self.now }
    {
        match &self.kept {
            Kept::Low(word) => CpuSet::from_low(*word),
            Kept::Wide(set) => **set,
        }
    }

    /// Whether the set has no number.
    pub fn is_empty(&self) -> bool
        ensures { result ≡ is_empty_set self.now }
    {
        match &self.kept {
            Kept::Low(word) => *word == 0,
            Kept::Wide(_) => false,
        }
    }

    /// Whether the set has the number.
    pub fn contains(&self, cpu: u16) -> bool
        ensures member { result ≡ has self.now cpu }
        ensures below { (n : ℕ) → IsTrue (has self.now n) → n < 1024 }
    {
        match &self.kept {
            Kept::Low(word) => cpu < 64 && *word >> cpu & 1 == 1,
            Kept::Wide(set) => set.contains(cpu),
        }
    }

    /// Leaves of these CPUs those that the set has too, or all of them where there are none.
    pub fn narrow(&self, cpus: &mut CpuSet)
        ensures { let both = in_common self.now cpus.old in cpus.new ≡ cond (is_empty_set both) cpus.old both }
    {
        match &self.kept {
            Kept::Low(word) => cpus.narrow_low(*word),
            Kept::Wide(set) => cpus.narrow(set),
        }
    }

    /// An equal set, which takes no memory. An error where too many share it, which are never those of a set of numbers
    /// below 64, and so of the empty one.
    pub fn copy(&self, _alloc: Global) -> Result<BoxedCpus, AllocError>
        ensures value { IfOk result (λ b. b ≡ self.now) }
        ensures empty { is_empty_set self.now ≡ true → IsOk result }
        ensures low { ((n : ℕ) → IsTrue (has self.now n) → n < 64) → IsOk result }
    {
        let kept = match &self.kept {
            Kept::Low(word) => Kept::Low(*word),
            Kept::Wide(set) => Kept::Wide(set.clone()?),
        };
        Ok(BoxedCpus { kept })
    }
}
