//! A set of CPU numbers in memory that its copies share.
ghost use Rattle.std.specs.Prelude.{◌≡◌, IfOk, nat_eq};
ghost use Rattle.std.proofs.Common.{rules};
ghost use Rattle.std.specs.Cmp.Lexicographic.{pointwise};
ghost use Rattle.std.specs.Cmp.Rules.{comparing};
ghost use Rattle.cg_maps.specs.FiniteSet.{members};

use cg_boxed::BoxedCpus;
use cg_cpus::CpuSet;
use std::alloc::{AllocError, Global};
use std::marker::Model;
use std::sync::Arc;

/// A set of CPU numbers, each from 0 to 1,023, in memory that its copies share. What holds one has room for 8 bytes alone.
pub struct SharedCpus {
    set: Arc<BoxedCpus, Global>,
}

// Beside a path it is no larger than what the other commands have.
const _: () = prove!(size_of::<SharedCpus>() == 8);

// By hand, so that whoever drops one calls this, and doesn't drop each thing in it: that makes proofs shorter.
impl Drop for SharedCpus {
    fn drop(self) {
        let SharedCpus { set: _ } = self;
    }
}

impl Model for SharedCpus {
    ghost use Rattle.cg_maps.specs.FiniteSet.{FiniteSet};

    ghost Value = { FiniteSet };

    ghost view = { λ s. s.set.value };
}

impl PartialEq for SharedCpus {
    ghost eq = { λ s t. pointwise nat_eq (members s) (members t) };

    ghost laws = { Prim.search (comparing, rules) };

    fn eq(&self, other: &SharedCpus) -> bool {
        self.boxed() == other.boxed()
    }
}

impl Eq for SharedCpus {
    ghost laws = { Prim.search (comparing, rules) };
}

impl SharedCpus {
    /// That set; an error where there is no memory for it.
    pub fn new(alloc: Global, cpus: CpuSet) -> Result<SharedCpus, AllocError>
        ensures { IfOk result (λ s. s ≡ cpus) }
    {
        let set = BoxedCpus::new(alloc, cpus)?;
        Ok(SharedCpus {
            set: Arc::new(alloc, set)?,
        })
    }

    /// The set, as changes and groups keep it.
    pub fn boxed(&self) -> &BoxedCpus
        ensures { result.now ≡ self.now }
    {
        &self.set
    }

    /// The set.
    pub fn get(&self) -> CpuSet
        ensures { result ≡ self.now }
    {
        self.set.get()
    }

    /// An equal set, which takes no memory. An error where too many share it.
    pub fn copy(&self) -> Result<SharedCpus, AllocError>
        ensures { IfOk result (λ s. s ≡ self.now) }
    {
        Ok(SharedCpus {
            set: self.set.clone()?,
        })
    }
}
