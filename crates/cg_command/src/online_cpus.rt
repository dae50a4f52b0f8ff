//! The CPUs that a computer is to have online.
ghost use Rattle.std.specs.Prelude.{◌≡◌, IfOk, false};
ghost use Rattle.cg_maps.specs.FiniteSet.{is_empty_set};

use cg_boxed::BoxedCpus;
use cg_name::Refusal;
use std::alloc::{AllocError, Global};

/// CPUs that are to be online: one at least.
#[derive(Debug, PartialEq, Eq, Drop)]
pub struct OnlineCpus {
    /// These.
    pub cpus: BoxedCpus,
    pub ghost some: { is_empty_set cpus ≡ false },
}

impl OnlineCpus {
    /// The same CPUs; an error where there is no memory for them.
    pub fn copy(&self, alloc: Global) -> Result<OnlineCpus, AllocError>
        ensures { IfOk result (λ c. c ≡ self.now) }
    {
        Ok(OnlineCpus {
            cpus: self.cpus.copy(alloc)?,
        })
    }
}

/// These CPUs; `Syntax` where there are none, as for an empty list that is written.
impl TryFrom<BoxedCpus> for OnlineCpus {
    ghost use Rattle.cg_command.specs.OnlineCpus.{TellsOnline};

    type Error = Refusal;

    ghost try_from_gives = { TellsOnline };

    fn try_from(cpus: BoxedCpus) -> Result<OnlineCpus, Refusal> {
        if cpus.get().is_empty() {
            return Err(Refusal::Syntax);
        }
        Ok(OnlineCpus { cpus })
    }
}
