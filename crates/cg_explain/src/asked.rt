//! The lines that asked for records.
ghost use Rattle.std.specs.Prelude.{◌≡◌, ◌∷◌, ◌++◌, [], OnOk, get_or};

use std::alloc::{AllocError, Global};
use std::marker::Model;

/// The numbers of the lines that asked for the records, in the order of these.
#[derive(Drop)]
pub(crate) struct Asked {
    lines: Vec<u64>,
}

impl Model for Asked {
    ghost use Rattle.std.specs.Prelude.{ℕ, List};
    ghost use Rattle.std.specs.Coded.{coded_ℕ, coded_list};

    ghost Value = { List ℕ };

    ghost coded = { coded_list coded_ℕ };

    ghost view = { λ a. a.lines.items };
}

impl Asked {
    // None.
    pub(crate) fn none(alloc: Global) -> Asked
        ensures { result ≡ [] }
    {
        Asked {
            lines: Vec::new(alloc),
        }
    }

    // One more.
    pub(crate) fn add(&mut self, number: u64) -> Result<(), AllocError>
        ensures { OnOk result (self.new ≡ self.old ++ number ∷ []) }
    {
        self.lines.push(number)?;
        Ok(())
    }

    // The number of the line that asked for the record at this index; 0 where there is no such record.
    pub(crate) fn line(&self, index: usize) -> u64
        ensures { result ≡ get_or self.now index 0 }
    {
        match self.lines.get(index) {
            Some(number) => *number,
            None => 0,
        }
    }
}
