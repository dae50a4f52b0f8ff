//! The lines that began transactions.
ghost use Rattle.std.specs.Prelude.{◌≡◌, ◌∷◌, ◌++◌, [], OnOk, codes};
ghost use Rattle.std.specs.Fmt.{decimal};
ghost use Rattle.cg_explain.specs.Explained.{begun_line};

use crate::comment::append_number;
use cg_name::TxnNumber;
use std::alloc::{AllocError, Global};
use std::marker::Model;

/// The lines that began transactions, in the order of these, each behind its number.
#[derive(Drop)]
pub(crate) struct Begun {
    lines: Vec<Vec<u8>>,
}

impl Model for Begun {
    ghost use Rattle.std.specs.Prelude.{ℕ, List, map};
    ghost use Rattle.std.specs.Coded.{coded_ℕ, coded_list};

    ghost Value = { List (List ℕ) };

    ghost coded = { coded_list (coded_list coded_ℕ) };

    ghost view = { λ b. map (λ l. l.items) b.lines.items };
}

impl Begun {
    // None.
    pub(crate) fn none(alloc: Global) -> Begun
        ensures { result ≡ [] }
    {
        Begun {
            lines: Vec::new(alloc),
        }
    }

    // One more.
    pub(crate) fn add(&mut self, number: u64, line: &[u8]) -> Result<(), AllocError>
        ensures { OnOk result (self.new ≡ self.old ++ (decimal number ++ codes ": " ++ line.now) ∷ []) }
    {
        let mut text = Vec::new(*self.lines.allocator());
        append_number(number, &mut text)?;
        text.extend_from_slice(b": ")?;
        text.extend_from_slice(line)?;
        self.lines.push(text)?;
        Ok(())
    }

    // The line that began the transaction, behind its number; nothing where none did.
    pub(crate) fn line(&self, transaction: TxnNumber) -> &[u8]
        ensures { result.now ≡ begun_line self.now transaction.0 }
    {
        let TxnNumber(number) = transaction;
        match self.lines.get((number as usize).saturating_sub(1)) {
            Some(line) => line.as_slice(),
            None => b"",
        }
    }
}
