//! Which command of an open transaction is in the way of another transaction's.
ghost use Rattle.std.specs.Prelude.{◌≡◌, ◌&&◌, is_some, option_copied, option_map};
ghost use Rattle.cg_core.specs.InTheWay.{in_the_way, with_number, BusyTellsACommand};
ghost use Rattle.cg_model.specs.Cgroups.{cgroups};
ghost use Rattle.cg_model.specs.Live.{live};
ghost use Rattle.cg_model.specs.Opens.{among, numbers, opens};
ghost use Rattle.cg_model.specs.Reply.{clashes_with};
ghost use Rattle.cg_txn.specs.Clashing.{told_clash};

use crate::machine::Core;
use cg_history::SessionMap;
use cg_locks::Footprint;
use cg_name::TxnNumber;
use cg_txn::{Clash, Txn};

impl Core {
    /// The oldest live command of the open transaction with this number that has a mark which clashes with one of the footprint:
    /// the index of its record in the history, and the first such mark. `None` where it has none, as where no open transaction
    /// has the number. Takes no memory.
    pub fn in_the_way(&self, holder: TxnNumber, footprint: &Footprint) -> Option<Clash<'_>>
        ensures value { option_map told_clash result ≡ in_the_way self.now holder.0 footprint.now }
        ensures some { is_some result ≡ among holder.0 (numbers (opens self.now.history)) && clashes_with cgroups self.now.opening footprint.now (live holder.0 self.now.history) }
    {
        match txn_with(&self.open, holder) {
            Some(txn) => txn.clashing(footprint),
            None => None,
        }
    }
}

// The open transaction with this number.
fn txn_with(transactions: &SessionMap<Txn>, number: TxnNumber) -> Option<&Txn>
    ensures { option_copied result ≡ with_number number.0 transactions.now }
{
    for index in 0..transactions.len() {
        let Some(txn) = transactions.nth_newest(index) else {
            return None;
        };
        if txn.number() == number {
            return Some(txn);
        }
    }
    None
}

/// A command that is answered `Busy` has a command of the transaction that the answer names in its way, before the record of the
/// refusal and behind it. Does nothing: it is called for what its contract says.
pub fn busy_tells_a_command()
    ensures { BusyTellsACommand }
{}
