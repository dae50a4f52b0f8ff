//! The holders of the places of processes.
ghost use Rattle.std.specs.Prelude.{◌≡◌, ◌+◌, ◌==◌, ◌&&◌, ◌<◌, ℕ, OnErr, OnOk, option_map};
ghost use Rattle.cg_locks.specs.Holders.{held_for, number_of, one, IsLeastOther};

use crate::holders::Holders;
use cg_name::TxnNumber;
use indexmap::IndexMap;
use std::alloc::{AllocError, Global};

// So many entries stay when nobody holds their processes any more: a process that is moved again finds its own. Where there are
// more, one goes with its last holder.
const KEPT: usize = 4096;

// How often the transaction holds the place of the process.
pub(crate) fn count(holders: &IndexMap<u32, Holders>, pid: u32, transaction: TxnNumber) -> u32
    ensures { result ≡ held_for holders.now.entries pid transaction.0 }
{
    match holders.get(&pid) {
        Some(there) => there.count(transaction),
        None => 0,
    }
}

// The least other transaction that holds the place of the process.
pub(crate) fn least(
    holders: &IndexMap<u32, Holders>,
    pid: u32,
    transaction: TxnNumber,
) -> Option<TxnNumber>
    ensures { IsLeastOther transaction.0 (held_for holders.now.entries pid) (option_map number_of result) }
{
    match holders.get(&pid) {
        Some(there) => there.least_other(transaction),
        None => None,
    }
}

// One holding more by the transaction. An error, where there is no memory for it, changes nothing.
pub(crate) fn add(
    holders: &mut IndexMap<u32, Holders>,
    alloc: Global,
    pid: u32,
    transaction: TxnNumber,
) -> Result<(), AllocError>
    ensures ok { OnOk result ((k u : ℕ) → held_for holders.new.entries k u ≡ held_for holders.old.entries k u + one ((k == pid) && (u == transaction.0))) }
    ensures err { OnErr result ((k u : ℕ) → held_for holders.new.entries k u ≡ held_for holders.old.entries k u) }
{
    if let Some(there) = holders.get_mut(&pid) {
        there.add(transaction)?;
        return Ok(());
    }
    let mut there = Holders::new(alloc);
    there.add(transaction)?;
    holders.insert(pid, there)?;
    Ok(())
}

// One holding less by the transaction, which has one. Takes no memory.
pub(crate) fn remove(holders: &mut IndexMap<u32, Holders>, pid: u32, transaction: TxnNumber)
    requires { 0 < held_for holders.old.entries pid transaction.0 }
    ensures { (k u : ℕ) → held_for holders.old.entries k u ≡ held_for holders.new.entries k u + one ((k == pid) && (u == transaction.0)) }
{
    if let Some(there) = holders.get_mut(&pid) {
        there.remove(transaction);
    }
    drop_empty(holders, pid);
}

// Drops the entry of the process, where nobody holds it any more and there are more entries than are kept.
fn drop_empty(holders: &mut IndexMap<u32, Holders>, pid: u32)
    ensures { (k u : ℕ) → held_for holders.new.entries k u ≡ held_for holders.old.entries k u }
{
    if holders.len() <= KEPT {
        return;
    }
    let is_empty = match holders.get(&pid) {
        Some(there) => there.is_empty(),
        None => false,
    };
    if is_empty {
        holders.swap_remove(&pid);
    }
}
