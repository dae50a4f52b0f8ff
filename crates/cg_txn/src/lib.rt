//! Stacks: what stands of one open transaction, going back by it, and letting go of what the transaction holds.
#![tactic(auto)]

mod entry;
mod going_back;
mod items;
pub mod laws;
mod letting_go;
mod txn;

pub use entry::{Clash, Entry};
pub use going_back::{abort, back, commit, undo};
pub use txn::{Room, Txn};
