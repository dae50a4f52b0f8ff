//! Inverses: what a command changed, and going back by it.
#![tactic(auto)]

mod change;
mod inverse;

pub use change::{BothCpus, Change};
pub use inverse::Inverse;
