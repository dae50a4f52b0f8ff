//! The tree that commands change, with the room that going back needs.
#![tactic(auto)]

mod ancestors;
mod below;
mod counting;
mod entry;
mod groups;
mod limits;
mod listed;
mod looking;
mod new_value;
mod passing;
mod pids;
mod placed;
mod processes;
mod tree;
mod worlds;

pub use ancestors::{Ancestor, Ancestors};
pub use listed::{Listed, ListedIter};
pub use new_value::NewValue;
pub use pids::Pids;
pub use placed::Placed;
pub use tree::Tree;
