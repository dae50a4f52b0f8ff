//! Trees of paths with a value at each.
#![tactic(auto)]

mod chains;
mod entering;
mod last_found;
mod looking_up;
mod node;
mod path_text;
mod path_tree;
mod sorting;

pub use node::NodeKey;
pub use path_tree::PathTree;
