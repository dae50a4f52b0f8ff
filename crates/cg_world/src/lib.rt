//! Trees in plain ordered maps, and worlds: the sound ones.
#![tactic(auto)]

mod counts_hints;
mod gathered;
mod gathered_groups;
mod gathered_tree;
mod plain;
mod soundness;
mod world;

pub use cg_boxed::CompactSettings;
pub use gathered::Kept;
pub use gathered_tree::GatheredTree;
pub use plain::PlainTree;
pub use world::World;
