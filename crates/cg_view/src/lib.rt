//! Views of what is published: readers that never wait, over a tree of which there are two copies.
#![tactic(auto)]

mod operation;
mod publisher;
mod rule;
mod shown;
mod viewer;
mod walk;
mod worlds;

pub use publisher::Publisher;
pub use viewer::{Told, Viewer};
