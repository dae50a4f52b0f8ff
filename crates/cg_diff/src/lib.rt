//! What changed from one tree to another: a line for each change.
#![tactic(auto)]

mod comparing;
pub mod laws;
mod lines;
mod named;
mod words;

pub use comparing::difference;
pub use named::{DIFFERENT, diff_named, read_second};
