//! Outlines of trees: a line for each group, indented by its depth, with what it asks for and what it has;
//! or as JSON, an object for each on a line of its own.
#![tactic(auto)]

mod facts;
mod lines;
mod named;
mod objects;

pub use lines::outline;
pub use named::outline_named;
