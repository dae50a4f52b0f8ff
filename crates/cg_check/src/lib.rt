//! What is wrong with a world, a schedule or a script, and where.
#![tactic(auto)]

mod checking;
mod fault;
mod kind;
mod line;
mod place;
mod schedule;
mod script;
mod sound;
mod uncut;
mod want;
mod world;

pub use checking::check_text;
pub use fault::{Fault, Faults, MOST_TOLD, Wrong};
pub use kind::Kind;
