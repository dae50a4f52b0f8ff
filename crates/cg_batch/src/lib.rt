//! Whole runs of scripts over sources and sinks, and the words that name these.
#![tactic(auto)]

mod end_value;
mod ends;
mod fault;
mod form;
mod named_scripts;
mod outcomes;
mod running;
mod scripts;

pub use cg_runner::{Desk, Gate, ScriptEnd};
pub use cg_watch::Watch;
pub use form::BatchForm;
pub use named_scripts::{Words, run_named};
pub use running::run_to;
pub use scripts::read_all;
