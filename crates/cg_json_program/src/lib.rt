//! Schedules played over worlds, each answer and the tree that results told as an object of JSON on a line of its own; and
//! interface files shown as such an object.
#![tactic(auto)]

mod asking;
mod playing;
mod reporter;
mod showing;
mod telling;

pub use playing::{Json, tell};
pub use showing::show_json_named;
