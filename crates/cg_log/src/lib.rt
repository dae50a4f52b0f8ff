//! Calls of sessions, their logs, and the comparison of these with a history.
#![tactic(auto)]

mod call;
mod comparison;
mod log;
mod rest;

pub use call::Call;
pub use comparison::all_are_in;
pub use log::Log;
pub use rest::Rest;
