//! Processes by the group that each is in.
#![tactic(auto)]

mod listing;
mod places;
mod seats;

pub use places::Places;
