//! Plans: scripts that turn one world into another, and the same for a shell and as JSON.
#![tactic(auto)]

mod as_json;
mod form;
pub mod laws;
mod named;
mod planning;
mod quoting;
mod reading;
mod running;
mod sets;
mod shell;
mod steps;

pub use form::PlanForm;
pub use named::{NO_PLAN, plan, plan_as, plan_named};
