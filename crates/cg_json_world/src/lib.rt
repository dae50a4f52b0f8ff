//! What JSON tells of groups, of refusals and of whole worlds.
#![tactic(auto)]

mod values;
mod world;

pub use values::{write_controllers, write_cpus, write_limit, write_path, write_refusal};
pub use world::write_world;
