//! Scripts on worker threads: each runs in one transaction, which is begun anew where another is in its way.
#![tactic(auto)]

mod end;
mod fault;
mod gate;
mod gathering;
mod happened;
mod passage;
mod runner;
mod running;
mod trying;
mod turns;
mod worker;
mod workers;

pub use cg_desk::{Answer, Core, Desk, Record, Refusal, World};
pub use cg_script::{Script, read_script};
pub use end::ScriptEnd;
pub use fault::RunFault;
pub use gate::Gate;
pub use happened::{committed_scripts_are_whole, each_end_has_happened};
pub use runner::{RunReport, run_scripts};
