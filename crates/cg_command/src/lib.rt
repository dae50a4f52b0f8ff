//! The ten commands: the checks that each of them makes before it changes the tree, what it changes, and its inverse.
#![tactic(auto)]

mod apply;
mod checks;
mod command;
mod compact_ops;
mod limits;
mod online_cpus;
mod pid;
mod shared_cpus;
mod subtree;

pub use cg_boxed::BoxedText;
pub use command::{Command, Outcome};
pub use compact_ops::CompactOps;
pub use online_cpus::OnlineCpus;
pub use pid::Pid;
pub use shared_cpus::SharedCpus;
