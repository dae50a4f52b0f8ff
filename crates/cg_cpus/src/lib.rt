//! Sets of CPU numbers, and the lists in which they are read and written.
#![tactic(auto)]

mod cpu_set;
pub mod laws;
mod list;

pub use cpu_set::CpuSet;
