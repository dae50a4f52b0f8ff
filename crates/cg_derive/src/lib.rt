//! What is derived from a tree: the values of its groups, and the texts of their interface files.
#![tactic(auto)]

mod files;
mod values;

pub use files::{check_file, file, fixed_text, procs, text_of_file, write_file};
pub use values::{available, effective, frozen, populated};
