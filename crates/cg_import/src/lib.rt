//! Worlds of mounted trees: the folders and interface files of one, or of any folder that looks like one.
#![tactic(auto)]

mod folders;
mod left_out;
mod named;
mod reading;
mod tree;
mod values;

pub use folders::{Folders, Listed};
pub use named::import_named;
