//! The text of worlds and trees, read and written.
#![tactic(auto)]

mod fitting;
pub mod laws;
mod parts;
mod reader;
mod reading;
mod stage;
mod statement;
mod tree_writing;
mod version;
mod writing;

pub use fitting::version_of;
pub use reader::WorldReader;
pub use reading::{LONGEST_WORLD, ReadWorld};
pub use statement::Statement;
pub use tree_writing::TreeLines;
pub use version::Version;
pub use writing::WriteWorld;
