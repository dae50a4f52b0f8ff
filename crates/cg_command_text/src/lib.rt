//! The ten commands as words of a line: read and written.
#![tactic(auto)]

mod asked;
mod keyword;
pub mod laws;
mod reading;
mod writing;

pub use asked::commands_can_be_asked_for;
pub use keyword::is_keyword;
pub use reading::read_command;
pub use writing::write_command;
