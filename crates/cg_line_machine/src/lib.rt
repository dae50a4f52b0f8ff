//! A machine that is asked by lines of text, and tells by texts.
#![tactic(auto)]

mod machine;
mod status;
mod teller;

pub use machine::LineMachine;
pub use status::{Status, word_of_number};
pub use teller::{Teller, copy_text};
