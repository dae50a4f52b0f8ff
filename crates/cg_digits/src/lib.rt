//! Words of a text: what is left of it without white space at its ends, and numbers in decimal digits.
#![tactic(auto)]

mod digits;
mod white_space;

pub use digits::read_digits;
pub use white_space::{is_white_space, trim};
