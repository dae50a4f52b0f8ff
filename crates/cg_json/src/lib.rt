//! The texts of JSON values (RFC 8259): what they are, and how their parts are appended to a text.
#![tactic(auto)]

mod form;
mod laws;
mod writing;

pub use form::Form;
pub use laws::{strings_end_at_their_quote, texts_are_lines, texts_read_back};
pub use writing::{
    write_comma, write_flag, write_flag_or_null, write_name, write_null, write_number,
    write_number_or_null, write_string, write_string_or_null,
};
