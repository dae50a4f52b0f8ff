//! Schedules as text: a session's requests, their answers, scripts, histories, and the world at the head of a text.
#![tactic(auto)]

mod answer;
mod fault;
mod history;
mod request;
mod script;
mod script_reader;
mod session;
mod world_reader;

pub use answer::write_answer;
pub use cg_lines::{LineReader, Sink, Source};
pub use fault::ScriptFault;
pub use history::{histories_are_read, write_history};
pub use request::{
    a_line_says_one_thing_at_most, read_line, read_request, requests_can_be_asked_for, write_line,
    written_lines_are_spelled,
};
pub use script::Script;
pub use script_reader::{
    LONGEST_SCRIPT, a_text_spells_one_script_at_most, read_script, scripts_can_be_asked,
};
pub use session::SessionName;
pub use world_reader::read_world;
