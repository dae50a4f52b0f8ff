//! Sessions, their requests, answers and records, and the history of them with slots reserved for records to come.
#![tactic(auto)]

mod history;
mod recent_places;
mod record;
mod session;
mod session_map;

pub use cg_command::BoxedText;
pub use history::History;
pub use record::{Answer, Record, Request};
pub use session::SessionId;
pub use session_map::SessionMap;
