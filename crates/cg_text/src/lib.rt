//! What interface files hold, and the lines and words of texts.
#![tactic(auto)]

mod control_ops;
mod controllers;
mod cutting;
pub mod laws;
mod limit;
mod line_words;
mod reading;
mod settings;
mod word_ends;
mod writing;

pub use cg_name::{FileName, write_quoted};
pub use control_ops::ControlOps;
pub use controllers::Controllers;
pub use cutting::{LONGEST_LINE, cut_words, read_words};
pub use limit::{Limit, LimitNumber};
pub use line_words::LineWords;
pub use reading::{LAST_PID, read_flag, read_limit, read_ops, read_pid};
pub use settings::Settings;
pub use writing::{
    events_bytes, flag_bytes, write_controllers, write_cpus, write_events, write_flag, write_limit,
    write_names, write_ops, write_procs,
};
