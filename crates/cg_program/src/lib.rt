//! Whole replays over sources and sinks, files that are shown, and the words that name the sources.
#![tactic(auto)]

mod fault;
mod inputs;
mod keeping;
mod named;
mod outputs;
mod playback;
mod replaying;
mod showing;
mod status;

pub use cg_lines::{FromRead, FromWrite};
pub use cg_script::ScriptFault;
pub use fault::{ShowFault, tell_as};
pub use inputs::{Inputs, OpenFault};
pub use keeping::{is_of_word, tell_history};
pub use named::{is_standard, open_reader, readers, replay_named, show_named};
pub use outputs::{CreateFault, Outputs};
pub use playback::{Plain, Playback, Played};
pub use replaying::{replay_to, stop};
pub use showing::{FoundFile, find_file, show_to};
pub use status::Status;
