//! The machine: any number of open transactions over one tree, with subtree locks, savepoints and going back by inverses.
#![tactic(auto)]

mod answers;
mod beginning;
mod doing;
mod ending;
mod in_the_way;
mod machine;
mod returning;
mod running;
mod saving;

pub use cg_history::{Answer, Record, Request, SessionId};
pub use cg_locks::{AnyMark, Footprint, Mark};
pub use cg_txn::Clash;
pub use in_the_way::busy_tells_a_command;
pub use machine::Core;
