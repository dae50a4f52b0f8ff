//! Sessions in threads over one machine, transactions that have to be spent, and an audit of what sessions and history say.
#![tactic(auto)]

mod auditing;
mod desk;
mod laws;
mod session;
mod stepping;
mod transaction;

pub use auditing::audit;
pub use cg_command::Command;
pub use cg_core::{Answer, Core, Record, Request, SessionId};
pub use cg_log::Call;
pub use cg_name::{Refusal, SaveName, TxnNumber};
pub use cg_view::{Publisher, Told};
pub use cg_world::World;
pub use desk::{CloseFault, Desk};
pub use laws::calls_tell_stacks;
pub use session::Session;
pub use stepping::{step_for, step_for_pair, step_for_without_memory};
pub use transaction::Transaction;
