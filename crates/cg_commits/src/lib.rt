//! The history, with the scripts of the transactions that committed: where their commands have their records.
#![tactic(auto)]

mod commit_history;
mod room;

pub use commit_history::CommitHistory;
