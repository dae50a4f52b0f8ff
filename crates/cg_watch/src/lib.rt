//! Runs of scripts beside which files of the committed tree are watched.
#![tactic(auto)]

mod board;
mod following;
mod lines;
mod looking;
mod publishing;
mod watch;
mod watched_run;

pub use watch::Watch;
pub use watched_run::run_watched;
