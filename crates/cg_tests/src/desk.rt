//! Desks, their sessions and their transactions.
pub(crate) mod asking;
mod busy;
mod closing;
pub(crate) mod crowd;
mod example;
mod locking;
pub(crate) mod opened;
mod pairs;
mod sessions;
mod steps;
