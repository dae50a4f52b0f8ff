//! Views of what is published.
mod beside;
mod counting;
mod crowd;
mod desks;
pub(crate) mod prefixes;
pub(crate) mod publishing;
mod reading;
