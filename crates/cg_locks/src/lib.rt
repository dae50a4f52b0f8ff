//! Footprints, the marks under which commands run, and the table of the marks that open transactions hold.
#![tactic(auto)]

mod clashing;
mod counted;
mod first_holders;
mod footprint;
mod held;
mod holders;
mod mark;
mod numbered;
mod other_holders;
mod path_holders;
mod pid_holders;
mod shared_marks;
mod sole_marks;
mod table;
mod taken_at;
mod upward;

pub use clashing::AnyMark;
pub use footprint::{Counted, Footprint};
pub use mark::Mark;
pub use table::LockTable;
