//! Schedules played over worlds, with comments beside their answers: which line an answer is to, and what is in the way of a
//! request that is refused.
#![tactic(auto)]

mod asked;
mod begun;
mod below;
mod comment;
mod explainer;
mod in_the_way;
mod notes;
mod playing;
mod upward;

pub use explainer::Comments;
pub use playing::{comments_stand_aside, explain};
