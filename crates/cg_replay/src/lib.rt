//! The replay of a schedule over a world.
#![tactic(auto)]

mod answering;
mod ending;
mod player;
mod recent;
mod schedule;

pub use answering::{Answerer, answer_lines};
pub use cg_lines::{LineReader, Sink, Source};
pub use player::{Player, refuse};
pub use schedule::{
    a_schedule_has_an_output, a_schedule_has_one_output_at_most, histories_are_replayed,
    outputs_are_the_machines, own_histories_are_replayed, replay,
};
