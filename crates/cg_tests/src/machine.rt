//! The machine, and schedules, scripts and histories as text.
mod answers;
mod asking;
mod commits;
mod histories;
mod long_worlds;
mod requests;
mod scripts;
mod worlds;
