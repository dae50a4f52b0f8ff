//! Runs of scripts by workers.
mod crossing;
mod crowd;
mod ends;
mod gates;
mod holding;
mod numbered;
mod rows;
mod running;
mod telling;
mod watched;
