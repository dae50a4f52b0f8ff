//! Sources and sinks of bytes, the lines of a source, and all that it has.
#![tactic(auto)]

mod device;
mod lines;
mod whole;

pub use device::{DeviceFault, FromRead, FromWrite, Sink, Source, write_all};
pub use lines::{LineFault, LineKind, LineReader, steps_are_lines};
pub use whole::read_at_most;
