//! Places in a text.
use crate::fault::{Fault, Wrong};

// That the text has more than so many bytes, said where the first byte behind them stands.
pub(crate) fn too_long<'a>(text: &'a [u8], most: usize) -> Fault<'a> {
    let front = text.get(..most).unwrap_or(text);
    let mut line = 1usize;
    let mut column = 1usize;
    for byte in front {
        if *byte == b'\n' {
            line = line.saturating_add(1);
            column = 1;
        } else {
            column = column.saturating_add(1);
        }
    }
    Fault {
        line,
        column,
        wrong: Wrong::here("the text is too long", "it may have 16777216 bytes at most"),
    }
}
