//! The forms in which a command tells.

/// How a command tells what it finds.
#[derive(Clone, Copy)]
pub enum Form {
    /// As plain text.
    Plain,
    /// As JSON: an object on a line of its own for each thing that is told.
    Json,
}
