//! The forms in which a run of scripts tells what came of it.

/// How a run of scripts tells how these ended, and the world that they left.
#[derive(Clone, Copy)]
pub enum BatchForm {
    /// As plain text.
    Plain,
    /// As plain text, with a comment behind the line of a script that gave up: who was in its way.
    Explained,
    /// As JSON: an object on a line of its own for each thing that is told.
    Json,
}
