//! How a plan is written.

/// How a plan is written.
#[derive(Clone, Copy, Debug, PartialEq, Eq)]
pub enum PlanForm<'a> {
    /// As a script, a line for each request.
    Script,
    /// As a script for a POSIX shell, which does the same to the tree that is mounted at a folder.
    Shell {
        /// The folder.
        root: &'a str,
    },
    /// As JSON, an object on a line of its own for each request of the script, with its line there and its words.
    Json,
}
