//! Replays as the words of a command line ask for them.

/// A schedule that is to be replayed over a world.
#[derive(Clone, Copy, Debug)]
pub struct Replay<'a> {
    /// The file of the world, or - for standard input.
    pub world: &'a str,
    /// The file of the schedule, or - for standard input.
    pub schedule: &'a str,
    /// What stands beside the answers, or in their place.
    pub form: ReplayForm,
    /// The file that the history is to be written to.
    pub history: Option<&'a str>,
    /// Whether the status is 1 where a request was refused.
    pub is_strict: bool,
}

/// What is written for a schedule.
#[derive(Clone, Copy, Debug, PartialEq, Eq)]
pub enum ReplayForm {
    /// The answers alone.
    Plain,
    /// The answers, and comments beside them: before each its line, or behind each that refuses a command what is in the way.
    Comments { echo: bool, explain: bool },
    /// The answers as lines of JSON.
    Json,
}
