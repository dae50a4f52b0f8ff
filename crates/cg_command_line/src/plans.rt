//! Plans as the words of a command line ask for them.

/// A script that is to be found, which turns one world into another.
#[derive(Clone, Copy, Debug)]
pub struct Plan<'a> {
    /// The file of the first world, or - for standard input.
    pub from: &'a str,
    /// The file of the second world, or - for standard input.
    pub to: &'a str,
    /// The folder of the root, where the script is to be printed as lines for a shell.
    pub shell: Option<&'a str>,
    /// Whether its requests are to be printed as lines of JSON; not for a shell then.
    pub is_json: bool,
}
