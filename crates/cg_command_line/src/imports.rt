//! Trees that are to be imported.

/// A tree that is to be imported.
#[derive(Clone, Copy, Debug)]
pub struct Import<'a> {
    /// The folder of its root.
    pub root: &'a str,
    /// The CPUs that are online, where the words name them.
    pub online: Option<&'a str>,
    /// Whether nothing is to be printed where a world can't say it all.
    pub is_strict: bool,
}
