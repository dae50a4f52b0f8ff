//! A run of scripts as the words of a command line ask for it.
ghost use Rattle.std.specs.Prelude.{◌≤◌, vec_len};

/// How many scripts one run has at most.
pub const MOST_SCRIPTS: usize = 4_096;

/// How many workers one run has at most.
pub const MOST_WORKERS: u32 = 64;

/// How often one run begins a script at most.
pub const MOST_TRIES: u32 = 1_000;

/// How many files one run watches at most.
pub const MOST_WATCHES: usize = 8;

/// Scripts that are to run over a world: 1 to 4,096 of them, by 1 to 64 workers, each begun 1 to 1,000 times at most.
#[derive(Debug, Drop)]
pub struct Batch<'a> {
    /// The file of the world, or - for standard input.
    pub world: &'a str,
    /// The files of the scripts, in their order.
    pub scripts: Vec<&'a str>,
    /// By how many workers.
    pub workers: u32,
    /// How often a script is begun at most.
    pub tries: u32,
    /// The file that the history is to be written to.
    pub history: Option<&'a str>,
    /// The files that are to be watched meanwhile, each as PATH:FILE; at most 8.
    pub watches: Vec<&'a str>,
    /// Whether it is told who was in the way of a script that gave up.
    pub is_explained: bool,
    /// Whether the ends and the world are told as lines of JSON.
    pub is_json: bool,
    /// Whether the status is 1 where a script was not committed.
    pub is_strict: bool,
    pub ghost some: { 1 ≤ vec_len scripts },
    pub ghost few: { vec_len scripts ≤ 4096 },
    pub ghost worked: { 1 ≤ workers },
    pub ghost few_workers: { workers ≤ 64 },
    pub ghost tried: { 1 ≤ tries },
    pub ghost few_tries: { tries ≤ 1000 },
    pub ghost few_watches: { vec_len watches ≤ 8 },
}
