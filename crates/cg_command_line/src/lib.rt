//! The command line of `cgtx`: its words, and what they ask for.
#![tactic(auto)]

mod batches;
mod commands;
mod forms;
mod imports;
mod plans;
mod replays;

ghost use Rattle.std.specs.Prelude.{◌≡◌, ◌≤◌, codes, length};
ghost use Rattle.std.specs.Result.{IsOkAnd};
ghost use Rattle.cg_command_line.specs.Asked.{AsksForReplay};

pub use batches::{Batch, MOST_SCRIPTS, MOST_TRIES, MOST_WATCHES, MOST_WORKERS};
use clap::error::ErrorKind;
use clap::{ArgMatches, Command, Error};
use commands::{COMMANDS, MOST_NAMES, MOUNTED, OWN_WORDS};
use forms::with_words;
pub use imports::Import;
pub use plans::Plan;
pub use replays::{Replay, ReplayForm};
use std::alloc::{AllocError, Global};

// The version of the program.
const VERSION: &str = "0.1.0";

// The toolchain that it is proved with.
const TOOLCHAIN: &str = "rattle-kit-13f logic dac8208d650f15bf";

// The word that names standard input.
const STANDARD_INPUT: &str = "-";

/// What the words of a command line ask for, and how much is to be told.
#[derive(Debug, Drop)]
pub struct CommandLine<'a> {
    /// What they ask for.
    pub asked: Asked<'a>,
    /// How much is to be told on standard error.
    pub telling: Telling,
}

/// How much is told on standard error.
#[derive(Clone, Copy, Debug, PartialEq, Eq)]
pub enum Telling {
    /// Refusals, and how far a run is.
    Plain,
    /// These, and behind a refusal where its cause is, and what may stand there.
    Verbose,
    /// Nothing but the files that are watched.
    Quiet,
}

/// What the words of a command line ask for.
#[derive(Debug, Drop)]
pub enum Asked<'a> {
    /// To replay a schedule.
    Replay(Replay<'a>),
    /// To show this file of the group at this path, in the world that the first word names, as JSON or as it is.
    Show {
        world: &'a str,
        path: &'a str,
        file: &'a str,
        is_json: bool,
    },
    /// To show the groups of at most so many names, from 1 to 64, in the world that this word names, as lines of JSON or as an outline.
    Tree {
        world: &'a str,
        depth: u32,
        is_json: bool,
    },
    /// To tell what changed from the first world to the second one, which these words name.
    Diff {
        before: &'a str,
        after: &'a str,
    },
    /// To find a script that turns a world into another one.
    Plan(Plan<'a>),
    /// To run these scripts.
    Run(Batch<'a>),
    /// To check the texts that these words name, as of this kind where one is given: `world`, `schedule` or `script`; and to tell of them
    /// as lines of JSON or as compilers do.
    Check {
        kind: Option<&'a str>,
        files: Vec<&'a str>,
        is_json: bool,
    },
    /// To print the world of a mounted tree.
    Import(Import<'a>),
}

/// Why the words of a command line ask for nothing.
#[derive(Clone, Copy, Debug, PartialEq, Eq, thiserror::Error)]
pub enum Unasked {
    /// They asked for help or for the version, which stands on standard output.
    #[error("the words ask for help or for the version")]
    Helped,
    /// They asked for one of these, and standard output didn't take it.
    #[error("the help or the version is not written")]
    Unwritten,
    /// They aren't in the grammar, as standard error says.
    #[error("the words are not in the grammar")]
    Refused,
    /// They name more than 4,096 scripts. Nothing is written.
    #[error("there are too many scripts")]
    TooManyScripts,
    /// They name more than 8 files to watch. Nothing is written.
    #[error("there are too many files to watch")]
    TooManyWatches,
    /// Memory ran out before they were read.
    #[error("memory ran out")]
    Memory,
}

impl From<AllocError> for Unasked {
    fn from(_: AllocError) -> Unasked {
        Unasked::Memory
    }
}

/// What the words ask for, the program's name first. With no words beside it that is to replay standard input alone.
/// Help and the version go to standard output, and what is wrong with the words to standard error.
pub fn read_command_line<'a, R: Print + Eprint + AllocGlobal>(
    rt: &R,
    words: &'a [String],
) -> Result<CommandLine<'a>, Unasked>
    ensures no_words { length words.now ≤ 1 → IsOkAnd result (λ line. AsksForReplay (codes "-") (codes "-") line.asked) }
{
    if words.len() <= 1 {
        return Ok(CommandLine {
            asked: Asked::Replay(Replay {
                world: STANDARD_INPUT,
                schedule: STANDARD_INPUT,
                form: ReplayForm::Plain,
                history: None,
                is_strict: false,
            }),
            telling: Telling::Plain,
        });
    }
    match command(rt.alloc())?.try_get_matches_from(words) {
        Ok(matches) => match matches.subcommand() {
            Some((name, given)) => Ok(CommandLine {
                asked: what_of(rt.alloc(), name, given)?,
                telling: how_much(&matches, given),
            }),
            None => Err(Unasked::Refused),
        },
        Err(error) if error.kind() == ErrorKind::DisplayVersion && is_verbose(words) => {
            Err(tell_versions(rt))
        }
        Err(error) => Err(answer(rt, &error)),
    }
}

// How much is to be told, by the words before a command and behind it.
fn how_much(before: &ArgMatches<'_>, given: &ArgMatches<'_>) -> Telling {
    if given.get_flag("quiet") {
        Telling::Quiet
    } else if before.get_flag("verbose") || given.get_flag("verbose") {
        Telling::Verbose
    } else {
        Telling::Plain
    }
}

// What the words behind the name of a command ask for.
fn what_of<'a>(alloc: Global, name: &str, given: &ArgMatches<'a>) -> Result<Asked<'a>, Unasked> {
    match name {
        "replay" => Ok(Asked::Replay(replay_of(given))),
        "show" => Ok(Asked::Show {
            world: world_of(given, "WORLD"),
            path: given.get_str("PATH").unwrap_or_default(),
            file: given.get_str("FILE").unwrap_or_default(),
            is_json: is_json(given),
        }),
        "tree" => Ok(Asked::Tree {
            world: world_of(given, "WORLD"),
            depth: number(given, "depth", MOST_NAMES),
            is_json: is_json(given),
        }),
        "diff" => Ok(Asked::Diff {
            before: world_of(given, "WORLD-1"),
            after: world_of(given, "WORLD-2"),
        }),
        "plan" => Ok(Asked::Plan(plan_of(given))),
        "run" => Ok(Asked::Run(batch_of(alloc, given)?)),
        "check" => Ok(Asked::Check {
            kind: given.get_str("as"),
            files: Vec::from_slice(alloc, given.get_strs("FILE").unwrap_or_default())?,
            is_json: is_json(given),
        }),
        "import" => Ok(Asked::Import(Import {
            root: given.get_str("ROOT").unwrap_or(MOUNTED),
            online: given.get_str("online"),
            is_strict: given.get_flag("strict"),
        })),
        _ => Err(Unasked::Refused),
    }
}

// The word of a world, which has to be there.
fn world_of<'a>(given: &ArgMatches<'a>, name: &str) -> &'a str {
    given.get_str(name).unwrap_or(STANDARD_INPUT)
}

// Whether JSON is asked for.
fn is_json(given: &ArgMatches<'_>) -> bool {
    given.get_flag("json")
}

// What the words behind `replay` ask for.
fn replay_of<'a>(given: &ArgMatches<'a>) -> Replay<'a> {
    let (echo, explain) = (given.get_flag("echo"), given.get_flag("explain"));
    let form = if is_json(given) {
        ReplayForm::Json
    } else if echo || explain {
        ReplayForm::Comments { echo, explain }
    } else {
        ReplayForm::Plain
    };
    Replay {
        world: world_of(given, "WORLD"),
        schedule: world_of(given, "SCHEDULE"),
        form,
        history: given.get_str("history"),
        is_strict: given.get_flag("strict"),
    }
}

// What the words behind `plan` ask for.
fn plan_of<'a>(given: &ArgMatches<'a>) -> Plan<'a> {
    let shell = if given.get_flag("shell") {
        Some(given.get_str("root").unwrap_or(MOUNTED))
    } else {
        None
    };
    Plan {
        from: world_of(given, "WORLD-1"),
        to: world_of(given, "WORLD-2"),
        shell,
        is_json: is_json(given),
    }
}

// What the words behind `run` ask for. Their numbers were tested as the words were read, but no contract says so.
fn batch_of<'a>(alloc: Global, given: &ArgMatches<'a>) -> Result<Batch<'a>, Unasked> {
    let scripts = given.get_strs("SCRIPT").unwrap_or_default();
    if scripts.is_empty() {
        return Err(Unasked::Refused);
    }
    if scripts.len() > MOST_SCRIPTS {
        return Err(Unasked::TooManyScripts);
    }
    let watches = given.get_strs("watch").unwrap_or_default();
    if watches.len() > MOST_WATCHES {
        return Err(Unasked::TooManyWatches);
    }
    Ok(Batch {
        world: world_of(given, "WORLD"),
        scripts: Vec::from_slice(alloc, scripts)?,
        workers: number(given, "workers", MOST_WORKERS),
        tries: number(given, "tries", MOST_TRIES),
        history: given.get_str("history"),
        watches: Vec::from_slice(alloc, watches)?,
        is_explained: given.get_flag("explain"),
        is_json: is_json(given),
        is_strict: given.get_flag("strict"),
    })
}

// The number of this option, which is from 1 to `most`.
fn number(given: &ArgMatches<'_>, id: &str, most: u32) -> u32
    requires { 1 ≤ most }
    ensures { (1 ≤ result) × (result ≤ most) }
{
    given.get_one::<u32>(id).unwrap_or(1).clamp(1, most)
}

// Prints help or the version on standard output and what is wrong with the words on standard error.
fn answer<R: Print + Eprint>(rt: &R, error: &Error) -> Unasked {
    if error.kind() == ErrorKind::OutOfMemory {
        return Unasked::Memory;
    }
    match error.print(rt) {
        _ if error.use_stderr() => Unasked::Refused,
        Ok(()) => Unasked::Helped,
        Err(_) => Unasked::Unwritten,
    }
}

// Whether there is the word that asks for more to be told.
fn is_verbose(words: &[String]) -> bool {
    words.iter().any(|word| matches!(word.as_str(), "-v" | "--verbose" | "-vV" | "-Vv"))
}

// Prints the version, and the toolchain behind it.
fn tell_versions<R: Print>(rt: &R) -> Unasked {
    match print!(rt; "cgtx {VERSION}\nproved with {TOOLCHAIN}\n") {
        Ok(()) => Unasked::Helped,
        Err(_) => Unasked::Unwritten,
    }
}

// The words that `cgtx` takes: a command and its own words.
fn command<'a>(alloc: Global) -> Result<Command<'a>, AllocError> {
    let program = Command::new(alloc, "cgtx")
        .bin_name("cgtx")?
        .version(VERSION)
        .about(
            "Replays schedules and runs scripts of requests against a tree of control groups; shows, compares, plans, checks and imports such trees.",
        )
        .subcommand_required(true)
        .disable_help_subcommand(true);
    let mut program = with_words(alloc, program, OWN_WORDS)?;
    for form in COMMANDS {
        program = program.subcommand(form.command(alloc)?)?;
    }
    Ok(program)
}
