//! The commands of the program, and what their help says.
use crate::batches::{MOST_TRIES, MOST_WORKERS};
use crate::forms::CommandForm;
use crate::forms::WordForm::{
    self, Default, Flag, FlagApart, Needed, Number, OneOf, Several, ShortFlag, Value, ValueBeside,
    Values,
};

/// How many names a path has at most.
pub(crate) const MOST_NAMES: u32 = 64;

/// Where control groups are mounted.
pub(crate) const MOUNTED: &str = "/sys/fs/cgroup";

const WORLD: WordForm = Needed("WORLD", "The file of the world, or - for standard input");

/// The options of the program alone.
pub(crate) const OWN_WORDS: &[WordForm] = &[ShortFlag(
    "verbose",
    "With --version by which toolchain the program was proved, too",
    'v',
    &[],
)];

const VERBOSE: WordForm = ShortFlag(
    "verbose",
    "Tells behind a refusal on standard error where its cause is, and what may stand there",
    'v',
    &["quiet"],
);

const QUIET: WordForm = ShortFlag("quiet", "Writes no refusal and no progress", 'q', &[]);

/// The commands, in the order in which the help lists them.
pub(crate) const COMMANDS: &[CommandForm] = &[REPLAY, SHOW, TREE, DIFF, PLAN, RUN, CHECK, IMPORT];

const REPLAY: CommandForm = CommandForm {
    name: "replay",
    about: "Replays a schedule over a world, and writes the answers and the world that results",
    more: "\
Examples:
  cgtx replay world schedule
  cat world schedule | cgtx replay - -
  cgtx replay --echo --explain --strict world schedule
  cgtx replay --json world schedule
  cgtx replay --history history world schedule

Status:
  0  The schedule was played, whatever single requests were answered
  1  The same with --strict, and a request was refused
  2  The words aren't right, or there is no world
  3  Memory, an input or an output failed",
    words: &[
        Flag(
            "echo",
            "Writes each line with its number before its answer, behind a number sign",
        ),
        Flag(
            "explain",
            "Writes what is in the way of a refused command behind its answer, behind a number sign",
        ),
        FlagApart(
            "json",
            "Writes each answer and the world that results as a line of JSON",
            &["echo", "explain"],
        ),
        Value("history", "The file that the history is written to", "FILE"),
        Flag("strict", "Ends with status 1 where a request was refused"),
        VERBOSE,
        QUIET,
        WORLD,
        Needed(
            "SCHEDULE",
            "The file of the schedule, or - for standard input, behind the world where that is - too",
        ),
    ],
};

const SHOW: CommandForm = CommandForm {
    name: "show",
    about: "Shows an interface file of a group of a world",
    more: "\
Examples:
  cgtx show world /batch/job-1 cgroup.procs
  cgtx show --json world /batch/job-1 cgroup.procs

Status:
  0  The file was printed
  2  The words aren't right, or there is no world, or no such group or file
  3  Memory, an input or an output failed",
    words: &[
        Flag(
            "json",
            "Writes the file as a line of JSON, with its group's path and its name",
        ),
        VERBOSE,
        QUIET,
        WORLD,
        Needed("PATH", "The path of the group, as in a world"),
        Needed("FILE", "The name of the file, such as cgroup.procs"),
    ],
};

const TREE: CommandForm = CommandForm {
    name: "tree",
    about: "Shows the groups of a world, each with what it asks for and what it has",
    more: "\
Examples:
  cgtx tree world
  cgtx tree --json world
  cgtx replay world schedule | sed -n '/^world/,$p' | cgtx tree --depth 2 -

Status:
  0  The groups were printed
  2  The words aren't right, or there is no world
  3  Memory, an input or an output failed",
    words: &[
        Number(
            "depth",
            "How many names a group has at most that is shown, from 1 to 64",
            "N",
            MOST_NAMES,
            "64",
        ),
        Flag("json", "Writes each group as a line of JSON"),
        VERBOSE,
        QUIET,
        WORLD,
    ],
};

const FIRST_WORLD: WordForm = Needed(
    "WORLD-1",
    "The file of the first world, or - for standard input",
);

const SECOND_WORLD: WordForm = Needed(
    "WORLD-2",
    "The file of the second world, or - for standard input, behind the first where that is - too",
);

const DIFF: CommandForm = CommandForm {
    name: "diff",
    about: "Tells what changed from one world to another, a line for each change",
    more: "\
Examples:
  cgtx diff world-1 world-2
  cgtx replay world schedule | sed -n '/^world/,$p' | cgtx diff world -

Status:
  0  The worlds are the same
  1  They differ, and what changed was printed
  2  The words aren't right, or one isn't a world
  3  Memory, an input or an output failed",
    words: &[VERBOSE, QUIET, FIRST_WORLD, SECOND_WORLD],
};

const PLAN: CommandForm = CommandForm {
    name: "plan",
    about: "Prints a script that is accepted and turns one world into another",
    more: "\
Examples:
  cgtx plan world-1 world-2 > script
  cgtx run world-1 script
  cgtx plan --shell world-1 world-2
  cgtx plan --json world-1 world-2

Status:
  0  A script was printed that turns the one world into the other
  1  None was found
  2  The words aren't right, or one isn't a world
  3  Memory, an input or an output failed",
    words: &[
        FlagApart(
            "json",
            "Prints each request of the script as a line of JSON",
            &["shell"],
        ),
        Flag(
            "shell",
            "Prints the script as lines for a shell, to be read and run by whoever may",
        ),
        ValueBeside(
            "root",
            "The folder where these lines find the root, instead of /sys/fs/cgroup",
            "ROOT",
            "shell",
        ),
        VERBOSE,
        QUIET,
        FIRST_WORLD,
        SECOND_WORLD,
    ],
};

const RUN: CommandForm = CommandForm {
    name: "run",
    about: "Runs scripts on worker threads over a world, and writes how each ended and the world that results",
    more: "\
Examples:
  cgtx run world script-1 script-2
  cgtx run --workers 1 --history history world script
  cgtx run --watch /batch:cgroup.procs world script
  cgtx run --tries 1 --explain world script-1 script-2
  cgtx run --json world script-1 script-2

Status:
  0  The scripts ran, however each ended
  1  The same with --strict, and one was not committed
  2  The words aren't right, or there is no world, or a script isn't one
  3  Memory, an input or an output failed, or the results disagree",
    words: &[
        Number(
            "workers",
            "How many scripts run beside each other, from 1 to 64",
            "N",
            MOST_WORKERS,
            "2",
        ),
        Number(
            "tries",
            "How often a script is begun at most where others are in its way, from 1 to 1000",
            "K",
            MOST_TRIES,
            "8",
        ),
        Value("history", "The file that the history is written to", "FILE"),
        Flag(
            "explain",
            "Writes who was in the way of a script that gave up behind its line, behind a number sign",
        ),
        FlagApart(
            "json",
            "Writes each end and the world that results as a line of JSON",
            &["explain"],
        ),
        Values(
            "watch",
            "Tells the values of a group's file on standard error, at most 8 times",
            "PATH:FILE",
        ),
        Flag(
            "strict",
            "Ends with status 1 where a script was not committed",
        ),
        VERBOSE,
        QUIET,
        WORLD,
        Several("SCRIPT", "The files of the scripts, at most 4096"),
    ],
};

// What a file may be checked as.
const KINDS: &[&str] = &["world", "schedule", "script"];

const CHECK: CommandForm = CommandForm {
    name: "check",
    about: "Tells what is wrong with worlds, schedules and scripts, where, and what may stand there",
    more: "\
Examples:
  cgtx check world schedule script
  cgtx check --as script - < script
  cgtx check --json world

Status:
  0  No file has a fault
  2  The words aren't right, or a file has a fault
  3  Memory, an input or an output failed",
    words: &[
        OneOf(
            "as",
            "What each file is read as, whatever its lines tell",
            "KIND",
            KINDS,
        ),
        Flag(
            "json",
            "Writes each fault, and how many a file has, as a line of JSON",
        ),
        VERBOSE,
        QUIET,
        Several("FILE", "The files, or - for standard input"),
    ],
};

const IMPORT: CommandForm = CommandForm {
    name: "import",
    about: "Prints the world of a mounted tree of control groups, or of a folder that looks like one; it only reads",
    more: "\
Examples:
  cgtx import > world
  cgtx import --online 0-7 /sys/fs/cgroup | cgtx tree -

Status:
  0  The world was printed
  2  The words aren't right, or a world can't say it all and --strict was asked for
  3  Memory or an output failed, or the folder isn't that of a root",
    words: &[
        Value(
            "online",
            "The CPUs that are online, instead of those that the root's folder or this computer tells",
            "LIST",
        ),
        Flag("strict", "Prints nothing where a world can't say it all"),
        QUIET,
        Default("ROOT", "The folder of the root", MOUNTED),
    ],
};
