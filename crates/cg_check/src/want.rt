//! What a word of a line is to be, and why it isn't that.
use crate::fault::Wrong;
use cg_cpus::CpuSet;
use cg_name::{Controller, FileName, Name, Path, Refusal, SaveName};
use cg_text::{Controllers, read_flag, read_limit, read_pid};
use std::alloc::{AllocError, Global};

/// What a word is to be.
#[derive(Clone, Copy)]
pub(crate) enum Want {
    // The version of a world.
    Version,
    // The name of a controller.
    Controller,
    // Names of controllers joined by commas, or a minus.
    Control,
    // A list of CPUs up to this one.
    Cpus(u16),
    // Such a list, or a minus.
    CpusOrNone(u16),
    // A freeze value.
    Flag,
    // A limit.
    Limit,
    // A PID.
    Pid,
    // The path of a group.
    Path,
    // A controller to be enabled or disabled.
    Operation,
    // The name of an interface file.
    File,
    // The name of a session.
    Session,
    // The name of a savepoint.
    Savepoint,
}

// What is wrong in a word, and at which of its bytes, from 0 on.
pub(crate) type Part<'a> = (usize, Wrong<'a>);

impl Want {
    // That a word isn't this.
    fn is_none(self) -> &'static str {
        match self {
            Want::Version => "is no version",
            Want::Controller => "is no controller",
            Want::Control => "is no list of controllers",
            Want::Cpus(_) | Want::CpusOrNone(_) => "is no list of CPUs",
            Want::Flag => "is no freeze value",
            Want::Limit => "is no limit",
            Want::Pid => "is no PID",
            Want::Path => "is no path",
            Want::Operation => "is no operation",
            Want::File => "is no interface file",
            Want::Session => "is no name of a session",
            Want::Savepoint => "is no name of a savepoint",
        }
    }

    // That it isn't there.
    pub(crate) fn is_missing(self) -> &'static str {
        match self {
            Want::Version => "the version is missing",
            Want::Controller => "a controller is missing",
            Want::Control => "the controllers that the group passes on are missing",
            Want::Cpus(_) | Want::CpusOrNone(_) => "the CPUs are missing",
            Want::Flag => "the freeze value is missing",
            Want::Limit => "a limit is missing",
            Want::Pid => "the PID is missing",
            Want::Path => "the path is missing",
            Want::Operation => "an operation is missing",
            Want::File => "the interface file is missing",
            Want::Session => "the name of the session is missing",
            Want::Savepoint => "the name of the savepoint is missing",
        }
    }

    // What may stand in its place.
    pub(crate) fn may_be(self) -> &'static str {
        match self {
            Want::Version => "1 or 2 may stand here",
            Want::Controller => {
                "cpuset, cpu, io, memory, hugetlb, pids, rdma and misc may stand here"
            }
            Want::Control => "- or controllers joined by commas, as cpu,memory, may stand here",
            Want::Cpus(last) => cpus_may_be(last),
            Want::CpusOrNone(last) => cpus_or_none_may_be(last),
            Want::Flag => "0 or 1 may stand here",
            Want::Limit => "max or a number from 0 to 2147483647 may stand here",
            Want::Pid => "a number from 1 to 4194303 may stand here",
            Want::Path => "/ or at most 64 names with a / before each may stand here",
            Want::Operation => "+ or - and a controller, as +cpu, may stand here",
            Want::File => "the name of an interface file, as cgroup.procs, may stand here",
            Want::Session | Want::Savepoint => {
                "1 to 16 letters, digits, underscores and dashes may stand here"
            }
        }
    }

    // Why the word isn't this, where it isn't. An error where there is no memory for a name in it.
    pub(crate) fn why_not<'a>(
        self,
        alloc: Global,
        word: &'a str,
    ) -> Result<Option<Part<'a>>, AllocError> {
        let is_right = match self {
            Want::Version => matches!(word, "1" | "2"),
            Want::Controller => Controller::read(word).is_ok(),
            Want::Control => return Ok(self.why_no_control(word)),
            Want::Cpus(last) => return Ok(self.why_no_cpus(last, word)),
            Want::CpusOrNone(last) => match word {
                "-" => true,
                _ => return Ok(self.why_no_cpus(last, word)),
            },
            Want::Flag => read_flag(word).is_ok(),
            Want::Limit => read_limit(word).is_ok(),
            Want::Pid => read_pid(word).is_ok(),
            Want::Path => return why_no_path(alloc, word),
            Want::Operation => is_operation(word),
            Want::File => FileName::read(word).is_ok(),
            Want::Session | Want::Savepoint => SaveName::read(word).is_ok(),
        };
        Ok((!is_right).then_some((0, self.not(word))))
    }

    // That this word isn't this.
    fn not<'a>(self, word: &'a str) -> Wrong<'a> {
        Wrong::of(word, self.is_none(), self.may_be())
    }

    // Why the word joins no controllers by commas.
    fn why_no_control<'a>(self, word: &'a str) -> Option<Part<'a>> {
        if word == "-" {
            return None;
        }
        let mut known = Controllers::empty();
        let mut place = 0usize;
        for name in word.split(',') {
            match Controller::read(name) {
                Err(_) if name.is_empty() => return Some((place, self.not(word))),
                Err(_) => return Some((place, Want::Controller.not(name))),
                Ok(controller) if known.contains(controller) => {
                    return Some((place, twice(name)));
                }
                Ok(controller) => known.insert(controller),
            }
            place = place.saturating_add(name.len()).saturating_add(1);
        }
        None
    }

    // Why the word is no list of CPUs up to the last one, with one at least.
    fn why_no_cpus<'a>(self, last: u16, word: &'a str) -> Option<Part<'a>> {
        let mut place = 0usize;
        for element in word.split(',') {
            match CpuSet::read(element).map(|cpus| cpus.last()) {
                Ok(Some(cpu)) if cpu <= last => {}
                Ok(Some(_)) => {
                    return Some((
                        place,
                        Wrong::of(element, "goes beyond the greatest CPU", self.may_be()),
                    ));
                }
                Ok(None) => return Some((place, self.not(word))),
                Err(_) => return Some((place, self.not(element))),
            }
            place = place.saturating_add(element.len()).saturating_add(1);
        }
        None
    }
}

// That something stands a second time.
pub(crate) fn twice<'a>(word: &'a str) -> Wrong<'a> {
    Wrong::of(word, "stands here twice", "each may stand once")
}

// What a list of CPUs up to this one may be.
fn cpus_may_be(last: u16) -> &'static str {
    match last {
        127 => "numbers from 0 to 127 and ranges, as 0-3,8, may stand here",
        _ => "numbers from 0 to 1023 and ranges, as 0-3,8, may stand here",
    }
}

// The same where there may be none.
fn cpus_or_none_may_be(last: u16) -> &'static str {
    match last {
        127 => "- or numbers from 0 to 127 and ranges, as 0-3,8, may stand here",
        _ => "- or numbers from 0 to 1023 and ranges, as 0-3,8, may stand here",
    }
}

// Whether the word enables or disables a controller.
fn is_operation(word: &str) -> bool {
    match word.strip_prefix('+').or(word.strip_prefix('-')) {
        Some(name) => Controller::read(name).is_ok(),
        None => false,
    }
}

// Why the word is no path.
fn why_no_path<'a>(alloc: Global, word: &'a str) -> Result<Option<Part<'a>>, AllocError> {
    match Path::read(alloc, word) {
        Ok(_) => return Ok(None),
        Err(Refusal::Syntax) => {}
        Err(_) => return Err(AllocError),
    }
    let Some(names) = word.strip_prefix('/') else {
        return Ok(Some((0, Want::Path.not(word))));
    };
    let mut place = 1usize;
    for name in names.split('/') {
        match Name::read(alloc, name) {
            Ok(_) => {}
            Err(Refusal::Syntax) => return Ok(Some((place, no_name(name)))),
            Err(_) => return Err(AllocError),
        }
        place = place.saturating_add(name.len()).saturating_add(1);
    }
    Ok(Some((0, Want::Path.not(word))))
}

// That no group has this name.
fn no_name<'a>(name: &'a str) -> Wrong<'a> {
    let wanted = "1 to 255 bytes but a / and a newline may stand here";
    match name {
        "" => Wrong::here("a name is missing", wanted),
        "." | ".." => Wrong::of(name, "is no name of a group", wanted),
        _ if FileName::read(name).is_ok() => {
            Wrong::of(
                name,
                "is the name of an interface file, which no group has",
                wanted,
            )
        }
        _ => Wrong::of(name, "is no name of a group", wanted),
    }
}
