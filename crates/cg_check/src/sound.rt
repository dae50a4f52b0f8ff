//! Worlds of which the lines are right and the tree isn't sound. The rules are those of the kernel's cgroup-v2 page.
use crate::fault::Faults;
use crate::line::Line;
use cg_boxed::CompactSettings;
use cg_name::{Controller, Path, Refusal};
use cg_text::{Controllers, LineWords, read_words};
use cg_world::PlainTree;
use cg_world_text::{Statement, Version};
use std::alloc::{AllocError, Global};

/// A tree whose lines are to be looked at once more.
#[derive(Drop)]
pub(crate) struct Sound {
    pub(crate) version: Version,
    // The controllers of the computer.
    pub(crate) controllers: Controllers,
    // The groups.
    pub(crate) tree: PlainTree,
}

// What is wrong with a group or a process: which word of its line, that, and what may be instead.
type Unsound = (usize, &'static str, &'static str);

impl Sound {
    // The faults of the tree, with those so far.
    pub(crate) fn why_unsound<'a>(
        &self,
        alloc: Global,
        text: &'a [u8],
        faults: Faults<'a>,
    ) -> Result<Faults<'a>, AllocError> {
        let mut faults = faults;
        let mut number = 0usize;
        for line in text.split(|byte| *byte == b'\n') {
            number = number.saturating_add(1);
            self.take_line(alloc, number, line, &mut faults)?;
        }
        Ok(faults)
    }

    // Looks at a line.
    fn take_line<'a>(
        &self,
        alloc: Global,
        number: usize,
        line: &'a [u8],
        faults: &mut Faults<'a>,
    ) -> Result<(), AllocError> {
        let mut words = LineWords::new(alloc);
        match read_words(line, &mut words) {
            Ok(true) => {}
            Ok(false) | Err(Refusal::Syntax) => return Ok(()),
            Err(_) => return Err(AllocError),
        }
        let line = Line {
            number,
            bytes: line,
            words: words.as_slice(),
        };
        match Statement::read(alloc, self.version, line.words) {
            Ok(statement) => self.take_statement(alloc, line, statement, faults),
            Err(Refusal::Syntax) => Ok(()),
            Err(_) => Err(AllocError),
        }
    }

    // Looks at what a line says.
    fn take_statement<'a>(
        &self,
        alloc: Global,
        line: Line<'a, '_>,
        statement: Statement,
        faults: &mut Faults<'a>,
    ) -> Result<(), AllocError> {
        let unsound = match &statement {
            Statement::Group(path, settings) => self.why_no_group(alloc, path, settings)?,
            Statement::Process(_, path) => self.why_no_process(path),
            Statement::End if self.tree.settings(&Path::root(alloc)).is_none() => Some((
                0,
                "ends a world without a root",
                "a line group / has to stand above",
            )),
            _ => None,
        };
        match unsound {
            Some((place, is, wanted)) => faults.add(line.wrong_word(place, is, wanted)),
            None => Ok(()),
        }
    }

    // Why there can be no group with these settings at this path.
    fn why_no_group(
        &self,
        alloc: Global,
        path: &Path,
        settings: &CompactSettings,
    ) -> Result<Option<Unsound>, AllocError> {
        let Some(parent) = path.parent(alloc)? else {
            return Ok(self.why_no_root(settings));
        };
        Ok(match self.tree.settings(&parent) {
            None => Some((
                1,
                "has no parent",
                "the group above it has to stand in a line of its own",
            )),
            Some(above) => why_no_child(above.control(), settings),
        })
    }

    // Why the root can't have these settings.
    fn why_no_root(&self, settings: &CompactSettings) -> Option<Unsound> {
        if let Some(controller) = first_beyond(settings.control(), self.controllers) {
            return Some((
                2,
                passes_on_absent(controller),
                "the root passes on controllers of the computer alone",
            ));
        }
        if settings.freeze() {
            return Some((
                3,
                "freezes the root",
                "the root has no cgroup.freeze, and 0 stands here",
            ));
        }
        (!settings.cpus().is_empty()).then_some((
            4,
            "asks for CPUs for the root",
            "the root has no cpuset.cpus, and - stands here",
        ))
    }

    // Why a process can't be in the group at this path.
    fn why_no_process(&self, path: &Path) -> Option<Unsound> {
        match self.tree.settings(path) {
            None => Some((2, "is no group", "a process is in a group of the world")),
            Some(settings) if path.is_root() || settings.control().is_empty() => None,
            Some(_) => Some((
                2,
                "passes controllers on, and so has no processes",
                "a group other than the root has processes of its own only where it passes no controller on",
            )),
        }
    }
}

// Why a group that passes these controllers on can't have a child with these settings.
fn why_no_child(above: Controllers, settings: &CompactSettings) -> Option<Unsound> {
    if let Some(controller) = first_beyond(settings.control(), above) {
        return Some((
            2,
            passes_on_unavailable(controller),
            "a group passes on only what its parent passes on to it",
        ));
    }
    if settings.cpus().is_empty() || above.cpuset {
        return None;
    }
    Some((
        4,
        "asks for CPUs without the controller cpuset",
        "the parent has to pass cpuset on, or - stands here",
    ))
}

// The first controller that the set has and the other hasn't.
fn first_beyond(set: Controllers, other: Controllers) -> Option<Controller> {
    let beyond = set.difference(&other);
    Controller::ALL
        .iter()
        .copied()
        .find(|controller| beyond.contains(*controller))
}

// That a computer hasn't the controller which the root passes on.
fn passes_on_absent(controller: Controller) -> &'static str {
    match controller {
        Controller::Cpuset => "passes on cpuset, which the computer has not",
        Controller::Cpu => "passes on cpu, which the computer has not",
        Controller::Io => "passes on io, which the computer has not",
        Controller::Memory => "passes on memory, which the computer has not",
        Controller::Hugetlb => "passes on hugetlb, which the computer has not",
        Controller::Pids => "passes on pids, which the computer has not",
        Controller::Rdma => "passes on rdma, which the computer has not",
        Controller::Misc => "passes on misc, which the computer has not",
    }
}

// That a parent doesn't pass on the controller which a group passes on.
fn passes_on_unavailable(controller: Controller) -> &'static str {
    match controller {
        Controller::Cpuset => "passes on cpuset, which the parent does not",
        Controller::Cpu => "passes on cpu, which the parent does not",
        Controller::Io => "passes on io, which the parent does not",
        Controller::Memory => "passes on memory, which the parent does not",
        Controller::Hugetlb => "passes on hugetlb, which the parent does not",
        Controller::Pids => "passes on pids, which the parent does not",
        Controller::Rdma => "passes on rdma, which the parent does not",
        Controller::Misc => "passes on misc, which the parent does not",
    }
}
