//! Faults of a world's text.
ghost use Rattle.std.specs.Prelude.{◌≡◌, ◌<◌, IfOk};
ghost use Rattle.cg_model.specs.Tree.{Tree};
ghost use Rattle.cg_world_text.specs.World.{SpellsWorld};

use crate::fault::{Fault, Faults, Wrong};
use crate::line::{Line, places_in_world};
use crate::place::too_long;
use crate::sound::Sound;
use crate::uncut::uncut;
use cg_boxed::CompactSettings;
use cg_cpus::CpuSet;
use cg_name::{Path, Refusal};
use cg_text::{Controllers, LineWords, read_words};
use cg_world::{PlainTree, World};
use cg_world_text::{LONGEST_WORLD, ReadWorld, Statement, Version};
use indexmap::IndexSet;
use std::alloc::{AllocError, Global};

/// The faults of the text of a world.
pub(crate) fn check_world<'a>(alloc: Global, text: &'a [u8]) -> Result<Faults<'a>, AllocError>
    ensures right { IfOk result (λ faults. faults.count ≡ 0 → (T : Tree) × SpellsWorld text.now T) }
    ensures wrong { IfOk result (λ faults. 0 < faults.count → (T : Tree) → SpellsWorld text.now T → ⊥) }
{
    match World::read(alloc, text) {
        Ok(world) => {
            drop(world);
            Ok(Faults::none(alloc))
        }
        Err(Refusal::Syntax) => why_no_world(alloc, text),
        Err(_) => Err(AllocError),
    }
}

// The faults of a text that is no world: one at least.
fn why_no_world<'a>(alloc: Global, text: &'a [u8]) -> Result<Faults<'a>, AllocError>
    ensures { IfOk result (λ faults. 0 < faults.count) }
{
    let mut pass = Pass {
        next: Next::World,
        version: None,
        controllers: Controllers::empty(),
        tree: PlainTree::new(alloc, Controllers::empty(), CpuSet::empty()),
        processes: IndexSet::new(alloc),
        faults: Faults::none(alloc),
    };
    let mut number = 0usize;
    for line in text.split(|byte| *byte == b'\n') {
        number = number.saturating_add(1);
        pass.take_line(alloc, number, line)?;
    }
    let Pass {
        next,
        version,
        controllers,
        tree,
        processes: _,
        mut faults,
    } = pass;
    if !matches!(next, Next::Nothing) {
        faults.add(no_end(number, next))?;
    }
    if text.len() > LONGEST_WORLD {
        faults.add(too_long(text, LONGEST_WORLD))?;
    }
    if faults.count == 0 {
        let sound = Sound {
            version: version.unwrap_or(Version::Two),
            controllers,
            tree,
        };
        faults = sound.why_unsound(alloc, text, faults)?;
    }
    faults.or(
        "the text is no world",
        "the lines of a world may stand in it",
    )
}

// That the text ends before its line `end`.
fn no_end<'a>(line: usize, next: Next) -> Fault<'a> {
    Fault {
        line,
        column: 1,
        wrong: Wrong::here("the line end is missing", next.may_be()),
    }
}

// Which line comes next.
#[derive(Clone, Copy)]
enum Next {
    World,
    Controllers,
    Online,
    Groups,
    Processes,
    Nothing,
}

impl Next {
    // What comes next behind the line with this keyword, and none where there is no such line.
    fn behind(keyword: &str) -> Option<Next> {
        match keyword {
            "world" => Some(Next::Controllers),
            "controllers" => Some(Next::Online),
            "online" | "group" => Some(Next::Groups),
            "proc" => Some(Next::Processes),
            "end" => Some(Next::Nothing),
            _ => None,
        }
    }

    // Whether a line with this keyword may come next.
    fn allows(self, keyword: &str) -> bool {
        match self {
            Next::World => keyword == "world",
            Next::Controllers => keyword == "controllers",
            Next::Online => keyword == "online",
            Next::Groups => matches!(keyword, "group" | "proc" | "end"),
            Next::Processes => matches!(keyword, "proc" | "end"),
            Next::Nothing => false,
        }
    }

    // What may come next.
    fn may_be(self) -> &'static str {
        match self {
            Next::World => "world 1 or world 2 may stand here",
            Next::Controllers => "controllers and those of the computer may stand here",
            Next::Online => "online and a list of CPUs may stand here",
            Next::Groups => "group, proc and end may stand here",
            Next::Processes => "proc and end may stand here",
            Next::Nothing => "comments alone may stand here",
        }
    }

    // How far a world has come before that.
    fn rank(self) -> u8 {
        match self {
            Next::World => 0,
            Next::Controllers => 1,
            Next::Online => 2,
            Next::Groups => 3,
            Next::Processes => 4,
            Next::Nothing => 5,
        }
    }
}

// What was read of a world so far, and its faults.
#[derive(Drop)]
struct Pass<'a> {
    next: Next,
    // That which its line names, where it names one.
    version: Option<Version>,
    controllers: Controllers,
    // With the groups so far.
    tree: PlainTree,
    processes: IndexSet<u32>,
    faults: Faults<'a>,
}

impl<'a> Pass<'a> {
    // Takes the next line.
    fn take_line(
        &mut self,
        alloc: Global,
        number: usize,
        line: &'a [u8],
    ) -> Result<(), AllocError> {
        let mut words = LineWords::new(alloc);
        match read_words(line, &mut words) {
            Ok(false) => Ok(()),
            Ok(true) => self.take_words(
                alloc,
                Line {
                    number,
                    bytes: line,
                    words: words.as_slice(),
                },
            ),
            Err(Refusal::Syntax) => self.faults.add(uncut(number, line)),
            Err(_) => Err(AllocError),
        }
    }

    // Takes the words of the next line that says something. Where they are wrong, the world goes on as if they were right.
    fn take_words(&mut self, alloc: Global, line: Line<'a, '_>) -> Result<(), AllocError> {
        let keyword = line.word(0);
        let Some(behind) = Next::behind(keyword) else {
            self.faults.add(line.wrong_word(0, "begins no line of a world", self.next.may_be()))?;
            self.next = behind_unknown(self.next);
            return Ok(());
        };
        if !self.next.allows(keyword) {
            self.faults.add(line.wrong_word(0, "stands out of its order", self.next.may_be()))?;
        }
        if behind.rank() > self.next.rank() {
            self.next = behind;
        }
        let version = self.version_for(line);
        match Statement::read(alloc, version, line.words) {
            Ok(statement) => self.take_statement(line, statement),
            Err(Refusal::Syntax) => {
                let fault = self.why_no_statement(alloc, version, line)?;
                self.faults.add(fault)
            }
            Err(_) => Err(AllocError),
        }
    }

    // The version by which a line is read: that of the text, and where none is named the one in which a group has as many words.
    fn version_for(&self, line: Line<'a, '_>) -> Version {
        match self.version {
            Some(version) => version,
            None if line.word(0) == "group" && line.words.len() <= 5 => Version::One,
            None => Version::Two,
        }
    }

    // Why the words of a line say nothing that they may.
    fn why_no_statement(
        &self,
        alloc: Global,
        version: Version,
        line: Line<'a, '_>,
    ) -> Result<Fault<'a>, AllocError> {
        let keyword = line.word(0);
        if let Some(fault) = line.why_unread(alloc, places_in_world(version, keyword), 1)? {
            return Ok(fault);
        }
        match line.why_twice(1) {
            Some(fault) if keyword == "controllers" => Ok(fault),
            _ => Ok(line.wrong_word(0, "begins no line of a world", self.next.may_be())),
        }
    }

    // Takes what a line says.
    fn take_statement(
        &mut self,
        line: Line<'a, '_>,
        statement: Statement,
    ) -> Result<(), AllocError> {
        match statement {
            Statement::Version(version) => self.version = Some(version),
            Statement::Controllers(controllers) => self.controllers = controllers,
            Statement::Online(_) | Statement::End => {}
            Statement::Group(path, settings) => {
                return self.take_group(line, path, settings);
            }
            Statement::Process(pid, _path) => return self.take_process(line, pid),
        }
        Ok(())
    }

    // Takes a group.
    fn take_group(
        &mut self,
        line: Line<'a, '_>,
        path: Path,
        settings: CompactSettings,
    ) -> Result<(), AllocError> {
        if self.tree.settings(&path).is_some() {
            return self.faults.add(line.wrong_word(
                1,
                "is a group already",
                "a group stands in one line alone",
            ));
        }
        self.tree.set_group(path, settings)?;
        Ok(())
    }

    // Takes a process.
    fn take_process(&mut self, line: Line<'a, '_>, pid: u32) -> Result<(), AllocError> {
        if self.processes.get_index_of(&pid).is_some() {
            return self.faults.add(line.wrong_word(
                1,
                "is a process already",
                "a process stands in one line alone",
            ));
        }
        self.processes.insert(pid)?;
        Ok(())
    }
}

// What comes next behind a line that is none of a world: it is taken for the one that was to come.
fn behind_unknown(next: Next) -> Next {
    match next {
        Next::World => Next::Controllers,
        Next::Controllers => Next::Online,
        Next::Online => Next::Groups,
        _ => next,
    }
}
