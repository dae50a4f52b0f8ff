//! Commands that are asked for.
use cg_boxed::BoxedCpus;
use cg_command::{Command, CompactOps, OnlineCpus, Pid};
use cg_cpus::CpuSet;
use cg_name::{FileName, Path, Refusal};
use cg_text::{Limit, read_ops};
use std::alloc::Global;

/// A command without its path. Where any value is answered and kept alike, it has none.
#[derive(Clone, Copy)]
pub(crate) enum Asked {
    Create,
    Remove,
    Migrate(u32),
    Subtree(&'static str),
    Freeze,
    Cpus(&'static str),
    Show(FileName),
    Online,
    MaxDescendants,
    MaxDepth,
}

// A move of the process with this number.
fn migrate(number: u32, path: Path) -> Result<Command, Refusal> {
    let pid = Pid::try_from(number)?;
    Ok(Command::Migrate { pid, path })
}

// A write of these operations.
fn subtree(path: Path, text: &str) -> Result<Command, Refusal> {
    let ops = CompactOps::new(read_ops(text)?);
    Ok(Command::Subtree { path, ops })
}

// A write of these CPUs.
fn cpus(alloc: Global, path: Path, text: &str) -> Result<Command, Refusal> {
    Ok(Command::of_cpus(alloc, path, CpuSet::read(text)?)?)
}

// That these CPUs are online.
fn online(alloc: Global, text: &str) -> Result<Command, Refusal> {
    let cpus = OnlineCpus::try_from(BoxedCpus::new(alloc, CpuSet::read(text)?)?)?;
    Ok(Command::Online { cpus })
}

// The command at the path.
fn command_at(alloc: Global, asked: Asked, path: Path) -> Result<Command, Refusal> {
    let limit = Limit::Max;
    match asked {
        Asked::Create => Ok(Command::Create { path }),
        Asked::Remove => Ok(Command::Remove { path }),
        Asked::Migrate(number) => migrate(number, path),
        Asked::Subtree(text) => subtree(path, text),
        Asked::Freeze => Ok(Command::Freeze { path, value: true }),
        Asked::Cpus(text) => cpus(alloc, path, text),
        Asked::Show(file) => Ok(Command::Show { path, file }),
        Asked::Online => online(alloc, "0-1"),
        Asked::MaxDescendants => Ok(Command::MaxDescendants { path, limit }),
        Asked::MaxDepth => Ok(Command::MaxDepth { path, limit }),
    }
}

/// The command at the path that a word spells.
pub(crate) fn command(alloc: Global, asked: Asked, word: &str) -> Result<Command, Refusal> {
    command_at(alloc, asked, Path::read(alloc, word)?)
}
