//! The lines of a world text.
ghost use Rattle.std.specs.Prelude.{◌≡◌, ◌∷◌, IfOk, IfErr, OnErr, map, codes};
ghost use Rattle.std.specs.Result.{IsErrOf};
ghost use Rattle.cg_name.specs.declared.refusal.Refusal.TheVariants.{Syntax};
ghost use Rattle.cg_name.specs.Refusal.{IsSyntaxOrMemory};
ghost use Rattle.cg_world_text.specs.declared.statement.Statement as statement;
ghost use Rattle.cg_world_text.specs.Statement.{SpellsStatement};

use crate::parts::{read_controllers, read_listed_cpus, read_settings};
use crate::version::Version;
use cg_boxed::{BoxedCpus, CompactSettings};
use cg_name::{Path, Refusal};
use cg_text::{Controllers, read_pid};
use std::alloc::Global;

/// What one line of a world text says. It holds CPUs and the settings of a group in little room, as a tree keeps them, so
/// that it is small and cheap to move.
#[derive(Drop)]
pub enum Statement {
    /// `world` and the version.
    Version(Version),
    /// `controllers` and the computer's controllers.
    Controllers(Controllers),
    /// `online` and the CPUs that are online.
    Online(BoxedCpus),
    /// `group`, its path and its settings.
    Group(Path, CompactSettings),
    /// `proc`, its PID and its group's path.
    Process(u32, Path),
    /// `end`
    End,
}

impl Statement {
    /// What the words of a line say in a text of the version; `Syntax` where they say nothing that it may, `Memory`
    /// where there is none for a path or for CPUs.
    pub fn read(alloc: Global, version: Version, words: &[&str]) -> Result<Statement, Refusal>
        ensures value { IfOk result (λ s. SpellsStatement version (map (λ w. w.now) words.now) s) }
        ensures syntax { IsErrOf result Refusal.Syntax → (s : statement.Statement) → SpellsStatement version (map (λ w. w.now) words.now) s → ⊥ }
        ensures refusals { IfErr result IsSyntaxOrMemory }
    {
        let [keyword, rest @ ..] = words else {
            return Err(Refusal::Syntax);
        };
        match *keyword {
            "world" => read_version(version, rest),
            "controllers" => Ok(Statement::Controllers(read_controllers(rest)?)),
            "online" => read_online(alloc, version, rest),
            "group" => read_group(alloc, version, rest),
            "proc" => read_process(alloc, version, rest),
            "end" => read_end(version, rest),
            _ => Err(Refusal::Syntax),
        }
    }
}

// The version that is named, from what stands behind `world`.
fn read_version(version: Version, rest: &[&str]) -> Result<Statement, Refusal>
    ensures value { IfOk result (λ s. SpellsStatement version (codes "world" ∷ map (λ w. w.now) rest.now) s) }
    ensures syntax { OnErr result ((s : statement.Statement) → SpellsStatement version (codes "world" ∷ map (λ w. w.now) rest.now) s → ⊥) }
    ensures refusals { IfErr result (λ e. e ≡ Syntax) }
{
    match rest {
        ["1"] => Ok(Statement::Version(Version::One)),
        ["2"] => Ok(Statement::Version(Version::Two)),
        _ => Err(Refusal::Syntax),
    }
}

// The online CPUs, from what stands behind `online`.
fn read_online(alloc: Global, version: Version, rest: &[&str]) -> Result<Statement, Refusal>
    ensures value { IfOk result (λ s. SpellsStatement version (codes "online" ∷ map (λ w. w.now) rest.now) s) }
    ensures syntax { IsErrOf result Refusal.Syntax → (s : statement.Statement) → SpellsStatement version (codes "online" ∷ map (λ w. w.now) rest.now) s → ⊥ }
    ensures refusals { IfErr result IsSyntaxOrMemory }
{
    match rest {
        [cpus] => Ok(Statement::Online(read_listed_cpus(alloc, version, cpus)?)),
        _ => Err(Refusal::Syntax),
    }
}

// A group, from what stands behind `group`.
fn read_group(alloc: Global, version: Version, rest: &[&str]) -> Result<Statement, Refusal>
    ensures value { IfOk result (λ s. SpellsStatement version (codes "group" ∷ map (λ w. w.now) rest.now) s) }
    ensures syntax { IsErrOf result Refusal.Syntax → (s : statement.Statement) → SpellsStatement version (codes "group" ∷ map (λ w. w.now) rest.now) s → ⊥ }
    ensures refusals { IfErr result IsSyntaxOrMemory }
{
    match rest {
        [path, control, freeze, cpus, limits @ ..] => Ok(Statement::Group(
            Path::read(alloc, path)?,
            read_settings(alloc, version, control, freeze, cpus, limits)?,
        )),
        _ => Err(Refusal::Syntax),
    }
}

// A process, from what stands behind `proc`.
fn read_process(alloc: Global, version: Version, rest: &[&str]) -> Result<Statement, Refusal>
    ensures value { IfOk result (λ s. SpellsStatement version (codes "proc" ∷ map (λ w. w.now) rest.now) s) }
    ensures syntax { IsErrOf result Refusal.Syntax → (s : statement.Statement) → SpellsStatement version (codes "proc" ∷ map (λ w. w.now) rest.now) s → ⊥ }
    ensures refusals { IfErr result IsSyntaxOrMemory }
{
    match rest {
        [pid, path] => Ok(Statement::Process(read_pid(pid)?, Path::read(alloc, path)?)),
        _ => Err(Refusal::Syntax),
    }
}

// The end, behind which the line has no word.
fn read_end(version: Version, rest: &[&str]) -> Result<Statement, Refusal>
    ensures value { IfOk result (λ s. SpellsStatement version (codes "end" ∷ map (λ w. w.now) rest.now) s) }
    ensures syntax { OnErr result ((s : statement.Statement) → SpellsStatement version (codes "end" ∷ map (λ w. w.now) rest.now) s → ⊥) }
    ensures refusals { IfErr result (λ e. e ≡ Syntax) }
{
    match rest {
        [] => Ok(Statement::End),
        _ => Err(Refusal::Syntax),
    }
}
