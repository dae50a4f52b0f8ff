//! How far a world text was read.
ghost use Rattle.std.specs.Prelude.{◌≡◌, IfErr, OnErr, OnOk, Some, None, true, false, is_some};
ghost use Rattle.std.specs.Result.{IsErrOf};
ghost use Rattle.cg_name.specs.Refusal.{IsSyntaxOrMemory};
ghost use Rattle.cg_name.specs.declared.refusal.Refusal.TheVariants.{Syntax};
ghost use Rattle.cg_model.specs.Tree.{group, place_of};
ghost use Rattle.cg_world.specs.Making.{with_group, with_process};
ghost use Rattle.cg_world.specs.Representable.{IsPid};
ghost use Rattle.cg_world_text.specs.declared.statement.Statement.TheVariants as statements;
ghost use Rattle.cg_world_text.specs.declared.statement.Statement.TheVariants.{Online, Group, Process, End};
ghost use Rattle.cg_world_text.specs.Stage.{HasPid, behind_groups, taken, version_at};

use crate::statement::Statement;
use crate::version::Version;
use cg_boxed::{BoxedCpus, CompactSettings};
use cg_name::{Path, Refusal};
use cg_text::Controllers;
use cg_world::{GatheredTree, PlainTree};
use std::alloc::Global;
use std::mem;

// What was read of a world text so far.
#[derive(Drop)]
pub(crate) enum Stage {
    /// Nothing.
    Begun,
    /// The version.
    Versioned(Version),
    /// The computer's controllers too.
    Controlled(Version, Controllers),
    /// The online CPUs too, and these groups.
    Groups(Version, GatheredTree),
    /// All groups, and these processes.
    Processes(Version, GatheredTree),
    /// All.
    Ended(Version, PlainTree),
}

impl Stage {
    // The version by which the next line is read: the one that was named, and either before that.
    pub(crate) fn version(&self) -> Version
        ensures { result ≡ version_at self.now }
    {
        match self {
            Stage::Versioned(version)
            | Stage::Controlled(version, _)
            | Stage::Groups(version, _)
            | Stage::Processes(version, _)
            | Stage::Ended(version, _) => *version,
            Stage::Begun => Version::One,
        }
    }

    // Takes one line more; `Syntax` where the line can't stand there. After an error nothing is told of the stage.
    pub(crate) fn take(&mut self, alloc: Global, statement: Statement) -> Result<(), Refusal>
        requires { HasPid statement }
        ensures value { OnOk result (taken self.old statement ≡ Some self.new) }
        ensures syntax { IsErrOf result Refusal.Syntax → taken self.old statement ≡ None }
        ensures refusals { IfErr result IsSyntaxOrMemory }
    {
        match statement {
            Statement::Group(path, settings) => self.take_group(alloc, path, settings),
            Statement::Process(pid, path) => self.take_process(alloc, pid, path),
            Statement::End => self.take_end(alloc),
            Statement::Version(version) => self.take_version(version),
            Statement::Controllers(controllers) => self.take_controllers(controllers),
            Statement::Online(online) => self.take_online(alloc, &online),
        }
    }

    // Takes the line of a group.
    fn take_group(
        &mut self,
        alloc: Global,
        path: Path,
        settings: CompactSettings,
    ) -> Result<(), Refusal>
        ensures value { OnOk result (taken self.old (Group path settings) ≡ Some self.new) }
        ensures syntax { IsErrOf result Refusal.Syntax → taken self.old (Group path settings) ≡ None }
        ensures refusals { IfErr result IsSyntaxOrMemory }
    {
        match self {
            Stage::Groups(_, tree) => add_group(alloc, tree, path, settings),
            _ => Err(Refusal::Syntax),
        }
    }

    // Takes the line of a process.
    fn take_process(&mut self, alloc: Global, pid: u32, path: Path) -> Result<(), Refusal>
        requires { IsPid pid }
        ensures value { OnOk result (taken self.old (Process pid path) ≡ Some self.new) }
        ensures syntax { IsErrOf result Refusal.Syntax → taken self.old (Process pid path) ≡ None }
        ensures refusals { IfErr result IsSyntaxOrMemory }
    {
        self.pass_groups();
        match self {
            Stage::Processes(_, tree) => add_process(alloc, tree, pid, path),
            _ => Err(Refusal::Syntax),
        }
    }

    // Goes on behind the groups, where it is at them.
    fn pass_groups(&mut self)
        ensures { self.new ≡ behind_groups self.old }
    {
        if !matches!(self, Stage::Groups(_, _)) {
            return;
        }
        if let Stage::Groups(version, tree) = mem::replace(self, Stage::Begun) {
            *self = Stage::Processes(version, tree);
        }
    }

    // Takes the end's line.
    fn take_end(&mut self, alloc: Global) -> Result<(), Refusal>
        ensures value { OnOk result (taken self.old End ≡ Some self.new) }
        ensures syntax { IsErrOf result Refusal.Syntax → taken self.old End ≡ None }
        ensures refusals { IfErr result IsSyntaxOrMemory }
    {
        match mem::replace(self, Stage::Begun) {
            Stage::Groups(version, tree) | Stage::Processes(version, tree) => {
                *self = Stage::Ended(version, tree.finish(alloc)?);
                Ok(())
            }
            _ => Err(Refusal::Syntax),
        }
    }

    // Takes the line that names the version.
    fn take_version(&mut self, version: Version) -> Result<(), Refusal>
        ensures value { OnOk result (taken self.old (statements.Version version) ≡ Some self.new) }
        ensures syntax { OnErr result (taken self.old (statements.Version version) ≡ None) }
        ensures refusals { IfErr result (λ e. e ≡ Syntax) }
    {
        match self {
            Stage::Begun => {
                *self = Stage::Versioned(version);
                Ok(())
            }
            _ => Err(Refusal::Syntax),
        }
    }

    // Takes the line of the computer's controllers.
    fn take_controllers(&mut self, controllers: Controllers) -> Result<(), Refusal>
        ensures value { OnOk result (taken self.old (statements.Controllers controllers) ≡ Some self.new) }
        ensures syntax { OnErr result (taken self.old (statements.Controllers controllers) ≡ None) }
        ensures refusals { IfErr result (λ e. e ≡ Syntax) }
    {
        match *self {
            Stage::Versioned(version) => {
                *self = Stage::Controlled(version, controllers);
                Ok(())
            }
            _ => Err(Refusal::Syntax),
        }
    }

    // Takes the line of the online CPUs.
    fn take_online(&mut self, alloc: Global, online: &BoxedCpus) -> Result<(), Refusal>
        ensures value { OnOk result (taken self.old (Online online.now) ≡ Some self.new) }
        ensures syntax { OnErr result (taken self.old (Online online.now) ≡ None) }
        ensures refusals { IfErr result (λ e. e ≡ Syntax) }
    {
        match *self {
            Stage::Controlled(version, controllers) => {
                *self = Stage::Groups(version, GatheredTree::new(alloc, controllers, online.get()));
                Ok(())
            }
            _ => Err(Refusal::Syntax),
        }
    }
}

// Adds a group to a tree; `Syntax` where it has it already. After an error nothing is told of the tree.
fn add_group(
    alloc: Global,
    tree: &mut GatheredTree,
    path: Path,
    settings: CompactSettings,
) -> Result<(), Refusal>
    ensures free { OnOk result (is_some (group tree.old path) ≡ false) }
    ensures value { OnOk result (tree.new ≡ with_group tree.old path settings) }
    ensures syntax { IsErrOf result Refusal.Syntax → is_some (group tree.old path) ≡ true }
    ensures refusals { IfErr result IsSyntaxOrMemory }
{
    if tree.set_group(alloc, path, settings)? {
        return Err(Refusal::Syntax);
    }
    Ok(())
}

// Adds a process to a tree; `Syntax` where it has it already. After an error nothing is told of the tree.
fn add_process(alloc: Global, tree: &mut GatheredTree, pid: u32, path: Path) -> Result<(), Refusal>
    requires { IsPid pid }
    ensures free { OnOk result (is_some (place_of tree.old pid) ≡ false) }
    ensures value { OnOk result (tree.new ≡ with_process tree.old pid path) }
    ensures syntax { IsErrOf result Refusal.Syntax → is_some (place_of tree.old pid) ≡ true }
    ensures refusals { IfErr result IsSyntaxOrMemory }
{
    if tree.set_place(alloc, pid, path)? {
        return Err(Refusal::Syntax);
    }
    Ok(())
}
