//! What is published: commands in the order of their commits, with a mark at the end of each script.
ghost use Rattle.std.specs.Prelude.{◌≡◌, [], ◌∷◌, IfOk, OnErr, OnOk};
ghost use Rattle.cg_view.specs.Operations.{commanded, commits_in, operated};

use cg_command::Command;
use cg_tree::Tree;
use std::alloc::{AllocError, Global};

/// One step of the list that is published.
#[derive(Drop)]
pub enum Operation {
    /// A command of a committed script.
    Does {
        /// It.
        command: Command,
    },
    /// The end of a committed script, also of one without commands.
    Ends,
}

impl Operation {
    /// An equal operation; an error where there is no memory for it.
    pub fn copy(&self, alloc: Global) -> Result<Operation, AllocError>
        ensures { IfOk result (λ o. o ≡ self.now) }
    {
        Ok(match self {
            Operation::Does { command } => Operation::Does {
                command: command.copy(alloc)?,
            },
            Operation::Ends => Operation::Ends,
        })
    }

    // Changes the tree as the operation does: a command that the tree refuses, and the end of a script, leave it. An error,
    // where there is no memory, leaves it too.
    pub(crate) fn carry_out(&self, alloc: Global, tree: &mut Tree) -> Result<(), AllocError>
        ensures ok { OnOk result (tree.new.tree ≡ operated self.now tree.old.tree) }
        ensures err { OnErr result (tree.new ≡ tree.old) }
    {
        match self {
            Operation::Does { command } => run(command, alloc, tree),
            Operation::Ends => Ok(()),
        }
    }

    // How many scripts end by it.
    pub(crate) fn commits(&self) -> usize
        ensures { result ≡ commits_in (self.now ∷ []) }
    {
        match self {
            Operation::Does { .. } => 0,
            Operation::Ends => 1,
        }
    }
}

// Changes the tree as the command does, where the tree accepts it.
fn run(command: &Command, alloc: Global, tree: &mut Tree) -> Result<(), AllocError>
    ensures ok { OnOk result (tree.new.tree ≡ commanded command.now tree.old.tree) }
    ensures err { OnErr result (tree.new ≡ tree.old) }
{
    if command.check(tree).is_err() {
        return Ok(());
    }
    command.apply(alloc, tree)?;
    Ok(())
}
