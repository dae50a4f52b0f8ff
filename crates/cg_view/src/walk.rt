//! The operations of a machine's committed scripts, one after another.
ghost use Rattle.std.specs.Prelude.{◌≡◌, ◌≢◌, ◌≤◌, ◌+◌, ◌∷◌, ◌++◌, [], IfOk, IfSome, IfNone, length, map, Some};
ghost use Rattle.std.specs.Bool.{OnFalse, OnTrue};
ghost use Rattle.std.specs.Option.{option_map};
ghost use Rattle.cg_command.specs.Meaning.{command_of};
ghost use Rattle.cg_core_laws.specs.CommittedCommands as laws;
ghost use Rattle.cg_core_laws.specs.CommittedCommands.{script_places};
ghost use Rattle.cg_history.specs.Meaning.{history_of};
ghost use Rattle.cg_model.specs.Command as model;
ghost use Rattle.cg_view.specs.Committed.{meant, operations_of};
ghost use Rattle.cg_view.specs.Lent.{step_meant};
ghost use Rattle.cg_view.specs.Operations.{StartsWith};

use crate::operation::Operation;
use cg_command::Command;
use cg_core::Core;
use cg_history::{Record, Request};
use std::alloc::{AllocError, Global};

/// An operation that a machine lends.
#[derive(Clone, Copy)]
pub(crate) enum Step<'a> {
    /// A command of a committed script.
    Does(&'a Command),
    /// The end of one.
    Ends,
}

impl<'a> Step<'a> {
    /// An equal operation; an error where there is no memory for it.
    pub(crate) fn copy(&self, alloc: Global) -> Result<Operation, AllocError>
        ensures { IfOk result (λ o. meant o ≡ step_meant self.now) }
    {
        Ok(match self {
            Step::Does(command) => Operation::Does {
                command: command.copy(alloc)?,
            },
            Step::Ends => Operation::Ends,
        })
    }

    // Whether this is that operation.
    fn is(&self, operation: &Operation) -> bool
        ensures yes { OnTrue result (meant operation.now ≡ step_meant self.now) }
        ensures no { OnFalse result (meant operation.now ≢ step_meant self.now) }
    {
        match (self, operation) {
            (Step::Does(own), Operation::Does { command }) => *own == command,
            (Step::Ends, Operation::Ends) => true,
            _ => false,
        }
    }
}

/// A walk over the operations of a machine's committed scripts, in commit order.
#[derive(Drop)]
pub(crate) struct Walk<'a> {
    core: &'a Core,
    // So many scripts are behind, and so many commands of the next one.
    scripts: u32,
    commands: usize,
    ghost within: { commands ≤ length (script_places (scripts + 1) core.now.history) },
}

impl<'a> Walk<'a> {
    ghost use Rattle.cg_view.specs.Walks.{left};

    /// Before the first operation.
    pub(crate) fn of(core: &'a Core) -> Walk<'a>
        ensures { left result ≡ operations_of core.now.history }
    {
        Walk {
            core,
            scripts: 0,
            commands: 0,
        }
    }

    /// The next operation, behind which one stands then; none at the end.
    pub(crate) fn next(&mut self) -> Option<Step<'a>>
        ensures some { IfSome result (λ s. left self.old ≡ step_meant s ∷ left self.new) }
        ensures none { IfNone result (left self.old ≡ []) }
    {
        if self.scripts >= self.core.commit_count() {
            return None;
        }
        let places = self.core.script(self.scripts + 1);
        if self.commands == places.len() {
            self.scripts += 1;
            self.commands = 0;
            return Some(Step::Ends);
        }
        let command = command_at(self.core.history(), places[self.commands])?;
        self.commands += 1;
        Some(Step::Does(command))
    }

    /// Goes on by these operations, where they are the next ones; tells whether they are.
    pub(crate) fn goes_by(&mut self, operations: &[Operation]) -> bool
        ensures yes { OnTrue result (left self.old ≡ map meant operations.now ++ left self.new) }
        ensures no { OnFalse result (¬ StartsWith (left self.old) (map meant operations.now)) }
    {
        for operation in operations {
            match self.next() {
                Some(step) if step.is(operation) => {}
                _ => return false,
            }
        }
        true
    }
}

// The command that the record at this index asked for, where it asked for one.
fn command_at(records: &[Record], index: u32) -> Option<&Command>
    ensures { (c : model.Command) → laws.command_at (history_of records.now) index ≡ Some c → option_map (λ x. command_of x.now) result ≡ Some c }
{
    match &records.get(index as usize)?.request {
        Request::Do(command) => Some(command),
        _ => None,
    }
}
