//! The one who publishes.
ghost use Rattle.std.specs.Prelude.{◌≡◌, ◌↔◌, ◌⊎◌, IsTrue, [], ◌∷◌, ◌++◌, IfOk, IfErr, OnOk, OnErr, drop, length, map};
ghost use Rattle.std.specs.Bool.{OnFalse, OnTrue};
ghost use Rattle.std.specs.Result.{IsErrOf};
ghost use Rattle.cg_model.specs.Cgroups.{cgroups};
ghost use Rattle.cg_model.specs.Opens.{commits};
ghost use Rattle.cg_model.specs.Run.{commit_tree};
ghost use Rattle.cg_name.specs.declared.refusal.Refusal.TheVariants.{Disagree, Full, Memory};
ghost use Rattle.cg_view.specs.Committed.{meant, operations_of};
ghost use Rattle.cg_view.specs.Operations.{commits_in, tree_after, StartsWith};
ghost use Rattle.cg_view.specs.Publishing.{IsPublished};
ghost use Rattle.cg_view.specs.Views.{newcomer};
ghost use Rattle.left_right.specs.Sides.{view};

use crate::operation::Operation;
use crate::rule::{Sees, ShownWriter};
use crate::shown::Shown;
use crate::viewer::{Told, Viewer};
use crate::walk::Walk;
use crate::worlds::are_same;
use cg_core::Core;
use cg_name::Refusal;
use cg_world::World;
use core::mem::replace_with;
use left_right::writer::Writer;
use std::alloc::{AllocError, Global};
use std::sync::Wait;

// So many Viewers there may be at once.
const VIEWERS: usize = 8;

/// Shows Viewers the tree of what a machine committed. It can't be dropped: `end` spends it.
pub struct Publisher {
    pub(crate) writer: ShownWriter,
    // What the writer has to publish next: it lends nobody that.
    pub(crate) pending: Vec<Operation>,
    ghost kept: { pending.items ≡ drop writer.behind writer.log.items },
}

impl Publisher {
    ghost use Rattle.cg_view.specs.Publishers.{appended, opening, published, IsFrontOf};
    ghost use Rattle.cg_view.specs.Walks.{left};

    /// Shows the opening world, with no commits. An error where there is no memory.
    pub fn new(alloc: Global, world: &World) -> Result<Publisher, AllocError>
        ensures opening { IfOk result (λ p. opening p ≡ world.now) }
        ensures published { IfOk result (λ p. published p ≡ []) }
        ensures appended { IfOk result (λ p. appended p ≡ []) }
    {
        let first = Shown::new(alloc, world)?;
        let second = Shown::new(alloc, world)?;
        let writer = Writer::new(alloc, first, second, VIEWERS)?;
        Ok(Publisher {
            writer,
            pending: Vec::new(alloc),
        })
    }

    /// A Viewer that has seen nothing and was told of nothing. At most 8 at once: `Full` where there is no place for it.
    pub fn viewer(&mut self) -> Result<Viewer, Refusal>
        ensures new { IfOk result (λ v. (view v.reader.place ≡ newcomer) × (v.told ≡ 0)) }
        ensures full { IfErr result (λ e. e ≡ Full) }
        ensures same { self.new ≡ self.old }
    {
        match self.writer.factory().reader() {
            Ok(reader) => Ok(Viewer {
                reader,
                told: 0,
                commits: 0,
            }),
            Err(_) => Err(Refusal::Full),
        }
    }

    /// Publishes all commits of the machine at once, and tells how much is published then. `Disagree`, which is tested first
    /// and changes nothing, where what was published, and what a call that was refused has appended behind it, is no front of
    /// what this machine committed on that opening world. `Memory`, where there is none, publishes nothing, and a later call
    /// goes on from there. It takes time linear in all that the machine committed.
    pub fn publish<R: Wait>(&mut self, rt: &R, alloc: Global, core: &Core) -> Result<Told, Refusal>
        ensures opening { opening self.new ≡ opening self.old }
        ensures all { OnOk result (map meant (published self.new) ≡ operations_of core.now.history) }
        ensures tree { OnOk result (tree_after (opening self.new) (published self.new) ≡ commit_tree cgroups core.now.opening (commits core.now.history) core.now.history) }
        ensures commits { OnOk result (commits_in (published self.new) ≡ commits core.now.history) }
        ensures later { StartsWith (published self.new) (published self.old) }
        ensures told { IfOk result (λ t. t.count ≡ length (published self.new)) }
        ensures spent { OnOk result (appended self.new ≡ []) }
        ensures refusals { IfErr result (λ e. (e ≡ Disagree) ⊎ (e ≡ Memory)) }
        ensures disagree { IsErrOf result Disagree ↔ ¬ (IsFrontOf core.now self.old) }
        ensures unchanged { IsErrOf result Disagree → appended self.new ≡ appended self.old }
        ensures nothing { OnErr result (published self.new ≡ published self.old) }
        ensures goes_on { IsErrOf result Memory → IsFrontOf core.now self.new }
    {
        let mut walk = Walk::of(core);
        if !self.agrees(core, &mut walk) {
            return Err(Refusal::Disagree);
        }
        core.laws();
        self.append_rest(alloc, walk)?;
        Ok(self.publish_appended(rt)?)
    }

    // Whether it shows the machine's opening world, and what was published and appended comes first in the walk, behind which
    // that stands then.
    fn agrees(&self, core: &Core, walk: &mut Walk<'_>) -> bool
        requires { left walk.old ≡ operations_of core.now.history }
        ensures yes { OnTrue result ((opening self.now ≡ core.now.opening) × (left walk.old ≡ map meant (published self.now ++ appended self.now) ++ left walk.new)) }
        ensures no { OnFalse result (¬ (IsFrontOf core.now self.now)) }
    {
        let shown = self.writer.published();
        if !are_same(&shown.opening, core.opening()) {
            return false;
        }
        if !walk.goes_by(shown.operations.as_slice()) {
            return false;
        }
        walk.goes_by(self.pending.as_slice())
    }

    // Appends what is left of the walk. An error, where there is no memory, leaves a front of it appended.
    fn append_rest(&mut self, alloc: Global, walk: Walk<'_>) -> Result<(), AllocError>
        ensures opening { opening self.new ≡ opening self.old }
        ensures published { published self.new ≡ published self.old }
        ensures ok { OnOk result (map meant (appended self.new) ≡ map meant (appended self.old) ++ left walk.entry) }
        ensures err { OnErr result (StartsWith (map meant (appended self.old) ++ left walk.entry) (map meant (appended self.new))) }
    {
        let mut walk = walk;
        while let Some(step) = walk.next() {
            self.append(alloc, step.copy(alloc)?)?;
        }
        Ok(())
    }

    // Adds an operation to those that will be published next. An error, where there is no memory, adds none.
    fn append(&mut self, alloc: Global, operation: Operation) -> Result<(), AllocError>
        ensures opening { opening self.new ≡ opening self.old }
        ensures published { published self.new ≡ published self.old }
        ensures ok { OnOk result (appended self.new ≡ appended self.old ++ operation ∷ []) }
        ensures err { OnErr result (appended self.new ≡ appended self.old) }
    {
        self.pending.reserve(1)?;
        let copy = operation.copy(alloc)?;
        match self.writer.append(operation) {
            Ok(()) => {
                self.pending.push_reserved(copy);
                Ok(())
            }
            Err(_) => Err(AllocError),
        }
    }

    // Publishes all that was appended, at once, and tells how much is published then. An error, where there is no memory,
    // publishes nothing.
    fn publish_appended<R: Wait>(&mut self, rt: &R) -> Result<Told, AllocError>
        ensures opening { opening self.new ≡ opening self.old }
        ensures published { OnOk result (published self.new ≡ published self.old ++ appended self.old) }
        ensures spent { OnOk result (appended self.new ≡ []) }
        ensures told { IfOk result (λ t. t.count ≡ length (published self.new)) }
        ensures err { OnErr result (published self.new ≡ published self.old) }
        ensures kept { OnErr result (appended self.new ≡ appended self.old) }
    {
        replace_with(&mut self.writer, rt, |writer, rt| publish(rt, writer))?;
        self.pending.clear();
        Ok(Told {
            count: self.writer.published().operations.len(),
        })
    }

    /// Waits for the Viewers that are reading, and ends. Viewers may outlive it: each read is then `Full`.
    pub fn end<R: Wait>(self, rt: &R) {
        let Publisher { writer, pending: _ } = self;
        writer.take(rt);
    }
}

// Publishes all that was appended. Where that fails, the writer is as it was.
fn publish<R: Wait>(rt: &R, writer: ShownWriter) -> (ShownWriter, Result<(), AllocError>)
    ensures { IsPublished writer.desk.shown.value (drop writer.behind writer.log.items) result.1 result.0.desk.shown.value (drop result.0.behind result.0.log.items) }
{
    writer.publish_as::<Sees, R>(rt)
}
