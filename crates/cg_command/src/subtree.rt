//! What a write to `cgroup.subtree_control` changes: the control of the group, and where the `cpuset` controller goes the
//! CPUs that its children ask for.
ghost use Rattle.std.specs.Prelude.{◌≡◌, ◌++◌, [], cond, IfOk, OnOk, map};
ghost use Rattle.cg_command.specs.Applied.{IsCarriedOut};
ghost use Rattle.cg_command.specs.Subtree.{LeaveNoCpus, NeedNoEntry};
ghost use Rattle.cg_inverse.specs.Meaning.{change_of};
ghost use Rattle.cg_model.specs.Change.{done};
ghost use Rattle.cg_model.specs.Command as model;
ghost use Rattle.cg_model.specs.Command.{IsAccepted};
ghost use Rattle.cg_model.specs.Control.{controlled, emptied, loses_cpuset, planned};
ghost use Rattle.cg_model.specs.Derived.{children};
ghost use Rattle.cg_model.specs.Effect.{effect};

use crate::command::Outcome;
use cg_boxed::BoxedCpus;
use cg_inverse::{Change, Inverse};
use cg_name::Path;
use cg_text::{ControlOps, Controllers};
use cg_tree::Tree;
use std::alloc::{AllocError, Global};

// Writes `cgroup.subtree_control`.
#[tactic(auto, unfolding(cg_model::specs::Effect::effect))]
pub(crate) fn subtree(
    path: &Path,
    ops: ControlOps,
    alloc: Global,
    tree: &mut Tree,
) -> Result<(Outcome, Inverse), AllocError>
    requires { IsAccepted (effect (model.Subtree path.now ops) tree.old.tree) }
    ensures { IsCarriedOut (model.Subtree path.now ops) tree.old result tree.new }
{
    let Some(settings) = tree.settings(path) else {
        // The group of an accepted command is there.
        unreachable!()
    };
    let before = settings.control();
    let left = planned(before, ops);
    let inverse = changes_of(path, before, left, alloc, tree)?;
    put_all(inverse.changes(), alloc, tree);
    Ok((Outcome::Done, inverse))
}

// The changes of a write that leaves this set.
fn changes_of(
    path: &Path,
    before: Controllers,
    left: Controllers,
    alloc: Global,
    tree: &Tree,
) -> Result<Inverse, AllocError>
    ensures { IfOk result (λ i. i ≡ controlled path.now before left (children tree.now.tree path.now)) }
{
    let mut inverse = Inverse::new(alloc);
    add_emptied(loses_cpuset(before, left), path, alloc, tree, &mut inverse)?;
    let control = Change::Control {
        near: tree.near(),
        path: path.copy(alloc)?,
        before,
        left,
    };
    inverse.push(alloc, control)?;
    Ok(inverse)
}

// Whether the `cpuset` controller goes.
fn loses_cpuset(before: Controllers, left: Controllers) -> bool
    ensures { result ≡ loses_cpuset before left }
{
    before.cpuset && !left.cpuset
}

// Where the `cpuset` controller goes, adds the change of each child of the group that asks for CPUs: it asks for none.
fn add_emptied(
    goes: bool,
    path: &Path,
    alloc: Global,
    tree: &Tree,
    inverse: &mut Inverse,
) -> Result<(), AllocError>
    ensures { OnOk result (inverse.new ≡ inverse.old ++ emptied (cond goes (children tree.now.tree path.now) []) []) }
{
    if !goes {
        return Ok(());
    }
    let mut children = tree.children_with_cpus(alloc, path)?;
    while let Some((child, settings)) = children.next() {
        let near = children.near();
        let before = settings.cpus().copy(alloc)?;
        let change = Change::of_cpus(
            alloc,
            near,
            child.to_path(alloc)?,
            before,
            BoxedCpus::empty(),
        )?;
        inverse.push(alloc, change)?;
    }
    Ok(())
}

// Makes the changes, none of which needs an entry or leaves CPUs. So it takes no memory.
fn put_all(changes: &[Change], alloc: Global, tree: &mut Tree)
    requires no_entry { NeedNoEntry (map change_of changes.now) }
    requires no_cpus { LeaveNoCpus (map change_of changes.now) }
    ensures tree { tree.new.tree ≡ done (map change_of changes.now) tree.old.tree }
    ensures entries { tree.new.entries ≡ tree.old.entries }
{
    let mut rest = changes;
    while let Some((change, others)) = rest.split_first() {
        let Ok(()) = change.put_left(alloc, tree) else {
            // Only CPUs that are left take memory.
            unreachable!()
        };
        rest = others;
    }
}

// The controllers that the operations leave.
fn planned(current: Controllers, ops: ControlOps) -> Controllers
    ensures { result ≡ planned current ops }
{
    current.union(&ops.plus).difference(&ops.minus)
}
