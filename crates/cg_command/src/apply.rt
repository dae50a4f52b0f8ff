//! What each accepted command changes, and the inverse of that.
ghost use Rattle.std.specs.Prelude.{◌≡◌, IfOk, Ok, is_ok, true};
ghost use Rattle.cg_command.specs.Applied.{IsCarriedOut};
ghost use Rattle.cg_model.specs.Command as model;
ghost use Rattle.cg_model.specs.Command.{IsAccepted};
ghost use Rattle.cg_model.specs.Effect.{effect};
ghost use Rattle.cg_model.specs.File.{file};

use crate::command::Outcome;
use cg_boxed::{BoxedCpus, BoxedSettings, BoxedText, CompactSettings};
use cg_derive::{fixed_text, write_file};
use cg_inverse::{Change, Inverse};
use cg_name::Path;
use cg_text::{FileName, Limit};
use cg_tree::{NewValue, Tree};
use std::alloc::{AllocError, Global};

// Makes the group at the path, with the settings of a new one.
#[tactic(auto, unfolding(cg_model::specs::Effect::effect))]
pub(crate) fn create(
    path: &Path,
    alloc: Global,
    tree: &mut Tree,
) -> Result<(Outcome, Inverse), AllocError>
    requires { IsAccepted (effect (model.Create path.now) tree.old.tree) }
    ensures { IsCarriedOut (model.Create path.now) tree.old result tree.new }
{
    let own = path.copy(alloc)?;
    tree.make_group(alloc, path, CompactSettings::fresh())?;
    let change = Change::Made {
        near: tree.near(),
        path: own,
    };
    Ok((Outcome::Done, Inverse::of_one(change)))
}

// Takes the group at the path away. Its entry stays.
#[tactic(auto, unfolding(cg_model::specs::Effect::effect))]
pub(crate) fn remove(
    path: &Path,
    alloc: Global,
    tree: &mut Tree,
) -> Result<(Outcome, Inverse), AllocError>
    requires { IsAccepted (effect (model.Remove path.now) tree.old.tree) }
    ensures { IsCarriedOut (model.Remove path.now) tree.old result tree.new }
{
    // Each group has an entry.
    tree.laws();
    let own = path.copy(alloc)?;
    let near = tree.near();
    let Some(settings) = tree.take_group(path) else {
        // The group of an accepted command is there.
        unreachable!()
    };
    let before = match BoxedSettings::new(alloc, settings) {
        Ok(before) => before,
        Err(failed) => {
            // There is no memory for them: the group is put back.
            tree.put_group(path, near, Some(failed.value));
            return Err(AllocError);
        }
    };
    let change = Change::Removed {
        near,
        path: own,
        before,
    };
    Ok((Outcome::Done, Inverse::of_one(change)))
}

// Moves the process into the group.
#[tactic(auto, unfolding(cg_model::specs::Effect::effect))]
pub(crate) fn migrate(
    pid: u32,
    path: &Path,
    alloc: Global,
    tree: &mut Tree,
) -> Result<(Outcome, Inverse), AllocError>
    requires { IsAccepted (effect (model.Migrate pid path.now) tree.old.tree) }
    ensures { IsCarriedOut (model.Migrate pid path.now) tree.old result tree.new }
{
    let Some(before) = tree.location(alloc, pid)? else {
        // The process of an accepted command is there.
        unreachable!()
    };
    // As above.
    tree.laws();
    let change = Change::Place {
        pid,
        before,
        left: path.copy(alloc)?,
    };
    tree.put_place(pid, path);
    Ok((Outcome::Done, Inverse::of_one(change)))
}

// Writes `cgroup.freeze`.
#[tactic(auto, unfolding(cg_model::specs::Effect::effect))]
pub(crate) fn freeze(
    path: &Path,
    value: bool,
    alloc: Global,
    tree: &mut Tree,
) -> Result<(Outcome, Inverse), AllocError>
    requires { IsAccepted (effect (model.Freeze path.now value) tree.old.tree) }
    ensures { IsCarriedOut (model.Freeze path.now value) tree.old result tree.new }
{
    let own = path.copy(alloc)?;
    let near = tree.near();
    let value_left = NewValue::Freeze(value);
    let Some(NewValue::Freeze(before)) = tree.swap_value(path, near, value_left) else {
        // The group of an accepted command is there.
        unreachable!()
    };
    let change = Change::Freeze {
        near,
        path: own,
        before,
        left: value,
    };
    Ok((Outcome::Done, Inverse::of_one(change)))
}

// Writes `cpuset.cpus`.
#[tactic(auto, unfolding(cg_model::specs::Effect::effect))]
pub(crate) fn cpus(
    path: &Path,
    value: &BoxedCpus,
    alloc: Global,
    tree: &mut Tree,
) -> Result<(Outcome, Inverse), AllocError>
    requires { IsAccepted (effect (model.Cpus path.now value.now) tree.old.tree) }
    ensures { IsCarriedOut (model.Cpus path.now value.now) tree.old result tree.new }
{
    let own = path.copy(alloc)?;
    let left = value.copy(alloc)?;
    let near = tree.near();
    let Some(settings) = tree.settings(path) else {
        // As above.
        unreachable!()
    };
    let change = Change::of_cpus(alloc, near, own, settings.cpus().copy(alloc)?, left)?;
    tree.put_value(path, near, NewValue::Cpus(value.copy(alloc)?));
    Ok((Outcome::Done, Inverse::of_one(change)))
}

// Writes `cgroup.max.descendants`.
#[tactic(auto, unfolding(cg_model::specs::Effect::effect))]
pub(crate) fn max_descendants(
    path: &Path,
    limit: Limit,
    alloc: Global,
    tree: &mut Tree,
) -> Result<(Outcome, Inverse), AllocError>
    requires { IsAccepted (effect (model.MaxDescendants path.now limit) tree.old.tree) }
    ensures { IsCarriedOut (model.MaxDescendants path.now limit) tree.old result tree.new }
{
    let own = path.copy(alloc)?;
    let value = NewValue::MaxDescendants(limit);
    let near = tree.near();
    let Some(NewValue::MaxDescendants(before)) = tree.swap_value(path, near, value) else {
        // As above.
        unreachable!()
    };
    let change = Change::MaxDescendants {
        near,
        path: own,
        before,
        left: limit,
    };
    Ok((Outcome::Done, Inverse::of_one(change)))
}

// Writes `cgroup.max.depth`.
#[tactic(auto, unfolding(cg_model::specs::Effect::effect))]
pub(crate) fn max_depth(
    path: &Path,
    limit: Limit,
    alloc: Global,
    tree: &mut Tree,
) -> Result<(Outcome, Inverse), AllocError>
    requires { IsAccepted (effect (model.MaxDepth path.now limit) tree.old.tree) }
    ensures { IsCarriedOut (model.MaxDepth path.now limit) tree.old result tree.new }
{
    let own = path.copy(alloc)?;
    let value = NewValue::MaxDepth(limit);
    let near = tree.near();
    let Some(NewValue::MaxDepth(before)) = tree.swap_value(path, near, value) else {
        // As above.
        unreachable!()
    };
    let change = Change::MaxDepth {
        near,
        path: own,
        before,
        left: limit,
    };
    Ok((Outcome::Done, Inverse::of_one(change)))
}

// Sets which CPUs are online.
#[tactic(auto, unfolding(cg_model::specs::Effect::effect))]
pub(crate) fn online(
    value: &BoxedCpus,
    alloc: Global,
    tree: &mut Tree,
) -> Result<(Outcome, Inverse), AllocError>
    ensures { IsCarriedOut (model.Online value.now) tree.old result tree.new }
{
    let change = Change::Online {
        before: BoxedCpus::new(alloc, tree.online())?,
        left: value.copy(alloc)?,
    };
    tree.put_online(value.get());
    Ok((Outcome::Done, Inverse::of_one(change)))
}

// Tells the text of the file.
#[tactic(auto, unfolding(cg_model::specs::Effect::effect))]
pub(crate) fn show(
    path: &Path,
    file: FileName,
    alloc: Global,
    tree: &mut Tree,
) -> Result<(Outcome, Inverse), AllocError>
    requires { IsAccepted (effect (model.Show path.now file) tree.old.tree) }
    ensures { IsCarriedOut (model.Show path.now file) tree.old result tree.new }
{
    let text = match fixed_text(&*tree, path, file) {
        Some(text) => tree.text(alloc, text)?,
        None => made_text(path, file, alloc, tree)?,
    };
    Ok((Outcome::Text(text), Inverse::new(alloc)))
}

// The text of the file, which is none of a few: it is written where the one before was, and kept where none equals it.
fn made_text(
    path: &Path,
    name: FileName,
    alloc: Global,
    tree: &mut Tree,
) -> Result<BoxedText, AllocError>
    requires present { is_ok (file tree.old.tree path.now name) ≡ true }
    ensures text { IfOk result (λ text. file tree.old.tree path.now name ≡ Ok text) }
    ensures same { tree.new ≡ tree.old }
{
    let mut room = tree.take_room();
    let text = match write_file(alloc, &*tree, path, name, &mut room) {
        Ok(()) => tree.text(alloc, room.as_slice()),
        Err(error) => Err(error),
    };
    tree.give_room(room);
    text
}
