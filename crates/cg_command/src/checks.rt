//! What each command asks of the tree before it changes it, in the order of its refusals.
ghost use Rattle.std.specs.Prelude.{◌≡◌, Bool, ℕ, IfErr, OnOk};
ghost use Rattle.cg_maps.specs.FiniteMap.{is_nonempty};
ghost use Rattle.cg_maps.specs.FiniteSet.{FiniteSet};
ghost use Rattle.cg_model.specs.Command as model;
ghost use Rattle.cg_model.specs.Command.{IsAccepted};
ghost use Rattle.cg_model.specs.Control.{in_use, used_below, plan as planned_by};
ghost use Rattle.cg_model.specs.Derived.{children, processes};
ghost use Rattle.cg_model.specs.Effect.{effect};
ghost use Rattle.cg_model.specs.Sound.{admits};
ghost use Rattle.cg_model.specs.System.{Refuse};
ghost use Rattle.cg_name.specs.Path.{is_root};
ghost use Rattle.cg_text.specs.declared.controllers.Controllers.{Controllers};
ghost use Rattle.cg_text.specs.declared.limit.Limit.{Limit};

use crate::limits::{too_deep, too_many};
use cg_avail::plan;
use cg_boxed::CompactSettings;
use cg_derive::{available, check_file};
use cg_name::{Path, Refusal};
use cg_text::{ControlOps, Controllers, FileName};
use cg_tree::Tree;

// The path isn't the root's, its parent is there, it is free, and no group above it is full or too far above.
#[tactic(auto, unfolding(cg_model::specs::Effect::effect))]
pub(crate) fn check_create(path: &Path, tree: &Tree) -> Result<(), Refusal>
    ensures accepted { OnOk result (IsAccepted (effect (model.Create path.now) tree.now.tree)) }
    ensures refused { IfErr result (λ e. effect (model.Create path.now) tree.now.tree ≡ Refuse e) }
{
    if path.is_root() {
        return Err(Refusal::Exists);
    }
    if tree.parent_settings(path).is_none() {
        return Err(Refusal::NoGroup);
    }
    if tree.find(path) {
        return Err(Refusal::Exists);
    }
    if too_many(path, tree) {
        return Err(Refusal::TooMany);
    }
    if too_deep(path, tree) {
        return Err(Refusal::TooDeep);
    }
    Ok(())
}

// The group isn't the root, is there, and has neither children nor processes.
#[tactic(auto, unfolding(cg_model::specs::Effect::effect))]
pub(crate) fn check_remove(path: &Path, tree: &Tree) -> Result<(), Refusal>
    ensures accepted { OnOk result (IsAccepted (effect (model.Remove path.now) tree.now.tree)) }
    ensures refused { IfErr result (λ e. effect (model.Remove path.now) tree.now.tree ≡ Refuse e) }
{
    if path.is_root() {
        return Err(Refusal::IsRoot);
    }
    if !tree.find(path) {
        return Err(Refusal::NoGroup);
    }
    if tree.has_children(path) {
        return Err(Refusal::HasChildren);
    }
    if tree.has_processes(path) {
        return Err(Refusal::HasProcesses);
    }
    Ok(())
}

// The process and the group are there, and the group may have processes.
#[tactic(auto, unfolding(cg_model::specs::Effect::effect))]
pub(crate) fn check_migrate(pid: u32, path: &Path, tree: &Tree) -> Result<(), Refusal>
    ensures accepted { OnOk result (IsAccepted (effect (model.Migrate pid path.now) tree.now.tree)) }
    ensures refused { IfErr result (λ e. effect (model.Migrate pid path.now) tree.now.tree ≡ Refuse e) }
{
    if !tree.has_process(pid) {
        return Err(Refusal::NoProcess);
    }
    let Some(settings) = tree.settings(path) else {
        return Err(Refusal::NoGroup);
    };
    if !admits(path, settings) {
        return Err(Refusal::Controlled);
    }
    Ok(())
}

// The group is there, and what the operations leave may be passed on.
#[tactic(auto, unfolding(cg_model::specs::Effect::effect))]
pub(crate) fn check_subtree(path: &Path, ops: ControlOps, tree: &Tree) -> Result<(), Refusal>
    ensures accepted { OnOk result (IsAccepted (effect (model.Subtree path.now ops) tree.now.tree)) }
    ensures refused { IfErr result (λ e. effect (model.Subtree path.now ops) tree.now.tree ≡ Refuse e) }
{
    let Some(settings) = tree.settings(path) else {
        return Err(Refusal::NoGroup);
    };
    let Some(available) = available(tree, path) else {
        return Err(Refusal::NoGroup);
    };
    plan_on(path, available, settings.control(), ops, tree)?;
    Ok(())
}

// What the operations leave, by what is available to the group, what it passes on, and the groups and processes in it.
fn plan_on(
    path: &Path,
    available: Controllers,
    current: Controllers,
    ops: ControlOps,
    tree: &Tree,
) -> Result<Controllers, Refusal>
    ensures { result ≡ planned_by available current ops (used_below (children tree.now.tree path.now)) (is_nonempty (processes tree.now.tree path.now)) (is_root path.now) }
{
    let used = used_by_children(path, ops, tree);
    let has_own = tree.has_processes(path);
    plan(available, current, ops, used, has_own, path.is_root())
}

// The controllers that a child passes on, as far as they matter: where none is to be disabled, no child is looked at.
fn used_by_children(path: &Path, ops: ControlOps, tree: &Tree) -> Controllers
    ensures { (current : Controllers) → in_use current ops result ≡ in_use current ops (used_below (children tree.now.tree path.now)) }
{
    if ops.minus.is_empty() {
        return Controllers::empty();
    }
    tree.control_below(path)
}

// The group is there, and isn't the root.
#[tactic(auto, unfolding(cg_model::specs::Effect::effect))]
pub(crate) fn check_freeze(path: &Path, tree: &Tree) -> Result<(), Refusal>
    ensures accepted { (v : Bool) → OnOk result (IsAccepted (effect (model.Freeze path.now v) tree.now.tree)) }
    ensures refused { (v : Bool) → IfErr result (λ e. effect (model.Freeze path.now v) tree.now.tree ≡ Refuse e) }
{
    if !tree.find(path) {
        return Err(Refusal::NoGroup);
    }
    if path.is_root() {
        return Err(Refusal::NoFile);
    }
    Ok(())
}

// The group is there, isn't the root, and has the `cpuset` controller.
#[tactic(auto, unfolding(cg_model::specs::Effect::effect))]
pub(crate) fn check_cpus(path: &Path, tree: &Tree) -> Result<(), Refusal>
    ensures accepted { (v : FiniteSet) → OnOk result (IsAccepted (effect (model.Cpus path.now v) tree.now.tree)) }
    ensures refused { (v : FiniteSet) → IfErr result (λ e. effect (model.Cpus path.now v) tree.now.tree ≡ Refuse e) }
{
    if !tree.find(path) {
        return Err(Refusal::NoGroup);
    }
    match available(tree, path) {
        Some(controllers) if !path.is_root() && controllers.cpuset => Ok(()),
        _ => Err(Refusal::NoFile),
    }
}

// The group is there, and has the file.
#[tactic(auto, unfolding(cg_model::specs::Effect::effect))]
pub(crate) fn check_show(path: &Path, file: FileName, tree: &Tree) -> Result<(), Refusal>
    ensures accepted { OnOk result (IsAccepted (effect (model.Show path.now file) tree.now.tree)) }
    ensures refused { IfErr result (λ e. effect (model.Show path.now file) tree.now.tree ≡ Refuse e) }
{
    check_file(tree, path, file)
}

// The group is there.
#[tactic(auto, unfolding(cg_model::specs::Effect::effect))]
pub(crate) fn check_limit(path: &Path, tree: &Tree) -> Result<(), Refusal>
    ensures descendants_accepted { (l : Limit) → OnOk result (IsAccepted (effect (model.MaxDescendants path.now l) tree.now.tree)) }
    ensures descendants_refused { (l : Limit) → IfErr result (λ e. effect (model.MaxDescendants path.now l) tree.now.tree ≡ Refuse e) }
    ensures depth_accepted { (l : Limit) → OnOk result (IsAccepted (effect (model.MaxDepth path.now l) tree.now.tree)) }
    ensures depth_refused { (l : Limit) → IfErr result (λ e. effect (model.MaxDepth path.now l) tree.now.tree ≡ Refuse e) }
{
    if tree.find(path) {
        Ok(())
    } else {
        Err(Refusal::NoGroup)
    }
}

// Whether a group with these settings may have processes: the root may, and one that passes no controllers on.
fn admits(path: &Path, settings: &CompactSettings) -> bool
    ensures { result ≡ admits path.now settings.now }
{
    path.is_root() || settings.control().is_empty()
}
