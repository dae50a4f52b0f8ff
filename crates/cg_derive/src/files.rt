//! The interface files of a group (the kernel's cgroup-v2 page, "Core Interface Files" and "Cpuset Interface Files").
ghost use Rattle.std.specs.Prelude.{◌≡◌, ◌≢◌, [], true, None, Ok, Some, Err, is_ok, is_some, IfOk, IfErr, IfSome, OnOk};
ghost use Rattle.cg_model.specs.Derived.{available, processes, with_cpuset};
ghost use Rattle.cg_model.specs.File.{file};
ghost use Rattle.cg_model.specs.Tree.{group};
ghost use Rattle.cg_name.specs.declared.file_name.FileName.TheVariants.{Events, Freeze};
ghost use Rattle.cg_name.specs.declared.refusal.Refusal.TheVariants.{Memory, NoGroup};

use crate::values::{available, effective_cpus, is_frozen};
use cg_boxed::CompactSettings;
use cg_name::{Path, Refusal};
use cg_text::{
    FileName, events_bytes, flag_bytes, write_controllers, write_cpus, write_events, write_flag,
    write_limit, write_procs,
};
use cg_tree::Tree;
use std::alloc::{AllocError, Global};

// How many bytes the text of a file has at most, as a rule.
const USUAL_TEXT: usize = 64;

/// The PIDs of the own processes of the group at the path, ascending. `NoGroup` where there is no group, `Memory` where there
/// is none for the list.
pub fn procs(alloc: Global, tree: &Tree, path: &Path) -> Result<Vec<u32>, Refusal>
    ensures value { IfOk result (λ pids. pids.items ≡ processes tree.now.tree path.now) }
    ensures present { OnOk result (is_some (group tree.now.tree path.now) ≡ true) }
    ensures refused { IfErr result (λ e. e ≢ Memory → (e ≡ NoGroup) × (group tree.now.tree path.now ≡ None)) }
{
    if !tree.find(path) {
        return Err(Refusal::NoGroup);
    }
    Ok(tree.processes(alloc, path)?)
}

/// Whether the group at the path has the file: `NoGroup` where there is no group, `NoFile` where the group has no such file.
/// Takes no memory.
pub fn check_file(tree: &Tree, path: &Path, name: FileName) -> Result<(), Refusal>
    ensures present { OnOk result (is_ok (file tree.now.tree path.now name) ≡ true) }
    ensures refused { IfErr result (λ e. file tree.now.tree path.now name ≡ Err e) }
{
    if !tree.find(path) {
        return Err(Refusal::NoGroup);
    }
    let is_there = match name {
        FileName::Procs
        | FileName::SubtreeControl
        | FileName::MaxDescendants
        | FileName::MaxDepth => true,
        FileName::Controllers => available(tree, path).is_some(),
        FileName::Events | FileName::Freeze => !path.is_root(),
        FileName::Cpus => !path.is_root() && has_cpuset(tree, path),
        FileName::EffectiveCpus => has_cpuset(tree, path),
    };
    if is_there {
        Ok(())
    } else {
        Err(Refusal::NoFile)
    }
}

/// The text of the file of the group at the path. `NoGroup` where there is no group, `NoFile` where the group has no such
/// file, `Memory` where there is none for the text.
pub fn file(alloc: Global, tree: &Tree, path: &Path, name: FileName) -> Result<Vec<u8>, Refusal>
    ensures value { IfOk result (λ text. file tree.now.tree path.now name ≡ Ok text.items) }
    ensures refused { IfErr result (λ e. e ≢ Memory → file tree.now.tree path.now name ≡ Err e) }
{
    check_file(tree, path, name)?;
    Ok(text_of_file(alloc, tree, path, name)?)
}

/// The text of the file of the group at the path, which has such a file, where that is one of a few: of `cgroup.events` and
/// `cgroup.freeze`. Takes no memory.
#[inline(always)]
pub fn fixed_text(tree: &Tree, path: &Path, name: FileName) -> Option<&'static [u8]>
    requires present { is_ok (file tree.now.tree path.now name) ≡ true }
    ensures value { IfSome result (λ text. file tree.now.tree path.now name ≡ Ok text.now) }
    ensures others { result ≡ None → (name ≢ Events) × (name ≢ Freeze) }
{
    match name {
        FileName::Events => Some(events_bytes(tree.is_populated(path), is_frozen(tree, path))),
        FileName::Freeze => { Some(flag_bytes(own_settings(tree, path).freeze())) }
        _ => None,
    }
}

/// The text of the file of the group at the path, which has such a file. An error, where there is no memory for the text.
pub fn text_of_file(
    alloc: Global,
    tree: &Tree,
    path: &Path,
    name: FileName,
) -> Result<Vec<u8>, AllocError>
    requires present { is_ok (file tree.now.tree path.now name) ≡ true }
    ensures value { IfOk result (λ text. file tree.now.tree path.now name ≡ Ok text.items) }
{
    let mut text = Vec::with_capacity(alloc, USUAL_TEXT)?;
    write_file(alloc, tree, path, name, &mut text)?;
    Ok(text)
}

/// Writes the text of the file of the group at the path, which has such a file, into an empty list of bytes. An error, where there is no
/// memory for it.
pub fn write_file(
    alloc: Global,
    tree: &Tree,
    path: &Path,
    name: FileName,
    out: &mut Vec<u8>,
) -> Result<(), AllocError>
    requires present { is_ok (file tree.now.tree path.now name) ≡ true }
    requires empty { out.old.items ≡ [] }
    ensures value { OnOk result (file tree.now.tree path.now name ≡ Ok out.new.items) }
{
    match name {
        FileName::Procs => write_procs(tree.processes(alloc, path)?.as_slice(), out),
        FileName::Controllers => match available(tree, path) {
            Some(controllers) => write_controllers(controllers, out),
            None => Ok(()),
        },
        FileName::SubtreeControl => write_controllers(own_settings(tree, path).control(), out),
        FileName::Events => write_events(tree.is_populated(path), is_frozen(tree, path), out),
        FileName::Freeze => write_flag(own_settings(tree, path).freeze(), out),
        FileName::Cpus => write_cpus(own_settings(tree, path).cpus().get(), out),
        FileName::EffectiveCpus => write_cpus(effective_cpus(tree, path), out),
        FileName::MaxDescendants => write_limit(own_settings(tree, path).max_descendants(), out),
        FileName::MaxDepth => write_limit(own_settings(tree, path).max_depth(), out),
    }
}

// The settings of the group at the path.
#[inline(always)]
fn own_settings<'a>(tree: &'a Tree, path: &Path) -> &'a CompactSettings
    requires present { is_some (group tree.now.tree path.now) ≡ true }
    ensures { group tree.now.tree path.now ≡ Some result.now }
{
    match tree.settings(path) {
        Some(settings) => settings,
        None => unreachable!(),
    }
}

// Whether the group, which is there, has the `cpuset` controller.
fn has_cpuset(tree: &Tree, path: &Path) -> bool
    requires present { is_some (group tree.now.tree path.now) ≡ true }
    ensures { result ≡ with_cpuset (available tree.now.tree path.now) }
{
    if path.is_root() {
        return tree.controllers().cpuset;
    }
    match tree.parent_settings(path) {
        Some(parent) => parent.control().cpuset,
        None => false,
    }
}
