//! What JSON tells of a group.
ghost use Rattle.std.specs.Prelude.{◌≡◌, ◌++◌, OnOk, codes, true};
ghost use Rattle.cg_json.specs.Text.{fields_of, fields_text, json_text, name_text, number};
ghost use Rattle.cg_json_world.specs.Values.{controllers_value};
ghost use Rattle.cg_model.specs.Derived.{descendants};
ghost use Rattle.cg_outline.specs.GroupValue.{control_fields, controller_fields, controllers_of, cpus_fields, effective_value, group_line, group_value, left_out, limit_fields, pids_value, process_fields, state_fields};

use cg_boxed::CompactSettings;
use cg_cpus::CpuSet;
use cg_derive::{available, effective, frozen, populated};
use cg_json::{
    write_comma, write_flag, write_flag_or_null, write_name, write_null, write_number, write_string,
};
use cg_json_world::{write_controllers, write_cpus, write_limit, write_path};
use cg_name::{Path, PathRef};
use cg_text::Controllers;
use cg_tree::Tree;
use std::alloc::AllocError;

// Each appends to a text; after an error, where there is no memory, nothing is said of it.

/// Appends the line that tells of a group, in an outline of those of at most `depth` names.
#[tactic(auto, unfolding(crate::specs::GroupValue::group_line))]
pub(crate) fn append_line(
    tree: &Tree,
    path: &PathRef<'_>,
    settings: &CompactSettings,
    depth: u32,
    out: &mut Vec<u8>,
) -> Result<(), AllocError>
    ensures { OnOk result (out.new.items ≡ out.old.items ++ group_line depth tree.now.tree (path.now, settings.now)) }
{
    append_value(tree, path, settings, depth, out)?;
    out.push(b'\n')?;
    Ok(())
}

// Appends what is told of the group.
fn append_value(
    tree: &Tree,
    path: &PathRef<'_>,
    settings: &CompactSettings,
    depth: u32,
    out: &mut Vec<u8>,
) -> Result<(), AllocError>
    ensures { OnOk result (out.new.items ≡ out.old.items ++ json_text (group_value depth tree.now.tree (path.now, settings.now))) }
{
    let whole = path.to_path(*out.allocator())?;
    out.push(b'{')?;
    write_name(false, "path", out)?;
    write_path(path, out)?;
    append_controllers(tree, &whole, settings, depth, out)
}

// What follows appends the last fields and the closing brace.

// From the controllers that the group has on.
fn append_controllers(
    tree: &Tree,
    path: &Path,
    settings: &CompactSettings,
    depth: u32,
    out: &mut Vec<u8>,
) -> Result<(), AllocError>
    ensures { OnOk result (out.new.items ≡ out.old.items ++ fields_text true (fields_of (controller_fields depth tree.now.tree (path.now, settings.now)))) }
{
    write_name(true, "controllers", out)?;
    append_available(tree, path, out)?;
    append_control(tree, path, settings, depth, out)
}

// From the controllers that it passes on.
fn append_control(
    tree: &Tree,
    path: &Path,
    settings: &CompactSettings,
    depth: u32,
    out: &mut Vec<u8>,
) -> Result<(), AllocError>
    ensures { OnOk result (out.new.items ≡ out.old.items ++ fields_text true (fields_of (control_fields depth tree.now.tree (path.now, settings.now)))) }
{
    write_name(true, "control", out)?;
    write_controllers(&settings.control(), out)?;
    append_cpus(tree, path, settings, depth, out)
}

// From the CPUs that it asks for on.
fn append_cpus(
    tree: &Tree,
    path: &Path,
    settings: &CompactSettings,
    depth: u32,
    out: &mut Vec<u8>,
) -> Result<(), AllocError>
    ensures { OnOk result (out.new.items ≡ out.old.items ++ fields_text true (fields_of (cpus_fields depth tree.now.tree (path.now, settings.now)))) }
{
    write_name(true, "cpus", out)?;
    write_cpus(&settings.cpus().get(), out)?;
    write_name(true, "effective", out)?;
    append_effective(effective(tree, path), out)?;
    append_limits(tree, path, settings, depth, out)
}

// From the number of the groups below it on.
fn append_limits(
    tree: &Tree,
    path: &Path,
    settings: &CompactSettings,
    depth: u32,
    out: &mut Vec<u8>,
) -> Result<(), AllocError>
    ensures { OnOk result (out.new.items ≡ out.old.items ++ fields_text true (fields_of (limit_fields depth tree.now.tree (path.now, settings.now)))) }
{
    append_descendants(tree, path, out)?;
    write_name(true, "max_descendants", out)?;
    write_limit(settings.max_descendants(), out)?;
    write_name(true, "max_depth", out)?;
    write_limit(settings.max_depth(), out)?;
    append_state(tree, path, settings, depth, out)
}

// From its own freeze value on.
fn append_state(
    tree: &Tree,
    path: &Path,
    settings: &CompactSettings,
    depth: u32,
    out: &mut Vec<u8>,
) -> Result<(), AllocError>
    ensures { OnOk result (out.new.items ≡ out.old.items ++ fields_text true (fields_of (state_fields depth tree.now.tree (path.now, settings.now)))) }
{
    write_name(true, "freeze", out)?;
    write_flag(settings.freeze(), out)?;
    write_name(true, "frozen", out)?;
    write_flag_or_null(frozen(tree, path), out)?;
    write_name(true, "populated", out)?;
    write_flag_or_null(populated(tree, path), out)?;
    append_processes(tree, path, depth, out)
}

// From its processes on.
fn append_processes(
    tree: &Tree,
    path: &Path,
    depth: u32,
    out: &mut Vec<u8>,
) -> Result<(), AllocError>
    ensures { OnOk result (out.new.items ≡ out.old.items ++ fields_text true (fields_of (process_fields depth tree.now.tree path.now))) }
{
    let pids = tree.processes(*out.allocator(), path)?;
    write_name(true, "pids", out)?;
    append_pids(pids.as_slice(), out)?;
    write_name(true, "below", out)?;
    write_number(left_out(tree, path, depth), out)?;
    out.push(b'}')?;
    Ok(())
}

// What follows appends values.

// The number of the groups below the group, with the name of its field.
fn append_descendants(tree: &Tree, path: &Path, out: &mut Vec<u8>) -> Result<(), AllocError>
    ensures { OnOk result (out.new.items ≡ out.old.items ++ (name_text true (codes "descendants") ++ json_text (number (descendants tree.now.tree path.now)))) }
{
    write_name(true, "descendants", out)?;
    write_number(tree.descendants(path, path.depth()), out)
}

// The controllers that the group has.
fn append_available(tree: &Tree, path: &Path, out: &mut Vec<u8>) -> Result<(), AllocError>
    ensures { OnOk result (out.new.items ≡ out.old.items ++ json_text (controllers_value (controllers_of tree.now.tree path.now))) }
{
    let controllers = available(tree, path).unwrap_or(Controllers::empty());
    write_controllers(&controllers, out)
}

// The effective CPUs, where the group has `cpuset`.
fn append_effective(cpus: Option<CpuSet>, out: &mut Vec<u8>) -> Result<(), AllocError>
    ensures { OnOk result (out.new.items ≡ out.old.items ++ json_text (effective_value cpus)) }
{
    let Some(cpus) = cpus else {
        return write_null(out);
    };
    let mut text = Vec::new(*out.allocator());
    cpus.write(&mut text)?;
    write_string(text.as_slice(), out)
}

// An array of processes, in the order given.
#[tactic(auto, unfolding(crate::specs::GroupValue::pids_value))]
fn append_pids(pids: &[u32], out: &mut Vec<u8>) -> Result<(), AllocError>
    ensures { OnOk result (out.new.items ≡ out.old.items ++ json_text (pids_value pids.now)) }
{
    out.push(b'[')?;
    let mut is_behind = false;
    for pid in pids {
        write_comma(is_behind, out)?;
        write_number(*pid as u64, out)?;
        is_behind = true;
    }
    out.push(b']')?;
    Ok(())
}

// How many groups are left out below the group, in an outline of those of at most `depth` names.
fn left_out(tree: &Tree, path: &Path, depth: u32) -> u64
    ensures { result ≡ left_out depth tree.now.tree path.now }
{
    if path.depth() < depth {
        return 0;
    }
    tree.descendants(path, path.depth())
}
