//! What is told of a tree: the statements of its world's text.
ghost use Rattle.std.specs.Prelude.{◌≡◌, ◌++◌, ◌∷◌, OnOk, true};
ghost use Rattle.cg_json.specs.Text.{comma_behind, fields_of, fields_text, json_text};
ghost use Rattle.cg_json_world.specs.WorldValue.{content_fields, group_value, groups_value, limit_fields, online_fields, process_value, processes_value, settings_fields, world_line, world_value};
ghost use Rattle.cg_maps.specs.FiniteMap.{entries};

use crate::values::{write_controllers, write_cpus, write_limit, write_path};
use cg_boxed::CompactSettings;
use cg_json::{write_comma, write_flag, write_name, write_number};
use cg_name::PathRef;
use cg_tree::Tree;
use std::alloc::AllocError;

// Each appends to a text; after an error, where there is no memory, nothing is said of it.

/// Appends the line that tells of a tree.
#[tactic(auto, unfolding(crate::specs::WorldValue::world_line))]
pub fn write_world(tree: &Tree, out: &mut Vec<u8>) -> Result<(), AllocError>
    ensures { OnOk result (out.new.items ≡ out.old.items ++ world_line tree.now.tree) }
{
    out.push(b'{')?;
    write_name(false, "world", out)?;
    append_tree(tree, out)?;
    out.push(b'}')?;
    out.push(b'\n')?;
    Ok(())
}

// Appends the tree.
fn append_tree(tree: &Tree, out: &mut Vec<u8>) -> Result<(), AllocError>
    ensures { OnOk result (out.new.items ≡ out.old.items ++ json_text (world_value tree.now.tree)) }
{
    out.push(b'{')?;
    write_name(false, "controllers", out)?;
    write_controllers(&tree.controllers(), out)?;
    append_online(tree, out)
}

// What follows appends the last fields of a tree and the closing brace.

// From the CPUs that are online on.
fn append_online(tree: &Tree, out: &mut Vec<u8>) -> Result<(), AllocError>
    ensures { OnOk result (out.new.items ≡ out.old.items ++ fields_text true (fields_of (online_fields tree.now.tree))) }
{
    write_name(true, "online", out)?;
    write_cpus(&tree.online(), out)?;
    append_contents(tree, out)
}

// From the groups on.
fn append_contents(tree: &Tree, out: &mut Vec<u8>) -> Result<(), AllocError>
    ensures { OnOk result (out.new.items ≡ out.old.items ++ fields_text true (fields_of (content_fields tree.now.tree))) }
{
    write_name(true, "groups", out)?;
    append_groups(tree, out)?;
    write_name(true, "processes", out)?;
    append_processes(tree, out)?;
    out.push(b'}')?;
    Ok(())
}

// Appends an array of the groups, in the order of their paths.
#[tactic(auto, unfolding(crate::specs::WorldValue::groups_value))]
fn append_groups(tree: &Tree, out: &mut Vec<u8>) -> Result<(), AllocError>
    ensures { OnOk result (out.new.items ≡ out.old.items ++ json_text (groups_value (entries tree.now.tree.groups))) }
{
    out.push(b'[')?;
    let mut is_behind = false;
    for (path, settings) in tree.present_groups(*out.allocator())? {
        append_group(is_behind, &path, settings, out)?;
        is_behind = true;
    }
    out.push(b']')?;
    Ok(())
}

// Appends a group.
fn append_group(
    is_behind: bool,
    path: &PathRef<'_>,
    settings: &CompactSettings,
    out: &mut Vec<u8>,
) -> Result<(), AllocError>
    ensures { OnOk result (out.new.items ≡ out.old.items ++ (comma_behind is_behind ++ json_text (group_value (path.now, settings.now)))) }
{
    write_comma(is_behind, out)?;
    out.push(b'{')?;
    write_name(false, "path", out)?;
    write_path(path, out)?;
    append_settings(settings, out)
}

// Appends the last fields of a group, its settings, and the closing brace.
fn append_settings(settings: &CompactSettings, out: &mut Vec<u8>) -> Result<(), AllocError>
    ensures { OnOk result (out.new.items ≡ out.old.items ++ fields_text true (fields_of (settings_fields settings.now))) }
{
    write_name(true, "control", out)?;
    write_controllers(&settings.control(), out)?;
    write_name(true, "freeze", out)?;
    write_flag(settings.freeze(), out)?;
    write_name(true, "cpus", out)?;
    write_cpus(&settings.cpus().get(), out)?;
    append_limits(settings, out)
}

// Appends the last fields of a group, its limits, and the closing brace.
fn append_limits(settings: &CompactSettings, out: &mut Vec<u8>) -> Result<(), AllocError>
    ensures { OnOk result (out.new.items ≡ out.old.items ++ fields_text true (fields_of (limit_fields settings.now))) }
{
    write_name(true, "max_descendants", out)?;
    write_limit(settings.max_descendants(), out)?;
    write_name(true, "max_depth", out)?;
    write_limit(settings.max_depth(), out)?;
    out.push(b'}')?;
    Ok(())
}

// Appends an array of the processes, by ascending PID.
#[tactic(auto, unfolding(crate::specs::WorldValue::processes_value))]
fn append_processes(tree: &Tree, out: &mut Vec<u8>) -> Result<(), AllocError>
    ensures { OnOk result (out.new.items ≡ out.old.items ++ json_text (processes_value (entries tree.now.tree.places))) }
{
    out.push(b'[')?;
    let mut is_behind = false;
    for (pid, path) in tree.places() {
        append_process(is_behind, pid, &path, out)?;
        is_behind = true;
    }
    out.push(b']')?;
    Ok(())
}

// Appends a process.
fn append_process(
    is_behind: bool,
    pid: u32,
    path: &PathRef<'_>,
    out: &mut Vec<u8>,
) -> Result<(), AllocError>
    ensures { OnOk result (out.new.items ≡ out.old.items ++ (comma_behind is_behind ++ json_text (process_value (pid, path.now)))) }
{
    write_comma(is_behind, out)?;
    out.push(b'{')?;
    write_name(false, "pid", out)?;
    write_number(pid as u64, out)?;
    write_name(true, "path", out)?;
    write_path(path, out)?;
    out.push(b'}')?;
    Ok(())
}
