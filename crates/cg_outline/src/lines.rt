//! The lines of an outline.
ghost use Rattle.std.specs.Prelude.{◌≡◌, ◌++◌, ◌∷◌, [], cond, codes, length, nat_le, IfOk, OnOk};
ghost use Rattle.std.specs.List.{flat_map};
ghost use Rattle.cg_maps.specs.FiniteMap.{entries};
ghost use Rattle.cg_model.specs.Derived.{descendants, effective, frozen, populated, processes};
ghost use Rattle.cg_name.specs.Path.{is_root, path_word};
ghost use Rattle.cg_outline.specs.Outline.{asked_text, below_text, derived_text, facts_text, group_text, indent, outline_text, root_controllers, shown_text};

use crate::facts::{
    append_cpus, append_depth, append_descendants, append_effective, append_frozen, append_hidden,
    append_names, append_processes,
};
use crate::objects::append_line;
use cg_boxed::CompactSettings;
use cg_derive::{effective, frozen, populated};
use cg_json::Form;
use cg_name::{Path, PathRef};
use cg_text::Controllers;
use cg_tree::Tree;
use std::alloc::{AllocError, Global};

/// A line for each group of at most `depth` names, in the order of their paths, as plain text or as JSON. An error where there is no
/// memory for it.
pub fn outline(alloc: Global, tree: &Tree, depth: u32, form: Form) -> Result<Vec<u8>, AllocError>
    ensures { IfOk result (λ text. text.items ≡ outline_text form depth tree.now.tree) }
{
    let mut out = Vec::new(alloc);
    for (path, settings) in tree.present_groups(alloc)? {
        append_shown(tree, &path, settings, depth, form, &mut out)?;
    }
    Ok(out)
}

// Appends the line of a group, where it has at most so many names.
fn append_shown(
    tree: &Tree,
    path: &PathRef<'_>,
    settings: &CompactSettings,
    depth: u32,
    form: Form,
    out: &mut Vec<u8>,
) -> Result<(), AllocError>
    ensures { OnOk result (out.new.items ≡ out.old.items ++ shown_text form depth tree.now.tree (path.now, settings.now)) }
{
    if path.depth() > depth {
        return Ok(());
    }
    match form {
        Form::Plain => append_group(tree, path, settings, depth, out),
        Form::Json => append_line(tree, path, settings, depth, out),
    }
}

// Appends the plain line of a group.
fn append_group(
    tree: &Tree,
    path: &PathRef<'_>,
    settings: &CompactSettings,
    depth: u32,
    out: &mut Vec<u8>,
) -> Result<(), AllocError>
    ensures { OnOk result (out.new.items ≡ out.old.items ++ group_text depth tree.now.tree (path.now, settings.now)) }
{
    append_indent(path, out)?;
    path.write(out)?;
    let path = path.to_path(*out.allocator())?;
    append_facts(tree, &path, settings, depth, out)?;
    out.push(b'\n')?;
    Ok(())
}

// Appends what is told of a group.
fn append_facts(
    tree: &Tree,
    path: &Path,
    settings: &CompactSettings,
    depth: u32,
    out: &mut Vec<u8>,
) -> Result<(), AllocError>
    ensures { OnOk result (out.new.items ≡ out.old.items ++ facts_text depth tree.now.tree path.now settings.now) }
{
    append_names(b"controllers", &controllers_at(tree, path), out)?;
    append_asked(tree, path, settings, out)?;
    append_derived(tree, path, out)?;
    append_below(tree, path, depth, out)
}

// Appends how many groups are left out below the group.
fn append_below(tree: &Tree, path: &Path, depth: u32, out: &mut Vec<u8>) -> Result<(), AllocError>
    ensures { OnOk result (out.new.items ≡ out.old.items ++ below_text depth tree.now.tree path.now) }
{
    let is_deepest = path.depth() >= depth;
    append_hidden(is_deepest, tree.descendants(path, path.depth()), out)
}

// Appends two spaces for each name.
fn append_indent(path: &PathRef<'_>, out: &mut Vec<u8>) -> Result<(), AllocError>
    ensures { OnOk result (out.new.items ≡ out.old.items ++ indent path.now) }
{
    for _name in path.names() {
        out.extend_from_slice(b"  ")?;
    }
    Ok(())
}

// The computer's controllers at the root, and none elsewhere.
fn controllers_at(tree: &Tree, path: &Path) -> Controllers
    ensures { result ≡ root_controllers tree.now.tree path.now }
{
    if path.is_root() {
        tree.controllers()
    } else {
        Controllers::empty()
    }
}

// Appends what the group asks for, with what it has of that.
fn append_asked(
    tree: &Tree,
    path: &Path,
    settings: &CompactSettings,
    out: &mut Vec<u8>,
) -> Result<(), AllocError>
    ensures { OnOk result (out.new.items ≡ out.old.items ++ asked_text tree.now.tree path.now settings.now) }
{
    append_names(b"control", &settings.control(), out)?;
    append_cpus(&settings.cpus().get(), out)?;
    append_effective(effective(tree, path), out)?;
    append_descendants(
        tree.descendants(path, path.depth()),
        settings.max_descendants(),
        out,
    )?;
    append_depth(settings.max_depth(), out)
}

// Appends whether the group is frozen, and its processes.
fn append_derived(tree: &Tree, path: &Path, out: &mut Vec<u8>) -> Result<(), AllocError>
    ensures { OnOk result (out.new.items ≡ out.old.items ++ derived_text tree.now.tree path.now) }
{
    append_frozen(frozen(tree, path), out)?;
    let pids = tree.processes(*out.allocator(), path)?;
    append_processes(pids.as_slice(), populated(tree, path), out)
}
