//! Values that are told of groups, and of refusals.
ghost use Rattle.std.specs.Prelude.{◌≡◌, ◌++◌, ◌∷◌, OnOk};
ghost use Rattle.std.specs.List.{flat_map};
ghost use Rattle.cg_json.specs.Text.{items_text, json_text, string_or_null};
ghost use Rattle.cg_json_world.specs.Values.{controller_items, controller_of, controllers_value, cpus_value, limit_value, path_value, refusal_value};

use cg_cpus::CpuSet;
use cg_json::{write_comma, write_name, write_null, write_number, write_string};
use cg_name::{Controller, PathRef, Refusal};
use cg_text::{Controllers, Limit};
use std::alloc::AllocError;

// Each appends to a text; after an error, where there is no memory, nothing is said of it.

/// Appends the text of a path, with no quotation marks of its own.
pub fn write_path(path: &PathRef<'_>, out: &mut Vec<u8>) -> Result<(), AllocError>
    ensures { OnOk result (out.new.items ≡ out.old.items ++ json_text (path_value path.now)) }
{
    let mut text = Vec::new(*out.allocator());
    if path.is_root() {
        text.push(b'/')?;
    } else {
        append_names(path, &mut text)?;
    }
    write_string(text.as_slice(), out)
}

/// Appends an array of the names of controllers, in the kernel's order.
#[tactic(auto, unfolding(crate::specs::Values::controllers_value))]
pub fn write_controllers(set: &Controllers, out: &mut Vec<u8>) -> Result<(), AllocError>
    ensures { OnOk result (out.new.items ≡ out.old.items ++ json_text (controllers_value set.now)) }
{
    out.push(b'[')?;
    append_controllers_of(set, &Controller::ALL, false, out)
}

/// Appends the list of CPUs, or `null` for none.
#[tactic(auto, unfolding(crate::specs::Values::cpus_value))]
pub fn write_cpus(cpus: &CpuSet, out: &mut Vec<u8>) -> Result<(), AllocError>
    ensures { OnOk result (out.new.items ≡ out.old.items ++ json_text (cpus_value cpus.now)) }
{
    if cpus.is_empty() {
        return write_null(out);
    }
    let mut text = Vec::new(*out.allocator());
    cpus.write(&mut text)?;
    write_string(text.as_slice(), out)
}

/// Appends a limit, or `null` for `max`.
pub fn write_limit(limit: Limit, out: &mut Vec<u8>) -> Result<(), AllocError>
    ensures { OnOk result (out.new.items ≡ out.old.items ++ json_text (limit_value limit)) }
{
    match limit {
        Limit::Max => write_null(out),
        Limit::UpTo(most) => write_number(most.number as u64, out),
    }
}

/// Appends an object with the number and the word of a refusal, and the controller that it names, or `null`.
pub fn write_refusal(refusal: Refusal, out: &mut Vec<u8>) -> Result<(), AllocError>
    ensures { OnOk result (out.new.items ≡ out.old.items ++ json_text (refusal_value refusal)) }
{
    out.push(b'{')?;
    write_name(false, "number", out)?;
    write_number(refusal.number() as u64, out)?;
    write_name(true, "word", out)?;
    write_string(refusal.word().as_bytes(), out)?;
    write_name(true, "controller", out)?;
    append_controller(refusal, out)?;
    out.push(b'}')?;
    Ok(())
}

// Appends the controller that a refusal names, or `null`.
fn append_controller(refusal: Refusal, out: &mut Vec<u8>) -> Result<(), AllocError>
    ensures { OnOk result (out.new.items ≡ out.old.items ++ json_text (string_or_null (controller_of refusal))) }
{
    match refusal {
        Refusal::Unavailable(controller) => write_string(controller.word().as_bytes(), out),
        Refusal::InUse(controller) => write_string(controller.word().as_bytes(), out),
        _ => write_null(out),
    }
}

// Appends each name of a path with a slash before it.
fn append_names(path: &PathRef<'_>, out: &mut Vec<u8>) -> Result<(), AllocError>
    ensures { OnOk result (out.new.items ≡ out.old.items ++ flat_map (λ n. 47 ∷ n) path.now) }
{
    for name in path.names() {
        out.push(b'/')?;
        out.extend_from_slice(name.as_bytes())?;
    }
    Ok(())
}

// Appends the items of those that the set has, the first of them behind another one or not, and the closing bracket.
fn append_controllers_of(
    set: &Controllers,
    all: &[Controller],
    is_behind: bool,
    out: &mut Vec<u8>,
) -> Result<(), AllocError>
    ensures { OnOk result (out.new.items ≡ out.old.items ++ items_text is_behind (controller_items set.now all.now)) }
{
    let [controller, others @ ..] = all else {
        out.push(b']')?;
        return Ok(());
    };
    if !set.contains(*controller) {
        return append_controllers_of(set, others, is_behind, out);
    }
    write_comma(is_behind, out)?;
    write_string(controller.word().as_bytes(), out)?;
    append_controllers_of(set, others, true, out)
}
