//! Which controllers a group may pass on to its children: the kernel's cgroup-v2 page, "Controlling Controllers".
#![tactic(auto)]

ghost use Rattle.std.specs.Prelude.{◌≡◌, ◌&&◌, not, find};
ghost use Rattle.cg_text.specs.Controllers.{has, all_controllers};
ghost use Rattle.cg_model.specs.Control.{plan, not_available, in_use};

use cg_name::{Controller, Refusal};
use cg_text::{ControlOps, Controllers};

/// The set that a write to `cgroup.subtree_control` leaves: by what is available to the group, the set that it has
/// enabled, the operations, what its children have enabled, whether it has processes of its own, and whether it is
/// the root. To enable what is enabled, or disable what isn't, is accepted and changes nothing.
///
/// `Unavailable` with the first controller in the kernel's order that is to be enabled and is neither enabled nor
/// available; else `InUse` with the first that is to be disabled, is enabled, and is enabled by a child too; else
/// `HasProcesses` where the group isn't the root, has processes of its own, and controllers would be left.
pub fn plan(
    available: Controllers,
    current: Controllers,
    ops: ControlOps,
    children_use: Controllers,
    has_processes: bool,
    is_root: bool,
) -> Result<Controllers, Refusal>
    ensures { result ≡ plan available current ops children_use has_processes is_root }
{
    if let Some(controller) = first_unavailable(available, current, ops) {
        return Err(Refusal::Unavailable(controller));
    }
    if let Some(controller) = first_in_use(current, ops, children_use) {
        return Err(Refusal::InUse(controller));
    }
    let planned = current.union(&ops.plus).difference(&ops.minus);
    if !is_root && has_processes && !planned.is_empty() {
        return Err(Refusal::HasProcesses);
    }
    Ok(planned)
}

// The first that is to be enabled and is neither enabled nor available.
fn first_unavailable(
    available: Controllers,
    current: Controllers,
    ops: ControlOps,
) -> Option<Controller>
    ensures { result ≡ find (λ c. has ops.plus c && not (has current c) && not (has available c)) all_controllers }
{
    let is_missing = |c: &Controller| {
        ops.plus.contains(*c) && !current.contains(*c) && !available.contains(*c)
    };
    Controller::ALL.iter().copied().find(is_missing)
}

// The first that is to be disabled, is enabled, and is enabled by a child too.
fn first_in_use(
    current: Controllers,
    ops: ControlOps,
    children_use: Controllers,
) -> Option<Controller>
    ensures { result ≡ find (λ c. has ops.minus c && has current c && has children_use c) all_controllers }
{
    let is_used = |c: &Controller| {
        ops.minus.contains(*c) && current.contains(*c) && children_use.contains(*c)
    };
    Controller::ALL.iter().copied().find(is_used)
}
