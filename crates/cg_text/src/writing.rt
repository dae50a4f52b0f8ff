//! What interface files show: each value as the one text of it. The forms are those of the kernel's cgroup-v2 page,
//! "Core Interface Files" and "Cpuset Interface Files".
ghost use Rattle.std.specs.Prelude.{◌≡◌, ◌++◌, ◌∷◌, not, IfOk, OnOk, OnErr, length, take};
ghost use Rattle.cg_maps.specs.FiniteMap.{is_nonempty};
ghost use Rattle.std.specs.Fmt.{decimal};
ghost use Rattle.cg_name.specs.Controller.{controller_word};
ghost use Rattle.cg_cpus.specs.Separated.{separated};
ghost use Rattle.cg_text.specs.Controllers.{is_no_controllers, members};
ghost use Rattle.cg_text.specs.FileText.{controllers_text, cpus_line, events_text, flag_text, limit_text, line_text, names_text, ops_text, pids_text};
ghost use Rattle.cg_text.specs.Reading.{sign_byte};

use crate::control_ops::ControlOps;
use crate::controllers::Controllers;
use crate::limit::Limit;
use cg_cpus::CpuSet;
use cg_name::{Controller, or_truncate};
use itoa::Buffer;
use std::alloc::AllocError;

/// Appends the names of the set's controllers, in the kernel's order, with the separator between them, and tells whether
/// there is one. An error, where there is no memory, leaves `out` as it was.
pub fn write_names(set: Controllers, separator: u8, out: &mut Vec<u8>) -> Result<bool, AllocError>
    ensures ok { OnOk result (out.new.items ≡ out.old.items ++ names_text separator set) }
    ensures some { IfOk result (λ some. some ≡ not (is_no_controllers set)) }
    ensures err { OnErr result (out.new.items ≡ out.old.items) }
{
    let start = out.len();
    let written = append_names(&set, separator, out);
    or_truncate(written, start, out)
}

/// Appends what `cgroup.controllers` and `cgroup.subtree_control` show: the names of the set's controllers in the
/// kernel's order, with single spaces between them and a newline; nothing for no controller. An error, where there is no
/// memory, leaves `out` as it was.
pub fn write_controllers(set: Controllers, out: &mut Vec<u8>) -> Result<(), AllocError>
    ensures ok { OnOk result (out.new.items ≡ out.old.items ++ controllers_text set) }
    ensures err { OnErr result (out.new.items ≡ out.old.items) }
{
    let start = out.len();
    let written = append_controllers(&set, out);
    or_truncate(written, start, out)
}

/// Appends what is written to `cgroup.subtree_control`: a word for each controller of the operations, in the kernel's
/// order, a `+` where it is enabled and else a `-`, and its name; with single spaces between the words, and no
/// newline. An error, where there is no memory, leaves `out` as it was.
pub fn write_ops(ops: ControlOps, out: &mut Vec<u8>) -> Result<(), AllocError>
    ensures ok { OnOk result (out.new.items ≡ out.old.items ++ ops_text ops) }
    ensures err { OnErr result (out.new.items ≡ out.old.items) }
{
    let start = out.len();
    let written = append_ops(&ops, out);
    or_truncate(written, start, out)
}

/// Appends what `cgroup.procs` shows: each PID on a line of its own, in the order given. An error, where there is no
/// memory, leaves `out` as it was.
pub fn write_procs(pids: &[u32], out: &mut Vec<u8>) -> Result<(), AllocError>
    ensures ok { OnOk result (out.new.items ≡ out.old.items ++ pids_text pids.now) }
    ensures err { OnErr result (out.new.items ≡ out.old.items) }
{
    let start = out.len();
    let written = append_pids(pids, out);
    or_truncate(written, start, out)
}

/// What `cgroup.events` shows: whether the group has a live process in it or below it, and whether it is frozen, each on a
/// line of its own.
pub fn events_bytes(populated: bool, frozen: bool) -> &'static [u8]
    ensures { result.now ≡ events_text populated frozen }
{
    match (populated, frozen) {
        (false, false) => b"populated 0\nfrozen 0\n",
        (false, true) => b"populated 0\nfrozen 1\n",
        (true, false) => b"populated 1\nfrozen 0\n",
        (true, true) => b"populated 1\nfrozen 1\n",
    }
}

/// Appends what `cgroup.events` shows. An error, where there is no memory, leaves `out` as it was.
pub fn write_events(populated: bool, frozen: bool, out: &mut Vec<u8>) -> Result<(), AllocError>
    ensures ok { OnOk result (out.new.items ≡ out.old.items ++ events_text populated frozen) }
    ensures err { OnErr result (out.new.items ≡ out.old.items) }
{
    out.extend_from_slice(events_bytes(populated, frozen))?;
    Ok(())
}

/// What `cgroup.freeze` shows: `0` or `1`, and a newline.
pub fn flag_bytes(flag: bool) -> &'static [u8]
    ensures { result.now ≡ flag_text flag }
{
    if flag { b"1\n" } else { b"0\n" }
}

/// Appends what `cgroup.freeze` shows. An error, where there is no memory, leaves `out` as it was.
pub fn write_flag(flag: bool, out: &mut Vec<u8>) -> Result<(), AllocError>
    ensures ok { OnOk result (out.new.items ≡ out.old.items ++ flag_text flag) }
    ensures err { OnErr result (out.new.items ≡ out.old.items) }
{
    out.extend_from_slice(flag_bytes(flag))?;
    Ok(())
}

/// Appends what `cpuset.cpus` and `cpuset.cpus.effective` show: the set's list, as `0-4,6`, and a newline; the newline
/// alone for no CPU. An error, where there is no memory, leaves `out` as it was.
pub fn write_cpus(cpus: CpuSet, out: &mut Vec<u8>) -> Result<(), AllocError>
    ensures ok { OnOk result (out.new.items ≡ out.old.items ++ cpus_line cpus) }
    ensures err { OnErr result (out.new.items ≡ out.old.items) }
{
    let start = out.len();
    let written = append_cpus(&cpus, out);
    or_truncate(written, start, out)
}

/// Appends what `cgroup.max.descendants` and `cgroup.max.depth` show: `max` or the number, and a newline. An
/// error, where there is no memory, leaves `out` as it was.
pub fn write_limit(limit: Limit, out: &mut Vec<u8>) -> Result<(), AllocError>
    ensures ok { OnOk result (out.new.items ≡ out.old.items ++ limit_text limit) }
    ensures err { OnErr result (out.new.items ≡ out.old.items) }
{
    let start = out.len();
    let written = append_limit(limit, out);
    or_truncate(written, start, out)
}

// What follows appends to `out`, and an error leaves what stood there at the front.

// The line of a set of controllers.
fn append_controllers(set: &Controllers, out: &mut Vec<u8>) -> Result<(), AllocError>
    ensures ok { OnOk result (out.new.items ≡ out.old.items ++ controllers_text set.now) }
    ensures kept { OnErr result (take (length out.old.items) out.new.items ≡ out.old.items) }
{
    if append_names(set, b' ', out)? {
        out.push(b'\n')?;
    }
    Ok(())
}

// The names of the set's controllers, and whether there is one.
fn append_names(set: &Controllers, separator: u8, out: &mut Vec<u8>) -> Result<bool, AllocError>
    ensures ok { OnOk result (out.new.items ≡ out.old.items ++ names_text separator set.now) }
    ensures some { IfOk result (λ some. some ≡ is_nonempty (members set.now)) }
    ensures kept { OnErr result (take (length out.old.items) out.new.items ≡ out.old.items) }
{
    let mut behind = false;
    for controller in &Controller::ALL {
        if set.contains(*controller) {
            append_name(behind, separator, *controller, out)?;
            behind = true;
        }
    }
    Ok(behind)
}

// A controller's name, with the separator before it where it stands behind another.
fn append_name(
    behind: bool,
    separator: u8,
    controller: Controller,
    out: &mut Vec<u8>,
) -> Result<(), AllocError>
    ensures ok { OnOk result (out.new.items ≡ out.old.items ++ separated separator behind (controller_word controller)) }
    ensures kept { OnErr result (take (length out.old.items) out.new.items ≡ out.old.items) }
{
    if behind {
        out.push(separator)?;
    }
    out.extend_from_slice(controller.word().as_bytes())?;
    Ok(())
}

// The words of operations.
fn append_ops(ops: &ControlOps, out: &mut Vec<u8>) -> Result<(), AllocError>
    ensures ok { OnOk result (out.new.items ≡ out.old.items ++ ops_text ops.now) }
    ensures kept { OnErr result (take (length out.old.items) out.new.items ≡ out.old.items) }
{
    let mut behind = false;
    for controller in &Controller::ALL {
        let enables = ops.plus.contains(*controller);
        if enables || ops.minus.contains(*controller) {
            append_op(behind, enables, *controller, out)?;
            behind = true;
        }
    }
    Ok(())
}

// An operation's word, with a space before it where it stands behind another.
fn append_op(
    behind: bool,
    enables: bool,
    controller: Controller,
    out: &mut Vec<u8>,
) -> Result<(), AllocError>
    ensures ok { OnOk result (out.new.items ≡ out.old.items ++ separated 32 behind (sign_byte enables ∷ controller_word controller)) }
    ensures kept { OnErr result (take (length out.old.items) out.new.items ≡ out.old.items) }
{
    if behind {
        out.push(b' ')?;
    }
    out.push(if enables { b'+' } else { b'-' })?;
    out.extend_from_slice(controller.word().as_bytes())?;
    Ok(())
}

// A line for each PID.
fn append_pids(pids: &[u32], out: &mut Vec<u8>) -> Result<(), AllocError>
    ensures ok { OnOk result (out.new.items ≡ out.old.items ++ pids_text pids.now) }
    ensures kept { OnErr result (take (length out.old.items) out.new.items ≡ out.old.items) }
{
    for pid in pids {
        append_number(*pid, out)?;
    }
    Ok(())
}

// The line of a set of CPUs.
fn append_cpus(cpus: &CpuSet, out: &mut Vec<u8>) -> Result<(), AllocError>
    ensures ok { OnOk result (out.new.items ≡ out.old.items ++ cpus_line cpus.now) }
    ensures kept { OnErr result (take (length out.old.items) out.new.items ≡ out.old.items) }
{
    cpus.write(out)?;
    out.push(b'\n')?;
    Ok(())
}

// The line of a limit.
fn append_limit(limit: Limit, out: &mut Vec<u8>) -> Result<(), AllocError>
    ensures ok { OnOk result (out.new.items ≡ out.old.items ++ limit_text limit) }
    ensures kept { OnErr result (take (length out.old.items) out.new.items ≡ out.old.items) }
{
    match limit {
        Limit::Max => {
            out.extend_from_slice(b"max\n")?;
            Ok(())
        }
        Limit::UpTo(most) => append_number(most.number, out),
    }
}

// The line of a number.
fn append_number(number: u32, out: &mut Vec<u8>) -> Result<(), AllocError>
    ensures ok { OnOk result (out.new.items ≡ out.old.items ++ line_text (decimal number)) }
    ensures kept { OnErr result (take (length out.old.items) out.new.items ≡ out.old.items) }
{
    out.extend_from_slice(Buffer::new().format(number).as_bytes())?;
    out.push(b'\n')?;
    Ok(())
}
