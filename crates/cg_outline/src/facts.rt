//! What is told of a group.
ghost use Rattle.std.specs.Prelude.{◌≡◌, ◌∷◌, ◌++◌, [], OnOk};
ghost use Rattle.std.specs.List.{flat_map};
ghost use Rattle.std.specs.Fmt.{decimal};
ghost use Rattle.cg_outline.specs.Outline.{cpus_fact, depth_fact, descendants_fact, effective_fact, fact, frozen_fact, hidden_fact, names_fact, processes_fact, spaced_pid};

use cg_cpus::CpuSet;
use cg_text::{Controllers, Limit, write_names};
use itoa::Buffer;
use std::alloc::AllocError;

// Each appends to a text; after an error, where there is no memory, nothing is said of it.

/// Appends controllers, where there are any.
pub(crate) fn append_names(
    word: &[u8],
    set: &Controllers,
    out: &mut Vec<u8>,
) -> Result<(), AllocError>
    ensures { OnOk result (out.new.items ≡ out.old.items ++ names_fact word.now set.now) }
{
    if set.is_empty() {
        return Ok(());
    }
    append_word(word, out)?;
    write_names(*set, b',', out)?;
    Ok(())
}

/// Appends the CPUs that a group asks for, where there are any.
pub(crate) fn append_cpus(cpus: &CpuSet, out: &mut Vec<u8>) -> Result<(), AllocError>
    ensures { OnOk result (out.new.items ≡ out.old.items ++ cpus_fact cpus.now) }
{
    if cpus.is_empty() {
        return Ok(());
    }
    append_word(b"cpus", out)?;
    cpus.write(out)
}

/// Appends the effective CPUs, where the group has `cpuset`.
pub(crate) fn append_effective(cpus: Option<CpuSet>, out: &mut Vec<u8>) -> Result<(), AllocError>
    ensures { OnOk result (out.new.items ≡ out.old.items ++ effective_fact cpus) }
{
    let Some(cpus) = cpus else {
        return Ok(());
    };
    append_word(b"effective", out)?;
    cpus.write(out)
}

/// Appends a limit on descendants, with how many there are.
pub(crate) fn append_descendants(
    count: u64,
    limit: Limit,
    out: &mut Vec<u8>,
) -> Result<(), AllocError>
    ensures { OnOk result (out.new.items ≡ out.old.items ++ descendants_fact count limit) }
{
    let Limit::UpTo(most) = limit else {
        return Ok(());
    };
    append_word(b"descendants", out)?;
    append_number(count, out)?;
    out.extend_from_slice(b" of ")?;
    append_number(most.number as u64, out)
}

/// Appends a limit on depth.
pub(crate) fn append_depth(limit: Limit, out: &mut Vec<u8>) -> Result<(), AllocError>
    ensures { OnOk result (out.new.items ≡ out.old.items ++ depth_fact limit) }
{
    let Limit::UpTo(most) = limit else {
        return Ok(());
    };
    append_word(b"depth", out)?;
    append_number(most.number as u64, out)
}

/// Appends that the group is frozen, where it is.
pub(crate) fn append_frozen(frozen: Option<bool>, out: &mut Vec<u8>) -> Result<(), AllocError>
    ensures { OnOk result (out.new.items ≡ out.old.items ++ frozen_fact frozen) }
{
    match frozen {
        Some(true) => out.extend_from_slice(b"  frozen")?,
        _ => {}
    }
    Ok(())
}

/// Appends the group's own processes; where it has none, that a group below it has some.
pub(crate) fn append_processes(
    pids: &[u32],
    populated: Option<bool>,
    out: &mut Vec<u8>,
) -> Result<(), AllocError>
    ensures { OnOk result (out.new.items ≡ out.old.items ++ processes_fact pids.now populated) }
{
    match (pids.is_empty(), populated) {
        (true, Some(true)) => out.extend_from_slice(b"  populated")?,
        (true, _) => {}
        (false, _) => {
            out.extend_from_slice(b"  pids")?;
            append_pids(pids, out)?;
        }
    }
    Ok(())
}

/// Appends how many groups are left out below one of those at the greatest depth, where there are any.
pub(crate) fn append_hidden(
    is_deepest: bool,
    count: u64,
    out: &mut Vec<u8>,
) -> Result<(), AllocError>
    ensures { OnOk result (out.new.items ≡ out.old.items ++ hidden_fact is_deepest count) }
{
    if !is_deepest || count == 0 {
        return Ok(());
    }
    append_word(b"below", out)?;
    append_number(count, out)
}

// The word that a fact begins with, and what stands round it.
fn append_word(word: &[u8], out: &mut Vec<u8>) -> Result<(), AllocError>
    ensures { OnOk result (out.new.items ≡ out.old.items ++ fact word.now []) }
{
    out.extend_from_slice(b"  ")?;
    out.extend_from_slice(word)?;
    out.push(b' ')?;
    Ok(())
}

// PIDs, each with a space before it.
fn append_pids(pids: &[u32], out: &mut Vec<u8>) -> Result<(), AllocError>
    ensures { OnOk result (out.new.items ≡ out.old.items ++ flat_map spaced_pid pids.now) }
{
    for pid in pids {
        append_pid(*pid, out)?;
    }
    Ok(())
}

// A PID, with a space before it.
fn append_pid(pid: u32, out: &mut Vec<u8>) -> Result<(), AllocError>
    ensures { OnOk result (out.new.items ≡ out.old.items ++ spaced_pid pid) }
{
    out.push(b' ')?;
    append_number(pid as u64, out)
}

// A number in decimal digits.
fn append_number(number: u64, out: &mut Vec<u8>) -> Result<(), AllocError>
    ensures { OnOk result (out.new.items ≡ out.old.items ++ decimal number) }
{
    let mut buffer = Buffer::new();
    out.extend_from_slice(buffer.format(number).as_bytes())?;
    Ok(())
}
