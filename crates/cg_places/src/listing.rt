//! The processes of a group.
ghost use Rattle.std.specs.Prelude.{◌<◌, length, IfOk};
ghost use Rattle.cg_places.specs.Seats.{AreSeated};
ghost use Rattle.cg_places.specs.Walks.{HaveOwnPids, AreTheirs};

use crate::seats::{Cell, Process, Stack};
use std::alloc::{AllocError, Global};

// The PIDs of the processes in the group, from the top of its stack down.
pub(crate) fn gather(
    alloc: Global,
    processes: &[Process],
    cells: &[Cell],
    stacks: &[Stack],
    group: u32,
) -> Result<Vec<u32>, AllocError>
    requires seated { AreSeated processes.now cells.now stacks.now }
    requires pids { HaveOwnPids processes.now }
    requires group { group < length stacks.now }
    ensures { IfOk result (λ pids. AreTheirs processes.now group pids.items) }
{
    let count = stacks[group as usize].count;
    let mut pids = Vec::with_capacity(alloc, count as usize)?;
    let mut at = stacks[group as usize].first;
    for _ in 0..count {
        let cell = &cells[at as usize];
        pids.push(processes[cell.process as usize].pid)?;
        at = cell.next;
    }
    Ok(pids)
}
