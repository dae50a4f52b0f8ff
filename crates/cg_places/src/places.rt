//! Processes by the group that each is in.
ghost use Rattle.std.specs.Prelude.{◌≡◌, ◌≢◌, ◌↔◌, ◌<◌, is_some, None, Some, IsSome, IsTrue, IfOk, OnOk, OnErr, max, ℕ};
ghost use Rattle.cg_maps.specs.FiniteMap.{empty, entries, get, len, set_at};
ghost use Rattle.cg_places.specs.Located.{pids_of};

use crate::listing::gather;
use crate::seats::{Cell, Process, Stack, carry, join, widen};
use std::alloc::{AllocError, Global};
use std::collections::HashMap;
use std::marker::Model;

/// In which group each of some processes is, and which processes each group has. A move takes no memory, and costs nothing
/// of other groups. A group is named by a number.
pub struct Places {
    // The number of each process, by its PID.
    numbers: HashMap<u32, u32>,
    processes: Vec<Process>,
    cells: Vec<Cell>,
    // By the numbers of groups.
    stacks: Vec<Stack>,
}

impl Drop for Places {
    fn drop(self) {
        let Places {
            numbers: _,
            processes: _,
            cells: _,
            stacks: _,
        } = self;
    }
}

impl Model for Places {
    ghost use Rattle.cg_places.specs.Located.{Located, located_code};

    ghost Value = { Located };

    ghost coded = { located_code };

    ghost use Rattle.cg_places.specs.Placed.{located, ArePlaced};

    ghost view = { λ t. located t.processes.items t.stacks.items };

    ghost invariant = { λ t. ArePlaced t.numbers.entries t.processes.items t.cells.items t.stacks.items };
}

impl Places {
    /// No process, and no group.
    pub fn new(alloc: Global) -> Places
        ensures places { result.places ≡ empty }
        ensures groups { result.groups ≡ 0 }
    {
        Places {
            numbers: HashMap::new(alloc),
            processes: Vec::new(alloc),
            cells: Vec::new(alloc),
            stacks: Vec::new(alloc),
        }
    }

    /// How many numbers groups may have: those below it may be used.
    pub fn groups(&self) -> usize
        ensures { result ≡ self.now.groups }
    {
        self.stacks.len()
    }

    /// The group of the process, if it is there. Takes no memory.
    pub fn group_of(&self, pid: u32) -> Option<u32>
        ensures { result ≡ get self.now.places pid }
    {
        let number = *self.numbers.get(&pid)?;
        Some(self.processes[number as usize].group)
    }

    /// Whether the process is there. Takes no memory.
    pub fn has(&self, pid: u32) -> bool
        ensures { result ≡ is_some (get self.now.places pid) }
    {
        self.group_of(pid).is_some()
    }

    /// Moves the process to that group, if it is there. Takes no memory.
    pub fn put(&mut self, pid: u32, group: u32)
        requires { group < self.old.groups }
        ensures groups { self.new.groups ≡ self.old.groups }
        ensures absent { get self.old.places pid ≡ None → self.new.places ≡ self.old.places }
        ensures places { IsSome (get self.old.places pid) → self.new.places ≡ set_at self.old.places pid (Some group) }
    {
        let Some(number) = self.numbers.get(&pid).copied() else {
            return;
        };
        carry(
            &mut self.processes,
            &mut self.cells,
            &mut self.stacks,
            number,
            group,
        );
    }

    /// Makes room for that many groups, where there are fewer: numbers below that may be used. Nothing else changes, and
    /// nothing at all where there is no memory for it.
    pub fn make_room(&mut self, groups: u32) -> Result<(), AllocError>
        ensures places { self.new.places ≡ self.old.places }
        ensures groups { OnOk result (self.new.groups ≡ max self.old.groups groups) }
        ensures err { OnErr result (self.new ≡ self.old) }
    {
        widen(&mut self.stacks, groups as usize)
    }

    /// Puts a process that isn't there into that group. Where there is no memory for it, all is as it was.
    pub fn add(&mut self, pid: u32, group: u32) -> Result<(), AllocError>
        requires absent { get self.old.places pid ≡ None }
        requires group { group < self.old.groups }
        ensures places { OnOk result (self.new.places ≡ set_at self.old.places pid (Some group)) }
        ensures groups { self.new.groups ≡ self.old.groups }
        ensures err { OnErr result (self.new ≡ self.old) }
    {
        let number = narrow(self.processes.len())?;
        self.processes.reserve(1)?;
        self.cells.reserve(1)?;
        self.numbers.insert(pid, number)?;
        join(
            &mut self.processes,
            &mut self.cells,
            &mut self.stacks,
            pid,
            group,
        );
        Ok(())
    }

    /// Whether no process is in that group. Takes no memory.
    pub fn is_empty(&self, group: u32) -> bool
        requires { group < self.now.groups }
        ensures { IsTrue result ↔ ((pid : ℕ) → get self.now.places pid ≢ Some group) }
    {
        self.stacks[group as usize].count == 0
    }

    /// The processes of the group, ascending.
    pub fn pids_in(&self, alloc: Global, group: u32) -> Result<Vec<u32>, AllocError>
        requires { group < self.now.groups }
        ensures { IfOk result (λ pids. pids.items ≡ pids_of self.now.places group) }
    {
        let mut pids = gather(alloc, &self.processes, &self.cells, &self.stacks, group)?;
        pids.sort_unstable();
        Ok(pids)
    }

    /// All processes, ascending, each with its group.
    pub fn places(&self, alloc: Global) -> Result<Vec<(u32, u32)>, AllocError>
        ensures { IfOk result (λ all. all.items ≡ entries self.now.places) }
    {
        let mut all = Vec::with_capacity(alloc, self.processes.len())?;
        for process in &self.processes {
            all.push((process.pid, process.group))?;
        }
        all.sort_unstable_by_key(|place| place.0);
        Ok(all)
    }

    /// How many processes there are: fewer than 2^32 - 1.
    pub fn len(&self) -> usize
        ensures value { result ≡ len self.now.places }
        ensures few { result < 4294967295 }
    {
        self.processes.len()
    }
}

// The number of one process more, where there are so many; an error where that is too many.
fn narrow(number: usize) -> Result<u32, AllocError>
    ensures value { IfOk result (λ n. n ≡ number) }
    ensures below { IfOk result (λ n. n < 4294967294) }
{
    if number < 4294967294 {
        return Ok(number as u32);
    }
    Err(AllocError)
}
