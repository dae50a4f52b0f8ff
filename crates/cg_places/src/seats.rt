//! Who sits where: each process has a cell, and each group a stack of the cells of its processes.
ghost use Rattle.std.specs.Prelude.{◌≡◌, ◌≢◌, ◌+◌, ◌<◌, ◌≤◌, ◌++◌, ◌∷◌, [], ℕ, length, max, suc, Some, OnOk, OnErr, slice_get, option_map, vec_len, vec_capacity};
ghost use Rattle.cg_places.specs.declared.seats.Process.{Process};
ghost use Rattle.cg_places.specs.declared.seats.Cell.{Cell};
ghost use Rattle.cg_places.specs.declared.seats.Stack.{Stack};
ghost use Rattle.cg_places.specs.Lists.{WritesAt};
ghost use Rattle.cg_places.specs.Seats.{who, next_in, group_in, stack_in, HaveSeats, AreSeated};

use std::alloc::AllocError;

// A process.
#[derive(Drop)]
pub(crate) struct Process {
    pub(crate) pid: u32,
    // The group that it is in.
    pub(crate) group: u32,
    // The cell that it has.
    pub(crate) cell: u32,
}

// A cell of a group's stack.
#[derive(Drop)]
pub(crate) struct Cell {
    // The number of the process that has it.
    pub(crate) process: u32,
    // The cell below it; of the lowest one, any.
    pub(crate) next: u32,
}

// The stack of a group.
#[derive(Clone, Copy)]
pub(crate) struct Stack {
    // The cell on top; of an empty stack, any.
    pub(crate) first: u32,
    // How many cells it has.
    pub(crate) count: u32,
}

// Gives the process that cell.
fn set_cell(processes: &mut [Process], number: u32, cell: u32)
    requires { number < length processes.old }
    ensures { (p : Process) → slice_get processes.old number ≡ Some p → WritesAt processes.old processes.new number (record p { cell = cell }) }
{
    processes[number as usize].cell = cell;
}

// Puts the process into that group.
pub(crate) fn set_group(processes: &mut [Process], number: u32, group: u32)
    requires { number < length processes.old }
    ensures { (p : Process) → slice_get processes.old number ≡ Some p → WritesAt processes.old processes.new number (record p { group = group }) }
{
    processes[number as usize].group = group;
}

// Gives the cell to that process.
fn set_process(cells: &mut [Cell], cell: u32, process: u32)
    requires { cell < length cells.old }
    ensures { (c : Cell) → slice_get cells.old cell ≡ Some c → WritesAt cells.old cells.new cell (record c { process = process }) }
{
    cells[cell as usize].process = process;
}

// Puts the cell onto that one.
fn set_next(cells: &mut [Cell], cell: u32, next: u32)
    requires { cell < length cells.old }
    ensures { (c : Cell) → slice_get cells.old cell ≡ Some c → WritesAt cells.old cells.new cell (record c { next = next }) }
{
    cells[cell as usize].next = next;
}

// Gives the process that cell, which a process of the same group has, and that process its own cell.
pub(crate) fn trade(processes: &mut [Process], cells: &mut [Cell], number: u32, top: u32)
    requires seats { HaveSeats processes.old cells.old }
    requires number { number < length processes.old }
    requires top { top < length cells.old }
    requires same { (p : Process) → slice_get processes.old number ≡ Some p → group_in processes.old cells.old top ≡ Some p.group }
    ensures seats { HaveSeats processes.new cells.new }
    ensures own { (p : Process) → slice_get processes.new number ≡ Some p → p.cell ≡ top }
    ensures kept { (i : ℕ) → option_map who (slice_get processes.new i) ≡ option_map who (slice_get processes.old i) }
    ensures next { (j : ℕ) → next_in cells.new j ≡ next_in cells.old j }
    ensures groups { (j : ℕ) → group_in processes.new cells.new j ≡ group_in processes.old cells.old j }
    ensures lengths { (length processes.new ≡ length processes.old) × (length cells.new ≡ length cells.old) }
{
    let cell = processes[number as usize].cell;
    let other = cells[top as usize].process;
    set_process(cells, cell, other);
    set_cell(processes, other, cell);
    set_process(cells, top, number);
    set_cell(processes, number, top);
}

// Takes the top cell of one stack, and puts it onto another.
pub(crate) fn shift(stacks: &mut [Stack], cells: &mut [Cell], from: u32, to: u32)
    requires apart { from ≢ to }
    requires from { from < length stacks.old }
    requires to { to < length stacks.old }
    requires some { (s : Stack) → slice_get stacks.old from ≡ Some s → (0 < s.count) × (s.first < length cells.old) }
    requires fits { (s : Stack) → slice_get stacks.old to ≡ Some s → s.count < 4294967295 }
    ensures cells { (s t : Stack) (c : Cell) → slice_get stacks.old from ≡ Some s → slice_get stacks.old to ≡ Some t → slice_get cells.old s.first ≡ Some c → WritesAt cells.old cells.new s.first (record c { next = t.first }) }
    ensures from { (s : Stack) (c : Cell) (n : ℕ) → slice_get stacks.old from ≡ Some s → s.count ≡ suc n → slice_get cells.old s.first ≡ Some c → stack_in stacks.new from ≡ Some (c.next, n) }
    ensures to { (s t : Stack) → slice_get stacks.old from ≡ Some s → slice_get stacks.old to ≡ Some t → stack_in stacks.new to ≡ Some (s.first, suc t.count) }
    ensures others { (g : ℕ) → g ≢ from → g ≢ to → stack_in stacks.new g ≡ stack_in stacks.old g }
    ensures length { length stacks.new ≡ length stacks.old }
{
    let top = stacks[from as usize].first;
    let count = stacks[from as usize].count;
    let below = cells[top as usize].next;
    let first = stacks[to as usize].first;
    let more = stacks[to as usize].count;
    stacks[from as usize] = Stack {
        first: below,
        count: count - 1,
    };
    stacks[to as usize] = Stack {
        first: top,
        count: more + 1,
    };
    set_next(cells, top, first);
}

// Moves the process to another group.
pub(crate) fn carry(
    processes: &mut [Process],
    cells: &mut [Cell],
    stacks: &mut [Stack],
    number: u32,
    to: u32,
)
    requires seated { AreSeated processes.old cells.old stacks.old }
    requires number { number < length processes.old }
    requires to { to < length stacks.old }
    requires few { length processes.old < 4294967295 }
    ensures seated { AreSeated processes.new cells.new stacks.new }
    ensures moved { (p : Process) → slice_get processes.old number ≡ Some p → option_map who (slice_get processes.new number) ≡ Some (p.pid, to) }
    ensures others { (i : ℕ) → i ≢ number → option_map who (slice_get processes.new i) ≡ option_map who (slice_get processes.old i) }
    ensures lengths { (length processes.new ≡ length processes.old) × (length stacks.new ≡ length stacks.old) }
{
    let from = processes[number as usize].group;
    if from == to {
        return;
    }
    let top = stacks[from as usize].first;
    trade(processes, cells, number, top);
    shift(stacks, cells, from, to);
    set_group(processes, number, to);
}

// Puts a process that is in that group behind the others. There is room for it.
pub(crate) fn join(
    processes: &mut Vec<Process>,
    cells: &mut Vec<Cell>,
    stacks: &mut [Stack],
    pid: u32,
    group: u32,
)
    requires seated { AreSeated processes.old.items cells.old.items stacks.old }
    requires group { group < length stacks.old }
    requires few { length processes.old.items < 4294967295 }
    requires room { (vec_len processes.old < vec_capacity processes.old) × (vec_len cells.old < vec_capacity cells.old) }
    ensures seated { AreSeated processes.new.items cells.new.items stacks.new }
    ensures processes { processes.new.items ≡ processes.old.items ++ record { pid = pid; group = group; cell = length processes.old.items } ∷ [] }
    ensures length { length stacks.new ≡ length stacks.old }
{
    let number = processes.len() as u32;
    let below = stacks[group as usize].first;
    let count = stacks[group as usize].count;
    processes.push_reserved(Process {
        pid,
        group,
        cell: number,
    });
    cells.push_reserved(Cell {
        process: number,
        next: below,
    });
    stacks[group as usize] = Stack {
        first: number,
        count: count + 1,
    };
}

// Makes room for that many groups, where there are fewer. The new ones are empty.
pub(crate) fn widen(stacks: &mut Vec<Stack>, groups: usize) -> Result<(), AllocError>
    ensures longer { length stacks.old.items ≤ length stacks.new.items }
    ensures same { (g : ℕ) → g < length stacks.old.items → slice_get stacks.new.items g ≡ slice_get stacks.old.items g }
    ensures empty { (g : ℕ) (s : Stack) → length stacks.old.items ≤ g → slice_get stacks.new.items g ≡ Some s → s.count ≡ 0 }
    ensures groups { OnOk result (length stacks.new.items ≡ max (length stacks.old.items) groups) }
    ensures err { OnErr result (stacks.new.items ≡ stacks.old.items) }
{
    if groups <= stacks.len() {
        return Ok(());
    }
    stacks.resize(groups, Stack { first: 0, count: 0 })
}
