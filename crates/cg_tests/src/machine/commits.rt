//! The scripts of committed transactions: where their commands have their records.
use crate::opening::{BARE, MOST_SLOTS, world};
use cg_desk::{Core, SessionId};
use cg_name::Refusal;
use cg_script::read_line;
use std::alloc::Global;

// What sessions ask for, one record each.
const LINES: [&str; 21] = [
    "A begin",
    "B begin",
    "A create /a",
    "B create /b",
    "A save x",
    "A create /a/x",
    "A create /a/y",
    // Takes the two before it off.
    "A back x",
    "A freeze /a 1",
    // Takes the one before it off.
    "A undo",
    "A show /a cgroup.freeze",
    "B commit",
    "C begin",
    // Is refused: the first transaction holds that subtree.
    "C create /a/z",
    "C create /c",
    "C abort",
    "D begin",
    "D commit",
    "A commit",
    "B begin",
    // Stays open.
    "B create /d",
];

// Which script has each record, and the index behind the last.
const NUMBERS: [u32; 22] = [
    0, 0, 3, 1, 0, 0, 0, 0, 0, 0, 3, 0, 0, 0, 0, 0, 0, 0, 0, 0, 0, 0,
];

// A machine that was asked for all that, by sessions with the numbers of their letters.
fn asked(alloc: Global) -> Result<Core, Refusal> {
    let mut core = Core::open(alloc, world(alloc, BARE)?, MOST_SLOTS)?;
    for line in &LINES {
        if let Some((name, request)) = read_line(alloc, line.as_bytes())? {
            let _ = core.step(alloc, SessionId(u32::from(name.as_bytes()[0])), request);
        }
    }
    Ok(core)
}

// Whether each record is told of the script that has it.
fn tells_numbers(core: &Core) -> bool {
    let mut index = 0;
    for number in &NUMBERS {
        if core.commit_of(index) != *number {
            return false;
        }
        index += 1;
    }
    true
}

#[test]
fn committed_scripts_tell_their_records(rt: HostRuntime) {
    let core = asked(rt.alloc()).expect(&rt, "memory");
    assert!(rt; core.history().len() == LINES.len());
    assert!(rt; core.commit_count() == 3);
    assert!(rt; core.script(1) == [3].as_slice());
    assert!(rt; core.script(2).is_empty());
    assert!(rt; core.script(3) == [2, 10].as_slice());
    assert!(rt; core.script(0).is_empty());
    assert!(rt; core.script(4).is_empty());
    assert!(rt; core.script(u32::MAX).is_empty());
}

#[test]
fn records_tell_their_committed_scripts(rt: HostRuntime) {
    let core = asked(rt.alloc()).expect(&rt, "memory");
    assert!(rt; tells_numbers(&core));
    assert!(rt; core.commit_of(u32::MAX) == 0);
}

#[test]
fn a_fresh_machine_has_no_script(rt: HostRuntime) {
    let opening = world(rt.alloc(), BARE).expect(&rt, "memory");
    let core = Core::open(rt.alloc(), opening, MOST_SLOTS).expect(&rt, "memory");
    assert!(rt; core.commit_count() == 0);
    assert!(rt; core.script(1).is_empty());
    assert!(rt; core.commit_of(0) == 0);
}
