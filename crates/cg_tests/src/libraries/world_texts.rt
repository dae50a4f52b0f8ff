//! World texts whose groups and processes come in any order.
use crate::opening::world;
use cg_name::Refusal;
use cg_world_text::{WorldReader, WriteWorld};
use std::alloc::Global;

// Appends the text that is written for the world that a text spells.
fn write_again(alloc: Global, text: &str, out: &mut Vec<u8>) -> Result<(), Refusal> {
    world(alloc, text)?.write(out)?;
    Ok(())
}

// Has the reader take the lines of a text.
fn take_lines(alloc: Global, reader: &mut WorldReader, text: &str) -> Result<(), Refusal> {
    for line in text.as_bytes().split(|byte| *byte == b'\n') {
        reader.take_line(alloc, line)?;
    }
    Ok(())
}

const DOWNWARD: &str = "world 1
controllers
online 0
group /c - 0 -
group /b/x/y - 1 -
group /b/x - 0 -
group /b - 0 -
group /a - 0 -
group / - 0 -
proc 30 /c
proc 9 /
proc 10 /a
end
";

const UPWARD: &str = "world 1
controllers
online 0
group / - 0 -
group /a - 0 -
group /b - 0 -
group /b/x - 0 -
group /b/x/y - 1 -
group /c - 0 -
proc 9 /
proc 10 /a
proc 30 /c
end
";

#[test]
fn a_world_is_read_in_any_order(rt: HostRuntime) {
    let mut out = Vec::new(rt.alloc());
    assert!(rt; write_again(rt.alloc(), DOWNWARD, &mut out) == Ok(()));
    assert!(rt; out.as_slice() == UPWARD.as_bytes());
}

const GROUPS_UPWARD: &str = "world 1
controllers
online 0
group / - 0 -
group /a - 0 -
group /b - 0 -
group /c - 0 -
";

#[test]
fn a_group_that_came_is_refused_at_its_line(rt: HostRuntime) {
    let mut reader = WorldReader::new();
    assert!(rt; take_lines(rt.alloc(), &mut reader, GROUPS_UPWARD) == Ok(()));
    assert!(rt; reader.take_line(rt.alloc(), b"group /a - 0 -") == Err(Refusal::Syntax));
    let mut reader = WorldReader::new();
    assert!(rt; take_lines(rt.alloc(), &mut reader, GROUPS_UPWARD) == Ok(()));
    assert!(rt; reader.take_line(rt.alloc(), b"group /c - 0 -") == Err(Refusal::Syntax));
    let mut reader = WorldReader::new();
    assert!(rt; take_lines(rt.alloc(), &mut reader, GROUPS_UPWARD) == Ok(()));
    assert!(rt; reader.take_line(rt.alloc(), b"group /0 - 0 -") == Ok(()));
    assert!(rt; reader.take_line(rt.alloc(), b"group /b - 0 -") == Err(Refusal::Syntax));
}

const PROCESSES: &str = "world 1
controllers
online 0
group / - 0 -
proc 7 /
proc 5 /
proc 6 /
";

#[test]
fn a_process_that_came_is_refused_at_its_line(rt: HostRuntime) {
    let mut reader = WorldReader::new();
    assert!(rt; take_lines(rt.alloc(), &mut reader, PROCESSES) == Ok(()));
    assert!(rt; reader.take_line(rt.alloc(), b"proc 7 /") == Err(Refusal::Syntax));
}
