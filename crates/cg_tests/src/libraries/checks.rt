//! Texts that are checked: what they are read as, and what is told of their faults.
use cg_check::{Kind, check_text};
use std::alloc::{AllocError, Global};
use std::fmt::Write;

// A text, and what is told of it.
type Row = (&'static str, &'static str);

const ROWS: [Row; 11] = [
    (
        "world 1\ncontrollers cpu\nonline 0-3\ngroup / cpu 0 -\ngroup /a - 0 -\nproc 1 /a\nend\n",
        "world 0",
    ),
    (
        "A begin\n# nothing\nA create \"/a b\"\r\n\nA commit",
        "schedule 0",
    ),
    ("create /a\nsave here\nback here\nabort\n", "script 0"),
    ("", "schedule 0"),
    // a bad line hides none that is behind it
    (
        "world 1\ncontrollers cpux\nonline 0-3\ngroup / - 2 -\nproc 0 /\nend\n",
        "world 3\n2:13: `cpux` is no controller: cpuset, cpu, io, memory, hugetlb, pids, rdma and misc may stand here\n4:11: `2` is no freeze value: 0 or 1 may stand here\n5:6: `0` is no PID: a number from 1 to 4194303 may stand here",
    ),
    (
        "world 1\ncontrollers\nonline 0\n",
        "world 1\n4:1: the line end is missing: group, proc and end may stand here",
    ),
    // each line is right, and the tree isn't sound
    (
        "world 1\ncontrollers cpu\nonline 0\ngroup / cpu 0 -\ngroup /a cpu 0 -\ngroup /b/c - 0 -\nproc 1 /a\nend\n",
        "world 2\n6:7: `/b/c` has no parent: the group above it has to stand in a line of its own\n7:8: `/a` passes controllers on, and so has no processes: a group other than the root has processes of its own only where it passes no controller on",
    ),
    (
        "A begin\nA migrate x /a\nA create \"/a\n",
        "schedule 2\n2:11: `x` is no PID: a number from 1 to 4194303 may stand here\n3:10: this quotation mark is not closed: another one may stand behind the word",
    ),
    (
        "create /a\nabort\nundo\n",
        "script 1\n3:1: `undo` stands behind abort: abort ends a script",
    ),
    (
        "create /a\ncommit\n",
        "script 1\n2:1: `commit` stands in no script: a script commits behind its last request, where that isn't abort",
    ),
    // a word that a terminal may not show
    (
        "freeze /a \u{1b}\n",
        "script 1\n1:11: this word is no freeze value: 0 or 1 may stand here",
    ),
];

// What the text is read as, how many faults it has, and those that are told of.
fn told(alloc: Global, text: &str) -> Result<String, AllocError> {
    let kind = Kind::of_text(alloc, text.as_bytes())?;
    let faults = check_text(alloc, kind, text.as_bytes())?;
    let mut told = String::new(alloc);
    let count = faults.count;
    write!(told, "{kind} {count}")?;
    for fault in faults.told.as_slice() {
        let line = fault.line;
        let column = fault.column;
        let wrong = fault.wrong;
        write!(told, "\n{line}:{column}: {wrong}")?;
    }
    Ok(told)
}

// A schedule of so many lines, each of them bad.
fn bad_lines(alloc: Global, lines: usize) -> Result<Vec<u8>, AllocError> {
    let mut text = Vec::new(alloc);
    for _ in 0..lines {
        text.extend_from_slice(b"A undo it\n")?;
    }
    Ok(text)
}

// How many faults of so many bad lines there are, and of how many is told.
fn counted(alloc: Global, lines: usize) -> Result<(u64, usize), AllocError> {
    let text = bad_lines(alloc, lines)?;
    let faults = check_text(alloc, Kind::Schedule, text.as_slice())?;
    Ok((faults.count, faults.told.len()))
}

#[test]
fn texts_are_told_of(rt: HostRuntime) {
    for (text, wanted) in &ROWS {
        match told(rt.alloc(), text) {
            Ok(told) => assert_eq!(rt; told.as_str(), *wanted),
            Err(_) => assert!(rt; false, "no memory"),
        }
    }
}

#[test]
fn twenty_faults_are_told_of_and_all_are_counted(rt: HostRuntime) {
    assert_eq!(rt; counted(rt.alloc(), 20), Ok((20, 20)));
    assert_eq!(rt; counted(rt.alloc(), 21), Ok((21, 20)));
}

#[test]
fn kinds_have_words(rt: HostRuntime) {
    for kind in [Kind::World, Kind::Schedule, Kind::Script] {
        assert_eq!(rt; Kind::read(kind.word()), Some(kind));
    }
    assert_eq!(rt; Kind::read("history"), None);
}
