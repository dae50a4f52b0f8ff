//! What copies of commands are answered before they change the tree: each refusal of each command, and of several that
//! apply at once the one that comes first. And what accepted commands give, one after another, each undone.
use crate::libraries::asked::{Asked, command};
use crate::opening::tree;
use cg_command::{Command, Outcome};
use cg_name::{Controller, FileName, Refusal};
use cg_tree::Tree;
use std::alloc::{AllocError, Global};

// `/a` is full, `/a/b/c` is as deep below `/a/b` as may be, and `/d/e` below `/d`. `/d` and `/p` have processes.
const WORLD: &str = "world 2
controllers cpuset cpu memory
online 0-7
group / cpuset,cpu,memory 0 - max max
group /a cpu,memory 0 - 2 max
group /a/b cpu,memory 0 - max 1
group /a/b/c - 0 - max max
group /d - 0 - max 1
group /d/e - 0 - max max
group /p - 0 - max max
proc 10 /
proc 11 /p
proc 12 /d
end
";

// What a copy of the command is answered.
fn check_copy(alloc: Global, tree: &Tree, command: &Command) -> Result<(), Refusal> {
    command.copy(alloc)?.check(tree)
}

// What a copy of the command at the path that a word spells is answered.
fn answer(alloc: Global, tree: &Tree, asked: Asked, word: &str) -> Result<(), Refusal> {
    check_copy(alloc, tree, &command(alloc, asked, word)?)
}

static ACCEPTED: [(Asked, &str); 15] = [
    (Asked::Create, "/q"),
    (Asked::Create, "/d/x"),
    (Asked::Remove, "/a/b/c"),
    (Asked::Migrate(10), "/"),
    (Asked::Migrate(11), "/d/e"),
    (Asked::Subtree("+io -io"), "/a"),
    (Asked::Subtree("+cpuset"), "/a"),
    (Asked::Freeze, "/a"),
    (Asked::Cpus("0-1"), "/a"),
    (Asked::Cpus("63-64"), "/a"),
    (Asked::Show(FileName::Procs), "/"),
    (Asked::Online, "/"),
    (Asked::MaxDescendants, "/"),
    (Asked::MaxDepth, "/a"),
    (Asked::Subtree("-cpu"), "/p"),
];

static REFUSED: [(Asked, &str, Refusal); 36] = [
    (Asked::Create, "/", Refusal::Exists),
    (Asked::Create, "/q/x", Refusal::NoGroup),
    (Asked::Create, "/d", Refusal::Exists),
    (Asked::Create, "/a/x", Refusal::TooMany),
    (Asked::Create, "/d/e/x", Refusal::TooDeep),
    // These apply with a group above that is full.
    (Asked::Create, "/a/x/y", Refusal::NoGroup),
    (Asked::Create, "/a/b", Refusal::Exists),
    // This would be too deep as well.
    (Asked::Create, "/a/b/c/x", Refusal::TooMany),
    (Asked::Remove, "/", Refusal::IsRoot),
    (Asked::Remove, "/q", Refusal::NoGroup),
    (Asked::Remove, "/a", Refusal::HasChildren),
    (Asked::Remove, "/p", Refusal::HasProcesses),
    // It has processes as well.
    (Asked::Remove, "/d", Refusal::HasChildren),
    (Asked::Migrate(99), "/p", Refusal::NoProcess),
    (Asked::Migrate(10), "/q", Refusal::NoGroup),
    (Asked::Migrate(10), "/a", Refusal::Controlled),
    // The group is absent as well, or controlled.
    (Asked::Migrate(99), "/q", Refusal::NoProcess),
    (Asked::Migrate(99), "/a", Refusal::NoProcess),
    (Asked::Subtree("+io"), "/q", Refusal::NoGroup),
    (
        Asked::Subtree("+io"),
        "/",
        Refusal::Unavailable(Controller::Io),
    ),
    (
        Asked::Subtree("-cpu"),
        "/a",
        Refusal::InUse(Controller::Cpu),
    ),
    (Asked::Subtree("+cpu"), "/p", Refusal::HasProcesses),
    // Of several controllers the first in the kernel's order, whichever stands first in the text.
    (
        Asked::Subtree("+misc +io"),
        "/a",
        Refusal::Unavailable(Controller::Io),
    ),
    (
        Asked::Subtree("-memory -cpu"),
        "/a",
        Refusal::InUse(Controller::Cpu),
    ),
    // Another is in use as well, or the group has processes.
    (
        Asked::Subtree("-cpu +io"),
        "/a",
        Refusal::Unavailable(Controller::Io),
    ),
    (
        Asked::Subtree("+cpu +io"),
        "/p",
        Refusal::Unavailable(Controller::Io),
    ),
    (Asked::Freeze, "/q", Refusal::NoGroup),
    (Asked::Freeze, "/", Refusal::NoFile),
    (Asked::Cpus("0-1"), "/q", Refusal::NoGroup),
    (Asked::Cpus("0-1"), "/", Refusal::NoFile),
    (Asked::Cpus("0-1"), "/a/b", Refusal::NoFile),
    (Asked::Show(FileName::Events), "/q", Refusal::NoGroup),
    (Asked::Show(FileName::Events), "/", Refusal::NoFile),
    (Asked::Show(FileName::Cpus), "/a/b", Refusal::NoFile),
    (Asked::MaxDescendants, "/q", Refusal::NoGroup),
    (Asked::MaxDepth, "/q", Refusal::NoGroup),
];

// The first row whose command is not accepted.
fn first_not_accepted(alloc: Global, tree: &Tree, rows: &[(Asked, &str)]) -> Option<usize> {
    for (row, (asked, word)) in rows.iter().enumerate() {
        if answer(alloc, tree, *asked, word) != Ok(()) {
            return Some(row);
        }
    }
    None
}

// The first row whose command is not refused so.
fn first_not_refused(alloc: Global, tree: &Tree, rows: &[(Asked, &str, Refusal)]) -> Option<usize> {
    for (row, (asked, word, refusal)) in rows.iter().enumerate() {
        if answer(alloc, tree, *asked, word) != Err(*refusal) {
            return Some(row);
        }
    }
    None
}

// The first row of those that are accepted which is not.
fn wrongly_refused(alloc: Global) -> Result<Option<usize>, Refusal> {
    let tree = tree(alloc, WORLD)?;
    Ok(first_not_accepted(alloc, &tree, &ACCEPTED))
}

// The first row of those that are refused which is not refused so.
fn wrongly_accepted(alloc: Global) -> Result<Option<usize>, Refusal> {
    let tree = tree(alloc, WORLD)?;
    Ok(first_not_refused(alloc, &tree, &REFUSED))
}

#[test]
fn commands_are_checked(rt: HostRuntime) {
    assert_eq!(rt; wrongly_refused(rt.alloc()), Ok(None));
    assert_eq!(rt; wrongly_accepted(rt.alloc()), Ok(None));
}

// Appends what a command gave.
fn write_outcome(outcome: &Outcome, out: &mut Vec<u8>) -> Result<(), AllocError> {
    match outcome {
        Outcome::Done => out.push(b'.')?,
        Outcome::Text(text) => out.extend_from_slice(text.as_slice())?,
    }
    Ok(())
}

// Carries the command out on the tree, undoes it, and appends what it gave.
fn carry_out(
    alloc: Global,
    tree: &mut Tree,
    command: &Command,
    out: &mut Vec<u8>,
) -> Result<(), Refusal> {
    command.check(tree)?;
    let (outcome, inverse) = command.apply(alloc, tree)?;
    inverse.undo(tree);
    write_outcome(&outcome, out)?;
    Ok(())
}

// The same of the command at the path that a word spells.
fn carry_out_at(
    alloc: Global,
    tree: &mut Tree,
    asked: Asked,
    word: &str,
    out: &mut Vec<u8>,
) -> Result<(), Refusal> {
    carry_out(alloc, tree, &command(alloc, asked, word)?, out)
}

// Carries the commands of all rows out, one after another.
fn carry_all_out(
    alloc: Global,
    tree: &mut Tree,
    rows: &[(Asked, &str)],
    out: &mut Vec<u8>,
) -> Result<(), Refusal> {
    for (asked, word) in rows {
        carry_out_at(alloc, tree, *asked, word, out)?;
    }
    Ok(())
}

// Carries those out on the tree that are accepted.
fn carry_accepted_out(alloc: Global, out: &mut Vec<u8>) -> Result<(), Refusal> {
    let mut tree = tree(alloc, WORLD)?;
    carry_all_out(alloc, &mut tree, &ACCEPTED, out)
}

#[test]
fn commands_are_carried_out_and_undone(rt: HostRuntime) {
    let mut out = Vec::new(rt.alloc());
    assert!(rt; carry_accepted_out(rt.alloc(), &mut out) == Ok(()));
    assert!(rt; out.as_slice() == b"..........10\n....".as_slice());
}
