//! The interface files of groups, by their texts, and the processes of a group.
use crate::opening::tree;
use cg_derive::{file, procs};
use cg_name::{FileName, Path, Refusal};
use cg_text::{write_procs, write_quoted};
use cg_tree::Tree;
use std::alloc::{AllocError, Global};

// The group `/a` has the `cpuset` controller and `/a/b` hasn't.
const WORLD: &str = "world 2
controllers cpuset cpu memory
online 0-7
group / cpuset,memory 0 - max max
group /a memory 1 0-3 5 max
group /a/b - 0 - max 2
proc 10 /
proc 11 /a/b
end
";

const FILES: [FileName; 9] = [
    FileName::Procs,
    FileName::Controllers,
    FileName::SubtreeControl,
    FileName::Events,
    FileName::Freeze,
    FileName::Cpus,
    FileName::EffectiveCpus,
    FileName::MaxDescendants,
    FileName::MaxDepth,
];

// Appends the text of a file of the group at the path, between quotation marks, or the word of why there is none.
fn write_file(
    alloc: Global,
    tree: &Tree,
    path: &Path,
    name: FileName,
    out: &mut Vec<u8>,
) -> Result<(), AllocError> {
    match file(alloc, tree, path, name) {
        Ok(text) => write_quoted(text.as_slice(), out)?,
        Err(refusal) => out.extend_from_slice(refusal.word().as_bytes())?,
    }
    out.push(b'\n')?;
    Ok(())
}

// Appends those of all files of the group.
fn write_files(
    alloc: Global,
    tree: &Tree,
    path: &Path,
    out: &mut Vec<u8>,
) -> Result<(), AllocError> {
    for name in &FILES {
        write_file(alloc, tree, path, *name, out)?;
    }
    Ok(())
}

const SHOWN: &str = r#""10\n"
"cpuset cpu memory\n"
"cpuset memory\n"
nofile
nofile
nofile
"0-7\n"
"max\n"
"max\n"
""
"cpuset memory\n"
"memory\n"
"populated 1\nfrozen 1\n"
"1\n"
"0-3\n"
"0-3\n"
"5\n"
"max\n"
"11\n"
"memory\n"
""
"populated 1\nfrozen 1\n"
"0\n"
nofile
nofile
"max\n"
"2\n"
nogroup
nogroup
nogroup
nogroup
nogroup
nogroup
nogroup
nogroup
nogroup
"#;

// Appends those of the group at the path that a word spells.
fn write_group(alloc: Global, tree: &Tree, word: &str, out: &mut Vec<u8>) -> Result<(), Refusal> {
    let path = Path::read(alloc, word)?;
    Ok(write_files(alloc, tree, &path, out)?)
}

// Appends those of three groups, and of a path at which there is none.
fn write_groups(alloc: Global, tree: &Tree, out: &mut Vec<u8>) -> Result<(), Refusal> {
    write_group(alloc, tree, "/", out)?;
    write_group(alloc, tree, "/a", out)?;
    write_group(alloc, tree, "/a/b", out)?;
    write_group(alloc, tree, "/q", out)
}

// Appends those of all groups of the tree.
fn write_world(alloc: Global, out: &mut Vec<u8>) -> Result<(), Refusal> {
    let tree = tree(alloc, WORLD)?;
    write_groups(alloc, &tree, out)
}

#[test]
fn groups_have_their_files(rt: HostRuntime) {
    let mut out = Vec::new(rt.alloc());
    assert!(rt; write_world(rt.alloc(), &mut out) == Ok(()));
    assert!(rt; out.as_slice() == SHOWN.as_bytes());
}

// Appends the PIDs of the group at the path.
fn write_pids(alloc: Global, tree: &Tree, path: &Path, out: &mut Vec<u8>) -> Result<(), Refusal> {
    let pids = procs(alloc, tree, path)?;
    write_procs(pids.as_slice(), out)?;
    Ok(())
}

// Appends those of the group at the path that a word spells.
fn write_own(alloc: Global, tree: &Tree, word: &str, out: &mut Vec<u8>) -> Result<(), Refusal> {
    let path = Path::read(alloc, word)?;
    write_pids(alloc, tree, &path, out)
}

// Appends those of this group of the tree.
fn write_own_of(alloc: Global, word: &str, out: &mut Vec<u8>) -> Result<(), Refusal> {
    let tree = tree(alloc, WORLD)?;
    write_own(alloc, &tree, word, out)
}

#[test]
fn groups_have_their_processes(rt: HostRuntime) {
    let mut out = Vec::new(rt.alloc());
    assert!(rt; write_own_of(rt.alloc(), "/", &mut out) == Ok(()));
    assert!(rt; write_own_of(rt.alloc(), "/q", &mut out) == Err(Refusal::NoGroup));
    assert!(rt; out.as_slice() == b"10\n".as_slice());
}
