//! The tree that commands change: made of a world, given back as one, and edited.
use crate::opening::{LARGER, tree};
use cg_boxed::{BoxedCpus, CompactSettings};
use cg_cpus::CpuSet;
use cg_inverse::Change;
use cg_name::{Path, Refusal};
use cg_text::write_procs;
use cg_tree::{NewValue, Tree};
use cg_world_text::WriteWorld;
use std::alloc::{AllocError, Global};

// Appends the text of the world that the tree of a world gives back.
fn write_back(alloc: Global, out: &mut Vec<u8>) -> Result<(), Refusal> {
    tree(alloc, LARGER)?.to_world(alloc)?.write(out)?;
    Ok(())
}

#[test]
fn a_tree_gives_its_world_back(rt: HostRuntime) {
    let mut out = Vec::new(rt.alloc());
    assert!(rt; write_back(rt.alloc(), &mut out) == Ok(()));
    assert!(rt; out.as_slice() == LARGER.as_bytes());
}

// Makes the group at the path that a word spells, where its parent is there.
fn make_group(alloc: Global, tree: &mut Tree, word: &str) -> Result<(), Refusal> {
    let path = Path::read(alloc, word)?;
    if tree.parent_settings(&path).is_none() {
        return Err(Refusal::NoGroup);
    }
    tree.make_group(alloc, &path, CompactSettings::fresh())?;
    Ok(())
}

// Moves the process into the group at the path that a word spells, which has an entry.
fn move_process(alloc: Global, tree: &mut Tree, pid: u32, word: &str) -> Result<(), Refusal> {
    let path = Path::read(alloc, word)?;
    if !tree.has_entry(&path) {
        return Err(Refusal::NoGroup);
    }
    tree.put_place(pid, &path);
    Ok(())
}

// Has the group at the path that a word spells ask for the first CPU.
fn ask_for_a_cpu(alloc: Global, tree: &mut Tree, word: &str) -> Result<(), Refusal> {
    let path = Path::read(alloc, word)?;
    let value = BoxedCpus::new(alloc, CpuSet::read("0")?)?;
    let near = tree.near();
    tree.put_value(&path, near, NewValue::Cpus(value));
    Ok(())
}

// Three groups, one in another, which asks for a CPU, and a process in the lower one.
fn edit_tree(alloc: Global, tree: &mut Tree) -> Result<(), Refusal> {
    make_group(alloc, tree, "/a")?;
    make_group(alloc, tree, "/a/b")?;
    make_group(alloc, tree, "/b")?;
    ask_for_a_cpu(alloc, tree, "/a")?;
    move_process(alloc, tree, 11, "/a/b")
}

// Appends the path of the group of a process, if there is one with this PID, and a newline.
fn write_location(
    alloc: Global,
    tree: &Tree,
    pid: u32,
    out: &mut Vec<u8>,
) -> Result<(), AllocError> {
    if let Some(path) = tree.location(alloc, pid)? {
        path.write(out)?;
    }
    out.push(b'\n')?;
    Ok(())
}

// Appends the paths of the children of the group at the path that ask for CPUs, and of all, each list with a colon behind it.
fn write_children(
    alloc: Global,
    tree: &Tree,
    path: &Path,
    out: &mut Vec<u8>,
) -> Result<(), AllocError> {
    for (child, _) in tree.children_with_cpus(alloc, path)? {
        child.write(out)?;
    }
    out.push(b':')?;
    for (child, _) in tree.children(alloc, path)? {
        child.write(out)?;
    }
    out.push(b':')?;
    Ok(())
}

// Appends the paths of all groups.
fn write_groups(alloc: Global, tree: &Tree, out: &mut Vec<u8>) -> Result<(), AllocError> {
    for (path, _) in tree.present_groups(alloc)? {
        path.write(out)?;
    }
    Ok(())
}

// Appends both, a `3` where three groups are below that one, a `c` where it has a child, and a newline.
fn write_below(
    alloc: Global,
    tree: &Tree,
    path: &Path,
    out: &mut Vec<u8>,
) -> Result<(), AllocError> {
    write_children(alloc, tree, path, out)?;
    write_groups(alloc, tree, out)?;
    if tree.descendants(path, 0) == 3 {
        out.push(b'3')?;
    }
    if tree.has_children(path) {
        out.push(b'c')?;
    }
    out.push(b'\n')?;
    Ok(())
}

// Appends the PIDs, one on a line.
fn write_pids(tree: &Tree, out: &mut Vec<u8>) -> Result<(), AllocError> {
    for pid in tree.pids() {
        write_procs(&[pid], out)?;
    }
    Ok(())
}

// Appends the PIDs of the root's own processes, and a plus sign where it has some and is populated.
fn write_own(alloc: Global, tree: &Tree, out: &mut Vec<u8>) -> Result<(), AllocError> {
    let root = Path::root(alloc);
    write_procs(tree.processes(alloc, &root)?.as_slice(), out)?;
    if tree.has_processes(&root) && tree.is_populated(&root) {
        out.extend_from_slice(b"+\n")?;
    }
    Ok(())
}

// Appends all PIDs, each with the path of its group on a line of its own.
fn write_places(tree: &Tree, out: &mut Vec<u8>) -> Result<(), AllocError> {
    for (pid, path) in tree.places() {
        write_procs(&[pid], out)?;
        path.write(out)?;
        out.push(b'\n')?;
    }
    Ok(())
}

// Appends where two processes are, and one that isn't there.
fn write_locations(alloc: Global, tree: &Tree, out: &mut Vec<u8>) -> Result<(), AllocError> {
    write_location(alloc, tree, 10, out)?;
    write_location(alloc, tree, 11, out)?;
    write_location(alloc, tree, 99, out)
}

// Appends what the tree shows: that, its groups, its PIDs, the root's processes and the places of all.
fn write_tree(alloc: Global, tree: &Tree, out: &mut Vec<u8>) -> Result<(), AllocError> {
    write_locations(alloc, tree, out)?;
    write_below(alloc, tree, &Path::root(alloc), out)?;
    write_pids(tree, out)?;
    write_own(alloc, tree, out)?;
    write_places(tree, out)
}

// Appends that of the tree, and of the tree once it was edited.
fn write_edited(alloc: Global, tree: &mut Tree, out: &mut Vec<u8>) -> Result<(), Refusal> {
    write_tree(alloc, tree, out)?;
    edit_tree(alloc, tree)?;
    write_tree(alloc, tree, out)?;
    Ok(())
}

// Appends those of the tree of that world.
fn write_trees(alloc: Global, out: &mut Vec<u8>) -> Result<(), Refusal> {
    let mut tree = tree(alloc, LARGER)?;
    write_edited(alloc, &mut tree, out)
}

const SHOWN: &str = "/
/

::/
10
11
10
11
+
10
/
11
/
/
/a/b

/a:/a/b://a/a/b/b3c
10
11
10
+
10
/
11
/a/b
";

#[test]
fn a_tree_is_edited(rt: HostRuntime) {
    let mut out = Vec::new(rt.alloc());
    assert!(rt; write_trees(rt.alloc(), &mut out) == Ok(()));
    assert!(rt; out.as_slice() == SHOWN.as_bytes());
}

// Has the root ask for these CPUs by a change, and tells whether it does, and no longer when the change went back.
fn makes_change(alloc: Global, cpus: &str) -> Result<(bool, bool), Refusal> {
    let mut tree = tree(alloc, LARGER)?;
    let left = BoxedCpus::new(alloc, CpuSet::read(cpus)?)?;
    let change = Change::of_cpus(
        alloc,
        tree.near(),
        Path::root(alloc),
        BoxedCpus::empty(),
        left,
    )?;
    change.put_left(alloc, &mut tree)?;
    let asks = change.fits(&tree);
    change.put_before(&mut tree);
    let asks_still = match tree.settings(&Path::root(alloc)) {
        Some(settings) => !settings.cpus().is_empty(),
        None => true,
    };
    Ok((asks, asks_still))
}

#[test]
fn a_change_is_made(rt: HostRuntime) {
    assert!(rt; makes_change(rt.alloc(), "0") == Ok((true, false)));
    assert!(rt; makes_change(rt.alloc(), "63-64") == Ok((true, false)));
}
