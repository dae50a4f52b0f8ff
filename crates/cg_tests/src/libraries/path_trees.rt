//! Trees of paths, as a caller fills and empties them.
use cg_name::{Path, Refusal};
use cg_path_tree::{NodeKey, PathTree};
use std::alloc::{AllocError, Global};

// Puts a node with that value at the path.
fn put(
    alloc: Global,
    tree: &mut PathTree<u32>,
    word: &str,
    value: u32,
) -> Result<NodeKey, Refusal> {
    let path = Path::read(alloc, word)?;
    if tree.find(&path).is_some() {
        return Err(Refusal::Exists);
    }
    if !tree.has_parent(&path) {
        return Err(Refusal::NoGroup);
    }
    match tree.add(alloc, &path, value) {
        Ok(key) => Ok(key),
        Err(_) => Err(Refusal::Memory),
    }
}

// Takes the node at the path out.
fn take(alloc: Global, tree: &mut PathTree<u32>, word: &str) -> Result<u32, Refusal> {
    let path = Path::read(alloc, word)?;
    let Some(key) = tree.find(&path) else {
        return Err(Refusal::NoGroup);
    };
    if tree.child_count(key) > 0 {
        return Err(Refusal::HasChildren);
    }
    Ok(tree.remove(key))
}

// The value at the path, counted up by one, if there is a node.
fn count_up(alloc: Global, tree: &mut PathTree<u32>, word: &str) -> Result<Option<u32>, Refusal> {
    let path = Path::read(alloc, word)?;
    let Some(key) = tree.find(&path) else {
        return Ok(None);
    };
    let value = tree.get_mut(key);
    *value = value.wrapping_add(1);
    Ok(Some(*value))
}

// Appends the paths from the node at that path up to the root's, each by its node.
fn write_upward(
    alloc: Global,
    tree: &PathTree<u32>,
    word: &str,
    out: &mut Vec<u8>,
) -> Result<(), Refusal> {
    let path = Path::read(alloc, word)?;
    let mut at = tree.find(&path);
    for _ in 0..4 {
        let Some(key) = at else {
            return Ok(());
        };
        if !tree.is_live_key(key) {
            return Err(Refusal::NoGroup);
        }
        tree.path(key).write(out)?;
        out.push(b' ')?;
        at = tree.parent(key);
    }
    Ok(())
}

// Appends the paths of these nodes.
fn write_paths(tree: &PathTree<u32>, keys: &[NodeKey], out: &mut Vec<u8>) -> Result<(), Refusal> {
    for key in keys {
        if !tree.is_live_key(*key) {
            return Err(Refusal::NoGroup);
        }
        tree.path(*key).write(out)?;
        out.push(b' ')?;
    }
    Ok(())
}

// Appends the paths of all nodes, in order.
fn write_all(alloc: Global, tree: &PathTree<u32>, out: &mut Vec<u8>) -> Result<(), Refusal> {
    let keys = tree.sorted(alloc)?;
    write_paths(tree, &keys, out)
}

// Appends the paths of the nodes right below that path, in order.
fn write_children(
    alloc: Global,
    tree: &PathTree<u32>,
    word: &str,
    out: &mut Vec<u8>,
) -> Result<(), Refusal> {
    let path = Path::read(alloc, word)?;
    let Some(key) = tree.find(&path) else {
        return Err(Refusal::NoGroup);
    };
    if tree.children(key).len() != tree.child_count(key) as usize {
        return Err(Refusal::Lost);
    }
    let keys = tree.sort(alloc, tree.children(key))?;
    write_paths(tree, &keys, out)
}

// How deep the deepest node on the path is.
fn deepest(alloc: Global, tree: &PathTree<u32>, word: &str) -> Result<Option<u32>, Refusal> {
    let path = Path::read(alloc, word)?;
    match tree.deepest(&path) {
        Some((_, depth)) => Ok(Some(depth)),
        None => Ok(None),
    }
}

// Puts nodes at these paths, with their places among them.
fn fill(alloc: Global, tree: &mut PathTree<u32>) -> Result<(), Refusal> {
    let mut value = 0;
    for word in ["/", "/a", "/a/b", "/a/b/c", "/é"] {
        put(alloc, tree, word, value)?;
        value = u32::wrapping_add(value, 1);
    }
    Ok(())
}

#[test]
fn nodes_are_found_by_their_paths(rt: HostRuntime) {
    let mut tree = PathTree::new(rt.alloc());
    assert!(rt; deepest(rt.alloc(), &tree, "/a") == Ok(None));
    assert!(rt; fill(rt.alloc(), &mut tree) == Ok(()) && tree.len() == 5);
    assert!(rt; count_up(rt.alloc(), &mut tree, "/é") == Ok(Some(5)));
    assert!(rt; count_up(rt.alloc(), &mut tree, "/é") == Ok(Some(6)));
    assert!(rt; count_up(rt.alloc(), &mut tree, "/a/é") == Ok(None));
    assert!(rt; deepest(rt.alloc(), &tree, "/a/b/x/y/z") == Ok(Some(2)));
    assert!(rt; deepest(rt.alloc(), &tree, "/a/b/c") == Ok(Some(3)));
    assert!(rt; deepest(rt.alloc(), &tree, "/ab") == Ok(Some(0)));
    assert!(rt; put(rt.alloc(), &mut tree, "/x/y", 7) == Err(Refusal::NoGroup));
}

#[test]
fn a_removal_leaves_the_others(rt: HostRuntime) {
    let mut tree = PathTree::new(rt.alloc());
    let mut out = Vec::new(rt.alloc());
    assert!(rt; fill(rt.alloc(), &mut tree) == Ok(()));
    assert!(rt; take(rt.alloc(), &mut tree, "/a/b") == Err(Refusal::HasChildren));
    assert!(rt; take(rt.alloc(), &mut tree, "/a/b/c") == Ok(3));
    assert!(rt; take(rt.alloc(), &mut tree, "/a/b") == Ok(2));
    assert!(rt; put(rt.alloc(), &mut tree, "/é/b", 8).is_ok() && tree.len() == 4);
    assert!(rt; count_up(rt.alloc(), &mut tree, "/é") == Ok(Some(5)));
    assert!(rt; write_upward(rt.alloc(), &tree, "/é/b", &mut out) == Ok(()));
    assert!(rt; write_upward(rt.alloc(), &tree, "/a", &mut out) == Ok(()));
    assert!(rt; out.as_slice() == "\"/é/b\" \"/é\" / /a / ".as_bytes());
}

// Looks for the path as a caller does that visits it first: the value of its node, if it has one, and of its parent's.
fn visit(
    alloc: Global,
    tree: &mut PathTree<u32>,
    word: &str,
) -> Result<(Option<u32>, Option<u32>), Refusal> {
    let path = Path::read(alloc, word)?;
    let visited = tree.visit(&path);
    if tree.find(&path) != visited {
        return Err(Refusal::Lost);
    }
    Ok((
        value_of(tree, visited),
        value_of(tree, tree.find_parent(&path)),
    ))
}

// The value of the node with that key, if it is one's.
fn value_of(tree: &PathTree<u32>, key: Option<NodeKey>) -> Option<u32> {
    let key = key?;
    if !tree.is_live_key(key) {
        return None;
    }
    Some(*tree.get(key))
}

#[test]
fn a_visit_is_kept_up_to_date(rt: HostRuntime) {
    let mut tree = PathTree::new(rt.alloc());
    assert!(rt; visit(rt.alloc(), &mut tree, "/") == Ok((None, None)));
    assert!(rt; fill(rt.alloc(), &mut tree) == Ok(()));
    assert!(rt; visit(rt.alloc(), &mut tree, "/") == Ok((Some(0), None)));
    assert!(rt; visit(rt.alloc(), &mut tree, "/a/x") == Ok((None, Some(1))));
    assert!(rt; put(rt.alloc(), &mut tree, "/a/x", 9).is_ok());
    assert!(rt; visit(rt.alloc(), &mut tree, "/a/x") == Ok((Some(9), Some(1))));
    assert!(rt; take(rt.alloc(), &mut tree, "/a/x") == Ok(9));
    assert!(rt; visit(rt.alloc(), &mut tree, "/a/x") == Ok((None, Some(1))));
    // Here the parent of the path that was visited goes, and comes again.
    assert!(rt; visit(rt.alloc(), &mut tree, "/é/x") == Ok((None, Some(4))));
    assert!(rt; take(rt.alloc(), &mut tree, "/é") == Ok(4));
    assert!(rt; visit(rt.alloc(), &mut tree, "/é/x") == Ok((None, None)));
    assert!(rt; put(rt.alloc(), &mut tree, "/é", 7).is_ok());
    assert!(rt; visit(rt.alloc(), &mut tree, "/é/x") == Ok((None, Some(7))));
    tree.clear();
    assert!(rt; visit(rt.alloc(), &mut tree, "/é/x") == Ok((None, None)));
}

#[test]
fn nodes_are_listed_in_order(rt: HostRuntime) {
    let mut tree = PathTree::new(rt.alloc());
    let mut out = Vec::new(rt.alloc());
    assert!(rt; fill(rt.alloc(), &mut tree) == Ok(()));
    assert!(rt; put(rt.alloc(), &mut tree, "/a/é", 5).is_ok());
    assert!(rt; put(rt.alloc(), &mut tree, "/a/a-", 6).is_ok());
    assert!(rt; put(rt.alloc(), &mut tree, "/a/a", 7).is_ok());
    assert!(rt; write_all(rt.alloc(), &tree, &mut out) == Ok(()));
    assert!(rt; write_children(rt.alloc(), &tree, "/a", &mut out) == Ok(()));
    assert!(rt; take(rt.alloc(), &mut tree, "/a/é") == Ok(5));
    assert!(rt; write_children(rt.alloc(), &tree, "/a", &mut out) == Ok(()));
    let all = "/ /a /a/a /a/a- /a/b /a/b/c \"/a/é\" \"/é\" ";
    let below = "/a/a /a/a- /a/b \"/a/é\" /a/a /a/a- /a/b ";
    assert!(rt; out.starts_with(all.as_bytes()));
    assert!(rt; out.ends_with(below.as_bytes()) && out.len() == all.len() + below.len());
}
