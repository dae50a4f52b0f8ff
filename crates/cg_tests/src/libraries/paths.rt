//! Paths that are made from others.
use cg_name::{Name, Path, Refusal};
use std::alloc::Global;

// A copy of the name that a text spells.
fn copied_name(alloc: Global, text: &str) -> Result<Name, Refusal> {
    Ok(Name::read(alloc, text)?.copy(alloc)?)
}

// The child with this name of the path that a word spells.
fn child_of(alloc: Global, word: &str, name: &str) -> Result<Path, Refusal> {
    let path = Path::read(alloc, word)?;
    path.child(alloc, &copied_name(alloc, name)?)
}

// Appends the word of a path's copy.
fn write_copy(alloc: Global, path: &Path, out: &mut Vec<u8>) -> Result<(), Refusal> {
    path.copy(alloc)?.write(out)?;
    Ok(())
}

// Appends the word of a path's parent, if it has one.
fn write_parent(alloc: Global, path: &Path, out: &mut Vec<u8>) -> Result<(), Refusal> {
    if let Some(parent) = path.parent(alloc)? {
        parent.write(out)?;
    }
    Ok(())
}

#[test]
fn paths_have_words_and_relatives(rt: HostRuntime) {
    let child = child_of(rt.alloc(), "\"/a b\"", "c").expect(&rt, "a path");
    let mut out = Vec::new(rt.alloc());
    assert!(rt; write_copy(rt.alloc(), &child, &mut out) == Ok(()));
    assert!(rt; write_parent(rt.alloc(), &child, &mut out) == Ok(()));
    assert!(rt; out.as_slice() == "\"/a b/c\"\"/a b\"".as_bytes());
}
