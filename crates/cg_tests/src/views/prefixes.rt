//! Files of the trees after the commits of a history, and of what was read beside them.
use cg_desk::{Core, Request};
use cg_name::{FileName, Path, Refusal};
use cg_tree::Tree;
use std::alloc::Global;

/// What a file was: its text, or why there was none.
pub(crate) type Text = Result<Vec<u8>, Refusal>;

/// The files that are read.
pub(crate) static FILES: [(&str, FileName); 5] = [
    ("/a", FileName::Events),
    ("/s", FileName::MaxDescendants),
    ("/d/x", FileName::Procs),
    ("/h", FileName::Freeze),
    ("/", FileName::Procs),
];

// The text of each file in the tree.
fn texts_of(alloc: Global, tree: &Tree) -> Result<Vec<Text>, Refusal> {
    let mut texts = Vec::new(alloc);
    for (path, name) in &FILES {
        let path = Path::read(alloc, path)?;
        match cg_derive::file(alloc, tree, &path, *name) {
            Err(Refusal::Memory) => return Err(Refusal::Memory),
            text => texts.push(text)?,
        }
    }
    Ok(texts)
}

// Carries out what the record at that index asked for.
fn carry_out(alloc: Global, core: &Core, index: u32, tree: &mut Tree) -> Result<(), Refusal> {
    let record = core.history().get(index as usize).ok_or(Refusal::Disagree)?;
    if let Request::Do(command) = &record.request {
        command.check(tree)?;
        drop(command.apply(alloc, tree)?);
    }
    Ok(())
}

// Carries out the commands of a committed script.
fn carry_out_script(
    alloc: Global,
    core: &Core,
    number: u32,
    tree: &mut Tree,
) -> Result<(), Refusal> {
    for index in core.script(number) {
        carry_out(alloc, core, *index, tree)?;
    }
    Ok(())
}

/// The text of each file in the tree that the machine was opened on, then after its first commit, and so on to its last.
pub(crate) fn texts_by_commits(alloc: Global, core: &Core) -> Result<Vec<Vec<Text>>, Refusal> {
    let mut tree = Tree::from_world(alloc, core.opening())?;
    let mut texts = Vec::new(alloc);
    texts.push(texts_of(alloc, &tree)?)?;
    for number in 1..=core.commit_count() {
        carry_out_script(alloc, core, number, &mut tree)?;
        texts.push(texts_of(alloc, &tree)?)?;
    }
    Ok(texts)
}

/// A file, by its place in `FILES`, as it was read.
#[derive(Drop)]
pub(crate) struct Seen {
    pub(crate) file: usize,
    pub(crate) text: Text,
}

// Whether the file was so after these commits.
fn is_so(texts: &[Text], seen: &Seen) -> bool {
    match (texts.get(seen.file), &seen.text) {
        (Some(Ok(text)), Ok(other)) => text.as_slice() == other.as_slice(),
        (Some(Err(refusal)), Err(other)) => refusal == other,
        _ => false,
    }
}

/// Whether what was seen, in this order, is of the files after so many commits, and then never after fewer.
pub(crate) fn never_go_back(texts: &[Vec<Text>], seen: &[Seen]) -> bool {
    let mut commits = 0;
    for one in seen {
        let found = texts[commits..]
            .iter()
            .position(|texts| is_so(texts.as_slice(), one));
        match found {
            Some(further) => commits += further,
            None => return false,
        }
    }
    true
}

/// Whether what was seen is of the files after all commits.
pub(crate) fn are_last(texts: &[Vec<Text>], seen: &[Seen]) -> bool {
    match texts.last() {
        Some(texts) => seen.iter().all(|one| is_so(texts.as_slice(), one)),
        None => false,
    }
}
