//! How many commits Viewers see.
use crate::views::publishing::{ask, machine, publish, publisher, refusal, text};
use cg_name::{FileName, Refusal};
use cg_view::{Publisher, Viewer};
use std::alloc::Global;
use std::sync::Wait;

// What a machine is asked for before it is published, and how many commits are seen then.
static ROWS: [(&[&str], usize); 8] = [
    (&[], 0),
    (&["A begin", "A create /a", "A create /b", "A commit"], 1),
    (&["A begin", "A commit"], 2),
    (&["A begin", "A create /c", "A abort"], 2),
    (&["A begin", "A create /c", "A undo", "A commit"], 3),
    (&["B begin", "B create /z"], 3),
    (
        &["A begin", "A create /d", "A commit", "A begin", "A commit"],
        5,
    ),
    (&["B commit"], 6),
];

// The commits that the Viewer has seen, before it reads a file and behind that.
fn counts(alloc: Global, viewer: &mut Viewer) -> Result<(usize, usize), Refusal> {
    let before = viewer.commits();
    text(alloc, viewer, "/", FileName::Procs)?;
    Ok((before, viewer.commits()))
}

// The first row behind which it isn't so, or whose commits are seen without a read.
fn first_wrong(
    rt: &impl Wait,
    alloc: Global,
    publisher: &mut Publisher,
) -> Result<Option<usize>, Refusal> {
    let mut core = machine(alloc)?;
    let mut viewer = publisher.viewer()?;
    let mut last = 0;
    for (row, (lines, commits)) in ROWS.iter().enumerate() {
        ask(alloc, &mut core, lines)?;
        viewer.learn(publisher.publish(rt, alloc, &core)?);
        if counts(alloc, &mut viewer)? != (last, *commits) {
            return Ok(Some(row));
        }
        last = *commits;
    }
    Ok(None)
}

#[test]
fn a_viewer_tells_of_how_many_commits_it_saw(rt: HostRuntime) {
    let mut publisher = publisher(rt.alloc()).expect(&rt, "memory");
    let answer = first_wrong(&rt, rt.alloc(), &mut publisher);
    publisher.end(&rt);
    assert!(rt; answer == Ok(None));
}

// Two Viewers, of which one looked behind the first commit, and the other where no group is behind the second.
fn two_viewers(
    rt: &impl Wait,
    alloc: Global,
    publisher: &mut Publisher,
) -> Result<(Viewer, Viewer), Refusal> {
    let mut core = machine(alloc)?;
    let mut first = publisher.viewer()?;
    let mut second = publisher.viewer()?;
    first.learn(publish(rt, alloc, publisher, &mut core, "A create /a")?);
    text(alloc, &mut first, "/a", FileName::Procs)?;
    second.learn(publish(rt, alloc, publisher, &mut core, "A remove /a")?);
    match refusal(alloc, &mut second, "/a") {
        Some(Refusal::NoGroup) => Ok((first, second)),
        _ => Err(Refusal::Disagree),
    }
}

// How many commits both tell, and why neither reads any more.
fn counts_of(alloc: Global, viewers: (Viewer, Viewer)) -> (usize, usize, [Option<Refusal>; 2]) {
    let (mut first, mut second) = viewers;
    let refusals = [
        refusal(alloc, &mut first, "/"),
        refusal(alloc, &mut second, "/"),
    ];
    (first.commits(), second.commits(), refusals)
}

#[test]
fn what_is_not_read_is_not_counted(rt: HostRuntime) {
    let mut publisher = publisher(rt.alloc()).expect(&rt, "memory");
    let viewers = two_viewers(&rt, rt.alloc(), &mut publisher);
    publisher.end(&rt);
    let answer = viewers.map(|viewers| counts_of(rt.alloc(), viewers));
    assert!(rt; answer == Ok((1, 2, [Some(Refusal::Full), Some(Refusal::Full)])));
}
