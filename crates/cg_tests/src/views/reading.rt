//! What Viewers read, and are refused.
use crate::views::publishing::{ask, commit, machine, publish, publisher, refusal, text};
use cg_name::{FileName, Refusal};
use cg_view::{Publisher, Viewer};
use std::alloc::Global;
use std::sync::Wait;

// So many Viewers there may be at once.
const VIEWERS: usize = 8;

// What a Viewer reads before and after a group is made, and then another in place of it.
fn follows(rt: &impl Wait, alloc: Global, publisher: &mut Publisher) -> Result<bool, Refusal> {
    let mut core = machine(alloc)?;
    let mut viewer = publisher.viewer()?;
    let before = refusal(alloc, &mut viewer, "/a");
    let root = text(alloc, &mut viewer, "/", FileName::Procs)?;
    viewer.learn(publish(rt, alloc, publisher, &mut core, "A create /a")?);
    let made = text(alloc, &mut viewer, "/a", FileName::Controllers)?;
    viewer.learn(publish(rt, alloc, publisher, &mut core, "A migrate 11 /a")?);
    let moved = text(alloc, &mut viewer, "/a", FileName::Procs)?;
    viewer.learn(publish(rt, alloc, publisher, &mut core, "A migrate 11 /")?);
    viewer.learn(publish(rt, alloc, publisher, &mut core, "A remove /a")?);
    viewer.learn(publish(rt, alloc, publisher, &mut core, "A create /b")?);
    Ok(
        before == Some(Refusal::NoGroup)
            && root.as_slice() == b"10\n11\n".as_slice()
            && made.is_empty()
            && moved.as_slice() == b"11\n".as_slice()
            && refusal(alloc, &mut viewer, "/a") == Some(Refusal::NoGroup)
            && refusal(alloc, &mut viewer, "/b").is_none(),
    )
}

#[test]
fn a_viewer_sees_what_it_was_told(rt: HostRuntime) {
    let mut publisher = publisher(rt.alloc()).expect(&rt, "memory");
    let answer = follows(&rt, rt.alloc(), &mut publisher);
    publisher.end(&rt);
    assert!(rt; answer == Ok(true));
}

// What a Viewer reads beside what was committed and isn't published, and beside what another transaction leaves open.
fn looks_beside(rt: &impl Wait, alloc: Global, publisher: &mut Publisher) -> Result<bool, Refusal> {
    let mut core = machine(alloc)?;
    let mut viewer = publisher.viewer()?;
    viewer.learn(publish(rt, alloc, publisher, &mut core, "A create /a")?);
    commit(alloc, &mut core, "A create /b")?;
    ask(alloc, &mut core, &["B begin", "B create /c"])?;
    let between = refusal(alloc, &mut viewer, "/b");
    let shown = refusal(alloc, &mut viewer, "/a");
    viewer.learn(publisher.publish(rt, alloc, &core)?);
    Ok(
        between == Some(Refusal::NoGroup)
            && shown.is_none()
            && refusal(alloc, &mut viewer, "/b").is_none()
            && refusal(alloc, &mut viewer, "/c") == Some(Refusal::NoGroup),
    )
}

#[test]
fn what_is_not_published_is_not_seen(rt: HostRuntime) {
    let mut publisher = publisher(rt.alloc()).expect(&rt, "memory");
    let answer = looks_beside(&rt, rt.alloc(), &mut publisher);
    publisher.end(&rt);
    assert!(rt; answer == Ok(true));
}

// Reads of a file that the root hasn't, of one that a group has, and of a group that isn't there.
fn misses_files(rt: &impl Wait, alloc: Global, publisher: &mut Publisher) -> Result<bool, Refusal> {
    let mut core = machine(alloc)?;
    let mut viewer = publisher.viewer()?;
    viewer.learn(publish(rt, alloc, publisher, &mut core, "A create /a")?);
    let of_root = text(alloc, &mut viewer, "/", FileName::Events);
    let of_group = text(alloc, &mut viewer, "/a", FileName::Events)?;
    let of_none = text(alloc, &mut viewer, "/a/b", FileName::Events);
    Ok(
        of_root.err() == Some(Refusal::NoFile)
            && of_group.as_slice() == b"populated 0\nfrozen 0\n".as_slice()
            && of_none.err() == Some(Refusal::NoGroup),
    )
}

#[test]
fn a_file_or_a_group_may_be_missing(rt: HostRuntime) {
    let mut publisher = publisher(rt.alloc()).expect(&rt, "memory");
    let answer = misses_files(&rt, rt.alloc(), &mut publisher);
    publisher.end(&rt);
    assert!(rt; answer == Ok(true));
}

// A Viewer that was told of another's three scripts reads nothing before its own Publisher has as many, also where it
// is told of fewer meanwhile.
fn waits_for_as_many(
    rt: &impl Wait,
    alloc: Global,
    own: &mut Publisher,
    other: &mut Publisher,
) -> Result<bool, Refusal> {
    let mut core = machine(alloc)?;
    let mut others = machine(alloc)?;
    let mut viewer = own.viewer()?;
    publish(rt, alloc, other, &mut others, "A create /x")?;
    publish(rt, alloc, other, &mut others, "A create /y")?;
    viewer.learn(publish(rt, alloc, other, &mut others, "A create /z")?);
    let at_none = refusal(alloc, &mut viewer, "/");
    viewer.learn(publish(rt, alloc, own, &mut core, "A create /a")?);
    let at_one = refusal(alloc, &mut viewer, "/a");
    publish(rt, alloc, own, &mut core, "A create /b")?;
    let at_two = refusal(alloc, &mut viewer, "/a");
    publish(rt, alloc, own, &mut core, "A create /c")?;
    Ok(
        at_none == Some(Refusal::Full)
            && at_one == Some(Refusal::Full)
            && at_two == Some(Refusal::Full)
            && refusal(alloc, &mut viewer, "/c").is_none()
            && refusal(alloc, &mut viewer, "/x") == Some(Refusal::NoGroup),
    )
}

#[test]
fn a_viewer_shows_no_less_than_it_was_told_of(rt: HostRuntime) {
    let mut own = publisher(rt.alloc()).expect(&rt, "memory");
    let answer = match publisher(rt.alloc()) {
        Ok(mut other) => {
            let answer = waits_for_as_many(&rt, rt.alloc(), &mut own, &mut other);
            other.end(&rt);
            answer
        }
        Err(refusal) => Err(refusal),
    };
    own.end(&rt);
    assert!(rt; answer == Ok(true));
}

// As many Viewers as there may be, all of which read.
fn viewers(alloc: Global, publisher: &mut Publisher) -> Result<Vec<Viewer>, Refusal> {
    let mut viewers = Vec::new(alloc);
    for _ in 0..VIEWERS {
        let mut viewer = publisher.viewer()?;
        text(alloc, &mut viewer, "/", FileName::Procs)?;
        viewers.push(viewer)?;
    }
    Ok(viewers)
}

#[test]
fn there_are_eight_viewers_at_most(rt: HostRuntime) {
    let mut publisher = publisher(rt.alloc()).expect(&rt, "memory");
    let first = viewers(rt.alloc(), &mut publisher);
    let ninth = publisher.viewer();
    publisher.end(&rt);
    assert!(rt; matches!(&first, Ok(first) if first.len() == VIEWERS));
    assert!(rt; matches!(ninth, Err(Refusal::Full)));
}

#[test]
fn after_the_end_each_read_is_refused(rt: HostRuntime) {
    let mut publisher = publisher(rt.alloc()).expect(&rt, "memory");
    let viewer = publisher.viewer();
    publisher.end(&rt);
    let answer = match viewer {
        Ok(mut viewer) => refusal(rt.alloc(), &mut viewer, "/"),
        Err(refusal) => Some(refusal),
    };
    assert!(rt; answer == Some(Refusal::Full));
}
