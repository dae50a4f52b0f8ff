//! What is published of a desk's machine, and read in a thread of its own while another transaction is open.
use crate::desk::asking::{ask_all, commit_all};
use crate::desk::opened::open;
use crate::views::publishing::{publisher, text};
use cg_desk::{Desk, Refusal, Session, Transaction};
use cg_name::FileName;
use cg_view::{Publisher, Viewer};
use std::alloc::Global;
use std::sync::Wait;
use std::thread;
use std::thread::Threads;

// What the Viewer reads in a thread of its own.
fn read<R: Threads + Wait + Sync>(
    rt: &R,
    alloc: Global,
    viewer: &mut Viewer,
    path: &str,
    name: FileName,
) -> Result<Vec<u8>, Refusal> {
    let (text, ()) = thread::join(rt, || text(alloc, viewer, path, name), || ());
    text
}

// Commits what these rows of words ask for.
fn commit(
    rt: &impl Wait,
    alloc: Global,
    desk: &Desk,
    session: &mut Session,
    rows: &[&[&str]],
) -> Result<(), Refusal> {
    let mut out = Vec::new(alloc);
    commit_all(rt, alloc, desk, session, rows, &mut out)
}

// Publishes what was committed, and tells the Viewer.
fn publish(
    rt: &impl Wait,
    alloc: Global,
    desk: &Desk,
    publisher: &mut Publisher,
    viewer: &mut Viewer,
) -> Result<(), Refusal> {
    viewer.learn(desk.publish(rt, alloc, publisher)?);
    Ok(())
}

// Whether a group that an open transaction makes isn't seen once all commits are published.
fn hides_what_is_open<R: Threads + Wait + Sync>(
    rt: &R,
    alloc: Global,
    desk: &Desk,
    publisher: &mut Publisher,
    viewer: &mut Viewer,
    transaction: &mut Transaction,
) -> Result<bool, Refusal> {
    let mut out = Vec::new(alloc);
    ask_all(rt, alloc, transaction, &[&["create", "/b"]], &mut out)?;
    publish(rt, alloc, desk, publisher, viewer)?;
    let of_b = read(rt, alloc, viewer, "/b", FileName::Procs);
    Ok(out.as_slice() == b"done\n".as_slice() && of_b.err() == Some(Refusal::NoGroup))
}

// Whether a group that was committed is seen, and one of a transaction that is open isn't.
fn shows_commits_alone<R: Threads + Wait + Sync>(
    rt: &R,
    alloc: Global,
    publisher: &mut Publisher,
) -> Result<bool, Refusal> {
    let desk = open(alloc)?;
    let mut first = desk.session(rt, alloc)?;
    let mut second = desk.session(rt, alloc)?;
    let mut viewer = publisher.viewer()?;
    commit(rt, alloc, &desk, &mut first, &[&["create", "/a"]])?;
    publish(rt, alloc, &desk, publisher, &mut viewer)?;
    let of_a = read(rt, alloc, &mut viewer, "/a", FileName::Controllers)?;
    let mut transaction = second.begin(rt, alloc, &desk)?;
    let is_hidden = hides_what_is_open(rt, alloc, &desk, publisher, &mut viewer, &mut transaction);
    transaction.abort(rt);
    Ok(of_a.is_empty() && is_hidden?)
}

#[test]
fn a_desk_publishes_its_commits_alone(rt: HostRuntime) {
    let mut publisher = publisher(rt.alloc()).expect(&rt, "memory");
    let answer = shows_commits_alone(&rt, rt.alloc(), &mut publisher);
    publisher.end(&rt);
    assert!(rt; answer == Ok(true));
}

// What a Viewer reads before and after another script is published, and after a fresh desk's commits are refused.
fn keeps_to_its_desk<R: Threads + Wait + Sync>(
    rt: &R,
    alloc: Global,
    desk: &Desk,
    session: &mut Session,
    publisher: &mut Publisher,
) -> Result<bool, Refusal> {
    let mut viewer = publisher.viewer()?;
    commit(rt, alloc, desk, session, &[&["create", "/a"]])?;
    publish(rt, alloc, desk, publisher, &mut viewer)?;
    commit(
        rt,
        alloc,
        desk,
        session,
        &[&["remove", "/a"], &["create", "/b"]],
    )?;
    let before = read(rt, alloc, &mut viewer, "/a", FileName::Controllers)?;
    publish(rt, alloc, desk, publisher, &mut viewer)?;
    let after = read(rt, alloc, &mut viewer, "/a", FileName::Controllers).err();
    let another = open(alloc)?.publish(rt, alloc, publisher).err();
    let of_b = read(rt, alloc, &mut viewer, "/b", FileName::Procs)?;
    let of_root = read(rt, alloc, &mut viewer, "/", FileName::Events).err();
    Ok(
        before.is_empty()
            && after == Some(Refusal::NoGroup)
            && another == Some(Refusal::Disagree)
            && of_b.is_empty()
            && of_root == Some(Refusal::NoFile),
    )
}

// The same while a transaction is open.
fn keeps_to_its_desk_beside<R: Threads + Wait + Sync>(
    rt: &R,
    alloc: Global,
    publisher: &mut Publisher,
) -> Result<bool, Refusal> {
    let desk = open(alloc)?;
    let mut first = desk.session(rt, alloc)?;
    let mut second = desk.session(rt, alloc)?;
    let mut out = Vec::new(alloc);
    let mut transaction = second.begin(rt, alloc, &desk)?;
    let asked = ask_all(rt, alloc, &mut transaction, &[&["create", "/c"]], &mut out);
    let keeps = keeps_to_its_desk(rt, alloc, &desk, &mut first, publisher);
    transaction.abort(rt);
    asked?;
    Ok(out.as_slice() == b"done\n".as_slice() && keeps?)
}

#[test]
fn a_publisher_keeps_to_its_desk(rt: HostRuntime) {
    let mut publisher = publisher(rt.alloc()).expect(&rt, "memory");
    let answer = keeps_to_its_desk_beside(&rt, rt.alloc(), &mut publisher);
    publisher.end(&rt);
    assert!(rt; answer == Ok(true));
}
