//! Viewers that read in threads of their own, while their Publisher publishes.
use crate::views::publishing::{ask, machine, publisher, refusal};
use cg_name::Refusal;
use cg_view::{Publisher, Viewer};
use std::alloc::Global;
use std::sync::Wait;
use std::thread;
use std::thread::Threads;

// Groups that are made, each in a script of its own, in this order.
static PATHS: [&str; 8] = [
    "/a", "/a/b", "/a/b/c", "/d", "/d/e", "/a/b/c/f", "/g", "/g/h",
];

// So often each Viewer looks.
const LOOKS: u32 = 2_000;

// How many of the groups the Viewer sees, looked for from the last one: those before it are there too.
fn seen(alloc: Global, viewer: &mut Viewer) -> Result<usize, Refusal> {
    let mut count = PATHS.len();
    for path in PATHS.iter().rev() {
        match refusal(alloc, viewer, path) {
            None => return Ok(count),
            Some(Refusal::NoGroup) => count = count.saturating_sub(1),
            Some(refusal) => return Err(refusal),
        }
    }
    Ok(0)
}

// Whether the Viewer sees all of the first so many groups.
fn sees_first(alloc: Global, viewer: &mut Viewer, count: usize) -> bool {
    PATHS
        .iter()
        .take(count)
        .all(|path| refusal(alloc, viewer, path).is_none())
}

// Looks again and again, and tells whether what was seen stayed, and how many groups were seen at last.
fn look(alloc: Global, viewer: &mut Viewer) -> Result<bool, Refusal> {
    let mut most = 0;
    for _ in 0..LOOKS {
        let count = seen(alloc, viewer)?;
        if count < most || !sees_first(alloc, viewer, count) {
            return Ok(false);
        }
        most = count;
    }
    Ok(true)
}

// Makes the groups, each in a script that it publishes, while another transaction is open.
fn make(rt: &impl Wait, alloc: Global, publisher: &mut Publisher) -> Result<(), Refusal> {
    let mut core = machine(alloc)?;
    ask(alloc, &mut core, &["B begin", "B create /z"])?;
    for path in &PATHS {
        let mut line = String::new(alloc);
        write!(line, "A create {path}")?;
        ask(alloc, &mut core, &["A begin", line.as_str(), "A commit"])?;
        publisher.publish(rt, alloc, &core)?;
    }
    Ok(())
}

// Whether two Viewers that look while groups are made see no less at any look than before.
fn never_goes_back<R: Threads + Wait + Sync>(
    rt: &R,
    alloc: Global,
    publisher: &mut Publisher,
) -> Result<bool, Refusal> {
    let mut first = publisher.viewer()?;
    let mut second = publisher.viewer()?;
    let (made, (on_first, on_second)) = thread::join(
        rt,
        || make(rt, alloc, publisher),
        || thread::join(rt, || look(alloc, &mut first), || look(alloc, &mut second)),
    );
    made?;
    Ok(on_first? && on_second? && seen(alloc, &mut first)? == PATHS.len())
}

#[test]
fn viewers_in_two_threads_never_go_back(rt: HostRuntime) {
    let mut publisher = publisher(rt.alloc()).expect(&rt, "memory");
    let answer = never_goes_back(&rt, rt.alloc(), &mut publisher);
    publisher.end(&rt);
    assert!(rt; answer == Ok(true));
}
