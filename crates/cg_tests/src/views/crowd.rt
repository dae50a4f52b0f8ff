//! Eight Viewers beside eight sessions of a desk, whose commits are published meanwhile, and what they saw held to the history.
use crate::desk::crowd::{THREADS, work_all};
use crate::desk::opened::Opened;
use crate::opening::{LARGER, world};
use crate::views::prefixes::{FILES, Seen, Text, are_last, never_go_back, texts_by_commits};
use crate::views::publishing::text;
use cg_desk::{Core, Desk, Refusal, Session};
use cg_view::{Publisher, Told, Viewer};
use std::alloc::{AllocError, Global};
use std::sync::Wait;
use std::sync::atomic::{AtomicBool, Ordering};
use std::thread;
use std::thread::Threads;
use std::time::{Clock, Duration};

const VIEWERS: u32 = 8;

const TRANSACTIONS: u32 = 100;

// So often a Viewer looks at each file at most, and so often it is published at most.
const MOST: u32 = 100_000;

// A Viewer, what it saw, and what it saw at last, when it was told of all.
#[derive(Drop)]
struct Watch {
    viewer: Viewer,
    seen: Vec<Seen>,
    last: Vec<Seen>,
}

// Eight Viewers that have looked once, before anything was published.
fn watches(alloc: Global, publisher: &mut Publisher) -> Result<Vec<Watch>, Refusal> {
    let mut watches = Vec::new(alloc);
    for _ in 0..VIEWERS {
        let mut watch = Watch {
            viewer: publisher.viewer()?,
            seen: Vec::new(alloc),
            last: Vec::new(alloc),
        };
        look(alloc, &mut watch.viewer, &mut watch.seen)?;
        watches.push(watch)?;
    }
    Ok(watches)
}

// Looks at each file.
fn look(alloc: Global, viewer: &mut Viewer, seen: &mut Vec<Seen>) -> Result<(), AllocError> {
    for (file, (path, name)) in FILES.iter().enumerate() {
        let text = text(alloc, viewer, path, *name);
        seen.push(Seen { file, text })?;
    }
    Ok(())
}

// Looks again and again, until the work is done.
fn look_on<R: Clock>(
    rt: &R,
    alloc: Global,
    watch: &mut Watch,
    is_done: &AtomicBool,
) -> Result<(), AllocError> {
    for _ in 0..MOST {
        look(alloc, &mut watch.viewer, &mut watch.seen)?;
        if is_done.load(Ordering::SeqCst) {
            return Ok(());
        }
        thread::sleep(rt, Duration::from_millis(20));
    }
    Ok(())
}

// Publishes again and again, and once more when the work is done.
fn publish_on<R: Wait + Clock>(
    rt: &R,
    alloc: Global,
    desk: &Desk,
    publisher: &mut Publisher,
    is_done: &AtomicBool,
) -> Result<Told, Refusal> {
    for _ in 0..MOST {
        if is_done.load(Ordering::SeqCst) {
            break;
        }
        desk.publish(rt, alloc, publisher)?;
        thread::sleep(rt, Duration::from_millis(20));
    }
    desk.publish(rt, alloc, publisher)
}

// Makes all transactions of the sessions, and says that they are done.
fn work<R: Threads + Wait + Clock + Sync>(
    rt: &R,
    alloc: Global,
    desk: &Desk,
    sessions: &mut [Session],
    is_done: &AtomicBool,
) {
    work_all(rt, alloc, desk, sessions, TRANSACTIONS);
    is_done.store(true, Ordering::SeqCst);
}

// Sessions at work, one who publishes, and Viewers that look, each in a thread; and once more when all was published and told.
fn look_beside<R: Threads + Wait + Clock + Sync>(
    rt: &R,
    alloc: Global,
    opened: &mut Opened,
    publisher: &mut Publisher,
    watches: &mut [Watch],
) -> Result<(), Refusal> {
    let done = AtomicBool::new(false);
    let (is_done, desk) = (&done, &opened.desk);
    let sessions = opened.sessions.as_mut_slice();
    let (told, _) = thread::join(
        rt,
        || publish_on(rt, alloc, desk, publisher, is_done),
        || thread::join(
            rt,
            || work(rt, alloc, desk, sessions, is_done),
            || thread::for_each_mut(
                rt,
                watches,
                VIEWERS as usize,
                &|_, watch: &mut Watch| {
                    let _ = look_on(rt, alloc, watch, is_done);
                },
            ),
        ),
    );
    let told = told?;
    for watch in watches {
        watch.viewer.learn(told);
        look(alloc, &mut watch.viewer, &mut watch.last)?;
    }
    Ok(())
}

// Whether what each saw is of commits that never go back, and at last of all of them.
fn all_agree(texts: &[Vec<Text>], watches: &[Watch]) -> bool {
    watches.iter().all(|watch| {
        never_go_back(texts, watch.seen.as_slice()) && are_last(texts, watch.last.as_slice())
    })
}

// The machine's commits, and whether all that was seen is of them.
fn agrees(alloc: Global, core: &Core, watches: &[Watch]) -> Result<(u32, bool), Refusal> {
    let texts = texts_by_commits(alloc, core)?;
    Ok((core.commit_count(), all_agree(texts.as_slice(), watches)))
}

// A desk with so many sessions, its Publisher's Viewers beside them, and what they saw.
fn crowd<R: Threads + Wait + Clock + Sync>(
    rt: &R,
    alloc: Global,
    publisher: &mut Publisher,
) -> Result<(u32, bool), Refusal> {
    let mut opened = Opened::open_on(rt, alloc, LARGER, THREADS)?;
    let mut watches = watches(alloc, publisher)?;
    look_beside(rt, alloc, &mut opened, publisher, watches.as_mut_slice())?;
    let core = opened.close(alloc).map_err(|fault| fault.refusal)?;
    let report = agrees(alloc, &core, watches.as_slice());
    drop(core);
    report
}

#[test]
fn what_eight_viewers_see_never_goes_back(rt: HostRuntime) {
    let opening = world(rt.alloc(), LARGER).expect(&rt, "memory");
    let mut publisher = Publisher::new(rt.alloc(), &opening).expect(&rt, "memory");
    let answer = crowd(&rt, rt.alloc(), &mut publisher);
    publisher.end(&rt);
    assert!(rt; answer == Ok((THREADS * TRANSACTIONS, true)));
}
