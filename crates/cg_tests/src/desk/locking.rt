//! The lock of a desk between two calls of an open transaction.
use crate::desk::opened::open;
use cg_desk::{Answer, Desk, Refusal, SaveName, Session};
use std::alloc::{AllocError, Global};
use std::sync::{Arc, Condvar, Mutex, Wait};
use std::thread;
use std::thread::Threads;
use std::time::{Clock, Duration};

/// A desk, and whether its lock was taken by another thread.
#[derive(Drop)]
struct Shared {
    desk: Desk,
    is_taken: Mutex<bool>,
    taken: Condvar,
}

// Takes the desk's lock, and tells.
fn take(rt: &impl Wait, alloc: Global, shared: &Shared) {
    drop(shared.desk.session(rt, alloc));
    *shared.is_taken.lock(rt) = true;
    shared.taken.notify_one();
}

// Whether another thread takes the desk's lock within ten seconds.
fn is_free<R: Threads + Wait + Clock + Copy + Send + Sync + 'static>(
    rt: &R,
    alloc: Global,
    shared: &Arc<Shared>,
) -> Result<bool, AllocError> {
    let theirs = Arc::try_clone(shared)?;
    let rt = *rt;
    let Ok(_) = thread::spawn(&rt, move || take(&rt, alloc, &theirs)) else {
        return Ok(false);
    };
    let limit = Duration::from_millis(10_000);
    let (guard, _) = shared.taken.wait_timeout_while(
        &rt,
        shared.is_taken.lock(&rt),
        limit,
        |is_taken| !*is_taken,
    );
    Ok(*guard)
}

// Whether the lock is free between two calls of a transaction, which are answered as they have to be.
fn is_free_between<R: Threads + Wait + Clock + Copy + Send + Sync + 'static>(
    rt: &R,
    alloc: Global,
    shared: &Arc<Shared>,
    session: &mut Session,
) -> Result<bool, Refusal> {
    let name = SaveName::read("m")?;
    let mut transaction = session.begin(rt, alloc, &shared.desk)?;
    let saved = transaction.save(rt, alloc, name);
    let is_free = is_free(rt, alloc, shared);
    let ended = transaction.commit(rt);
    Ok(is_free? && matches!((saved, ended), (Answer::Saved, Answer::Committed(1))))
}

// The same at a new desk.
fn is_free_at_a_desk<R: Threads + Wait + Clock + Copy + Send + Sync + 'static>(
    rt: &R,
    alloc: Global,
) -> Result<bool, Refusal> {
    let shared = Arc::new(
        alloc,
        Shared {
            desk: open(alloc)?,
            is_taken: Mutex::new(false),
            taken: Condvar::new(),
        },
    )?;
    let mut session = shared.desk.session(rt, alloc)?;
    is_free_between(rt, alloc, &shared, &mut session)
}

#[test]
fn the_lock_is_free_between_two_calls_of_a_transaction(rt: HostRuntime) {
    assert!(rt; is_free_at_a_desk(&rt, rt.alloc()) == Ok(true));
}
