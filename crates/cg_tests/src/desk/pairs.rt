//! Two sessions of one desk in two threads.
use crate::desk::asking::commit_all;
use crate::desk::closing::{close, close_again};
use crate::desk::opened::Opened;
use cg_desk::{CloseFault, Desk, Refusal, Session};
use std::alloc::{AllocError, Global};
use std::sync::Wait;
use std::thread::Threads;
use std::{mem, thread};

static ON_A: [&[&str]; 3] = [&["create", "/a"], &["save", "m"], &["back", "m"]];

static ON_B: [&[&str]; 3] = [&["create", "/b"], &["save", "m"], &["back", "m"]];

static ON_C: [&[&str]; 3] = [&["create", "/c"], &["save", "m"], &["back", "m"]];

// Makes a transaction of these three requests; whether they were answered so, and the commit accepted.
fn commits(
    rt: &impl Wait,
    alloc: Global,
    desk: &Desk,
    session: &mut Session,
    rows: &[&[&str]],
) -> bool {
    let mut out = Vec::new(alloc);
    let made = commit_all(rt, alloc, desk, session, rows, &mut out);
    made == Ok(())
        && out
            .as_slice()
            .starts_with(b"done\nsaved\nback 0\ncommitted ")
}

// Both sessions make a transaction, each in a thread of its own; whether both were answered so.
fn both_commit<R: Threads + Wait + Sync>(
    rt: &R,
    alloc: Global,
    desk: &Desk,
    first: &mut Session,
    second: &mut Session,
) -> bool {
    let (on_a, on_b) = thread::join(
        rt,
        || commits(rt, alloc, desk, first, &ON_A),
        || commits(rt, alloc, desk, second, &ON_B),
    );
    on_a && on_b
}

// The same of the two sessions of a desk.
fn all_commit<R: Threads + Wait + Sync>(rt: &R, alloc: Global, opened: &mut Opened) -> bool {
    let Some((first, rest)) = opened.sessions.as_mut_slice().split_first_mut() else {
        return false;
    };
    let Some((second, _)) = rest.split_first_mut() else {
        return false;
    };
    both_commit(rt, alloc, &opened.desk, first, second)
}

// A session with number 2 of another desk, with a transaction on `/c` in its log.
fn foreign(rt: &impl Wait, alloc: Global) -> Result<Option<Session>, Refusal> {
    let mut opened = Opened::open(rt, alloc, 2)?;
    let Some(session) = opened.sessions.last_mut() else {
        return Ok(None);
    };
    if !commits(rt, alloc, &opened.desk, session, &ON_C) {
        return Ok(None);
    }
    Ok(opened.sessions.pop())
}

// Puts the session in place of the last, which it gives.
fn replace_last(sessions: &mut Vec<Session>, session: Session) -> Session {
    match sessions.last_mut() {
        Some(last) => mem::replace(last, session),
        None => session,
    }
}

// Closes a desk that came back with this session in place of its last.
fn close_with_own(
    alloc: Global,
    mut fault: CloseFault,
    own: Session,
    out: &mut String,
) -> Result<(), AllocError> {
    replace_last(&mut fault.sessions, own);
    close_again(alloc, fault, out)
}

// Closes a desk with another session in place of its last, and then with its own; appends how each ended.
fn close_swapped(
    alloc: Global,
    mut opened: Opened,
    foreign: Session,
    out: &mut String,
) -> Result<(), AllocError> {
    let own = replace_last(&mut opened.sessions, foreign);
    match close(alloc, opened, out)? {
        Some(fault) => close_with_own(alloc, fault, own, out),
        None => Ok(()),
    }
}

// A desk whose two sessions made a transaction each is closed with a session of another desk, and with its own.
fn swap<R: Threads + Wait + Sync>(rt: &R, alloc: Global, out: &mut String) -> Result<(), Refusal> {
    let mut opened = Opened::open(rt, alloc, 2)?;
    let all = all_commit(rt, alloc, &mut opened);
    writeln!(out, "all committed {all}")?;
    match foreign(rt, alloc)? {
        Some(foreign) => Ok(close_swapped(alloc, opened, foreign, out)?),
        None => Ok(()),
    }
}

#[test]
fn two_threads_share_a_desk_which_refuses_a_session_of_another(rt: HostRuntime) {
    let mut out = String::new(rt.alloc());
    assert!(rt; swap(&rt, rt.alloc(), &mut out) == Ok(()));
    assert!(rt;
        out.as_str()
            == "all committed true
refused 21 disagree, back come 1 2
closed, records 10, on the world true
"
    );
}
