//! Desks that are closed with the wrong sessions, and then with the right ones.
use crate::desk::asking::commit_all;
use crate::desk::opened::{Opened, is_opening};
use cg_desk::{CloseFault, Core, Desk, Refusal, Session};
use std::alloc::{AllocError, Global};
use std::sync::Wait;

static ROWS: [&[&str]; 1] = [&["create", "/a"]];

// Appends why a desk wasn't closed, and the numbers of the sessions that came back.
fn write_fault(fault: &CloseFault, out: &mut String) -> Result<(), AllocError> {
    let refusal = fault.refusal;
    write!(out, "{refusal}, back come")?;
    for session in &fault.sessions {
        let number = session.id().0;
        write!(out, " {number}")?;
    }
    out.push_str("\n")
}

// The line of what a closed desk's machine has. It takes the machine, so that no body owns that beside a desk that came back.
fn line_of(alloc: Global, core: Core) -> Result<String, AllocError> {
    let records = core.history().len();
    let is_on_world = is_opening(alloc, core.opening());
    drop(core);
    let is_on_world = is_on_world?;
    format!(in alloc; "closed, records {records}, on the world {is_on_world}\n")
}

// Appends how a close ended.
fn write_closed(
    closed: &Result<Result<String, AllocError>, CloseFault>,
    out: &mut String,
) -> Result<(), AllocError> {
    match closed {
        Ok(Ok(line)) => out.push_str(line.as_str()),
        Ok(Err(_)) => out.push_str("no memory\n"),
        Err(fault) => write_fault(fault, out),
    }
}

/// Closes a desk, and appends how that ended; gives what came back.
pub(crate) fn close(
    alloc: Global,
    opened: Opened,
    out: &mut String,
) -> Result<Option<CloseFault>, AllocError> {
    let closed = opened.close(alloc).map(|core| line_of(alloc, core));
    let written = write_closed(&closed, out);
    let back = closed.err();
    written?;
    Ok(back)
}

/// Closes a desk that came back, and appends how that ended.
pub(crate) fn close_again(
    alloc: Global,
    fault: CloseFault,
    out: &mut String,
) -> Result<(), AllocError> {
    let CloseFault { desk, sessions, .. } = fault;
    drop(close(alloc, Opened { desk, sessions }, out)?);
    Ok(())
}

// The same with one session more.
fn close_with(
    alloc: Global,
    mut fault: CloseFault,
    more: Session,
    out: &mut String,
) -> Result<(), AllocError> {
    fault.sessions.push(more)?;
    close_again(alloc, fault, out)
}

// Closes a desk, and where it comes back again with one session more; appends how each ended.
fn close_twice(
    alloc: Global,
    opened: Opened,
    more: Session,
    out: &mut String,
) -> Result<(), AllocError> {
    match close(alloc, opened, out)? {
        Some(fault) => close_with(alloc, fault, more, out),
        None => Ok(()),
    }
}

// Makes a transaction of one command at the desk, in the session at this place.
fn commit_at(
    rt: &impl Wait,
    alloc: Global,
    desk: &Desk,
    sessions: &mut Vec<Session>,
    place: usize,
) -> Result<(), Refusal> {
    let mut answers = Vec::new(alloc);
    match sessions.get_mut(place) {
        Some(session) => commit_all(rt, alloc, desk, session, &ROWS, &mut answers),
        None => Ok(()),
    }
}

// Closes a desk without the second session, which made no call, and then with it.
fn leave_one_out(rt: &impl Wait, alloc: Global, out: &mut String) -> Result<(), Refusal> {
    let mut opened = Opened::open(rt, alloc, 2)?;
    commit_at(rt, alloc, &opened.desk, &mut opened.sessions, 0)?;
    let Some(missing) = opened.sessions.pop() else {
        return Ok(());
    };
    Ok(close_twice(alloc, opened, missing, out)?)
}

#[test]
fn a_desk_is_closed_only_with_every_session_that_it_handed_out(rt: HostRuntime) {
    let mut out = String::new(rt.alloc());
    assert!(rt; leave_one_out(&rt, rt.alloc(), &mut out) == Ok(()));
    assert!(rt;
        out.as_str()
            == "refused 21 disagree, back come 1
closed, records 3, on the world true
"
    );
}

// The last session of what came back.
fn last_of(back: Option<CloseFault>) -> Option<Session> {
    match back {
        Some(mut fault) => fault.sessions.pop(),
        None => None,
    }
}

// A session with number 2 that made a transaction at this desk, whose own desk, with two sessions, comes back from a close.
fn stray(
    rt: &impl Wait,
    alloc: Global,
    desk: &Desk,
    out: &mut String,
) -> Result<Option<Session>, Refusal> {
    let mut opened = Opened::open(rt, alloc, 2)?;
    commit_at(rt, alloc, desk, &mut opened.sessions, 1)?;
    Ok(last_of(close(alloc, opened, out)?))
}

// Closes a desk that handed out one session, at which that session made a transaction: without it, and then with it.
fn close_both(rt: &impl Wait, alloc: Global, out: &mut String) -> Result<(), Refusal> {
    let opened = Opened::open(rt, alloc, 1)?;
    let Some(stray) = stray(rt, alloc, &opened.desk, out)? else {
        return Ok(());
    };
    Ok(close_twice(alloc, opened, stray, out)?)
}

#[test]
fn a_session_that_was_at_another_desk_agrees_with_neither(rt: HostRuntime) {
    let mut out = String::new(rt.alloc());
    assert!(rt; close_both(&rt, rt.alloc(), &mut out) == Ok(()));
    assert!(rt;
        out.as_str()
            == "refused 21 disagree, back come 1 2
refused 21 disagree, back come 1
refused 21 disagree, back come 1 2
"
    );
}
