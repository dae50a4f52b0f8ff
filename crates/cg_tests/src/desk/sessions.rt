//! Sessions in one thread.
use crate::desk::asking::{commit_all, write_log};
use crate::desk::opened::{open, open_with};
use cg_desk::{Desk, Refusal, Session};
use std::alloc::Global;
use std::sync::Wait;

static ROWS: [&[&str]; 8] = [
    &["create", "/a"],
    &["save", "m"],
    &["back", "m"],
    &["undo"],
    &["undo"],
    &["back", "m"],
    &["migrate", "99", "/"],
    &["show", "/", "cgroup.procs"],
];

const ANSWERS: &str = r#"done
saved
back 0
done
refused 18 nothingtoundo
refused 16 nosavepoint
refused 11 noprocess
text "10\n11\n"
committed 1
begun 1
done
saved
back 0
done
refused 11 noprocess
text "10\n11\n"
committed 1
"#;

// Appends what a transaction of a new session is answered, and the answers in the session's log.
fn write_all(rt: &impl Wait, alloc: Global, desk: &Desk, out: &mut Vec<u8>) -> Result<(), Refusal> {
    let mut session = desk.session(rt, alloc)?;
    commit_all(rt, alloc, desk, &mut session, &ROWS, out)?;
    write_log(session.log(), out)?;
    Ok(())
}

// The same at a new desk.
fn write_all_at_a_desk(rt: &impl Wait, alloc: Global, out: &mut Vec<u8>) -> Result<(), Refusal> {
    let desk = open(alloc)?;
    write_all(rt, alloc, &desk, out)
}

#[test]
fn a_session_is_answered_as_the_machine_and_its_log_has_what_is_recorded(rt: HostRuntime) {
    let mut out = Vec::new(rt.alloc());
    assert!(rt; write_all_at_a_desk(&rt, rt.alloc(), &mut out) == Ok(()));
    assert!(rt; out.as_slice() == ANSWERS.as_bytes());
}

// The first session that a desk refuses to hand out, and why.
fn first_refused(rt: &impl Wait, alloc: Global, desk: &Desk) -> Option<(u32, Refusal)> {
    for number in 1..=65_537 {
        if let Err(refusal) = desk.session(rt, alloc) {
            return Some((number, refusal));
        }
    }
    None
}

// The same of a new desk.
fn first_refused_at_a_desk(
    rt: &impl Wait,
    alloc: Global,
) -> Result<Option<(u32, Refusal)>, Refusal> {
    let desk = open(alloc)?;
    Ok(first_refused(rt, alloc, &desk))
}

#[test]
fn a_desk_hands_out_65536_sessions(rt: HostRuntime) {
    let refused = first_refused_at_a_desk(&rt, rt.alloc());
    assert!(rt; refused == Ok(Some((65_537, Refusal::Full))));
}

// What two commands and a commit are answered where the history has four slots, and why the next Begin is refused. A Begin and a
// command take them all, with those for the end and for going back; after the commit three have records, and a Begin wants two.
fn write_all_within_four_slots(
    rt: &impl Wait,
    alloc: Global,
    out: &mut Vec<u8>,
) -> Result<Option<Refusal>, Refusal> {
    let desk = open_with(alloc, 4)?;
    let mut session = desk.session(rt, alloc)?;
    commit_all(
        rt,
        alloc,
        &desk,
        &mut session,
        &[&["create", "/a"], &["create", "/b"]],
        out,
    )?;
    Ok(first_begin_refused(rt, alloc, &desk, &mut session))
}

// Why the session can't begin, where it can't; else it aborts.
fn first_begin_refused(
    rt: &impl Wait,
    alloc: Global,
    desk: &Desk,
    session: &mut Session,
) -> Option<Refusal> {
    match session.begin(rt, alloc, desk) {
        Ok(transaction) => {
            let _ = transaction.abort(rt);
            None
        }
        Err(refusal) => Some(refusal),
    }
}

#[test]
fn a_desk_keeps_its_history_within_the_limit(rt: HostRuntime) {
    let mut out = Vec::new(rt.alloc());
    let refused = write_all_within_four_slots(&rt, rt.alloc(), &mut out);
    assert!(rt; refused == Ok(Some(Refusal::Full)));
    assert!(rt; out.as_slice() == "done\nrefused 4 full\ncommitted 1\n".as_bytes());
}

// Why a session of another desk can't begin at one where a transaction is open in the session with its number.
fn begin_beside_its_number(rt: &impl Wait, alloc: Global) -> Result<Option<Refusal>, Refusal> {
    let here = open(alloc)?;
    let there = open(alloc)?;
    let mut own = here.session(rt, alloc)?;
    let mut stray = there.session(rt, alloc)?;
    let transaction = own.begin(rt, alloc, &here)?;
    let refused = first_begin_refused(rt, alloc, &here, &mut stray);
    let _ = transaction.abort(rt);
    Ok(refused)
}

#[test]
fn a_number_has_one_open_transaction_at_a_desk(rt: HostRuntime) {
    let refused = begin_beside_its_number(&rt, rt.alloc());
    assert!(rt; refused == Ok(Some(Refusal::AlreadyOpen)));
}
