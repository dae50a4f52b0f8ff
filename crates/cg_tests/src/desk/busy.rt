//! A transaction that is in the way of another.
use crate::desk::asking::{ask_all, write_reply};
use crate::desk::opened::open;
use cg_desk::{Desk, Refusal, Session, Transaction};
use std::alloc::Global;
use std::sync::Wait;

static ON_A: [&[&str]; 1] = [&["create", "/a"]];

static BELOW_A: [&[&str]; 1] = [&["create", "/a/b"]];

// Makes a group in one transaction, and one below it in another; appends the lines of the answers.
fn ask_both(
    rt: &impl Wait,
    alloc: Global,
    holder: &mut Transaction,
    other: &mut Transaction,
    out: &mut Vec<u8>,
) -> Result<(), Refusal> {
    ask_all(rt, alloc, holder, &ON_A, out)?;
    ask_all(rt, alloc, other, &BELOW_A, out)
}

// The same, and then the first transaction is committed, and the other makes the group below again.
fn hold(
    rt: &impl Wait,
    alloc: Global,
    desk: &Desk,
    session: &mut Session,
    other: &mut Transaction,
    out: &mut Vec<u8>,
) -> Result<(), Refusal> {
    let mut holder = session.begin(rt, alloc, desk)?;
    let asked = ask_both(rt, alloc, &mut holder, other, out);
    let answer = holder.commit(rt);
    asked?;
    write_reply(&answer, out)?;
    ask_all(rt, alloc, other, &BELOW_A, out)
}

// The same of two sessions, of which the second begins first; its transaction is committed at the end.
fn hold_from(
    rt: &impl Wait,
    alloc: Global,
    desk: &Desk,
    first: &mut Session,
    second: &mut Session,
    out: &mut Vec<u8>,
) -> Result<(), Refusal> {
    let mut other = second.begin(rt, alloc, desk)?;
    let held = hold(rt, alloc, desk, first, &mut other, out);
    let answer = other.commit(rt);
    held?;
    Ok(write_reply(&answer, out)?)
}

// The same at a new desk.
fn hold_at_a_desk(rt: &impl Wait, alloc: Global, out: &mut Vec<u8>) -> Result<(), Refusal> {
    let desk = open(alloc)?;
    let mut first = desk.session(rt, alloc)?;
    let mut second = desk.session(rt, alloc)?;
    hold_from(rt, alloc, &desk, &mut first, &mut second, out)
}

#[test]
fn a_transaction_is_busy_with_the_number_of_the_one_in_its_way(rt: HostRuntime) {
    let mut out = Vec::new(rt.alloc());
    assert!(rt; hold_at_a_desk(&rt, rt.alloc(), &mut out) == Ok(()));
    assert!(rt;
        out.as_slice() == b"done\nrefused 5 busy 2\ncommitted 1\ndone\ncommitted 2\n".as_slice()
    );
}
