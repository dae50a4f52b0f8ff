//! Eight sessions in eight threads, and a replay of what they did.
use crate::desk::asking::ask;
use crate::desk::opened::Opened;
use crate::opening::{LARGER, world};
use crate::replaying::{agrees_with_replay, commits_in};
use cg_desk::{Answer, Core, Desk, Refusal, Session, Transaction};
use std::alloc::Global;
use std::sync::Wait;
use std::thread;
use std::thread::Threads;
use std::time::{Clock, Duration};

pub(crate) const THREADS: u32 = 8;

const TRANSACTIONS: u32 = 25;

const TRIES: u32 = 1_000;

// A subtree that the sessions share, and behind it that of each session.
static SUBTREES: [[&str; 3]; 9] = [
    ["/s", "/s/x", "/s/x/y"],
    ["/a", "/a/x", "/a/x/y"],
    ["/b", "/b/x", "/b/x/y"],
    ["/c", "/c/x", "/c/x/y"],
    ["/d", "/d/x", "/d/x/y"],
    ["/e", "/e/x", "/e/x/y"],
    ["/f", "/f/x", "/f/x/y"],
    ["/g", "/g/x", "/g/x/y"],
    ["/h", "/h/x", "/h/x/y"],
];

// Commands: a keyword, which path of a subtree, and one word more or none.
static COMMANDS: [(&str, usize, &str); 16] = [
    ("create", 0, ""),
    ("create", 0, ""),
    ("create", 1, ""),
    ("create", 1, ""),
    ("create", 2, ""),
    ("remove", 0, ""),
    ("remove", 1, ""),
    ("remove", 2, ""),
    ("freeze", 0, "1"),
    ("subtree", 0, "+cpu"),
    ("subtree", 0, "-cpu"),
    ("maxdescendants", 0, "1"),
    ("maxdepth", 0, "1"),
    ("show", 0, "cgroup.events"),
    ("migrate", 0, "10"),
    ("migrate", 1, "11"),
];

// What a session asks for in this round of this transaction, as a number below 65,536.
fn choice(session: u32, number: u32, round: u32) -> usize {
    let mixed = session
        .wrapping_mul(0x85eb_ca6b)
        .wrapping_add(number.wrapping_mul(0x9e37_79b1))
        .wrapping_add(round.wrapping_mul(0xc2b2_ae35));
    (mixed / 65_536) as usize
}

// Asks for a command in the session's own subtree, or once in 16 times in the shared one.
fn ask_command(
    rt: &impl Wait,
    alloc: Global,
    transaction: &mut Transaction,
    session: u32,
    choice: usize,
) -> Result<Answer, Refusal> {
    let (keyword, depth, word) = COMMANDS[choice % 16];
    let subtree = if choice / 16 % 16 == 0 { 0 } else { session };
    let path = SUBTREES[subtree as usize % 9][depth % 3];
    match (keyword, word) {
        ("migrate", pid) => ask(rt, alloc, transaction, &["migrate", pid, path]),
        (_, "") => ask(rt, alloc, transaction, &[keyword, path]),
        _ => ask(rt, alloc, transaction, &[keyword, path, word]),
    }
}

// Asks for what comes in this round: a savepoint in the second, a way back in the fourth, else a command.
fn ask_in(
    rt: &impl Wait,
    alloc: Global,
    transaction: &mut Transaction,
    session: u32,
    number: u32,
    round: u32,
) -> Result<Answer, Refusal> {
    let choice = choice(session, number, round);
    match (round, choice % 2) {
        (1, _) => ask(rt, alloc, transaction, &["save", "m"]),
        (3, 0) => ask(rt, alloc, transaction, &["back", "m"]),
        (3, _) => ask(rt, alloc, transaction, &["undo"]),
        _ => ask_command(rt, alloc, transaction, session, choice),
    }
}

// Asks for the six requests of a transaction, up to one that another transaction is in the way of; whether there was none.
fn gets_through(
    rt: &impl Wait,
    alloc: Global,
    transaction: &mut Transaction,
    session: u32,
    number: u32,
) -> Result<bool, Refusal> {
    for round in 0..6 {
        let answer = ask_in(rt, alloc, transaction, session, number, round)?;
        if matches!(answer, Answer::Refused(Refusal::Busy(_))) {
            return Ok(false);
        }
    }
    Ok(true)
}

// Makes a transaction, which is aborted where another is in its way; whether it was committed.
fn commits(
    rt: &impl Wait,
    alloc: Global,
    desk: &Desk,
    session: &mut Session,
    number: u32,
) -> Result<bool, Refusal> {
    let id = session.id().0;
    let mut transaction = session.begin(rt, alloc, desk)?;
    let through = gets_through(rt, alloc, &mut transaction, id, number);
    let answer = if through == Ok(true) {
        transaction.commit(rt)
    } else {
        transaction.abort(rt)
    };
    through?;
    Ok(matches!(answer, Answer::Committed(_)))
}

// Makes a transaction, begun again where another is in its way; whether it was committed.
fn commits_in_the_end<R: Wait + Clock>(
    rt: &R,
    alloc: Global,
    desk: &Desk,
    session: &mut Session,
    number: u32,
) -> Result<bool, Refusal> {
    for _ in 0..TRIES {
        if commits(rt, alloc, desk, session, number)? {
            return Ok(true);
        }
        thread::sleep(rt, Duration::from_millis(1));
    }
    Ok(false)
}

// Makes so many transactions of a session, as long as each is committed.
fn work<R: Wait + Clock>(rt: &R, alloc: Global, desk: &Desk, session: &mut Session, count: u32) {
    for number in 0..count {
        if commits_in_the_end(rt, alloc, desk, session, number) != Ok(true) {
            return;
        }
    }
}

/// The same of each session, in a thread of its own.
pub(crate) fn work_all<R: Threads + Wait + Clock + Sync>(
    rt: &R,
    alloc: Global,
    desk: &Desk,
    sessions: &mut [Session],
    count: u32,
) {
    thread::for_each_mut(
        rt,
        sessions,
        THREADS as usize,
        &|_, session: &mut Session| { work(rt, alloc, desk, session, count) },
    );
}

// How many transactions a machine's history says were committed, and whether a replay agrees with it.
fn report_of(alloc: Global, core: &Core) -> Result<(usize, bool), Refusal> {
    let agrees = agrees_with_replay(alloc, core, world(alloc, LARGER)?)?;
    Ok((commits_in(core.history()), agrees))
}

// The machine of a desk at which all sessions made their transactions.
fn closed<R: Threads + Wait + Clock + Sync>(rt: &R, alloc: Global) -> Result<Core, Refusal> {
    let mut opened = Opened::open_on(rt, alloc, LARGER, THREADS)?;
    work_all(
        rt,
        alloc,
        &opened.desk,
        opened.sessions.as_mut_slice(),
        TRANSACTIONS,
    );
    opened.close(alloc).map_err(|fault| fault.refusal)
}

// What that machine's history says.
fn crowd<R: Threads + Wait + Clock + Sync>(
    rt: &R,
    alloc: Global,
) -> Result<(usize, bool), Refusal> {
    let core = closed(rt, alloc)?;
    let report = report_of(alloc, &core);
    drop(core);
    report
}

#[test]
fn eight_threads_make_25_transactions_each_and_a_replay_agrees(rt: HostRuntime) {
    assert!(rt; crowd(&rt, rt.alloc()) == Ok((200, true)));
}
