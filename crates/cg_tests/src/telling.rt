//! A machine that is asked by lines and tells by texts.
use cg_line_machine::{Status, Teller, copy_text, word_of_number};
use cg_name::{Refusal, TxnNumber};
use std::process::Abort;
use std::test::Fail;

const WORLD: &str = "world 2
controllers cpuset cpu memory
online 0-7
group / cpu,memory 0 - max max
group /batch cpu 0 - 2 max
group /system - 0 - max max
proc 1 /system
end
";

const AFTER: &str = "world 2
controllers cpuset cpu memory
online 0-7
group / cpu,memory 0 - max max
group /batch cpu 0 - 2 max
group /batch/job-1 - 0 - max max
group /system - 0 - max max
proc 1 /system
end
";

const HISTORY: &str = "s1 begin
# begun 1
s2 begin
# begun 2
s1 create /batch/job-1
# done
s2 create /batch/job-2
# refused 5 busy 1
s1 save one-job
# saved
s1 create /batch/job-2
# done
s1 back one-job
# back 1
s1 commit
# committed 1
s2 abort
# aborted 2
";

// Lines with what each is answered.
const LINES: [(&str, Status, &str); 11] = [
    ("# nothing is asked", Status::Done, ""),
    ("alice begin", Status::Done, "begun 1"),
    ("bob begin", Status::Done, "begun 2"),
    ("alice create /batch/job-1", Status::Done, "done"),
    (
        "bob create /batch/job-2",
        Status::Refused(Refusal::Busy(TxnNumber(1))),
        "refused 5 busy 1",
    ),
    ("alice save one-job", Status::Done, "saved"),
    ("alice create /batch/job-2", Status::Done, "done"),
    (
        "alice creates /batch/job-3",
        Status::Refused(Refusal::Syntax),
        "refused 1 syntax",
    ),
    ("alice back one-job", Status::Done, "back 1"),
    ("alice commit", Status::Done, "committed 1"),
    (
        "alice undo",
        Status::Refused(Refusal::NoTransaction),
        "refused 2 notransaction",
    ),
];

// Asserts that a call had this status and told this text.
fn assert_told(rt: &impl Abort, teller: &Teller, status: Status, wanted: (Status, &str)) {
    assert_eq!(rt; status, wanted.0);
    assert!(rt; teller.text() == wanted.1.as_bytes());
}

#[test]
fn lines_are_answered_and_told(rt: HostRuntime) -> Result<(), Fail> {
    let alloc = rt.alloc();
    let mut teller = Teller::open(alloc, WORLD.as_bytes(), 64)?;
    for (line, status, text) in LINES {
        let told = teller.step(alloc, line.as_bytes());
        assert_told(&rt, &teller, told, (status, text));
    }
    let told = teller.tell_answer();
    assert_told(
        &rt,
        &teller,
        told,
        (
            Status::Refused(Refusal::NoTransaction),
            "refused 2 notransaction",
        ),
    );
    assert_eq!(rt; teller.open_count(), 1);
    assert_eq!(rt; teller.commit_count(), 1);
    let told = teller.abort_oldest(alloc);
    assert_told(&rt, &teller, told, (Status::Done, "aborted 2"));
    let told = teller.abort_oldest(alloc);
    assert_told(&rt, &teller, told, (Status::NoneOpen, ""));
    let told = teller.tell_world();
    assert_told(&rt, &teller, told, (Status::Done, AFTER));
    let told = teller.tell_history();
    assert_told(&rt, &teller, told, (Status::Done, HISTORY));
    let told = teller.tell_file(alloc, b"/system", b"cgroup.procs");
    assert_told(&rt, &teller, told, (Status::Done, "1\n"));
    let told = teller.tell_file(alloc, b"/absent", b"cgroup.procs");
    assert_told(&rt, &teller, told, (Status::Refused(Refusal::NoGroup), ""));
    let told = teller.tell_file(alloc, b"/system", b"cpuset.cpus");
    assert_told(&rt, &teller, told, (Status::Refused(Refusal::NoFile), ""));
    let told = teller.tell_file(alloc, b"system", b"cgroup.procs");
    assert_told(&rt, &teller, told, (Status::Refused(Refusal::Syntax), ""));
    Ok(())
}

#[test]
fn texts_are_copied_in_parts(rt: HostRuntime) {
    let mut out = *b"------";
    assert_eq!(rt; copy_text(b"abcdefgh", 0, &mut out), 6);
    assert!(rt; out == *b"abcdef");
    assert_eq!(rt; copy_text(b"abcdefgh", 6, &mut out), 2);
    assert!(rt; out == *b"ghcdef");
    assert_eq!(rt; copy_text(b"abcdefgh", 9, &mut out), 0);
}

#[test]
fn refusals_have_words(rt: HostRuntime) {
    assert!(rt; word_of_number(1) == "syntax");
    assert!(rt; word_of_number(5) == "busy");
    assert!(rt; word_of_number(25) == "writefault");
    assert!(rt; word_of_number(0) == "");
    assert!(rt; word_of_number(26) == "");
}

#[test]
fn texts_of_no_world_are_refused(rt: HostRuntime) {
    match Teller::open(rt.alloc(), b"world 3\nend\n", 64) {
        Ok(_) => panic!(rt; "a world"),
        Err(refusal) => assert_eq!(rt; refusal, Refusal::Syntax),
    }
}
