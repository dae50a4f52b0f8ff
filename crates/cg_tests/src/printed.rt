//! The printed texts of refusals and faults, and of words that are read.
use cg_name::{Controller, Refusal, TxnNumber};
use cg_script::ScriptFault;
use std::alloc::AllocError;

// Whether this was printed.
fn is_printed(printed: &Result<String, AllocError>, text: &str) -> bool {
    match printed {
        Ok(printed) => printed.as_str() == text,
        Err(_) => false,
    }
}

const REFUSALS: [(Refusal, &str); 25] = [
    (Refusal::Syntax, "refused 1 syntax"),
    (Refusal::NoTransaction, "refused 2 notransaction"),
    (Refusal::AlreadyOpen, "refused 3 alreadyopen"),
    (Refusal::Full, "refused 4 full"),
    (Refusal::Busy(TxnNumber(12)), "refused 5 busy 12"),
    (Refusal::NoGroup, "refused 6 nogroup"),
    (Refusal::Exists, "refused 7 exists"),
    (Refusal::IsRoot, "refused 8 isroot"),
    (Refusal::HasChildren, "refused 9 haschildren"),
    (Refusal::HasProcesses, "refused 10 hasprocesses"),
    (Refusal::NoProcess, "refused 11 noprocess"),
    (Refusal::Controlled, "refused 12 controlled"),
    (
        Refusal::Unavailable(Controller::Hugetlb),
        "refused 13 unavailable hugetlb",
    ),
    (Refusal::InUse(Controller::Cpu), "refused 14 inuse cpu"),
    (Refusal::NoFile, "refused 15 nofile"),
    (Refusal::NoSavepoint, "refused 16 nosavepoint"),
    (Refusal::NameTaken, "refused 17 nametaken"),
    (Refusal::NothingToUndo, "refused 18 nothingtoundo"),
    (Refusal::Memory, "refused 19 memory"),
    (Refusal::Lost, "refused 20 lost"),
    (Refusal::Disagree, "refused 21 disagree"),
    (Refusal::TooMany, "refused 22 toomany"),
    (Refusal::TooDeep, "refused 23 toodeep"),
    (Refusal::ReadFault, "refused 24 readfault"),
    (Refusal::WriteFault, "refused 25 writefault"),
];

#[test]
fn refusals_are_printed(rt: HostRuntime) {
    for (refusal, text) in &REFUSALS {
        let printed = format!(in rt.alloc(); "{refusal}");
        assert!(rt; is_printed(&printed, text), "{text}");
    }
}

#[test]
fn words_are_read_and_printed(rt: HostRuntime) {
    let controller: Result<Controller, Refusal> = "hugetlb".parse();
    assert!(rt; controller == Ok(Controller::Hugetlb));
    let printed = format!(in rt.alloc(); "{}|{:>6}|", Controller::Hugetlb, Controller::Io);
    assert!(rt; is_printed(&printed, "hugetlb|    io|"));
}

const FAULTS: [(ScriptFault, &str); 4] = [
    (ScriptFault::Syntax, "the text is not in its grammar"),
    (ScriptFault::Memory, "memory ran out"),
    (ScriptFault::ReadFault, "the reader failed"),
    (ScriptFault::WriteFault, "the writer failed"),
];

#[test]
fn faults_are_printed(rt: HostRuntime) {
    for (fault, text) in &FAULTS {
        let printed = format!(in rt.alloc(); "{fault}");
        assert!(rt; is_printed(&printed, text), "{text}");
    }
}
