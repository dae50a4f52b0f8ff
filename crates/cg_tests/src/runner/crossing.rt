//! A script that another one lets go on once it has ended.
use crate::runner::running::write_run;
use cg_desk::Desk;
use cg_name::Refusal;
use cg_runner::{Gate, ScriptEnd};
use std::alloc::Global;
use std::sync::{Condvar, Mutex, Wait};
use std::thread::Threads;
use std::time::{Clock, Duration};

// The first script, and how both end. The second one makes the same group, in one try: where the first one's transaction were still
// open, it would give up.
static CASES: [(&str, &str); 3] = [
    (
        "create /a\nremove /a\n",
        "committed 1 tries 1\ncommitted 2 tries 1\n",
    ),
    (
        "create /a\nabort\n",
        "aborted tries 1\ncommitted 1 tries 1\n",
    ),
    (
        "create /a\ncreate /a\n",
        "failed 2 refused 7 exists tries 1\ncommitted 1 tries 1\n",
    ),
];

const SECOND: &str = "create /a\n";

// What the tree has beside its root then, and whether the gate has waited too long.
const REST: &str = "group /a - 0 -
proc 10 /
proc 11 /
end
late false
";

// For how long is waited at most, in milliseconds.
const PATIENCE: u64 = 10_000;

// How far both scripts are.
#[derive(Clone, Copy)]
struct Stage {
    has_first_ended: bool,
    is_second_answered: bool,
    // Whether something was waited for too long.
    is_late: bool,
}

// Holds the second script's second call until the first script has ended, and who tells of that end until that call was answered.
#[derive(Drop)]
struct Crossing<'a, R> {
    rt: &'a R,
    stage: Mutex<Stage>,
    changed: Condvar,
}

impl<R: Wait + Clock> Gate for Crossing<'_, R> {
    fn before(&self, script: u32, call: u32) {
        if script == 2 && call == 2 {
            let (mut stage, waited) = self.changed.wait_timeout_while(
                self.rt,
                self.stage.lock(self.rt),
                Duration::from_millis(PATIENCE),
                |stage| !stage.has_first_ended,
            );
            stage.is_late |= waited.timed_out();
        }
    }

    fn after(&self, script: u32, call: u32) {
        if script == 2 && call == 2 {
            self.stage.lock(self.rt).is_second_answered = true;
            self.changed.notify_all();
        }
    }

    fn ended(&self, _desk: &Desk, script: u32, _end: ScriptEnd) {
        if script != 1 {
            return;
        }
        self.stage.lock(self.rt).has_first_ended = true;
        self.changed.notify_all();
        let (mut stage, waited) = self.changed.wait_timeout_while(
            self.rt,
            self.stage.lock(self.rt),
            Duration::from_millis(PATIENCE),
            |stage| !stage.is_second_answered,
        );
        stage.is_late |= waited.timed_out();
    }
}

// How two workers run both scripts.
fn run<R: Threads + Wait + Clock + Sync>(
    rt: &R,
    alloc: Global,
    first: &str,
) -> Result<String, Refusal> {
    let gate = Crossing {
        rt,
        stage: Mutex::new(Stage {
            has_first_ended: false,
            is_second_answered: false,
            is_late: false,
        }),
        changed: Condvar::new(),
    };
    let mut out = String::new(alloc);
    write_run(rt, alloc, &gate, &[first, SECOND], 2, 1, &mut out)?;
    let stage = *gate.stage.lock(rt);
    let is_late = stage.is_late;
    writeln!(out, "late {is_late}")?;
    Ok(out)
}

// The first of the cases that ends otherwise, by its first script.
fn first_wrong<R: Threads + Wait + Clock + Sync>(
    rt: &R,
    alloc: Global,
) -> Result<Option<&'static str>, Refusal> {
    for (first, ends) in &CASES {
        let out = run(rt, alloc, first)?;
        if out.as_str().strip_prefix(*ends) != Some(REST) {
            return Ok(Some(*first));
        }
    }
    Ok(None)
}

#[test]
fn a_script_that_has_ended_is_in_nobodys_way(rt: HostRuntime) {
    assert!(rt; first_wrong(&rt, rt.alloc()) == Ok(None));
}
