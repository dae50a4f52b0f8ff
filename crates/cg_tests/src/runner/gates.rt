//! Gates.
use cg_desk::Desk;
use cg_runner::{Gate, ScriptEnd};
use std::sync::atomic::{AtomicU32, Ordering};
use std::sync::{Condvar, Mutex, Wait};
use std::time::{Clock, Duration};

/// Holds no call.
#[derive(Drop)]
pub(crate) struct Open;

impl Gate for Open {
    fn before(&self, _script: u32, _call: u32) {}

    fn after(&self, _script: u32, _call: u32) {}
}

/// Holds no call, and counts the calls that were asked for and that were answered, the scripts that have ended, and how often these
/// were begun.
#[derive(Drop)]
pub(crate) struct Counting {
    pub(crate) asked: AtomicU32,
    pub(crate) answered: AtomicU32,
    pub(crate) ended: AtomicU32,
    pub(crate) begun: AtomicU32,
}

impl Counting {
    pub(crate) fn new() -> Counting {
        Counting {
            asked: AtomicU32::new(0),
            answered: AtomicU32::new(0),
            ended: AtomicU32::new(0),
            begun: AtomicU32::new(0),
        }
    }
}

impl Gate for Counting {
    fn before(&self, _script: u32, _call: u32) {
        self.asked.fetch_add(1, Ordering::SeqCst);
    }

    fn after(&self, _script: u32, _call: u32) {
        self.answered.fetch_add(1, Ordering::SeqCst);
    }

    fn ended(&self, _desk: &Desk, _script: u32, end: ScriptEnd) {
        self.ended.fetch_add(1, Ordering::SeqCst);
        self.begun.fetch_add(end.tries(), Ordering::SeqCst);
    }
}

// For how long a call is held at most, in milliseconds.
const PATIENCE: u64 = 10_000;

/// A call of a script that is held until another script's call was answered.
pub(crate) struct Rule {
    pub(crate) script: u32,
    pub(crate) call: u32,
    // The number of the other's call.
    pub(crate) behind: u32,
}

/// What a gate was told of a script.
#[derive(Clone, Copy)]
pub(crate) struct Told {
    // Which call was answered last.
    pub(crate) answered: u32,
    // How often it has ended, and which call had been answered last then.
    pub(crate) endings: u32,
    pub(crate) last: u32,
    // How it ended.
    pub(crate) end: Option<ScriptEnd>,
}

impl Told {
    fn new() -> Told {
        Told {
            answered: 0,
            endings: 0,
            last: 0,
            end: None,
        }
    }
}

/// What a gate was told of two scripts.
#[derive(Clone, Copy)]
pub(crate) struct Both {
    pub(crate) first: Told,
    pub(crate) second: Told,
    // Whether a call was held too long.
    pub(crate) is_late: bool,
}

impl Both {
    fn new() -> Both {
        Both {
            first: Told::new(),
            second: Told::new(),
            is_late: false,
        }
    }

    // What was told of a script.
    fn of(&mut self, script: u32) -> &mut Told {
        if script == 1 {
            &mut self.first
        } else {
            &mut self.second
        }
    }

    fn answer(&mut self, script: u32, call: u32) {
        self.of(script).answered = call;
    }

    fn end(&mut self, script: u32, end: ScriptEnd) {
        let told = self.of(script);
        told.endings = told.endings.saturating_add(1);
        told.last = told.answered;
        told.end = Some(end);
    }
}

/// A gate for two scripts, which holds some calls of each until a call of the other was answered.
#[derive(Drop)]
pub(crate) struct Holding<'a, R> {
    rt: &'a R,
    rules: &'static [Rule],
    both: Mutex<Both>,
    answered: Condvar,
}

impl<'a, R: Wait + Clock> Holding<'a, R> {
    pub(crate) fn new(rt: &'a R, rules: &'static [Rule]) -> Holding<'a, R> {
        Holding {
            rt,
            rules,
            both: Mutex::new(Both::new()),
            answered: Condvar::new(),
        }
    }

    /// What it was told so far.
    pub(crate) fn told(&self) -> Both {
        *self.both.lock(self.rt)
    }

    // Waits until that call of the script was answered.
    fn hold(&self, script: u32, call: u32) {
        let (mut both, waited) = self.answered.wait_timeout_while(
            self.rt,
            self.both.lock(self.rt),
            Duration::from_millis(PATIENCE),
            |both| both.of(script).answered < call,
        );
        if waited.timed_out() {
            both.is_late = true;
        }
    }
}

impl<R: Wait + Clock> Gate for Holding<'_, R> {
    fn before(&self, script: u32, call: u32) {
        for rule in self.rules {
            if rule.script == script && rule.call == call {
                self.hold(if script == 1 { 2 } else { 1 }, rule.behind);
            }
        }
    }

    fn after(&self, script: u32, call: u32) {
        self.both.lock(self.rt).answer(script, call);
        self.answered.notify_all();
    }

    fn ended(&self, _desk: &Desk, script: u32, end: ScriptEnd) {
        self.both.lock(self.rt).end(script, end);
    }
}
