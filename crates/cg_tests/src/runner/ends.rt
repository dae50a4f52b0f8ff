//! What a gate that is told of a script's end sees of the desk.
use crate::opening::{BARE, world};
use crate::runner::running::write_run;
use crate::views::publishing::text;
use cg_desk::Desk;
use cg_name::{FileName, Refusal};
use cg_runner::{Gate, ScriptEnd};
use cg_view::{Publisher, Viewer};
use std::alloc::Global;
use std::sync::{Mutex, Wait};
use std::thread::Threads;

// Scripts that commit, abort and fail, and the empty one.
static TEXTS: [&str; 6] = [
    "create /a\n",
    "create /b\nabort\n",
    "create /a\n",
    "",
    "create /a/b\nremove /a/b\n",
    "remove /a\n",
];

// The end of each, how many commits are seen then, and how the group of the first is read.
const SEEN: &str = "script 1 committed 1 tries 1: commits 1, there
script 2 aborted tries 1: commits 1, there
script 3 failed 1 refused 7 exists tries 1: commits 1, there
script 4 committed 2 tries 1: commits 2, there
script 5 committed 3 tries 1: commits 3, there
script 6 committed 4 tries 1: commits 4, refused 6 nogroup
";

// What shows a desk's commits, and what was seen of them.
#[derive(Drop)]
struct Seen<'a> {
    publisher: &'a mut Publisher,
    viewer: Viewer,
    text: String,
}

// Looks at what the desk has committed whenever a script has ended.
#[derive(Drop)]
struct Looking<'a, R> {
    rt: &'a R,
    alloc: Global,
    seen: Mutex<Seen<'a>>,
}

impl<'a> Seen<'a> {
    // Publishes what the desk has committed, and appends what is seen then.
    fn look(
        &mut self,
        rt: &impl Wait,
        alloc: Global,
        desk: &Desk,
        script: u32,
        end: ScriptEnd,
    ) -> Result<(), Refusal> {
        self.viewer.learn(desk.publish(rt, alloc, self.publisher)?);
        let group = text(alloc, &mut self.viewer, "/a", FileName::Procs);
        let commits = self.viewer.commits();
        write!(self.text, "script {script} {end}: commits {commits}, ")?;
        match group {
            Ok(_) => writeln!(self.text, "there")?,
            Err(refusal) => writeln!(self.text, "{refusal}")?,
        }
        Ok(())
    }
}

impl<R: Wait> Gate for Looking<'_, R> {
    fn before(&self, _script: u32, _call: u32) {}

    fn after(&self, _script: u32, _call: u32) {}

    fn ended(&self, desk: &Desk, script: u32, end: ScriptEnd) {
        // Where it is refused, a line is missing.
        let _ = self
            .seen
            .lock(self.rt)
            .look(self.rt, self.alloc, desk, script, end);
    }
}

// What a gate sees as one worker runs the scripts.
fn seen_at_ends<R: Threads + Wait + Sync>(
    rt: &R,
    alloc: Global,
    publisher: &mut Publisher,
) -> Result<String, Refusal> {
    let viewer = publisher.viewer()?;
    let gate = Looking {
        rt,
        alloc,
        seen: Mutex::new(Seen {
            publisher,
            viewer,
            text: String::new(alloc),
        }),
    };
    let mut out = String::new(alloc);
    write_run(rt, alloc, &gate, &TEXTS, 1, 3, &mut out)?;
    let Looking { seen, .. } = gate;
    let Seen { text, .. } = seen.into_inner();
    Ok(text)
}

#[test]
fn a_gate_is_told_of_an_end_behind_it(rt: HostRuntime) {
    let opening = world(rt.alloc(), BARE).expect(&rt, "memory");
    let mut publisher = Publisher::new(rt.alloc(), &opening).expect(&rt, "memory");
    let answer = seen_at_ends(&rt, rt.alloc(), &mut publisher);
    publisher.end(&rt);
    assert!(rt; matches!(&answer, Ok(text) if text.as_str() == SEEN));
}
