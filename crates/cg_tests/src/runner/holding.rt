//! Two scripts in two threads, and a gate that holds their calls.
use crate::runner::gates::{Both, Holding, Rule, Told};
use crate::runner::running::write_run;
use cg_name::Refusal;
use cg_runner::ScriptEnd;
use std::alloc::{AllocError, Global};
use std::sync::Wait;
use std::thread::Threads;
use std::time::Clock;

/// Two scripts that two workers run, and how that has to end.
struct Case {
    name: &'static str,
    rules: &'static [Rule],
    texts: &'static [&'static str],
    // Whether a script that met the other is begun anew, once.
    is_begun_anew: bool,
    // How the scripts end: any of these.
    ends: &'static [&'static str],
    // What the tree has beside its root then, and what the gate was told.
    rest: &'static str,
}

// The second call of each comes behind the first of the other.
const ABREAST: [Rule; 2] = [
    Rule {
        script: 1,
        call: 2,
        behind: 1,
    },
    Rule {
        script: 2,
        call: 2,
        behind: 1,
    },
];

// The second script's first call comes behind the first's, its second between the second and the third of the first, and its fourth
// behind them.
const CROSSED: [Rule; 4] = [
    Rule {
        script: 2,
        call: 1,
        behind: 1,
    },
    Rule {
        script: 2,
        call: 2,
        behind: 2,
    },
    Rule {
        script: 1,
        call: 3,
        behind: 2,
    },
    Rule {
        script: 2,
        call: 4,
        behind: 3,
    },
];

// The same, where the second script's third call is the one that comes between.
const CROSSED_LATER: [Rule; 3] = [
    Rule {
        script: 2,
        call: 1,
        behind: 1,
    },
    Rule {
        script: 2,
        call: 3,
        behind: 2,
    },
    Rule {
        script: 1,
        call: 3,
        behind: 3,
    },
];

// The first script asks for nothing before the second has ended, by its third call.
const OVERTAKEN: [Rule; 1] = [Rule {
    script: 1,
    call: 2,
    behind: 3,
}];

static CASES: [Case; 4] = [
    Case {
        name: "two transactions are open at once",
        rules: &ABREAST,
        texts: &["create /a", "create /b"],
        is_begun_anew: false,
        ends: &[
            "committed 1 tries 1\ncommitted 2 tries 1\n",
            "committed 2 tries 1\ncommitted 1 tries 1\n",
        ],
        rest: "group /a - 0 -
group /b - 0 -
proc 10 /
proc 11 /
end
calls 3, ended 1 behind call 3, tries 1
calls 3, ended 1 behind call 3, tries 1
late false
",
    },
    Case {
        name: "a script gives up behind its last try",
        rules: &CROSSED_LATER,
        texts: &["create /a", "save here\ncreate /a/b"],
        is_begun_anew: false,
        ends: &["committed 1 tries 1\ngaveup tries 1\n"],
        rest: "group /a - 0 -
proc 10 /
proc 11 /
end
calls 3, ended 1 behind call 3, tries 1
calls 4, ended 1 behind call 4, tries 1
transaction 1 was in the way of request 2
late false
",
    },
    Case {
        name: "a script is begun anew where another was in its way",
        rules: &CROSSED,
        texts: &["create /a", "create /a/b"],
        is_begun_anew: true,
        ends: &["committed 1 tries 1\ncommitted 2 tries 2\n"],
        rest: "group /a - 0 -
group /a/b - 0 -
proc 10 /
proc 11 /
end
calls 3, ended 1 behind call 3, tries 1
calls 6, ended 1 behind call 6, tries 2
late false
",
    },
    Case {
        name: "each end is that of its script, also where the second script ends first",
        rules: &OVERTAKEN,
        texts: &["create /a", "create /b\nabort"],
        is_begun_anew: false,
        ends: &["committed 1 tries 1\naborted tries 1\n"],
        rest: "group /a - 0 -
proc 10 /
proc 11 /
end
calls 3, ended 1 behind call 3, tries 1
calls 3, ended 1 behind call 3, tries 1
late false
",
    },
];

// Appends what a gate was told of a script.
fn write_told(told: Told, out: &mut String) -> Result<(), AllocError> {
    let answered = told.answered;
    let endings = told.endings;
    let last = told.last;
    let tries = match told.end {
        Some(end) => end.tries(),
        None => 0,
    };
    writeln!(
        out,
        "calls {answered}, ended {endings} behind call {last}, tries {tries}"
    )?;
    if let Some(ScriptEnd::GaveUp { line, holder, .. }) = told.end {
        let number = holder.0;
        writeln!(out, "transaction {number} was in the way of request {line}")?;
    }
    Ok(())
}

// Appends what a gate was told of either script, and whether a call was held too long.
fn write_both(both: Both, out: &mut String) -> Result<(), AllocError> {
    write_told(both.first, out)?;
    write_told(both.second, out)?;
    let is_late = both.is_late;
    writeln!(out, "late {is_late}")
}

// Appends how the case ends.
fn write_case<R: Threads + Wait + Clock + Sync>(
    rt: &R,
    alloc: Global,
    case: &Case,
    out: &mut String,
) -> Result<(), Refusal> {
    let gate = Holding::new(rt, case.rules);
    let tries = if case.is_begun_anew { 2 } else { 1 };
    write_run(rt, alloc, &gate, case.texts, 2, tries, out)?;
    Ok(write_both(gate.told(), out)?)
}

// Whether the case ends so.
fn ends_so(case: &Case, text: &str) -> bool {
    case.ends
        .iter()
        .any(|ends| text.strip_prefix(*ends) == Some(case.rest))
}

// The first case that ends otherwise than it has to.
fn first_wrong<R: Threads + Wait + Clock + Sync>(
    rt: &R,
    alloc: Global,
    cases: &'static [Case],
) -> Result<Option<&'static str>, Refusal> {
    for case in cases {
        let mut out = String::new(alloc);
        write_case(rt, alloc, case, &mut out)?;
        if !ends_so(case, out.as_str()) {
            return Ok(Some(case.name));
        }
    }
    Ok(None)
}

#[test]
fn two_scripts_run_at_once(rt: HostRuntime) {
    assert!(rt; first_wrong(&rt, rt.alloc(), &CASES) == Ok(None));
}
