//! Runs of one worker.
use crate::runner::gates::Open;
use crate::runner::running::write_run;
use cg_name::Refusal;
use std::alloc::Global;
use std::sync::Wait;
use std::thread::Threads;

// Scripts that one worker runs, each begun at most three times; how they end, and what the tree has beside the root then.
static ROWS: [(&[&str], &str); 7] = [
    (
        &["create /a\n", "create /a\n"],
        "committed 1 tries 1
failed 1 refused 7 exists tries 1
group /a - 0 -
proc 10 /
proc 11 /
end
",
    ),
    (
        &["create /a\nabort\n", "create /b/c\n"],
        "aborted tries 1
failed 1 refused 6 nogroup tries 1
proc 10 /
proc 11 /
end
",
    ),
    (
        &[],
        "proc 10 /
proc 11 /
end
",
    ),
    (
        &["", "abort"],
        "committed 1 tries 1
aborted tries 1
proc 10 /
proc 11 /
end
",
    ),
    (
        &["create /a\ncreate /b/c\ncreate /d\n", "create /b\n"],
        "failed 2 refused 6 nogroup tries 1
committed 1 tries 1
group /b - 0 -
proc 10 /
proc 11 /
end
",
    ),
    (
        &["create /a\nsave m\ncreate /b\nback m\nundo\ncreate /c\nshow /c cgroup.procs"],
        "committed 1 tries 1
group /c - 0 -
proc 10 /
proc 11 /
end
",
    ),
    (
        &["undo", "back m", "save m\nsave m\nabort"],
        "failed 1 refused 18 nothingtoundo tries 1
failed 1 refused 16 nosavepoint tries 1
failed 2 refused 17 nametaken tries 1
proc 10 /
proc 11 /
end
",
    ),
];

// The first scripts whose run ends otherwise than it has to.
fn first_wrong<R: Threads + Wait + Sync>(
    rt: &R,
    alloc: Global,
    rows: &'static [(&[&str], &str)],
) -> Result<Option<&'static [&'static str]>, Refusal> {
    for (texts, want) in rows {
        let mut out = String::new(alloc);
        write_run(rt, alloc, &Open, texts, 1, 3, &mut out)?;
        if out.as_str() != *want {
            return Ok(Some(texts));
        }
    }
    Ok(None)
}

#[test]
fn one_worker_runs_scripts_one_after_another(rt: HostRuntime) {
    assert!(rt; first_wrong(&rt, rt.alloc(), &ROWS) == Ok(None));
}
