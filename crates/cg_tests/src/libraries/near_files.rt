//! Interface files whose names are near a word.
use cg_name::FileName;
use cg_near::near_file;

// A word, and the name of the file that is nearest; nothing where none is near.
type Row = (&'static str, Option<&'static str>);

const ROWS: [Row; 12] = [
    ("cgroup.proc", Some("cgroup.procs")),
    ("cgroup.prosc", Some("cgroup.procs")),
    ("cgroups.controller", Some("cgroup.controllers")),
    ("cgroup.subtree-control", Some("cgroup.subtree_control")),
    ("cpuset.cpus", Some("cpuset.cpus")),
    ("cpuset.effective", Some("cpuset.cpus.effective")),
    ("cgroup.max", None),
    ("cgroup.max.dept", Some("cgroup.max.depth")),
    ("cgroup.fröze", Some("cgroup.freeze")),
    ("procs", None),
    ("", None),
    ("ccccccgroup.procs", Some("cgroup.procs")),
];

// Whether the file that is near is the row's.
fn is_as(row: &Row, found: Option<FileName>) -> bool {
    match (row.1, found) {
        (Some(name), Some(file)) => file.word() == name,
        (None, None) => true,
        _ => false,
    }
}

#[test]
fn names_are_near_words(rt: HostRuntime) {
    for row in &ROWS {
        let found = near_file(rt.alloc(), row.0).expect(&rt, "memory");
        assert!(rt; is_as(row, found));
    }
}
