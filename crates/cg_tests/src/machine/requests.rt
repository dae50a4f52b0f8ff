//! Lines of requests that are read, and written in their one form.
use cg_desk::Request;
use cg_name::Refusal;
use cg_script::{SessionName, read_line, write_line};
use std::alloc::{AllocError, Global};

// Appends the line that is written for a copy of a session's request.
fn write_copy(
    alloc: Global,
    name: SessionName,
    request: &Request,
    out: &mut Vec<u8>,
) -> Result<(), AllocError> {
    write_line(name, &request.copy(alloc)?, out)
}

// Appends the line that is written for what a line asks.
fn rewrite(alloc: Global, line: &str, out: &mut Vec<u8>) -> Result<(), Refusal> {
    match read_line(alloc, line.as_bytes())? {
        Some((name, request)) => Ok(write_copy(alloc, name, &request, out)?),
        None => Ok(()),
    }
}

const LINES: [(&str, &str); 23] = [
    ("\t A\t begin ", "> A begin"),
    ("s-1_Z  create \"/\"\r", "> s-1_Z create /"),
    ("A create /é", "> A create \"/é\""),
    ("B create \"/a \\\"b/#\"", "> B create \"/a \\\"b/#\""),
    ("0123456789abcdef commit", "> 0123456789abcdef commit"),
    ("B abort", "> B abort"),
    (" B\tundo ", "> B undo"),
    ("A save\ts-1_Z\r", "> A save s-1_Z"),
    ("A  back 0123456789abcdef", "> A back 0123456789abcdef"),
    ("A remove\t\"/a\"\r", "> A remove /a"),
    ("A migrate 0010 /a", "> A migrate 10 /a"),
    ("A migrate 4194303 /", "> A migrate 4194303 /"),
    (
        "A subtree /a +io -cpu  +cpu\t-memory",
        "> A subtree /a +cpu +io -memory",
    ),
    ("A subtree / ", "> A subtree /"),
    ("A freeze /a 1", "> A freeze /a 1"),
    ("A freeze /a 0", "> A freeze /a 0"),
    ("A cpus /a 1,0,5-6,1023", "> A cpus /a 0-1,5-6,1023"),
    ("A cpus /a", "> A cpus /a"),
    ("A show / cgroup.procs", "> A show / cgroup.procs"),
    ("A online 003,2", "> A online 2-3"),
    (
        "A maxdescendants /a 2147483647",
        "> A maxdescendants /a max",
    ),
    ("A maxdescendants /a 010", "> A maxdescendants /a 10"),
    ("A maxdepth /a max", "> A maxdepth /a max"),
];

#[test]
fn lines_are_written_in_one_form(rt: HostRuntime) {
    for (line, want) in &LINES {
        let mut out = Vec::from_slice(rt.alloc(), b"> ").expect(&rt, "memory");
        assert!(rt; rewrite(rt.alloc(), line, &mut out) == Ok(()), "{line}");
        assert!(rt; out.as_slice() == want.as_bytes(), "{line}");
    }
}
