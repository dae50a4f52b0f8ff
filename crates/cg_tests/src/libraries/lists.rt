//! Lists of CPU numbers and limits: which texts are read, and how what was read is written.
use cg_cpus::CpuSet;
use cg_name::Refusal;
use cg_text::{read_limit, write_limit};
use std::alloc::{AllocError, Global};

// A text, and what is written for what it says; nothing where it says nothing.
type Row = (&'static str, Option<&'static str>);

const CPUS: [Row; 20] = [
    ("3,1-2,2,0", Some("0-3")),
    ("8-10,0-4,6", Some("0-4,6,8-10")),
    ("4,5", Some("4-5")),
    ("00,01", Some("0-1")),
    ("", Some("")),
    ("127", Some("127")),
    ("128", Some("128")),
    ("1023", Some("1023")),
    ("5-5", Some("5")),
    ("0-63", Some("0-63")),
    ("63-64", Some("63-64")),
    ("64-127", Some("64-127")),
    ("1-1023", Some("1-1023")),
    ("2,60-130,191", Some("2,60-130,191")),
    ("5-3", None),
    ("1,,2", None),
    ("1,", None),
    ("1 ,2", None),
    ("-1", None),
    ("1024", None),
];

const LIMITS: [Row; 7] = [
    ("max", Some("max\n")),
    ("0", Some("0\n")),
    ("2147483646", Some("2147483646\n")),
    ("2147483647", Some("max\n")),
    ("2147483648", None),
    ("", None),
    ("Max", None),
];

// Appends the list that is written for the CPUs of the text.
fn rewrite_cpus(text: &str, out: &mut Vec<u8>) -> Result<(), Refusal> {
    CpuSet::read(text)?.write(out)?;
    Ok(())
}

// Appends what is written for the limit of the text.
fn rewrite_limit(text: &str, out: &mut Vec<u8>) -> Result<(), Refusal> {
    write_limit(read_limit(text)?, out)?;
    Ok(())
}

// Whether what was written, or why nothing was, is as the row has it.
fn is_as(row: &Row, written: Result<(), Refusal>, out: &[u8]) -> bool {
    match row.1 {
        Some(text) => written == Ok(()) && out == text.as_bytes(),
        None => written == Err(Refusal::Syntax) && out.is_empty(),
    }
}

// Whether this row of CPU lists holds.
fn holds_of_cpus(alloc: Global, row: &Row) -> bool {
    let mut out = Vec::new(alloc);
    let written = rewrite_cpus(row.0, &mut out);
    is_as(row, written, out.as_slice())
}

// Whether this row of limits holds.
fn holds_of_limit(alloc: Global, row: &Row) -> bool {
    let mut out = Vec::new(alloc);
    let written = rewrite_limit(row.0, &mut out);
    is_as(row, written, out.as_slice())
}

#[test]
fn cpu_lists_are_read_and_written(rt: HostRuntime) {
    for row in &CPUS {
        assert!(rt; holds_of_cpus(rt.alloc(), row), "{}", row.0);
    }
}

#[test]
fn limits_are_read_and_written(rt: HostRuntime) {
    for row in &LIMITS {
        assert!(rt; holds_of_limit(rt.alloc(), row), "{}", row.0);
    }
}
