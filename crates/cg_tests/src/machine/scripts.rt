//! Scripts that are read, and texts that spell none.
use cg_name::Refusal;
use cg_script::{Script, SessionName, read_script, write_line};
use std::alloc::{AllocError, Global};

// Appends the line of each request, and one more where the script aborts.
fn write_script(script: &Script, name: SessionName, out: &mut Vec<u8>) -> Result<(), AllocError> {
    for request in script.requests.as_slice() {
        write_line(name, request, out)?;
        out.push(b'\n')?;
    }
    if script.aborts {
        out.extend_from_slice(b"aborts\n")?;
    }
    Ok(())
}

// Appends these lines of the script that a text spells.
fn rewrite(alloc: Global, text: &[u8], out: &mut Vec<u8>) -> Result<(), Refusal> {
    let name = SessionName::read("s")?;
    let script = read_script(alloc, text)?;
    Ok(write_script(&script, name, out)?)
}

// Whether the script of the text has these lines.
fn is_read(alloc: Global, text: &str, want: &str) -> bool {
    let mut out = Vec::new(alloc);
    rewrite(alloc, text.as_bytes(), &mut out) == Ok(()) && out.as_slice() == want.as_bytes()
}

// The place of the first row that is wrong.
fn first_wrong(alloc: Global, rows: &[(&str, &str)]) -> Option<usize> {
    for place in 0..rows.len() {
        let (text, want) = rows[place];
        if !is_read(alloc, text, want) {
            return Some(place);
        }
    }
    None
}

static SCRIPTS: [(&str, &str); 6] = [
    ("", ""),
    ("# nothing\n\n \t\n", ""),
    ("abort", "aborts\n"),
    (
        "create /a\r\n\n# then\nabort\n# behind it\n \n",
        "s create /a\naborts\n",
    ),
    (" save\tA\nundo \nback A", "s save A\ns undo\ns back A\n"),
    (
        "create \"/a\"\nremove /a\nmigrate 0010 /a\nsubtree / +cpu\nfreeze /a 1\ncpus /a 1,0\nshow / cgroup.procs\nonline 0\nmaxdescendants /a 010\nmaxdepth /a max\n",
        "s create /a\ns remove /a\ns migrate 10 /a\ns subtree / +cpu\ns freeze /a 1\ns cpus /a 0-1\ns show / cgroup.procs\ns online 0\ns maxdescendants /a 10\ns maxdepth /a max\n",
    ),
];

#[test]
fn scripts_are_read(rt: HostRuntime) {
    assert!(rt; first_wrong(rt.alloc(), &SCRIPTS) == None);
}

// Whether the text is refused for its grammar.
fn is_refused(alloc: Global, text: &[u8]) -> bool {
    match read_script(alloc, text) {
        Ok(_) => false,
        Err(refusal) => refusal == Refusal::Syntax,
    }
}

// The place of the first text that spells a script.
fn first_script(alloc: Global, texts: &[&str]) -> Option<usize> {
    for place in 0..texts.len() {
        if !is_refused(alloc, texts[place].as_bytes()) {
            return Some(place);
        }
    }
    None
}

static NO_SCRIPTS: [&str; 8] = [
    "begin\ncreate /a\n",
    "create /a\ncommit\n",
    "abort\ncreate /a\n",
    "abort\nabort\n",
    "create /a\ncreate\ncreate /b\n",
    "s create /a\n",
    "save\n",
    "online\n",
];

#[test]
fn what_is_no_script_is_refused(rt: HostRuntime) {
    assert!(rt; first_script(rt.alloc(), &NO_SCRIPTS) == None);
}
