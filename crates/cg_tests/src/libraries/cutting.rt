//! Lines that are cut into words.
use cg_name::Refusal;
use cg_text::{LineWords, read_words};
use std::alloc::{AllocError, Global};

// Appends the words of a line, with a bar behind each.
fn write_words(alloc: Global, line: &[u8], out: &mut Vec<u8>) -> Result<(), Refusal> {
    let mut words = LineWords::new(alloc);
    if !read_words(line, &mut words)? {
        return Ok(());
    }
    for word in words.as_slice() {
        out.extend_from_slice(word.as_bytes())?;
        out.push(b'|')?;
    }
    Ok(())
}

// Whether the line has these words.
fn is_cut(alloc: Global, line: &[u8], want: &[u8]) -> bool {
    let mut out = Vec::new(alloc);
    write_words(alloc, line, &mut out) == Ok(()) && out.as_slice() == want
}

// The place of the first row that is wrong.
fn first_wrong(alloc: Global, rows: &[(&str, &str)]) -> Option<usize> {
    for place in 0..rows.len() {
        let (line, want) = rows[place];
        if !is_cut(alloc, line.as_bytes(), want.as_bytes()) {
            return Some(place);
        }
    }
    None
}

static CUT: [(&str, &str); 14] = [
    ("a bc d", "a|bc|d|"),
    ("\ta\t\tb \t c\t", "a|b|c|"),
    ("  a  b  ", "a|b|"),
    (" \t # a b", ""),
    ("a #b c#", "a|#b|c#|"),
    ("a\u{1f}b \u{1f}", "a\u{1f}b|\u{1f}|"),
    ("!a b! !", "!a|b!|!|"),
    ("[a b[ [", "[a|b[|[|"),
    ("]a b] ]", "]a|b]|]|"),
    ("\u{7f}a b\u{7f} \u{7f}", "\u{7f}a|b\u{7f}|\u{7f}|"),
    ("a \"b c\"\t\"\" d", "a|\"b c\"|\"\"|d|"),
    ("\"a\\\"\\\\\\n\" b", "\"a\\\"\\\\\\n\"|b|"),
    ("a b c d e f g h i j", "a|b|c|d|e|f|g|h|i|j|"),
    ("a b c d e f g \"h\" i j", "a|b|c|d|e|f|g|\"h\"|i|j|"),
];

#[test]
fn lines_are_cut(rt: HostRuntime) {
    assert!(rt; first_wrong(rt.alloc(), &CUT) == None);
}

// The place of the first line that isn't refused.
fn first_cut(alloc: Global, lines: &[&str]) -> Option<usize> {
    for place in 0..lines.len() {
        let mut words = LineWords::new(alloc);
        if read_words(lines[place].as_bytes(), &mut words) != Err(Refusal::Syntax) {
            return Some(place);
        }
    }
    None
}

static UNCUT: [&str; 8] = [
    "a\"b\"",
    "ab\" c",
    "a \"b\"c",
    "a \"b\"\"c\"",
    "a b\\",
    "\\ a",
    "a \"b",
    "a \"\\b\"",
];

#[test]
fn marks_out_of_place_are_refused(rt: HostRuntime) {
    assert!(rt; first_cut(rt.alloc(), &UNCUT) == None);
}

// Appends a word in which a letter of two bytes has so many bytes before it.
fn add_word(before: usize, out: &mut Vec<u8>) -> Result<(), AllocError> {
    for _ in 0..before {
        out.push(b'a')?;
    }
    out.extend_from_slice("\u{e9}b".as_bytes())
}

// Whether a line is cut that has such a word between two others.
fn is_cut_around(alloc: Global, first: &str, before: usize) -> Result<bool, AllocError> {
    let mut line = Vec::from_slice(alloc, first.as_bytes())?;
    let mut want = Vec::from_slice(alloc, first.as_bytes())?;
    line.push(b' ')?;
    want.push(b'|')?;
    add_word(before, &mut line)?;
    add_word(before, &mut want)?;
    line.extend_from_slice(b"\tc")?;
    want.extend_from_slice(b"|c|")?;
    Ok(is_cut(alloc, line.as_slice(), want.as_slice()))
}

// The first place of the letter at which the line isn't cut.
fn first_uncut(alloc: Global, first: &str) -> Option<usize> {
    for before in 0..21 {
        if is_cut_around(alloc, first, before) != Ok(true) {
            return Some(before);
        }
    }
    None
}

// Longer than a line that is cut in the shorter way.
const LONG: &str = "0123456789abcdef0123456789abcdef0123456789abcdef0123456789abcdef";

#[test]
fn letters_of_two_bytes_stand_in_words(rt: HostRuntime) {
    assert!(rt; first_uncut(rt.alloc(), "d") == None);
    assert!(rt; first_uncut(rt.alloc(), LONG) == None);
}
