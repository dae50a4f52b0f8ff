//! Lines that can't be cut into words.
use crate::fault::{Fault, Wrong};
use cg_text::LONGEST_LINE;

// How far a line was read.
#[derive(Clone, Copy)]
enum State {
    // Between words.
    Between,
    // In a bare word.
    Bare,
    // Behind a quotation mark, which stands at this place.
    Quoted(usize),
    // Behind a backslash there.
    Escaped(usize),
    // Behind a quoted word.
    Closed,
}

// Where a line can't be cut into words, from 0 on, and why.
fn why_uncut<'a>(line: &[u8]) -> (usize, Wrong<'a>) {
    if line.len() > LONGEST_LINE {
        return (
            LONGEST_LINE,
            Wrong::here("the line is too long", "it may have 65536 bytes at most"),
        );
    }
    match std::str::from_utf8(line) {
        Err(error) => (
            error.valid_up_to(),
            Wrong::here(
                "the line is not UTF-8 from here on",
                "a character of UTF-8 may stand here",
            ),
        ),
        Ok(_) => why_no_words(line),
    }
}

// The same of a line that is text and not too long.
fn why_no_words<'a>(line: &[u8]) -> (usize, Wrong<'a>) {
    let mut state = State::Between;
    for (place, byte) in line.iter().enumerate() {
        match behind(state, place, *byte) {
            Ok(next) => state = next,
            Err(wrong) => return (place, wrong),
        }
    }
    match state {
        State::Quoted(place) | State::Escaped(place) => (
            place,
            Wrong::here(
                "this quotation mark is not closed",
                "another one may stand behind the word",
            ),
        ),
        _ => (
            0,
            Wrong::here(
                "the line is not cut into words",
                "words and blanks may stand here",
            ),
        ),
    }
}

// The state behind one byte more.
fn behind<'a>(state: State, place: usize, byte: u8) -> Result<State, Wrong<'a>> {
    match (state, byte) {
        (State::Between | State::Closed | State::Bare, b' ' | b'\t') => Ok(State::Between),
        (State::Closed, b'\r') => Ok(State::Closed),
        (State::Closed, _) => Err(Wrong::here(
            "this follows a quoted word",
            "a space, a tab or the line's end may stand here",
        )),
        (State::Between, b'"') => Ok(State::Quoted(place)),
        (State::Between | State::Bare, b'"' | b'\\') => Err(Wrong::here(
            "a bare word has no quotation mark and no backslash",
            "a path with one may stand between quotation marks",
        )),
        (State::Between | State::Bare, _) => Ok(State::Bare),
        (State::Quoted(_), b'"') => Ok(State::Closed),
        (State::Quoted(opened), b'\\') => Ok(State::Escaped(opened)),
        (State::Quoted(opened), _) => Ok(State::Quoted(opened)),
        (State::Escaped(opened), b'"' | b'\\' | b'n') => Ok(State::Quoted(opened)),
        (State::Escaped(_), _) => Err(Wrong::here(
            "this follows a backslash",
            "a quotation mark, a backslash or n may stand here",
        )),
    }
}

// The fault of a line that isn't cut into words.
pub(crate) fn uncut<'a>(number: usize, line: &'a [u8]) -> Fault<'a> {
    let (place, wrong) = why_uncut(line);
    Fault {
        line: number,
        column: place.saturating_add(1),
        wrong,
    }
}
