//! The words of a line, one after another, and what each is to be.
use crate::fault::{Fault, Wrong};
use crate::want::{Want, twice};
use cg_world_text::Version;
use std::alloc::{AllocError, Global};

/// What a word at its place in a line is to be.
#[derive(Clone, Copy)]
pub(crate) enum Place {
    // This has to stand there,
    Needs(Want),
    // or this may,
    Allows(Want),
    // or any number of these from there on,
    AllowsMany(Want),
    // or nothing.
    Ends,
}

// The place of this number in a list, from 0 on.
fn place_in(places: &[Place], number: usize) -> Place {
    match places.get(number) {
        Some(place) => *place,
        None => match places.last() {
            Some(Place::AllowsMany(want)) => Place::AllowsMany(*want),
            _ => Place::Ends,
        },
    }
}

// What stands behind the keyword of a line of a world of this version. Where there is no such keyword, nothing.
pub(crate) fn places_in_world(version: Version, keyword: &str) -> &'static [Place] {
    match keyword {
        "world" => &[Place::Needs(Want::Version)],
        "controllers" => &[Place::AllowsMany(Want::Controller)],
        "online" => match version {
            Version::One => &[Place::Needs(Want::Cpus(127))],
            Version::Two => &[Place::Needs(Want::Cpus(1023))],
        },
        "group" => match version {
            Version::One => &[
                Place::Needs(Want::Path),
                Place::Needs(Want::Control),
                Place::Needs(Want::Flag),
                Place::Needs(Want::CpusOrNone(127)),
            ],
            Version::Two => &[
                Place::Needs(Want::Path),
                Place::Needs(Want::Control),
                Place::Needs(Want::Flag),
                Place::Needs(Want::CpusOrNone(1023)),
                Place::Needs(Want::Limit),
                Place::Needs(Want::Limit),
            ],
        },
        "proc" => &[Place::Needs(Want::Pid), Place::Needs(Want::Path)],
        _ => &[],
    }
}

// What stands behind the keyword of a request, where there is such a request.
pub(crate) fn places_in_request(keyword: &str) -> Option<&'static [Place]> {
    Some(match keyword {
        "begin" | "undo" | "commit" | "abort" => &[],
        "create" | "remove" => &[Place::Needs(Want::Path)],
        "migrate" => &[Place::Needs(Want::Pid), Place::Needs(Want::Path)],
        "subtree" => &[Place::Needs(Want::Path), Place::AllowsMany(Want::Operation)],
        "freeze" => &[Place::Needs(Want::Path), Place::Needs(Want::Flag)],
        "cpus" => &[Place::Needs(Want::Path), Place::Allows(Want::Cpus(1023))],
        "show" => &[Place::Needs(Want::Path), Place::Needs(Want::File)],
        "online" => &[Place::Needs(Want::Cpus(1023))],
        "maxdescendants" | "maxdepth" => &[Place::Needs(Want::Path), Place::Needs(Want::Limit)],
        "save" | "back" => &[Place::Needs(Want::Savepoint)],
        _ => return None,
    })
}

/// A line and the words that it is cut into.
#[derive(Clone, Copy)]
pub(crate) struct Line<'a, 'w> {
    // Its number, from 1.
    pub(crate) number: usize,
    pub(crate) bytes: &'a [u8],
    pub(crate) words: &'w [&'a str],
}

impl<'a> Line<'a, '_> {
    // The word at this place, an empty one where there are fewer.
    pub(crate) fn word(&self, place: usize) -> &'a str {
        match self.words.get(place) {
            Some(word) => word,
            None => "",
        }
    }

    // What is wrong at so many bytes from where the word of this place begins; or right behind the last word, where there are no more.
    pub(crate) fn fault(&self, place: usize, offset: usize, wrong: Wrong<'a>) -> Fault<'a> {
        Fault {
            line: self.number,
            column: self
                .begins_at(place)
                .saturating_add(offset)
                .saturating_add(1),
            wrong,
        }
    }

    // That the word of this place is wrong.
    pub(crate) fn wrong_word(
        &self,
        place: usize,
        is: &'static str,
        wanted: &'static str,
    ) -> Fault<'a> {
        self.fault(place, 0, Wrong::of(self.word(place), is, wanted))
    }

    // At which byte, from 0 on, the word of this place begins; where the last word ends, where there are no more.
    fn begins_at(&self, place: usize) -> usize {
        let mut rest = self.bytes;
        for word in self.words.iter().take(place) {
            rest = behind_blanks(rest);
            rest = rest.get(word.len()..).unwrap_or_default();
        }
        if place < self.words.len() {
            rest = behind_blanks(rest);
        }
        self.bytes.len().saturating_sub(rest.len())
    }

    // Why the words from this place on aren't what stands at these places.
    pub(crate) fn why_unread(
        &self,
        alloc: Global,
        places: &[Place],
        start: usize,
    ) -> Result<Option<Fault<'a>>, AllocError> {
        let mut number = 0usize;
        for word in self.words.iter().skip(start) {
            match place_in(places, number) {
                Place::Needs(want) | Place::Allows(want) | Place::AllowsMany(want) => {
                    if let Some((offset, wrong)) = want.why_not(alloc, word)? {
                        return Ok(Some(self.fault(start.saturating_add(number), offset, wrong)));
                    }
                }
                Place::Ends => {
                    let place = start.saturating_add(number);
                    return Ok(Some(self.wrong_word(
                        place,
                        "is one word too many",
                        "the line ends here",
                    )));
                }
            }
            number = number.saturating_add(1);
        }
        match place_in(places, number) {
            Place::Needs(want) => {
                let wrong = Wrong::here(want.is_missing(), want.may_be());
                Ok(Some(self.fault(self.words.len(), 0, wrong)))
            }
            _ => Ok(None),
        }
    }

    // That one of the words from this place on stands twice.
    pub(crate) fn why_twice(&self, start: usize) -> Option<Fault<'a>> {
        let mut place = start;
        for word in self.words.iter().skip(start) {
            let before = self.words.get(start..place).unwrap_or_default();
            if before.contains(word) {
                return Some(self.fault(place, 0, twice(word)));
            }
            place = place.saturating_add(1);
        }
        None
    }

    // Why the words from this place on are no request.
    pub(crate) fn why_no_request(
        &self,
        alloc: Global,
        start: usize,
    ) -> Result<Option<Fault<'a>>, AllocError> {
        let Some(keyword) = self.words.get(start) else {
            let wrong = Wrong::here("the request is missing", REQUESTS);
            return Ok(Some(self.fault(start, 0, wrong)));
        };
        match places_in_request(keyword) {
            Some(places) => self.why_unread(alloc, places, start.saturating_add(1)),
            None => Ok(Some(self.wrong_word(start, "is no request", REQUESTS))),
        }
    }
}

// What a request may begin with.
const REQUESTS: &str =
    "begin, create, remove, migrate, subtree, freeze, cpus, show, online, maxdescendants, maxdepth, save, back, undo, commit and abort may stand here";

// What stands behind the blanks at the front.
fn behind_blanks(bytes: &[u8]) -> &[u8] {
    for (place, byte) in bytes.iter().enumerate() {
        if !matches!(*byte, b' ' | b'\t') {
            return bytes.get(place..).unwrap_or_default();
        }
    }
    &[]
}
