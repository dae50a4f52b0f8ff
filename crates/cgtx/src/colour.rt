//! The paths of an outline in bold, as a terminal shows them.
use std::env::{Env, FillError};
use std::io;
use std::io::{IsTerminal, Write};
use std::rt::Stdout;

const BOLD: &[u8] = b"\x1b[1m";

const PLAIN: &[u8] = b"\x1b[0m";

/// Whether standard output is a terminal, and nobody asks for no colours. That takes no memory.
pub fn is_coloured(rt: &HostRuntime) -> bool {
    rt.stdout().is_terminal()
        && match rt.var("NO_COLOR", &mut [0]) {
            Ok(length) => length == 0,
            Err(fault) => fault == FillError::NotPresent,
        }
}

/// Standard output that has the paths of an outline in bold.
#[derive(Drop)]
pub struct Coloured {
    output: Stdout,
    place: Place,
    is_bold: bool,
}

impl Coloured {
    /// Nothing of an outline is written yet.
    pub fn new(output: Stdout) -> Coloured {
        Coloured {
            output,
            place: Place::Indent,
            is_bold: false,
        }
    }

    // How many bytes at the front are all of a path, or all of none, as the first is.
    fn alike(&self, bytes: &[u8], is_path: bool) -> usize {
        let mut place = self.place;
        let mut count: usize = 0;
        for byte in bytes {
            let behind = place.behind(*byte);
            if behind.is_path(place) != is_path {
                break;
            }
            place = behind;
            count = count.saturating_add(1);
        }
        count
    }

    // Has the bytes that come bold, or not.
    fn turn(&mut self, is_bold: bool) -> io::Result<()> {
        if self.is_bold != is_bold {
            self.output.write_all(if is_bold { BOLD } else { PLAIN })?;
            self.is_bold = is_bold;
        }
        Ok(())
    }
}

impl Write for Coloured {
    fn write(&mut self, buf: &[u8]) -> io::Result<usize> {
        let Some(first) = buf.first() else {
            return Ok(0);
        };
        let is_path = self.place.behind(*first).is_path(self.place);
        self.turn(is_path)?;
        let length = self.alike(buf, is_path).min(buf.len());
        let count = self.output.write(&buf[..length])?;
        for byte in &buf[..count] {
            self.place = self.place.behind(*byte);
        }
        Ok(count)
    }

    fn flush(&mut self) -> io::Result<()> {
        self.output.flush()
    }
}

// Where in a line of an outline a byte stands.
#[derive(Clone, Copy, PartialEq, Eq)]
enum Place {
    // Before its path.
    Indent,
    // In a path without quotes.
    Bare,
    // In a path in quotes.
    Quoted,
    // Behind a backslash in there.
    Escaped,
    // Behind the path.
    Facts,
}

impl Place {
    // The place behind this byte.
    fn behind(self, byte: u8) -> Place {
        match (self, byte) {
            (Place::Indent, b' ') | (Place::Indent | Place::Bare | Place::Facts, b'\n') => {
                Place::Indent
            }
            (Place::Indent, b'"') | (Place::Escaped, _) => Place::Quoted,
            (Place::Quoted, b'\\') => Place::Escaped,
            (Place::Bare, b' ') | (Place::Quoted, b'"') | (Place::Facts, _) => Place::Facts,
            (Place::Quoted, _) => Place::Quoted,
            (Place::Indent | Place::Bare, _) => Place::Bare,
        }
    }

    // Whether a byte behind which this is the place is one of a path; `before` is the place before it.
    fn is_path(self, before: Place) -> bool {
        match self {
            Place::Bare | Place::Quoted | Place::Escaped => true,
            Place::Indent | Place::Facts => before == Place::Quoted,
        }
    }
}
