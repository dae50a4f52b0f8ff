//! A world whose text is long, written by a replay in parts.
use crate::opening::world;
use cg_lines::{FromRead, FromWrite, LineReader};
use cg_replay::replay;
use std::alloc::{AllocError, Global};
use std::io::{self, Write};

/// A writer that keeps what it takes, and how long its longest call was.
#[derive(Drop)]
struct Counting {
    text: Vec<u8>,
    calls: u32,
    longest: usize,
}

impl Write for Counting {
    fn write(&mut self, buf: &[u8]) -> io::Result<usize> {
        self.calls = self.calls.saturating_add(1);
        self.longest = self.longest.max(buf.len());
        match self.text.extend_from_slice(buf) {
            Ok(()) => Ok(buf.len()),
            Err(_) => Err(io::Error::from(io::ErrorKind::OutOfMemory)),
        }
    }

    fn flush(&mut self) -> io::Result<()> {
        Ok(())
    }
}

// The text of a world of 3,000 groups and 6,000 processes, of 159,051 bytes.
fn long_world(alloc: Global) -> Result<String, AllocError> {
    let mut text = String::new(alloc);
    write!(text, "world 1\ncontrollers cpu\nonline 0\ngroup / - 0 -\n")?;
    for number in 1001..4001 {
        writeln!(text, "group /g{number} - 0 -")?;
    }
    for pid in 1001..7001 {
        writeln!(text, "proc {pid} /g1001")?;
    }
    writeln!(text, "end")?;
    Ok(text)
}

// What a schedule that leaves a transaction open writes over the world that a text spells.
fn replayed(alloc: Global, text: &str) -> Option<Counting> {
    let world = world(alloc, text).ok()?;
    let source = FromRead::new(b"s1 begin\n".as_slice());
    let mut reader = LineReader::new(alloc, source).ok()?;
    let mut writer = Counting {
        text: Vec::new(alloc),
        calls: 0,
        longest: 0,
    };
    let mut sink = FromWrite::new(&mut writer);
    replay(alloc, &mut reader, &mut sink, world, 16).ok()?;
    drop(sink);
    Some(writer)
}

#[test]
fn a_long_world_is_written_in_parts(rt: HostRuntime) {
    let text = long_world(rt.alloc()).expect(&rt, "memory");
    assert!(rt; text.len() > 131_072);
    let writer = replayed(rt.alloc(), text.as_str()).expect(&rt, "no output");
    let rest = writer
        .text
        .as_slice()
        .strip_prefix(b"begun 1\naborted 1\n".as_slice());
    assert!(rt; rest == Some(text.as_bytes()));
    // One call for the first answer, and one for each 64 KiB that was begun; the last line of a part goes beyond that.
    assert!(rt; writer.calls == 4 && writer.longest < 65_536 + 20);
}
