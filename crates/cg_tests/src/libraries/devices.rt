//! Readers and writers that fail in mid-stream, and go on failing; texts that are read whole up to a bound.
use cg_lines::{
    DeviceFault, FromRead, FromWrite, LineFault, LineKind, LineReader, Sink, Source, read_at_most,
    write_all,
};
use std::alloc::Global;
use std::io::{self, Read, Write};

/// A reader of newlines, one a call, and a writer that takes at most two bytes a call. It fails where no call is left.
#[derive(Clone, Copy)]
struct Failing {
    calls_left: u32,
    /// How many bytes were written.
    written: usize,
}

impl Failing {
    fn after(calls: u32) -> Failing {
        Failing {
            calls_left: calls,
            written: 0,
        }
    }

    // Counts a call.
    fn call(&mut self) -> io::Result<()> {
        if self.calls_left == 0 {
            return Err(io::Error::from(io::ErrorKind::Other));
        }
        self.calls_left -= 1;
        Ok(())
    }
}

impl Write for Failing {
    fn write(&mut self, buf: &[u8]) -> io::Result<usize> {
        self.call()?;
        let count = buf.len().min(2);
        self.written = self.written.saturating_add(count);
        Ok(count)
    }

    fn flush(&mut self) -> io::Result<()> {
        Ok(())
    }
}

impl Read for Failing {
    fn read(&mut self, buf: &mut [u8]) -> io::Result<usize> {
        self.call()?;
        let count = buf.len().min(1);
        buf[..count].fill(b'\n');
        Ok(count)
    }
}

#[test]
fn a_writer_fails_in_mid_stream(rt: HostRuntime) {
    let mut writer = Failing::after(4);
    let mut sink = FromWrite::new(&mut writer);
    assert!(rt; write_all(&mut sink, b"abc") == Ok(()) && sink.failures() == 0);
    assert!(rt; write_all(&mut sink, b"defgh") == Err(DeviceFault) && sink.failures() == 1);
    assert!(rt; write_all(&mut sink, b"h") == Err(DeviceFault) && sink.failures() == 2);
    drop(sink);
    assert!(rt; writer.written == 7);
}

#[test]
fn a_reader_fails_in_mid_stream(rt: HostRuntime) {
    let source = FromRead::new(Failing::after(1));
    let mut reader = LineReader::new(rt.alloc(), source).expect(&rt, "memory");
    assert!(rt; reader.next_line() == Ok(LineKind::Text) && reader.reads() == 1);
    assert!(rt; reader.next_line() == Err(LineFault::Read) && reader.reads() == 2);
    assert!(rt; reader.next_line() == Err(LineFault::Read) && reader.reads() == 2);
}

// Whether what is read with this bound is this text, or none where it is longer.
fn reads<S: Source>(alloc: Global, source: &mut S, most: usize, text: Option<&[u8]>) -> bool {
    match read_at_most(alloc, source, most) {
        Ok(Some(bytes)) => text == Some(bytes.as_slice()),
        Ok(None) => text.is_none(),
        Err(_) => false,
    }
}

#[test]
fn a_text_is_read_whole_up_to_its_bound(rt: HostRuntime) {
    let mut source = FromRead::new(b"abcdefghij".as_slice());
    assert!(rt; reads(rt.alloc(), &mut source, 3, None));
    assert!(rt; reads(rt.alloc(), &mut source, 6, Some(b"efghij".as_slice())));
    assert!(rt; reads(rt.alloc(), &mut source, 0, Some(b"".as_slice())));
}

#[test]
fn a_text_is_not_read_whole_where_its_reader_fails(rt: HostRuntime) {
    let mut source = FromRead::new(Failing::after(3));
    assert!(rt; reads(rt.alloc(), &mut source, 1, None) && source.failures() == 0);
    let read = read_at_most(rt.alloc(), &mut source, 5);
    assert!(rt; matches!(&read, Err(LineFault::Read)) && source.failures() == 1);
}
