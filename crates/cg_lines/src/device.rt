//! Sources and sinks of bytes that count their failures.
ghost use Rattle.std.specs.Prelude.{◌≡◌, ℕ, List, Option, OnOk, OnErr, IfOk, ◌≤◌, ◌<◌, length};
ghost use Rattle.std.specs.Io.{ReadsAtMost, WritesAtMost};
ghost use Rattle.std.specs.Io.KnownBytes.{ReadConsumes, WriteAppends};
ghost use Rattle.cg_lines.specs.Device.{more, WritesFront, Failed, WritesWhole};

use std::io;
use std::io::{ErrorKind, Read, Write};
use thiserror::Error;

/// A read or a write failed.
#[derive(Clone, Copy, Debug, PartialEq, Eq, Error)]
#[error("a read or a write failed")]
pub struct DeviceFault;

// How many reads or writes have failed, up to 2^64 - 1, where the count stays.
#[derive(Drop)]
struct Failures {
    count: u64,
}

impl Failures {
    // Counts one more, and gives the fault of it.
    fn fail(&mut self) -> DeviceFault
        ensures { self.new.count ≡ more self.old.count }
    {
        self.count = self.count.saturating_add(1);
        DeviceFault
    }
}

/// What bytes are read from. It counts its failed reads, up to 2^64 - 1, where the count stays.
pub trait Source {
    /// The bytes that reads will give from here on, where the source tells them.
    ghost left: { Self → Option (List ℕ) };

    /// How many reads have failed.
    ghost failed: { Self → ℕ };

    /// How many reads have failed, or 2^64 - 1 where they are more.
    fn failures(&self) -> u64
        ensures { result ≡ failed self.now };

    /// Reads some of the next bytes to the front of `buf` and returns how many, at most its length.
    /// No byte for a buffer that isn't empty is the end of the input. A failed read takes no byte.
    fn read(&mut self, buf: &mut [u8]) -> Result<usize, DeviceFault>
        ensures bound { ReadsAtMost result buf.new }
        ensures bytes { ReadConsumes (left self.old) (left self.new) result buf.new }
        ensures counted_ok { OnOk result (failed self.new ≡ failed self.old) }
        ensures counted_err { OnErr result (failed self.new ≡ more (failed self.old)) };
}

/// What bytes are written to. It counts its failed writes, up to 2^64 - 1, where the count stays.
pub trait Sink {
    /// The bytes taken so far, where the sink tells them.
    ghost taken: { Self → Option (List ℕ) };

    /// How many writes have failed.
    ghost failed: { Self → ℕ };

    /// How many writes have failed, or 2^64 - 1 where they are more.
    fn failures(&self) -> u64
        ensures { result ≡ failed self.now };

    /// Takes some bytes at the front of `bytes` and returns how many, at least one where there is
    /// one. A failed write may have taken some bytes at the front too.
    fn write(&mut self, bytes: &[u8]) -> Result<usize, DeviceFault>
        ensures bound { WritesAtMost result bytes.now }
        ensures some { 0 < length bytes.now → IfOk result (λ n. 0 < n) }
        ensures bytes { WritesFront (taken self.old) (taken self.new) result bytes.now }
        ensures counted_ok { OnOk result (failed self.new ≡ failed self.old) }
        ensures counted_err { OnErr result (failed self.new ≡ more (failed self.old)) };
}

/// One of std's readers.
#[derive(Drop)]
pub struct FromRead<R> {
    reader: R,
    failures: Failures,
}

impl<R: Read> FromRead<R> {
    /// A source of the reader's bytes that has not failed yet.
    pub fn new(reader: R) -> FromRead<R>
        ensures left { ⟦<FromRead<R> as Source>⟧.left result ≡ R.remaining reader }
        ensures failed { ⟦<FromRead<R> as Source>⟧.failed result ≡ 0 }
    {
        FromRead {
            reader,
            failures: Failures { count: 0 },
        }
    }
}

impl<R: Read> Source for FromRead<R> {
    ghost left = { λ f. R.remaining f.reader };

    ghost failed = { λ f. f.failures.count };

    fn failures(&self) -> u64 {
        self.failures.count
    }

    // A read that a signal interrupted is tried again, as std's own loops do.
    fn read(&mut self, buf: &mut [u8]) -> Result<usize, DeviceFault> {
        match read_uninterrupted(&mut self.reader, buf) {
            Ok(n) => Ok(n),
            Err(_) => Err(self.failures.fail()),
        }
    }
}

/// One of std's writers.
#[derive(Drop)]
pub struct FromWrite<W> {
    writer: W,
    failures: Failures,
}

impl<W: Write> FromWrite<W> {
    /// A sink that writes to the writer and has not failed yet.
    pub fn new(writer: W) -> FromWrite<W>
        ensures taken { ⟦<FromWrite<W> as Sink>⟧.taken result ≡ W.contents writer }
        ensures failed { ⟦<FromWrite<W> as Sink>⟧.failed result ≡ 0 }
    {
        FromWrite {
            writer,
            failures: Failures { count: 0 },
        }
    }
}

impl<W: Write> Sink for FromWrite<W> {
    ghost taken = { λ f. W.contents f.writer };

    ghost failed = { λ f. f.failures.count };

    fn failures(&self) -> u64 {
        self.failures.count
    }

    // A write that takes none of the bytes handed in is a failure, so that writing goes on or stops. One that a signal
    // interrupted is tried again.
    fn write(&mut self, bytes: &[u8]) -> Result<usize, DeviceFault> {
        match write_uninterrupted(&mut self.writer, bytes) {
            Ok(0) if !bytes.is_empty() => Err(self.failures.fail()),
            Ok(n) => Ok(n),
            Err(_) => Err(self.failures.fail()),
        }
    }
}

// One read, tried again where a signal interrupts it.
fn read_uninterrupted<R: Read>(reader: &mut R, buf: &mut [u8]) -> io::Result<usize>
    ensures bound { ReadsAtMost result buf.new }
    ensures bytes { ReadConsumes (R.remaining reader.old) (R.remaining reader.new) result buf.new }
{
    for _ in 0..u64::MAX {
        match reader.read(buf) {
            Err(fault) if fault.kind() == ErrorKind::Interrupted => {}
            result => return result,
        }
    }
    Err(ErrorKind::Interrupted.into())
}

// One write, tried again where a signal interrupts it.
fn write_uninterrupted<W: Write>(writer: &mut W, bytes: &[u8]) -> io::Result<usize>
    ensures bound { WritesAtMost result bytes.now }
    ensures bytes { WriteAppends (W.contents writer.old) (W.contents writer.new) result bytes.now }
{
    for _ in 0..u64::MAX {
        match writer.write(bytes) {
            Err(fault) if fault.kind() == ErrorKind::Interrupted => {}
            result => return result,
        }
    }
    Err(ErrorKind::Interrupted.into())
}

/// Writes all of the bytes. A fault comes only where a write failed, and leaves some bytes at the
/// front written.
pub fn write_all<K: Sink>(sink: &mut K, bytes: &[u8]) -> Result<(), DeviceFault>
    ensures bytes { WritesWhole (K.taken sink.old) (K.taken sink.new) result bytes.now }
    ensures failed { OnErr result (Failed (K.failed sink.old) (K.failed sink.new)) }
    ensures counted_ok { OnOk result (K.failed sink.new ≡ K.failed sink.old) }
{
    let mut rest = bytes;
    while !rest.is_empty() {
        let n = sink.write(rest)?;
        rest = &rest[n..];
    }
    Ok(())
}
