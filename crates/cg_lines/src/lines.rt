//! The lines of a source, read through a buffer of fixed size.
ghost use Rattle.std.specs.Prelude.{◌≡◌, ◌≢◌, ℕ, ◌+◌, ◌≤◌, ◌<◌, List, [], ◌∷◌, ◌++◌, length, take, drop, slice_range, IfOk, IfErr, IfSome, IfNone, OnOk, OnErr, IsOk, IsErr, IsTrue, MatchOption, is_err, true, false, vec_len, vec_capacity};
ghost use Rattle.std.specs.Io.KnownBytes.{Consumes, Keeps, IsAtEnd, ReadConsumes};
ghost use Rattle.cg_lines.specs.Device.{Failed, more};
ghost use Rattle.cg_lines.specs.Lines.{HasNoNewline, bytes_to_come, TakesKnownLine, LosesOfLine, pending, pending_of, reading_of, CanBreak, BreaksNow, IsGathered, TakesPiece, IsFirstNewline, EndsWholeLines, kind_where, last_kind_where, StepsAreLines};

use crate::device::{DeviceFault, Source};
use cg_text::LONGEST_LINE;
use memchr::{memchr, memrchr};
use std::alloc::{AllocError, Global};
use std::marker::Model;
use thiserror::Error;

// How many bytes are read at most at a time.
pub(crate) const CHUNK: usize = 65_536;

// How many reads a reader makes at most.
const MOST_READS: u32 = 67_108_864;

const NEWLINE: u8 = b'\n';

/// Why a reader gave no line, or not all bytes.
#[derive(Clone, Copy, Debug, PartialEq, Eq, Error)]
pub enum LineFault {
    /// There was no memory for the buffers.
    #[error("memory ran out")]
    Memory,
    /// A read of the source failed, or a reader of lines has made all its reads.
    #[error("the reader failed")]
    Read,
}

/// What a reader of lines came to.
#[derive(Clone, Copy, Debug, PartialEq, Eq)]
pub enum LineKind {
    /// The end of the input: there is no line.
    End,
    /// A line of more than 65,536 bytes, which is skipped.
    TooLong,
    /// A line of at most 65,536 bytes, with its newline behind it.
    Text,
    /// The same without a newline, at the end of the input.
    Last,
}

// A source that is read a chunk at a time.
#[derive(Drop)]
struct ChunkReader<S: Source> {
    source: S,
    // `chunk[start..end]` is read and not given yet.
    chunk: Vec<u8>,
    start: usize,
    end: usize,
    // The place behind the last newline of `chunk[..end]`, or 0: found once a read.
    whole: usize,
    failed_before: u64,
    reads: u32,
    is_broken: bool,
}

impl<S: Source> Model for ChunkReader<S> {
    ghost use Rattle.std.specs.Prelude.{◌≡◌, ◌≤◌, slice_range, IsTrue, vec_len};
    ghost use Rattle.cg_lines.specs.Lines.{ChunkReading, CanBreak, EndsWholeLines};

    ghost Value = { ChunkReading };

    ghost view = { λ r. record {
      read = slice_range r.chunk.items 0 r.end;
      buffered = slice_range r.chunk.items r.start r.end;
      left = S.left r.source;
      failed_before = r.failed_before;
      failures = S.failed r.source;
      reads = r.reads;
      is_broken = r.is_broken;
    } };

    ghost invariant = { λ r. (vec_len r.chunk ≡ 65536) × (r.start ≤ r.end) × (r.end ≤ 65536)
        × EndsWholeLines (slice_range r.chunk.items 0 r.end) r.whole × (r.reads ≤ 67108864) × (r.failed_before ≤ S.failed r.source)
        × (IsTrue r.is_broken → CanBreak r.failed_before (S.failed r.source) r.reads) };
}

/// Reads lines from a source. A line ends before a newline or at the end of the input, where an
/// empty one doesn't count; its bytes are given as they stand, a carriage return too.
#[derive(Drop)]
pub struct LineReader<S: Source> {
    reader: ChunkReader<S>,
    // Where in the chunk the line that was given last begins and ends. None where it is in `gathered`.
    place: Option<(usize, usize)>,
    // It has room for the longest line from the start on, so that reading takes no memory.
    gathered: Vec<u8>,
}

impl<S: Source> Model for LineReader<S> {
    ghost use Rattle.std.specs.Prelude.{◌≤◌, IfSome, length, vec_capacity};
    ghost use Rattle.cg_lines.specs.Lines.{Reading, reading_of, line_at};

    ghost Value = { Reading };

    ghost view = { λ r. reading_of r.reader (line_at r.place r.reader.read r.gathered.items) };

    ghost invariant = { λ r. IfSome r.place (λ p. (p.0 ≤ p.1) × (p.1 ≤ length r.reader.read)) × (65536 ≤ vec_capacity r.gathered) };
}

impl From<AllocError> for LineFault {
    ghost use Rattle.std.specs.Prelude.{◌≡◌};
    ghost use Rattle.cg_lines.specs.declared.lines.LineFault.TheVariants.{Memory};

    ghost from_gives = { λ _ fault. fault ≡ Memory };

    fn from(_: AllocError) -> LineFault {
        LineFault::Memory
    }
}

impl From<DeviceFault> for LineFault {
    ghost use Rattle.std.specs.Prelude.{◌≡◌};
    ghost use Rattle.cg_lines.specs.declared.lines.LineFault.TheVariants.{Read};

    ghost from_gives = { λ _ fault. fault ≡ Read };

    fn from(_: DeviceFault) -> LineFault {
        LineFault::Read
    }
}

impl<S: Source> LineReader<S> {
    /// A reader of the source's lines. It takes all its memory here.
    pub fn new(alloc: Global, source: S) -> Result<LineReader<S>, AllocError>
    where
        S: Drop,
        ensures pending { IfOk result (λ r. pending r ≡ S.left source) }
        ensures failed_before { IfOk result (λ r. r.failed_before ≡ S.failed source) }
        ensures failures { IfOk result (λ r. r.failures ≡ S.failed source) }
        ensures fresh { IfOk result (λ r. (r.reads ≡ 0) × (r.line ≡ []) × (r.is_broken ≡ false)) }
    {
        let failed_before = source.failures();
        let chunk = zeros(alloc, CHUNK)?;
        let gathered = Vec::with_capacity(alloc, LONGEST_LINE)?;
        let reader = ChunkReader {
            source,
            chunk,
            start: 0,
            end: 0,
            whole: 0,
            failed_before,
            reads: 0,
            is_broken: false,
        };
        Ok(LineReader {
            reader,
            place: None,
            gathered,
        })
    }

    /// The line that was given last, without its newline: none before the first line, at the end,
    /// and for a line that is too long.
    pub fn line(&self) -> &[u8]
        ensures { result.now ≡ self.now.line }
    {
        match self.place {
            Some((from, to)) => self.reader.bytes(from, to),
            None => self.gathered.as_slice(),
        }
    }

    /// How many times the source was read, at most 67,108,864.
    pub fn reads(&self) -> u32
        ensures value { result ≡ self.now.reads }
        ensures bound { self.now.reads ≤ 67108864 }
    {
        self.reader.reads()
    }

    /// Whether the next line can be given without a read of the source: a newline ends it in what was read.
    pub fn has_line(&self) -> bool
        ensures line { result ≡ true → (n : ℕ) × IsFirstNewline self.now.buffered n }
        ensures none { result ≡ false → HasNoNewline self.now.buffered }
    {
        self.reader.has_line()
    }

    /// Goes on to the next line. `Read` comes only where the source has failed since the reader was
    /// made, or where another read were one too many, and then at each later call. It may lose
    /// bytes of the line that it stands in, and no others.
    #[inline(always)]
    pub fn next_line(&mut self) -> Result<LineKind, LineFault>
        // What was to be given is the line that is given now, and then what is still to be given.
        ensures takes { IfOk result (λ kind. TakesKnownLine (pending self.old) kind self.new.line (pending self.new)) }
        ensures loses { OnErr result (LosesOfLine (pending self.old) (pending self.new)) }

        // Whatever the source tells.
        ensures plain { OnOk result (HasNoNewline self.new.line × (length self.new.line ≤ 65536)) }

        // The fault, why it comes, and that it stays.
        ensures err { IfErr result (λ e. e ≡ LineFault.Read) }
        ensures cause { OnErr result (CanBreak self.new.failed_before self.new.failures self.new.reads) }
        ensures first { self.old.is_broken ≡ false → OnErr result (BreaksNow self.old self.new) }
        ensures breaks { self.new.is_broken ≡ is_err result }
        ensures stays { IsTrue self.old.is_broken → IsErr result × (self.new ≡ self.old) }

        // The counts.
        ensures failed_before { self.new.failed_before ≡ self.old.failed_before }
        ensures failures { OnOk result (self.new.failures ≡ self.old.failures) }
        ensures reads { self.old.reads ≤ self.new.reads }

        // Each line that is given leaves fewer bytes to come.
        ensures progress { IfOk result (λ kind. kind ≢ LineKind.End → bytes_to_come self.new < bytes_to_come self.old) }
    {
        if self.reader.is_broken() {
            return Err(LineFault::Read);
        }
        // A line that isn't whole is gathered, and no place is noted while the chunk is read over again.
        self.place = self.reader.take_line();
        if self.place.is_some() {
            return Ok(LineKind::Text);
        }
        self.reader.gather_line(&mut self.gathered)
    }
}

impl<S: Source> ChunkReader<S> {
    // A part of what was read last.
    fn bytes(&self, from: usize, to: usize) -> &[u8]
        requires order { from ≤ to }
        requires bound { to ≤ length self.now.read }
        ensures { result.now ≡ slice_range self.now.read from to }
    {
        &self.chunk[from..to]
    }

    fn is_broken(&self) -> bool
        ensures value { result ≡ self.now.is_broken }
        ensures cause { IsTrue self.now.is_broken → CanBreak self.now.failed_before self.now.failures self.now.reads }
    {
        self.is_broken
    }

    fn reads(&self) -> u32
        ensures value { result ≡ self.now.reads }
        ensures bound { self.now.reads ≤ 67108864 }
    {
        self.reads
    }

    // Whether a newline stands in what is read and not given.
    fn has_line(&self) -> bool
        ensures line { result ≡ true → (n : ℕ) × IsFirstNewline self.now.buffered n }
        ensures none { result ≡ false → HasNoNewline self.now.buffered }
    {
        self.start < self.whole
    }

    // Takes the next line and its newline, where that was read, and gives where in what was read the line begins and ends.
    fn take_line(&mut self) -> Option<(usize, usize)>
        ensures line { IfSome result (λ p. HasNoNewline (slice_range self.old.read p.0 p.1)
            × (self.old.buffered ≡ slice_range self.old.read p.0 p.1 ++ 10 ∷ self.new.buffered)) }
        ensures bounds { IfSome result (λ p. (p.0 ≤ p.1) × (p.1 ≤ length self.old.read) × (p.1 ≤ 65536)) }
        ensures none { IfNone result (self.new ≡ self.old) }
        ensures rest { self.new ≡ record self.old { buffered = self.new.buffered } }
    {
        let from = self.start;
        let n = newline_in(&self.chunk[from..self.end])?;
        self.start += n + 1;
        Some((from, from + n))
    }

    // Goes on to the next line, and gathers its bytes in `line` over reads of the source.
    fn gather_line(&mut self, line: &mut Vec<u8>) -> Result<LineKind, LineFault>
        requires room { 65536 ≤ vec_capacity line.old }
        requires unbroken { self.old.is_broken ≡ false }
        ensures room { 65536 ≤ vec_capacity line.new }
        ensures takes { IfOk result (λ kind. TakesKnownLine (pending_of self.old) kind line.new.items (pending_of self.new)) }
        ensures loses { OnErr result (LosesOfLine (pending_of self.old) (pending_of self.new)) }
        ensures plain { OnOk result (HasNoNewline line.new.items × (length line.new.items ≤ 65536)) }
        ensures err { IfErr result (λ e. e ≡ LineFault.Read) }
        ensures cause { OnErr result (CanBreak self.new.failed_before self.new.failures self.new.reads) }
        ensures first { OnErr result (BreaksNow (reading_of self.old []) (reading_of self.new [])) }
        ensures breaks { self.new.is_broken ≡ is_err result }
        ensures failed_before { self.new.failed_before ≡ self.old.failed_before }
        ensures failures { OnOk result (self.new.failures ≡ self.old.failures) }
        ensures reads { self.old.reads ≤ self.new.reads }
        ensures progress { IfOk result (λ kind. kind ≢ LineKind.End → bytes_to_come (reading_of self.new []) < bytes_to_come (reading_of self.old [])) }
    {
        line.clear();
        let mut fits = true;
        'pieces: loop {
            if self.gather(line, &mut fits) {
                return Ok(kind_of(fits));
            }
            if !self.fill()? {
                return Ok(last_kind(fits, line));
            }
        }
    }

    // Takes the bytes that are read up to the first newline, with it, or all where there is none.
    fn gather(&mut self, line: &mut Vec<u8>, fits: &mut bool) -> bool
        requires { 65536 ≤ vec_capacity line.old }
        ensures room { 65536 ≤ vec_capacity line.new }
        ensures taken { (front : List ℕ) → IsGathered front fits.old line.old.items → (bytes : List ℕ) × HasNoNewline bytes
            × TakesPiece self.old.buffered bytes result self.new.buffered
            × IsGathered (front ++ bytes) fits.new line.new.items }
        ensures rest { self.new ≡ record self.old { buffered = self.new.buffered } }
    {
        let bytes = &self.chunk[self.start..self.end];
        match newline_in(bytes) {
            Some(n) => {
                *fits = append_fitting(line, *fits, &bytes[..n]);
                self.start += n + 1;
                true
            }
            None => {
                *fits = append_fitting(line, *fits, bytes);
                self.start = self.end;
                false
            }
        }
    }

    // Reads on, where all that was read is given. False is the end of the input.
    fn fill(&mut self) -> Result<bool, LineFault>
        requires { self.old.buffered ≡ [] }
        ensures bytes { OnOk result (Consumes self.old.left self.new.left self.new.buffered) }
        ensures end { IfOk result (λ more. more ≡ false → (self.new.buffered ≡ []) × IsAtEnd self.new.left) }
        ensures ok { OnOk result (self.new ≡ record self.old {
          read = self.new.read;
          buffered = self.new.buffered;
          left = self.new.left;
          reads = self.old.reads + 1;
        }) }
        ensures turns { OnOk result (self.old.reads < 67108864) }
        ensures bound { OnOk result (length self.new.buffered ≤ 65536) }
        ensures err { IfErr result (λ e. e ≡ LineFault.Read) }
        ensures loses { OnErr result ((self.new.buffered ≡ []) × Keeps self.old.left self.new.left) }
        ensures cause { OnErr result (CanBreak self.new.failed_before self.new.failures self.new.reads) }
        ensures first { OnErr result (BreaksNow (reading_of self.old []) (reading_of self.new [])) }
        ensures breaks { OnErr result (self.new.is_broken ≡ true) }
        ensures failed_before { self.new.failed_before ≡ self.old.failed_before }
        ensures reads { self.old.reads ≤ self.new.reads }
    {
        self.start = 0;
        self.end = 0;
        self.whole = 0;
        if self.reads == MOST_READS {
            self.is_broken = true;
            return Err(LineFault::Read);
        }
        self.reads += 1;
        match read_over(&mut self.source, &mut self.chunk) {
            Ok(n) => {
                self.end = n;
                self.whole = behind_last_newline(&self.chunk[0..n]);
                Ok(n > 0)
            }
            Err(_) => {
                self.is_broken = true;
                Err(LineFault::Read)
            }
        }
    }
}

/// The law of the reader's steps: those that take a text's first line take the first of its lines.
pub fn steps_are_lines()
    ensures { StepsAreLines }
{}

pub(crate) fn zeros(alloc: Global, n: usize) -> Result<Vec<u8>, AllocError>
    ensures { IfOk result (λ v. vec_len v ≡ n) }
{
    vec![in alloc; 0; n]
}

fn kind_of(fits: bool) -> LineKind
    ensures { result ≡ kind_where fits }
{
    if fits {
        LineKind::Text
    } else {
        LineKind::TooLong
    }
}

fn last_kind(fits: bool, line: &[u8]) -> LineKind
    ensures { result ≡ last_kind_where fits line.now }
{
    if !fits {
        LineKind::TooLong
    } else if line.is_empty() {
        LineKind::End
    } else {
        LineKind::Last
    }
}

fn newline_in(bytes: &[u8]) -> Option<usize>
    ensures { MatchOption result (HasNoNewline bytes.now) (IsFirstNewline bytes.now) }
{
    memchr(NEWLINE, bytes)
}

// The place behind the last newline, or 0 where there is none.
fn behind_last_newline(bytes: &[u8]) -> usize
    ensures { EndsWholeLines bytes.now result }
{
    match memrchr(NEWLINE, bytes) {
        Some(n) => n + 1,
        None => 0,
    }
}

// Appends more bytes of a line that fits so far, and tells whether it still fits; of a line that does not nothing stays.
fn append_fitting(line: &mut Vec<u8>, fits: bool, bytes: &[u8]) -> bool
    requires { 65536 ≤ vec_capacity line.old }
    ensures room { 65536 ≤ vec_capacity line.new }
    ensures gathered { (front : List ℕ) → IsGathered front fits line.old.items → IsGathered (front ++ bytes.now) result line.new.items }
{
    if !fits {
        return false;
    }
    if line.len() + bytes.len() > LONGEST_LINE || line.extend_from_slice(bytes).is_err() {
        line.clear();
        return false;
    }
    true
}

fn read_over<S: Source>(source: &mut S, chunk: &mut Vec<u8>) -> Result<usize, DeviceFault>
    ensures len { vec_len chunk.new ≡ vec_len chunk.old }
    ensures bound { IfOk result (λ n. n ≤ vec_len chunk.new) }
    ensures bytes { ReadConsumes (S.left source.old) (S.left source.new) result chunk.new.items }
    ensures counted_ok { OnOk result (S.failed source.new ≡ S.failed source.old) }
    ensures counted_err { OnErr result (S.failed source.new ≡ more (S.failed source.old)) }
{
    source.read(chunk.as_mut_slice())
}
