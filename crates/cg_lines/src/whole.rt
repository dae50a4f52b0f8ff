//! All bytes of a source, up to a bound.
ghost use Rattle.std.specs.Prelude.{◌≡◌, ℕ, ◌+◌, ◌≤◌, ◌<◌, List, length, IfOk, IfErr, IfSome, OnOk, OnErr, IsSome, IsNone, vec_len};
ghost use Rattle.std.specs.Io.KnownBytes.{Consumes, IsAtEnd, ReadConsumes};
ghost use Rattle.cg_lines.specs.Device.{Failed, more};

use crate::device::{DeviceFault, Source};
use crate::lines::{CHUNK, LineFault, zeros};
use std::alloc::Global;

/// Reads all bytes that the source has left, where they are at most `most`, and gives none where they are more.
/// It reads one byte behind the bound at most. `Read` comes where a read of the source fails.
pub fn read_at_most<S: Source>(
    alloc: Global,
    source: &mut S,
    most: usize,
) -> Result<Option<Vec<u8>>, LineFault>
    // What is given is the whole text, and none is given only of one that is longer.
    ensures value { IfOk result (λ read. IfSome read (λ bytes. IfSome (S.left source.old) (λ text. bytes.items ≡ text))) }
    ensures too_long { IfOk result (λ read. IsNone read → IfSome (S.left source.old) (λ text. most < length text)) }
    ensures bound { IfOk result (λ read. IfSome read (λ bytes. vec_len bytes ≤ most)) }

    // The source has lost bytes at the front, and no other; all of them where they are given.
    ensures takes { (front : List ℕ) × (length front ≤ most + 1) × Consumes (S.left source.old) (S.left source.new) front }
    ensures end { IfOk result (λ read. IsSome read → IsAtEnd (S.left source.new)) }

    // The fault of a read, and why it comes.
    ensures cause { IfErr result (λ e. e ≡ LineFault.Read → Failed (S.failed source.old) (S.failed source.new)) }
    ensures failures { OnOk result (S.failed source.new ≡ S.failed source.old) }
{
    let mut chunk = zeros(alloc, CHUNK)?;
    let mut bytes = Vec::new(alloc);
    'chunks: loop {
        let room = most - bytes.len();
        let n = read_behind(source, chunk.as_mut_slice(), room)?;
        if n == 0 {
            return Ok(Some(bytes));
        }
        if n > room {
            return Ok(None);
        }
        bytes.extend_from_slice(&chunk[..n])?;
    }
}

// Reads on to the front of the chunk, up to one byte behind the `room` that is left.
fn read_behind<S: Source>(
    source: &mut S,
    chunk: &mut [u8],
    room: usize,
) -> Result<usize, DeviceFault>
    requires { length chunk.old ≡ 65536 }
    ensures bound { IfOk result (λ n. (n ≤ 65536) × (n ≤ room + 1)) }
    ensures bytes { ReadConsumes (S.left source.old) (S.left source.new) result chunk.new }
    ensures counted_ok { OnOk result (S.failed source.new ≡ S.failed source.old) }
    ensures counted_err { OnErr result (S.failed source.new ≡ more (S.failed source.old)) }
{
    let n = room.min(CHUNK - 1) + 1;
    source.read(&mut chunk[..n])
}
