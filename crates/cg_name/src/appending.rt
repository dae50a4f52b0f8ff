//! Appending to a text, all or nothing.
ghost use Rattle.std.specs.Prelude.{◌≡◌, OnErr, OnOk, take};

use std::alloc::AllocError;

/// What an append to `out` gave, which began behind the first `start` bytes. Where it failed, the text is cut off there.
pub fn or_truncate<T>(
    written: Result<T, AllocError>,
    start: usize,
    out: &mut Vec<u8>,
) -> Result<T, AllocError>
    ensures result { result ≡ written }
    ensures ok { OnOk result (out.new.items ≡ out.old.items) }
    ensures err { OnErr result (out.new.items ≡ take start out.old.items) }
{
    if written.is_err() {
        out.truncate(start);
    }
    written
}
