//! Texts of paths as they are spelled, with a slash before each name.
ghost use Rattle.std.specs.Prelude.{◌≡◌, ◌↔◌, IsTrue, map};
ghost use Rattle.cg_name.specs.Path.{IsPath};
ghost use Rattle.cg_name.specs.Pieces.{pieces, marked};

use crate::name::{is_free, is_name_byte};

// The most names that a path has.
pub(crate) const MAX_DEPTH: u32 = 64;

// Whether what stands between the slashes is the names of a path.
pub(crate) fn are_names(text: &str) -> bool
    ensures { IsTrue result ↔ IsPath (pieces text.now) }
{
    let mut start = 0;
    let mut depth = 0;
    for (i, byte) in text.as_bytes().iter().enumerate() {
        if !is_name_byte(*byte) {
            // A name ends here, and another begins.
            if *byte != b'/' || depth + 1 >= MAX_DEPTH || !is_free(&text[start..i]) {
                return false;
            }
            start = i + 1;
            depth += 1;
        }
    }
    is_free(&text[start..])
}

// Puts a zero byte for each slash.
pub(crate) fn mark_names(bytes: &mut [u8])
    ensures { bytes.new ≡ map marked bytes.old }
{
    for i in 0..bytes.len() {
        bytes[i] = marked(bytes[i]);
    }
}

// What stands for this byte in the text of a path that is kept.
fn marked(byte: u8) -> u8
    ensures { result ≡ marked byte }
{
    if byte == b'/' { 0 } else { byte }
}
