//! Keys in the order of their nodes' paths.
ghost use Rattle.std.specs.Prelude.{◌≡◌, ◌<◌, ℕ, slice_index, IfOk};
ghost use Rattle.std.specs.Int.{w64, from_be_bytes};
ghost use Rattle.cg_path_tree.specs.Listing.{texts_of, AreInOrder};

use crate::node::NodeKey;
use std::alloc::{AllocError, Global};

// The keys, by ascending texts. Most texts differ in the numbers that they begin with, which are compared in one step.
// Whole texts are looked at only where two numbers are equal.
pub(crate) fn in_order(
    alloc: Global,
    found: Vec<(&str, NodeKey)>,
) -> Result<Vec<NodeKey>, AllocError>
    ensures { IfOk result (λ keys. AreInOrder (texts_of found.entry.items) keys.items) }
{
    let mut entries = Vec::with_capacity(alloc, found.len())?;
    for entry in &found {
        entries.push((leading_number(entry.0), entry.0, entry.1))?;
    }
    entries.sort_unstable_by_key(|entry| (entry.0, entry.1));
    let mut keys = Vec::with_capacity(alloc, entries.len())?;
    for entry in &entries {
        keys.push(entry.2)?;
    }
    Ok(keys)
}

// The number that the first eight bytes spell, the greatest first, with zeros where the text is shorter. Of two texts
// the lower one has no greater number.
fn leading_number(text: &str) -> u64
    ensures value { result ≡ from_be_bytes w64 text.now }
    ensures bytes { (k : ℕ) → slice_index text.now k < 256 }
{
    let bytes = text.as_bytes();
    if let Some(first) = bytes.first_chunk::<8>() {
        return u64::from_be_bytes(*first);
    }
    u64::from_be_bytes([
        byte_at(bytes, 0),
        byte_at(bytes, 1),
        byte_at(bytes, 2),
        byte_at(bytes, 3),
        byte_at(bytes, 4),
        byte_at(bytes, 5),
        byte_at(bytes, 6),
        0,
    ])
}

// The byte at this place, and 0 behind the last.
fn byte_at(bytes: &[u8], place: usize) -> u8
    ensures { result ≡ slice_index bytes.now place }
{
    if place < bytes.len() { bytes[place] } else { 0 }
}
