//! Texts that were made last.
ghost use Rattle.std.specs.Prelude.{◌≡◌, ◌<◌, IfOk};

use crate::boxed_text::BoxedText;
use std::alloc::{AllocError, Global};

// How many places there are for them.
const PLACES: usize = 64;

/// Texts that were made last. One that is asked for again shares the memory of the one before: most interface files hold one of few
/// texts. That is for room and speed alone, and no clause tells which texts these are.
#[derive(Drop)]
pub struct RecentTexts {
    // For the texts of one hash the one that came last, where there is room.
    places: Vec<Option<BoxedText>>,
}

impl RecentTexts {
    /// None yet, and no room for any.
    pub fn new(alloc: Global) -> RecentTexts {
        RecentTexts {
            places: Vec::new(alloc),
        }
    }

    /// The text of these bytes: where an equal one was asked for shortly before, in the memory of that one. An error where there is no
    /// memory for it.
    #[inline(never)]
    pub fn text(&mut self, alloc: Global, bytes: &[u8]) -> Result<BoxedText, AllocError>
        ensures { IfOk result (λ t. t ≡ bytes.now) }
    {
        if self.places.is_empty() {
            self.places.resize_with(PLACES, || None)?;
        }
        let Some(place) = self.places.get_mut(place_of(bytes)) else {
            return BoxedText::new(alloc, bytes);
        };
        if let Some(kept) = place {
            if kept.as_slice() == bytes {
                return kept.copy(alloc);
            }
        }
        let text = BoxedText::new(alloc, bytes)?;
        *place = text.copy(alloc).ok();
        Ok(text)
    }
}

// Where a text of these bytes is kept: the upper six bits of a hash of them.
fn place_of(bytes: &[u8]) -> usize
    ensures { result < 64 }
{
    (hash_of(bytes) >> 58) as usize
}

// A hash of the bytes, of which eight are taken at once as long as there are so many.
fn hash_of(bytes: &[u8]) -> u64 {
    let mut hash = 0;
    let mut rest = bytes;
    'words: while let Some((word, behind)) = rest.split_first_chunk::<8>() {
        hash = hashed(hash, u64::from_le_bytes(*word));
        rest = behind;
    }
    rest.iter()
        .fold(hash, |hash, byte| hashed(hash, u64::from(*byte)))
}

// The hash with a word more. The factor is odd, and its bits are mixed.
fn hashed(hash: u64, word: u64) -> u64 {
    (hash ^ word).wrapping_mul(0x9e37_79b9_7f4a_7c15)
}
