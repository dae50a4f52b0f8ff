// The text of a path, in 16 bytes.
ghost use Rattle.std.specs.Prelude.{◌≡◌, ◌≤◌, ◌+◌, ◌∷◌, ◌++◌, [], IfOk, IfSome, IsTrue, length, map, slice_range, take};
ghost use Rattle.std.specs.Int.{w32, w64, from_le_bytes};
ghost use Rattle.cg_name.specs.Packed.{names_in, IsPacked};
ghost use Rattle.cg_name.specs.Path.{SpellsPath};
ghost use Rattle.cg_name.specs.Pieces.{marked};

use crate::simple::{LANES, marked_few, marked_word};
use crate::slashed::mark_names;
use smallvec::SmallVec;
use std::alloc::{AllocError, Global};
use std::marker::Model;
use std::sync::Arc;

// The most bytes of a text that takes no allocation. Twelve stand behind two of tag and two of length, so that a text is
// moved by moves that don't overlap.
const SHORT: usize = 12;

// And of one that lies in the allocation that its copies share. A longer one lies behind that.
const SHARED: usize = 40;

// The fewest bytes of a word that are looked at at once.
const FEWEST: usize = 4;

// The text of a path. A copy of it takes no memory.
#[derive(Drop)]
pub(crate) struct PathText {
    kept: Kept,
}

// It is handed on in one step.
const _: () = prove!(size_of::<PathText>() == 16);

#[derive(Drop)]
enum Kept {
    // How many bytes there are, and they, with others behind them.
    Short(u16, [u8; SHORT]),
    // Most such texts lie in the one allocation that the copies share.
    Long(Arc<SmallVec<u8, SHARED>, Global>),
}

impl Model for PathText {
    ghost use Rattle.std.specs.Prelude.{List, ℕ};

    ghost Value = { List ℕ };

    ghost use Rattle.cg_name.specs.PathText.{bytes_in, IsWithin};

    ghost view = { λ t. bytes_in t.kept };

    ghost invariant = { λ t. IsWithin t.kept };
}

impl PathText {
    // The text with no bytes.
    pub(crate) fn empty() -> PathText
        ensures { result ≡ [] }
    {
        PathText {
            kept: Kept::Short(0, [0; SHORT]),
        }
    }

    // These bytes; an error where there is no memory for them.
    pub(crate) fn from_slice(alloc: Global, bytes: &[u8]) -> Result<PathText, AllocError>
        ensures { IfOk result (λ t. t ≡ bytes.now) }
    {
        let len = bytes.len();
        if len > SHORT {
            return PathText::shared(alloc, SmallVec::from_slice(alloc, bytes)?);
        }
        let mut short = [0u8; SHORT];
        short[..len].copy_from_slice(bytes);
        Ok(PathText {
            kept: Kept::Short(len as u16, short),
        })
    }

    // A zero byte and this text, with zero bytes for its slashes; an error where there is no memory for it.
    pub(crate) fn from_names(alloc: Global, names: &[u8]) -> Result<PathText, AllocError>
        ensures { IfOk result (λ t. t ≡ 0 ∷ map marked names.now) }
    {
        let len = names.len() + 1;
        if len > SHORT {
            return PathText::shared(alloc, long_names(alloc, names)?);
        }
        let mut short = [0u8; SHORT];
        short[1..len].copy_from_slice(names);
        // Those behind the text are marked too: a fixed number of bytes is done many at a time.
        mark_names(&mut short);
        Ok(PathText {
            kept: Kept::Short(len as u16, short),
        })
    }

    // The text of the path that a short word spells, its bytes all at once. `None` for every word that is longer or has other
    // bytes than slashes and simple ones, and of such a word nothing is told.
    #[inline]
    pub(crate) fn read_simple(word: &[u8]) -> Option<PathText>
        ensures { IfSome result (λ t. IsPacked t × SpellsPath word.now (names_in t)) }
    {
        let (first, rest) = word.split_first()?;
        if *first != b'/' || rest.len() >= SHORT {
            return None;
        }
        if rest.is_empty() {
            return Some(PathText::empty());
        }
        if word.len() < FEWEST {
            return Some(PathText::short(word.len(), &marked_few(rest)?));
        }
        Some(PathText::short(word.len(), &marked_word(word)?))
    }

    // The first bytes of these, as many as told.
    #[inline(always)]
    fn short(len: usize, bytes: &[u8; LANES]) -> PathText
        requires few { len ≤ 12 }
        requires whole { length bytes.now ≡ 16 }
        ensures { result ≡ take len bytes.now }
    {
        match bytes.first_chunk::<SHORT>() {
            Some(short) => PathText {
                kept: Kept::Short(len as u16, *short),
            },
            None => unreachable!(),
        }
    }

    // This text, a zero byte and the name; an error where there is no memory for it.
    pub(crate) fn with_name(&self, alloc: Global, name: &[u8]) -> Result<PathText, AllocError>
        ensures { IfOk result (λ t. t ≡ self.now ++ 0 ∷ name.now) }
    {
        let text = self.as_slice();
        let start = text.len() + 1;
        let len = start + name.len();
        if len > SHORT {
            let mut bytes = SmallVec::with_capacity(alloc, len)?;
            bytes.extend_from_slice(text)?;
            bytes.push_reserved(0);
            bytes.extend_from_slice(name)?;
            return PathText::shared(alloc, bytes);
        }
        let mut short = [0u8; SHORT];
        short[..text.len()].copy_from_slice(text);
        short[start..len].copy_from_slice(name);
        Ok(PathText {
            kept: Kept::Short(len as u16, short),
        })
    }

    // These bytes, to be shared by the copies; an error where there is no memory for them.
    fn shared(alloc: Global, bytes: SmallVec<u8, SHARED>) -> Result<PathText, AllocError>
        ensures { IfOk result (λ t. t ≡ bytes.items) }
    {
        Ok(PathText {
            kept: Kept::Long(Arc::new(alloc, bytes)?),
        })
    }

    // The bytes of the text.
    pub(crate) fn as_slice(&self) -> &[u8]
        ensures { result.now ≡ self.now }
    {
        match &self.kept {
            Kept::Short(len, bytes) => &bytes[..usize::from(*len)],
            Kept::Long(bytes) => bytes.as_slice(),
        }
    }

    // Whether the texts are one, where both are short: by all their bytes at once, with those behind the text. `None` where one is
    // long, and nothing is then told.
    #[inline(always)]
    pub(crate) fn is_same_short(&self, other: &PathText) -> Option<bool>
        ensures { IfSome result (λ same. IsTrue same → self.now ≡ other.now) }
    {
        match (&self.kept, &other.kept) {
            (Kept::Short(len, bytes), Kept::Short(other_len, others)) => {
                Some(*len == *other_len && are_same(bytes, others))
            }
            _ => None,
        }
    }

    // The same text, which takes no memory; an error where it is shared by too many to count.
    pub(crate) fn copy(&self) -> Result<PathText, AllocError>
        ensures { IfOk result (λ t. t ≡ self.now) }
    {
        let kept = match &self.kept {
            Kept::Short(len, bytes) => Kept::Short(*len, *bytes),
            Kept::Long(bytes) => Kept::Long(bytes.clone()?),
        };
        Ok(PathText { kept })
    }
}

// A zero byte and these bytes, with zero bytes for their slashes; an error where there is no memory for them. Most are few, and done
// as those of a short text are.
fn long_names(alloc: Global, names: &[u8]) -> Result<SmallVec<u8, SHARED>, AllocError>
    ensures { IfOk result (λ t. t.items ≡ 0 ∷ map marked names.now) }
{
    let len = names.len() + 1;
    if len > SHARED {
        let mut bytes = SmallVec::with_capacity(alloc, len)?;
        bytes.push_reserved(0);
        bytes.extend_from_slice(names)?;
        mark_names(bytes.as_mut_slice());
        return Ok(bytes);
    }
    let mut bytes = [0u8; SHARED];
    bytes[1..len].copy_from_slice(names);
    mark_names(&mut bytes);
    Ok(SmallVec::from_buf_and_len(alloc, bytes, len))
}

// Whether the bytes are the same: as a number of eight bytes and one of four. Compared as arrays they would be three times as many
// instructions. Neither is read across the two moves by which a text is moved, so that right behind those no read waits.
#[inline(always)]
fn are_same(bytes: &[u8; SHORT], others: &[u8; SHORT]) -> bool
    ensures { IsTrue result → bytes.now ≡ others.now }
{
    first_eight(bytes) == first_eight(others) && last_four(bytes) == last_four(others)
}

// The number that the first eight bytes spell, the least first.
#[inline(always)]
fn first_eight(bytes: &[u8; SHORT]) -> u64
    ensures { result ≡ from_le_bytes w64 (slice_range bytes.now 0 8) }
{
    match bytes.first_chunk::<8>() {
        Some(chunk) => u64::from_le_bytes(*chunk),
        None => unreachable!(),
    }
}

// And the other four.
#[inline(always)]
fn last_four(bytes: &[u8; SHORT]) -> u32
    ensures { result ≡ from_le_bytes w32 (slice_range bytes.now 8 12) }
{
    match bytes[8..].first_chunk::<4>() {
        Some(chunk) => u32::from_le_bytes(*chunk),
        None => unreachable!(),
    }
}
