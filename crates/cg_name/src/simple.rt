// Words of paths that are read in one pass: slashes and, behind each, letters, digits and other simple bytes.
ghost use Rattle.std.specs.Prelude.{◌≡◌, ◌<◌, ◌≤◌, ◌+◌, ◌-◌, ◌∷◌, ◌++◌, cond, drop, false, length, map, replicate, take, IfSome, IsTrue, true};
ghost use Rattle.std.specs.Int.{w32, from_le_bytes};
ghost use Rattle.std.specs.List.{count_by, list_all};
ghost use Rattle.std.specs.Simd.Lanes.{mask_l};
ghost use Rattle.cg_name.specs.Path.{IsPath};
ghost use Rattle.cg_name.specs.Simple.{is_simple_byte, is_slash, misplaced, simple_text, GoesOn};
ghost use Rattle.cg_name.specs.Pieces.{marked, pieces};
ghost use Rattle.cg_name.specs.Word.{is_bare_byte};

use crate::slashed::MAX_DEPTH;
use std::simd::prelude::*;

// The most bytes behind the first slash of a word that is read so: a name of so many is not too long.
const LONGEST: usize = 255;

// How many bytes are looked at at once, and with the one before them.
pub(crate) const LANES: usize = 16;

const FRONT: usize = 17;

// Whether what stands behind the first slash of a word is simple: then it is bare, and between its slashes are the names
// of a path. Of what is not simple nothing is told.
pub(crate) fn is_simple(text: &[u8]) -> bool
    ensures { IsTrue result → IsPath (pieces text.now) × (list_all is_bare_byte text.now ≡ true) }
{
    let (Some(first), Some(last)) = (text.first(), text.last()) else {
        return false;
    };
    if text.len() > LONGEST || !begins_name(*first) || *last == b'/' {
        return false;
    }
    goes_on(text) && has_few_slashes(text)
}

// Whether a name of simple bytes can begin with this one.
fn begins_name(byte: u8) -> bool
    ensures { result ≡ is_simple_byte byte }
{
    byte == b'-' || byte > b'/' && byte < 128 && byte != b'\\'
}

// Whether each byte behind the first is simple, or a slash that stands behind none. Sixteen are looked at at once, with those before
// them.
fn goes_on(text: &[u8]) -> bool
    ensures { IsTrue result → GoesOn text.now }
{
    let mut rest = text;
    while let Some(front) = rest.first_chunk::<FRONT>() {
        if !front_goes_on(front) {
            return false;
        }
        rest = &rest[LANES..];
    }
    match text.last_chunk::<FRONT>() {
        // Those that are left are the last ones of these.
        Some(last) => front_goes_on(last),
        None => few_go_on(text),
    }
}

// The same of fewer bytes than are looked at at once.
fn few_go_on(text: &[u8]) -> bool
    requires few { length text.now < 17 }
    ensures { IsTrue result → GoesOn text.now }
{
    let mut bytes = [b'a'; FRONT];
    bytes[..text.len()].copy_from_slice(text);
    front_goes_on(&bytes)
}

// The same of as many bytes as are looked at at once, behind one.
fn front_goes_on(front: &[u8; FRONT]) -> bool
    requires whole { length front.now ≡ 17 }
    ensures { IsTrue result → GoesOn front.now }
{
    let bytes = u8x16::from_slice(&front[1..]);
    let before = u8x16::from_slice(&front[..LANES]);
    misplaced_in(bytes, before) == 0
}

// The bytes that are neither simple nor a slash, and the slashes that stand behind one, each as a bit.
#[inline(always)]
fn misplaced_in(bytes: u8x16, before: u8x16) -> u64
    requires whole { length bytes ≡ 16 }
    requires behind { length before ≡ 16 }
    ensures { result ≡ mask_l (misplaced bytes before) }
{
    let slash = u8x16::splat(b'/');
    let low = bytes.simd_lt(u8x16::splat(b'-')) | bytes.simd_eq(u8x16::splat(b'.'));
    let high = bytes.simd_eq(u8x16::splat(b'\\')) | bytes.simd_ge(u8x16::splat(128));
    let twice = bytes.simd_eq(slash) & before.simd_eq(slash);
    (low | high | twice).to_bitmask()
}

// A word of few bytes with a zero byte for each slash, and zero bytes behind it. `None` for each word that has other bytes
// than slashes and simple ones, two slashes in a row or one at its end.
#[inline(always)]
pub(crate) fn marked_word(word: &[u8]) -> Option<[u8; LANES]>
    requires some { 4 ≤ length word.now }
    requires few { length word.now ≤ 12 }
    ensures { IfSome result (λ bytes. (simple_text false word.now ≡ true) × (bytes ≡ map marked word.now ++ replicate (16 - length word.now) 0)) }
{
    let bytes = padded(word);
    let zeros = u8x16::splat(0);
    let before = zeros.shuffle(
        bytes,
        [
            15, 16, 17, 18, 19, 20, 21, 22, 23, 24, 25, 26, 27, 28, 29, 30,
        ],
    );
    // The bits of the zero bytes behind the word are shifted out.
    if misplaced_in(bytes, before) << (64 - word.len()) != 0 || word[word.len() - 1] == b'/' {
        return None;
    }
    let slashes = bytes.simd_eq(u8x16::splat(b'/'));
    Some(slashes.select(zeros, bytes).to_array())
}

// The same of a slash and one byte or two behind it, of which none is a slash.
#[inline(always)]
pub(crate) fn marked_few(rest: &[u8]) -> Option<[u8; LANES]>
    requires some { 0 < length rest.now }
    requires few { length rest.now < 3 }
    ensures { IfSome result (λ bytes. (simple_text true rest.now ≡ true) × (bytes ≡ 0 ∷ map marked rest.now ++ replicate (15 - length rest.now) 0)) }
{
    let first = rest[0];
    if !begins_name(first) {
        return None;
    }
    match rest.get(1) {
        None => Some(one_or_two(first, 0)),
        Some(second) if begins_name(*second) => Some(one_or_two(first, *second)),
        _ => None,
    }
}

// A zero byte, these two, and zero bytes behind them.
#[inline(always)]
fn one_or_two(first: u8, second: u8) -> [u8; LANES]
    ensures { result ≡ 0 ∷ first ∷ second ∷ replicate 13 0 }
{
    u8x16::from_array([0, first, second, 0, 0, 0, 0, 0, 0, 0, 0, 0, 0, 0, 0, 0]).to_array()
}

// A word of few bytes, and zero bytes behind it, put together of numbers of four bytes.
#[inline(always)]
fn padded(word: &[u8]) -> u8x16
    requires some { 4 ≤ length word.now }
    requires few { length word.now ≤ 12 }
    ensures { result ≡ word.now ++ replicate (16 - length word.now) 0 }
{
    let first = four_at(word, 0);
    if word.len() < 8 {
        return u32x4::from_array([first, last_from(word, 4), 0, 0]).to_le_bytes();
    }
    u32x4::from_array([first, four_at(word, 4), last_from(word, 8), 0]).to_le_bytes()
}

// The number that the four bytes from a place on spell, the least first.
#[inline(always)]
fn four_at(word: &[u8], from: usize) -> u32
    requires within { from + 4 ≤ length word.now }
    ensures { result ≡ from_le_bytes w32 (take 4 (drop from word.now)) }
{
    match word[from..].first_chunk::<4>() {
        Some(bytes) => u32::from_le_bytes(*bytes),
        None => unreachable!(),
    }
}

// The same of all bytes from a place on, of which there are at most four: the last four, with those before that place shifted out.
#[inline(always)]
fn last_from(word: &[u8], from: usize) -> u32
    requires some { 4 ≤ from }
    requires within { from ≤ length word.now }
    requires few { length word.now ≤ from + 4 }
    ensures { result ≡ from_le_bytes w32 (drop from word.now ++ replicate (from + 4 - length word.now) 0) }
{
    let last = match word.last_chunk::<4>() {
        Some(bytes) => u64::from(u32::from_le_bytes(*bytes)),
        None => unreachable!(),
    };
    (last >> (8 * (from + 4 - word.len()))) as u32
}

// Whether there are fewer slashes than a path has names at most, where none stands behind another: so it is where there are few
// bytes.
fn has_few_slashes(text: &[u8]) -> bool
    requires { length text.now ≤ 255 }
    ensures { IsTrue result → (simple_text true text.now ≡ true) → count_by is_slash text.now < 64 }
{
    if text.len() < 2 * MAX_DEPTH as usize {
        return true;
    }
    // With no way out of the loop, many bytes are counted at a time.
    let mut slashes = 0;
    for i in 0..text.len() {
        slashes += slash(text[i]);
    }
    u32::from(slashes) < MAX_DEPTH
}

// 1 for a slash, and 0 for each other byte.
fn slash(byte: u8) -> u8
    ensures { result ≡ cond (is_slash byte) 1 0 }
{
    if byte == b'/' { 1 } else { 0 }
}
