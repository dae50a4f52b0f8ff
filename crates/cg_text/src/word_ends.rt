//! The places of a short line where a word ends, as the bits of a number: sixteen bytes are looked at at once.
ghost use Rattle.std.specs.Prelude.{◌≡◌, ◌+◌, ◌*◌, ◌-◌, ◌<◌, ◌≤◌, ◌++◌, IfSome, length, map, take, drop, true};
ghost use Rattle.std.specs.Simd.Lanes.{mask_l};
ghost use Rattle.std.specs.List.{list_all};
ghost use Rattle.cg_name.specs.Word.{is_blank};
ghost use Rattle.cg_text.specs.WordEnds.{is_unusual, is_usual, word_ends};

use std::simd::prelude::*;

/// The most bytes of a line that is short.
pub(crate) const SHORT_LINE: usize = 63;

// How many bytes are looked at at once.
const LANES: usize = 16;

// Half as many, and a quarter.
const HALF: usize = 8;

const QUARTER: usize = 4;

/// Where words end: a bit for each byte of a line, the first one's the lowest, which is set where the byte is a blank, and
/// behind them one that is set for the line's end. None where a byte is a quotation mark, a backslash or none of ASCII, and
/// where there are fewer than four bytes.
#[inline(always)]
pub(crate) fn word_ends(line: &[u8]) -> Option<u64>
    requires short { length line.now ≤ 63 }
    ensures { IfSome result (λ ends. (ends ≡ word_ends line.now) × (list_all is_usual line.now ≡ true)) }
{
    let (Some(first), Some((front, last))) = (
        line.first_chunk::<LANES>(),
        line.split_last_chunk::<LANES>(),
    ) else {
        return word_ends_of_few(line);
    };
    let first = u8x16::from_array(*first);
    let last = u8x16::from_array(*last);
    let mut ends = 1 << LANES | blanks_in(last);
    let mut unusual = unusual_in(first) | unusual_in(last);
    let mut rest = front;
    while let Some((front, last)) = rest.split_last_chunk::<LANES>() {
        let last = u8x16::from_array(*last);
        ends = ends << LANES | blanks_in(last);
        unusual |= unusual_in(last);
        rest = front;
    }
    if unusual != 0 {
        return None;
    }
    // Those that are left are the first ones, and some of the first sixteen stand in both.
    Some(ends << rest.len() | blanks_in(first))
}

// The same of fewer bytes than are looked at at once: the first half of as many and the last, or the first quarter and the
// last, of which some bytes may stand in both.
fn word_ends_of_few(line: &[u8]) -> Option<u64>
    requires few { length line.now < 16 }
    ensures { IfSome result (λ ends. (ends ≡ word_ends line.now) × (list_all is_usual line.now ≡ true)) }
{
    if let (Some(first), Some(last)) = (line.first_chunk::<HALF>(), line.last_chunk::<HALF>()) {
        let first = u8x8::from_array(*first);
        let last = u8x8::from_array(*last);
        let both: u8x16 = first.shuffle(
            last,
            [0, 1, 2, 3, 4, 5, 6, 7, 8, 9, 10, 11, 12, 13, 14, 15],
        );
        if unusual_in(both) != 0 {
            return None;
        }
        return Some(ends_of_both::<HALF>(line, blanks_in(both)));
    }
    let (Some(first), Some(last)) = (line.first_chunk::<QUARTER>(), line.last_chunk::<QUARTER>())
    else {
        return None;
    };
    let first = u8x4::from_array(*first);
    let last = u8x4::from_array(*last);
    let both: u8x8 = first.shuffle(last, [0, 1, 2, 3, 4, 5, 6, 7]);
    if unusual_in(both) != 0 {
        return None;
    }
    Some(ends_of_both::<QUARTER>(line, blanks_in(both)))
}

// The same by the blanks of the first N bytes and, behind these, of the last N.
#[inline(always)]
fn ends_of_both<const N: usize>(line: &[u8], blanks: u64) -> u64
    requires within { N ≤ length line.now }
    requires few { length line.now ≤ 2 * N }
    requires short { N ≤ 16 }
    requires blanks { blanks ≡ mask_l (map is_blank (take N line.now ++ drop (length line.now - N) line.now)) }
    ensures { result ≡ word_ends line.now }
{
    let first = blanks & ((1 << N) - 1);
    let last = 1 << N | blanks >> N;
    last << (line.len() - N) | first
}

// The blanks among some bytes, each as a bit.
#[inline(always)]
fn blanks_in<const N: usize>(bytes: Simd<u8, N>) -> u64
    requires many { N ≤ 64 }
    requires whole { length bytes ≡ N }
    ensures { result ≡ mask_l (map is_blank bytes.entry) }
{
    (bytes.simd_eq(Simd::splat(b' ')) | bytes.simd_eq(Simd::splat(b'\t'))).to_bitmask()
}

// The quotation marks, backslashes and bytes that are none of ASCII among some bytes, each as a bit.
#[inline(always)]
fn unusual_in<const N: usize>(bytes: Simd<u8, N>) -> u64
    requires many { N ≤ 64 }
    requires whole { length bytes ≡ N }
    ensures { result ≡ mask_l (map is_unusual bytes.entry) }
{
    let special = bytes.simd_eq(Simd::splat(b'"')) | bytes.simd_eq(Simd::splat(b'\\'));
    (special | bytes.simd_ge(Simd::splat(128))).to_bitmask()
}
