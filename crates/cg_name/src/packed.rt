// Paths as texts: for each name a zero byte, which no name has, and the name's bytes.
ghost use Rattle.std.specs.Prelude.{◌≡◌, ◌≤◌, cond, length, map, take, drop};
ghost use Rattle.std.specs.List.{list_all};
ghost use Rattle.cg_name.specs.Path.{is_prefix};
ghost use Rattle.cg_name.specs.Packed.{names_in, first_name, is_plain_or_zero, slashed, BeginsName};

use crate::word::is_plain_byte;

// How many names the text of a path has.
pub(crate) fn count_names(bytes: &[u8]) -> u8
    requires { length (names_in bytes.now) ≤ 64 }
    ensures { result ≡ length (names_in bytes.now) }
{
    let mut count: u8 = 0;
    for byte in bytes {
        if *byte == 0 {
            count += 1;
        }
    }
    count
}

// Whether each byte of a name is plain, so that the path is written as a bare word.
pub(crate) fn are_plain(bytes: &[u8]) -> bool
    ensures { result ≡ list_all is_plain_or_zero bytes.now }
{
    // With no way out of the loop, many bytes are tested at a time.
    let mut others = 0;
    for byte in bytes {
        others |= other(*byte);
    }
    others == 0
}

// 1 for a byte of a name that is not plain, and 0 for each other byte.
fn other(byte: u8) -> u8
    ensures { result ≡ cond (is_plain_or_zero byte) 0 1 }
{
    if byte == 0 || is_plain_byte(byte) {
        0
    } else {
        1
    }
}

// Puts a slash for each zero byte.
pub(crate) fn put_slashes(bytes: &mut [u8])
    ensures { bytes.new ≡ map slashed bytes.old }
{
    for i in 0..bytes.len() {
        bytes[i] = slashed(bytes[i]);
    }
}

// What is written for this byte of the text of a path.
fn slashed(byte: u8) -> u8
    ensures { result ≡ slashed byte }
{
    if byte == 0 { b'/' } else { byte }
}

// Where the name with that many before it begins, or the end.
pub(crate) fn start_of(bytes: &[u8], index: u32) -> usize
    ensures within { result ≤ length bytes.now }
    ensures start { BeginsName (drop result bytes.now) }
    ensures names { names_in (take result bytes.now) ≡ take index (names_in bytes.now) }
{
    let mut left = index;
    for (i, byte) in bytes.iter().enumerate() {
        if *byte == 0 {
            if left == 0 {
                return i;
            }
            left -= 1;
        }
    }
    bytes.len()
}

// What stands before the first zero byte.
pub(crate) fn first_name(bytes: &[u8]) -> &[u8]
    ensures value { result.now ≡ first_name bytes.now }
    ensures within { length result.now ≤ length bytes.now }
{
    for (i, byte) in bytes.iter().enumerate() {
        if *byte == 0 {
            return &bytes[..i];
        }
    }
    bytes
}

/// Whether the path of the second text begins with that of the first. Both are texts that `as_bytes` gives.
pub fn begins_with(bytes: &[u8], other: &[u8]) -> bool
    requires own { BeginsName bytes.now }
    requires others { BeginsName other.now }
    ensures { result ≡ is_prefix (names_in bytes.now) (names_in other.now) }
{
    other.starts_with(bytes) && (other.len() == bytes.len() || other[bytes.len()] == 0)
}
