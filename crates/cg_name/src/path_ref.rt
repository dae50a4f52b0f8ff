//! A path that is borrowed from where it is kept.
ghost use Rattle.std.specs.Prelude.{◌≡◌, ◌∷◌, ◌++◌, List, ℕ, IfOk, OnOk, OnErr, length, take, slice_get, option_copied};
ghost use Rattle.std.specs.List.{flat_map, list_all};
ghost use Rattle.cg_name.specs.Packed.{names_in, packed_text, IsPacked};
ghost use Rattle.cg_name.specs.Path.{is_root, is_prefix, path_word, IsPath};
ghost use Rattle.cg_name.specs.Word.{is_plain_byte, quoted_byte};

use crate::appending::or_truncate;
use crate::names::Names;
use crate::packed::{are_plain, begins_with, count_names, first_name, put_slashes, start_of};
use crate::path::Path;
use crate::word::append_escaped;
use std::alloc::{AllocError, Global};
use std::fmt;
use std::marker::Model;

/// The path of a group, borrowed from a map or from a `Path`.
#[derive(Drop)]
pub struct PathRef<'a> {
    bytes: &'a [u8],
}

impl<'a> Model for PathRef<'a> {
    ghost Value = { List (List ℕ) };

    ghost view = { λ p. names_in p.bytes.now };

    ghost invariant = { λ p. IsPacked p.bytes.now };
}

impl<'a> PathRef<'a> {
    /// The path of this text, which is one that `as_bytes` gives.
    pub fn new(bytes: &'a [u8]) -> PathRef<'a>
        requires { IsPacked bytes.now }
        ensures { result ≡ names_in bytes.now }
    {
        PathRef { bytes }
    }

    /// Whether this is the root's path.
    pub fn is_root(&self) -> bool
        ensures { result ≡ is_root self.now }
    {
        self.bytes.is_empty()
    }

    /// How many names the path has, from 0 to 64.
    pub fn depth(&self) -> u32
        ensures value { result ≡ length self.now }
        ensures valid { IsPath self.now }
    {
        u32::from(count_names(self.bytes))
    }

    /// The names, from the root down. Takes no memory.
    pub fn names(&self) -> Names<'a>
        ensures value { result ≡ self.now }
        ensures valid { IsPath self.now }
    {
        Names::new(self.bytes)
    }

    /// The name with that many names above it, if the path is so deep.
    pub fn name_at(&self, index: u32) -> Option<&'a str>
        ensures { option_copied result ≡ slice_get self.now index }
    {
        match self.name_bytes_at(index) {
            // A name is UTF-8.
            Some(name) => Some(unsafe { std::str::from_utf8_unchecked(name) }),
            None => None,
        }
    }

    // The bytes of the name with that many names above it, if the path is so deep.
    fn name_bytes_at(&self, index: u32) -> Option<&'a [u8]>
        ensures value { option_copied result ≡ slice_get self.now index }
        ensures valid { IsPath self.now }
    {
        let start = start_of(self.bytes, index);
        if start == self.bytes.len() {
            return None;
        }
        Some(first_name(&self.bytes[start + 1..]))
    }

    /// The path as one text, of at most 16,384 bytes: for each name a zero byte and the name's bytes.
    pub fn as_bytes(&self) -> &'a [u8]
        ensures value { result.now ≡ packed_text self.now }
        ensures valid { IsPath self.now }
    {
        self.bytes
    }

    /// Whether this path begins with the other, as every path begins with itself and with the root's.
    pub fn begins_with(&self, other: &Path) -> bool
        ensures { result ≡ is_prefix other.now self.now }
    {
        begins_with(other.text(), self.bytes)
    }

    /// A path of its own; an error where there is no memory for it.
    pub fn to_path(&self, alloc: Global) -> Result<Path, AllocError>
        ensures { IfOk result (λ p. p ≡ self.now) }
    {
        Path::from_text(alloc, self.bytes)
    }

    /// Appends the word of the path: its text where that is printing characters of ASCII, with no quotation mark and no
    /// backslash, and else its text between quotation marks. An error where there is no memory for it, and nothing is
    /// then appended.
    pub fn write(&self, out: &mut Vec<u8>) -> Result<(), AllocError>
        ensures ok { OnOk result (out.new.items ≡ out.old.items ++ path_word self.now) }
        ensures err { OnErr result (out.new.items ≡ out.old.items) }
    {
        let start = out.len();
        let written = write_word(self, out);
        or_truncate(written, start, out)
    }
}

impl fmt::Debug for PathRef<'_> {
    fn fmt<W: fmt::Write>(&self, f: &mut fmt::Formatter<W>) -> fmt::Result {
        f.debug_list().entries(self.names()).finish()
    }
}

// What follows appends to `out`. Where memory runs out, some of that may stand after what was there.

// The word of the path.
fn write_word(path: &PathRef<'_>, out: &mut Vec<u8>) -> Result<(), AllocError>
    ensures ok { OnOk result (out.new.items ≡ out.old.items ++ path_word path.now) }
    ensures kept { OnErr result (take (length out.old.items) out.new.items ≡ out.old.items) }
{
    if path.is_root() {
        out.push(b'/')?;
        return Ok(());
    }
    if has_plain_names(path) {
        return write_names(path, out);
    }
    out.push(b'"')?;
    write_escaped_names(path, out)?;
    out.push(b'"')?;
    Ok(())
}

// Whether all bytes of the names are plain.
pub(crate) fn has_plain_names(path: &PathRef<'_>) -> bool
    ensures { result ≡ list_all (λ n. list_all is_plain_byte n) path.now }
{
    are_plain(path.as_bytes())
}

// Each name with a slash before it.
fn write_names(path: &PathRef<'_>, out: &mut Vec<u8>) -> Result<(), AllocError>
    ensures ok { OnOk result (out.new.items ≡ out.old.items ++ flat_map (λ n. 47 ∷ n) path.now) }
    ensures kept { OnErr result (take (length out.old.items) out.new.items ≡ out.old.items) }
{
    let start = out.len();
    out.extend_from_slice(path.as_bytes())?;
    put_slashes(&mut out[start..]);
    Ok(())
}

// The same, as it stands between quotation marks.
#[cold]
fn write_escaped_names(path: &PathRef<'_>, out: &mut Vec<u8>) -> Result<(), AllocError>
    ensures ok { OnOk result (out.new.items ≡ out.old.items ++ flat_map quoted_byte (flat_map (λ n. 47 ∷ n) path.now)) }
    ensures kept { OnErr result (take (length out.old.items) out.new.items ≡ out.old.items) }
{
    for name in path.names() {
        out.push(b'/')?;
        append_escaped(name.as_bytes(), out)?;
    }
    Ok(())
}
