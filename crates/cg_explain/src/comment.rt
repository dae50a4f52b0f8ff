//! Comments.
ghost use Rattle.std.specs.Prelude.{◌≡◌, ◌++◌, OnOk, take};
ghost use Rattle.std.specs.Fmt.{decimal};
ghost use Rattle.cg_explain.specs.Comment.{comment};
ghost use Rattle.cg_explain.specs.Notes.{path_note};

use cg_name::Path;
use itoa::Buffer;
use std::alloc::AllocError;

// Each appends to a text; after an error, where there is no memory, nothing is said of it.

/// Appends a comment.
pub(crate) fn append_comment(text: &[u8], out: &mut Vec<u8>) -> Result<(), AllocError>
    ensures { OnOk result (out.new.items ≡ out.old.items ++ comment text.now) }
{
    out.extend_from_slice(b"# ")?;
    out.extend_from_slice(text)?;
    out.push(b'\n')?;
    Ok(())
}

/// Appends what is said of a path, as a comment.
pub(crate) fn append_note(path: &Path, said: &[u8], out: &mut Vec<u8>) -> Result<(), AllocError>
    ensures { OnOk result (out.new.items ≡ out.old.items ++ path_note path.now said.now) }
{
    let mut text = Vec::new(*out.allocator());
    path.write(&mut text)?;
    text.extend_from_slice(said)?;
    append_comment(text.as_slice(), out)
}

/// Appends what is said of the path of the first names of a path, so many, as a comment.
pub(crate) fn append_note_above(
    path: &Path,
    depth: u32,
    said: &[u8],
    out: &mut Vec<u8>,
) -> Result<(), AllocError>
    ensures { OnOk result (out.new.items ≡ out.old.items ++ path_note (take depth path.now) said.now) }
{
    let above = path.prefix(*out.allocator(), depth)?;
    append_note(&above, said, out)
}

/// Appends a number in decimal digits.
pub(crate) fn append_number(number: u64, out: &mut Vec<u8>) -> Result<(), AllocError>
    ensures { OnOk result (out.new.items ≡ out.old.items ++ decimal number) }
{
    let mut buffer = Buffer::new();
    out.extend_from_slice(buffer.format(number).as_bytes())?;
    Ok(())
}
