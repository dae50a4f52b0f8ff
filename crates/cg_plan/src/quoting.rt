//! Words that a POSIX shell reads as they are.
ghost use Rattle.std.specs.Prelude.{◌≡◌, ◌++◌, OnOk};
ghost use Rattle.cg_plan.specs.ShellWord.{shell_byte, shell_word};

use std::alloc::AllocError;

/// Appends a word that a POSIX shell reads as these bytes: they stand between single quotes, and for each quote among them these
/// are ended, one stands behind a backslash, and they begin again. After an error, where there is no memory, nothing is said of `out`.
pub(crate) fn append_word(bytes: &[u8], out: &mut Vec<u8>) -> Result<(), AllocError>
    ensures { OnOk result (out.new.items ≡ out.old.items ++ shell_word bytes.now) }
{
    out.push(b'\'')?;
    for byte in bytes {
        append_byte(*byte, out)?;
    }
    out.push(b'\'')?;
    Ok(())
}

// A byte between single quotes.
fn append_byte(byte: u8, out: &mut Vec<u8>) -> Result<(), AllocError>
    ensures { OnOk result (out.new.items ≡ out.old.items ++ shell_byte byte) }
{
    match byte {
        b'\'' => out.extend_from_slice(b"'\\''")?,
        _ => out.push(byte)?,
    }
    Ok(())
}
