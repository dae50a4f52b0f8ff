//! The lines that tell of one group or one process.
ghost use Rattle.std.specs.Prelude.{◌≡◌, ◌++◌, codes, OnOk};
ghost use Rattle.std.specs.Fmt.{decimal};
ghost use Rattle.cg_name.specs.Path.{path_word, same_path};
ghost use Rattle.cg_world_text.specs.World.{group_line, limits_text, process_line};
ghost use Rattle.cg_diff.specs.Difference.{became, changed, setting, settings_changes};

use crate::words::AsWord;
use cg_boxed::CompactSettings;
use cg_name::Path;
use cg_world_text::Version;
use itoa::Buffer;
use std::alloc::AllocError;

// Each appends to a text; after an error, where there is no memory, nothing is said of it.

/// Appends the line of a thing that both trees have, where it changed.
pub(crate) fn append_changed<W: AsWord>(
    name: &[u8],
    before: &W,
    after: &W,
    out: &mut Vec<u8>,
) -> Result<(), AllocError>
    ensures { OnOk result (out.new.items ≡ out.old.items ++ changed name.now (W.same before.now after.now) (W.word before.now) (W.word after.now)) }
{
    if before.is_same(after) {
        return Ok(());
    }
    out.extend_from_slice(b"~ ")?;
    out.extend_from_slice(name)?;
    out.push(b' ')?;
    append_became(before, after, out)
}

/// Appends a line for each setting of a group that changed.
pub(crate) fn append_settings(
    path: &Path,
    before: &CompactSettings,
    after: &CompactSettings,
    out: &mut Vec<u8>,
) -> Result<(), AllocError>
    ensures { OnOk result (out.new.items ≡ out.old.items ++ settings_changes path.now before.now after.now) }
{
    append_setting(path, b"control", &before.control(), &after.control(), out)?;
    append_setting(path, b"freeze", &before.freeze(), &after.freeze(), out)?;
    append_setting(
        path,
        b"cpus",
        &before.cpus().get(),
        &after.cpus().get(),
        out,
    )?;
    append_setting(
        path,
        b"descendants",
        &before.max_descendants(),
        &after.max_descendants(),
        out,
    )?;
    append_setting(path, b"depth", &before.max_depth(), &after.max_depth(), out)
}

/// Appends the line of a process, where it has another group.
pub(crate) fn append_moved(
    pid: u32,
    before: &Path,
    after: &Path,
    out: &mut Vec<u8>,
) -> Result<(), AllocError>
    ensures { OnOk result (out.new.items ≡ out.old.items ++ changed (codes "proc " ++ decimal pid) (same_path before.now after.now) (path_word before.now) (path_word after.now)) }
{
    if AsWord::is_same(before, after) {
        return Ok(());
    }
    out.extend_from_slice(b"~ proc ")?;
    append_number(pid, out)?;
    out.push(b' ')?;
    append_became(before, after, out)
}

/// Appends the line of a group in a world text of that version.
pub(crate) fn append_group_line(
    version: Version,
    path: &Path,
    settings: &CompactSettings,
    out: &mut Vec<u8>,
) -> Result<(), AllocError>
    ensures { OnOk result (out.new.items ≡ out.old.items ++ group_line version (path.now, settings.now)) }
{
    out.extend_from_slice(b"group ")?;
    path.write(out)?;
    out.push(b' ')?;
    settings.control().append_word(out)?;
    out.push(b' ')?;
    settings.freeze().append_word(out)?;
    out.push(b' ')?;
    settings.cpus().get().append_word(out)?;
    append_limits(version, settings, out)?;
    out.push(b'\n')?;
    Ok(())
}

/// Appends the line of a process in a world text.
pub(crate) fn append_process_line(
    pid: u32,
    path: &Path,
    out: &mut Vec<u8>,
) -> Result<(), AllocError>
    ensures { OnOk result (out.new.items ≡ out.old.items ++ process_line (pid, path.now)) }
{
    out.extend_from_slice(b"proc ")?;
    append_number(pid, out)?;
    out.push(b' ')?;
    path.write(out)?;
    out.push(b'\n')?;
    Ok(())
}

// Appends the line of a setting of a group, where it changed.
fn append_setting<W: AsWord>(
    path: &Path,
    name: &[u8],
    before: &W,
    after: &W,
    out: &mut Vec<u8>,
) -> Result<(), AllocError>
    ensures { OnOk result (out.new.items ≡ out.old.items ++ changed (setting path.now name.now) (W.same before.now after.now) (W.word before.now) (W.word after.now)) }
{
    if before.is_same(after) {
        return Ok(());
    }
    out.extend_from_slice(b"~ group ")?;
    path.write(out)?;
    out.push(b' ')?;
    out.extend_from_slice(name)?;
    out.push(b' ')?;
    append_became(before, after, out)
}

// Appends what a thing was and what it became, and the line's end.
fn append_became<W: AsWord>(before: &W, after: &W, out: &mut Vec<u8>) -> Result<(), AllocError>
    ensures { OnOk result (out.new.items ≡ out.old.items ++ became (W.word before.now) (W.word after.now)) }
{
    before.append_word(out)?;
    out.extend_from_slice(b" -> ")?;
    after.append_word(out)?;
    out.push(b'\n')?;
    Ok(())
}

// Appends the limits on descendants and on depth, each with a space before it, which version 1 has not.
fn append_limits(
    version: Version,
    settings: &CompactSettings,
    out: &mut Vec<u8>,
) -> Result<(), AllocError>
    ensures { OnOk result (out.new.items ≡ out.old.items ++ limits_text version settings.now) }
{
    match version {
        Version::One => Ok(()),
        Version::Two => {
            out.push(b' ')?;
            settings.max_descendants().append_word(out)?;
            out.push(b' ')?;
            settings.max_depth().append_word(out)
        }
    }
}

// Appends a number in decimal digits.
fn append_number(number: u32, out: &mut Vec<u8>) -> Result<(), AllocError>
    ensures { OnOk result (out.new.items ≡ out.old.items ++ decimal number) }
{
    let mut buffer = Buffer::new();
    out.extend_from_slice(buffer.format(number).as_bytes())?;
    Ok(())
}
