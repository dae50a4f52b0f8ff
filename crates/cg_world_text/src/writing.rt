//! The one text that is written for a world.
ghost use Rattle.std.specs.Prelude.{◌≡◌, ◌++◌, [], ◌∷◌, OnOk, OnErr, codes, length, take};
ghost use Rattle.std.specs.List.{flat_map};
ghost use Rattle.std.specs.Ordering.{nat_cmp};
ghost use Rattle.cg_maps.specs.FiniteMap.{entries, from_entries};
ghost use Rattle.cg_name.specs.Controller.{controller_word};
ghost use Rattle.cg_name.specs.Path.{path_cmp};
ghost use Rattle.cg_text.specs.Controllers.{members};
ghost use Rattle.cg_text.specs.FileText.{flag_word, limit_word};
ghost use Rattle.cg_world_text.specs.Version.{version_word};
ghost use Rattle.cg_world_text.specs.World.{asked_cpus_text, control_text, group_line, limits_text, newline, process_line, space, text_of_version, world_text};
ghost use Rattle.cg_world_text.specs.Writing.{head_lines};

use crate::fitting::version_of;
use crate::version::Version;
use cg_boxed::{BoxedCpus, CompactSettings};
use cg_cpus::CpuSet;
use cg_name::{Path, PathRef, or_truncate};
use cg_text::{Controllers, Limit, write_names};
use cg_world::{PlainTree, World};
use itoa::Buffer;
use std::alloc::AllocError;
use std::collections::BTreeMap;

/// Writing as the text of a world.
pub trait WriteWorld {
    /// Appends the text of a world, in version 1 where it can be: its groups in the order of their paths, its
    /// processes by ascending PID. An error, where there is no memory, leaves `out` as it was.
    fn write(&self, out: &mut Vec<u8>) -> Result<(), AllocError>;
}

impl WriteWorld for World {
    fn write(&self, out: &mut Vec<u8>) -> Result<(), AllocError>
        ensures ok { OnOk result (out.new.items ≡ out.old.items ++ world_text self.now) }
        ensures err { OnErr result (out.new.items ≡ out.old.items) }
    {
        self.tree().write(out)
    }
}

impl WriteWorld for PlainTree {
    fn write(&self, out: &mut Vec<u8>) -> Result<(), AllocError>
        ensures ok { OnOk result (out.new.items ≡ out.old.items ++ world_text self.now) }
        ensures err { OnErr result (out.new.items ≡ out.old.items) }
    {
        let start = out.len();
        let written = append_world(version_of(self), self, out);
        or_truncate(written, start, out)
    }
}

// Appends the first three lines of a world's text: the version, the controllers and the CPUs that are online. An error,
// where there is no memory, leaves what stood in `out` at its front, as with the lines below.
pub(crate) fn append_head(
    version: Version,
    controllers: &Controllers,
    online: &CpuSet,
    out: &mut Vec<u8>,
) -> Result<(), AllocError>
    ensures ok { OnOk result (out.new.items ≡ out.old.items ++ head_lines version controllers.now online.now) }
    ensures kept { OnErr result (take (length out.old.items) out.new.items ≡ out.old.items) }
{
    append_version(version, out)?;
    out.extend_from_slice(b"controllers")?;
    append_names(controllers, out)?;
    out.extend_from_slice(b"\nonline ")?;
    online.write(out)?;
    out.push(b'\n')?;
    Ok(())
}

// Appends the line of a group.
pub(crate) fn append_group(
    version: Version,
    path: &PathRef<'_>,
    settings: &CompactSettings,
    out: &mut Vec<u8>,
) -> Result<(), AllocError>
    ensures ok { OnOk result (out.new.items ≡ out.old.items ++ group_line version (path.now, settings.now)) }
    ensures kept { OnErr result (take (length out.old.items) out.new.items ≡ out.old.items) }
{
    out.extend_from_slice(b"group ")?;
    path.write(out)?;
    out.push(b' ')?;
    append_control(&settings.control(), out)?;
    out.push(b' ')?;
    out.push(flag(settings.freeze()))?;
    out.push(b' ')?;
    append_asked_cpus(settings.cpus(), out)?;
    append_limits(version, settings, out)?;
    out.push(b'\n')?;
    Ok(())
}

// Appends the line of a process.
pub(crate) fn append_process(
    pid: u32,
    path: &PathRef<'_>,
    out: &mut Vec<u8>,
) -> Result<(), AllocError>
    ensures ok { OnOk result (out.new.items ≡ out.old.items ++ process_line (pid, path.now)) }
    ensures kept { OnErr result (take (length out.old.items) out.new.items ≡ out.old.items) }
{
    let mut buffer = Buffer::new();
    out.extend_from_slice(b"proc ")?;
    out.extend_from_slice(buffer.format(pid).as_bytes())?;
    out.push(b' ')?;
    path.write(out)?;
    out.push(b'\n')?;
    Ok(())
}

// Appends the last line.
pub(crate) fn append_end(out: &mut Vec<u8>) -> Result<(), AllocError>
    ensures ok { OnOk result (out.new.items ≡ out.old.items ++ (codes "end" ++ newline)) }
    ensures kept { OnErr result (take (length out.old.items) out.new.items ≡ out.old.items) }
{
    out.extend_from_slice(b"end\n")?;
    Ok(())
}

// What follows appends to `out`, and an error leaves what stood there at the front.

// All lines of the tree's text in one version.
fn append_world(version: Version, tree: &PlainTree, out: &mut Vec<u8>) -> Result<(), AllocError>
    ensures ok { OnOk result (out.new.items ≡ out.old.items ++ text_of_version version tree.now) }
    ensures kept { OnErr result (take (length out.old.items) out.new.items ≡ out.old.items) }
{
    append_head(version, &tree.controllers(), &tree.online(), out)?;
    append_groups(version, tree.groups(), out)?;
    append_processes(tree.places(), out)?;
    append_end(out)
}

// The line of the version.
fn append_version(version: Version, out: &mut Vec<u8>) -> Result<(), AllocError>
    ensures ok { OnOk result (out.new.items ≡ out.old.items ++ (codes "world " ++ version_word version ++ newline)) }
    ensures kept { OnErr result (take (length out.old.items) out.new.items ≡ out.old.items) }
{
    out.extend_from_slice(b"world ")?;
    out.extend_from_slice(version.word().as_bytes())?;
    out.push(b'\n')?;
    Ok(())
}

// The names of the controllers, each with a space before it.
fn append_names(controllers: &Controllers, out: &mut Vec<u8>) -> Result<(), AllocError>
    ensures ok { OnOk result (out.new.items ≡ out.old.items ++ flat_map (λ c. 32 ∷ controller_word c) (members controllers.now)) }
    ensures kept { OnErr result (take (length out.old.items) out.new.items ≡ out.old.items) }
{
    if controllers.is_empty() {
        return Ok(());
    }
    out.push(b' ')?;
    write_names(*controllers, b' ', out)?;
    Ok(())
}

// The line of each group.
fn append_groups(
    version: Version,
    groups: &BTreeMap<Path, CompactSettings>,
    out: &mut Vec<u8>,
) -> Result<(), AllocError>
    ensures ok { OnOk result (out.new.items ≡ out.old.items ++ flat_map (group_line version) (entries (from_entries path_cmp groups.now.entries))) }
    ensures kept { OnErr result (take (length out.old.items) out.new.items ≡ out.old.items) }
{
    for (path, settings) in groups {
        append_group(version, &path.borrowed(), settings, out)?;
    }
    Ok(())
}

// The line of each process, by ascending PID.
fn append_processes(places: &BTreeMap<u32, Path>, out: &mut Vec<u8>) -> Result<(), AllocError>
    ensures ok { OnOk result (out.new.items ≡ out.old.items ++ flat_map process_line (entries (from_entries nat_cmp places.now.entries))) }
    ensures kept { OnErr result (take (length out.old.items) out.new.items ≡ out.old.items) }
{
    for (pid, path) in places {
        append_process(*pid, &path.borrowed(), out)?;
    }
    Ok(())
}

// The limits on descendants and on depth, each with a space before it, which version 1 has not.
fn append_limits(
    version: Version,
    settings: &CompactSettings,
    out: &mut Vec<u8>,
) -> Result<(), AllocError>
    ensures ok { OnOk result (out.new.items ≡ out.old.items ++ limits_text version settings.now) }
    ensures kept { OnErr result (take (length out.old.items) out.new.items ≡ out.old.items) }
{
    match version {
        Version::One => Ok(()),
        Version::Two => {
            append_limit(settings.max_descendants(), out)?;
            append_limit(settings.max_depth(), out)
        }
    }
}

// A limit, with a space before it.
fn append_limit(limit: Limit, out: &mut Vec<u8>) -> Result<(), AllocError>
    ensures ok { OnOk result (out.new.items ≡ out.old.items ++ (space ++ limit_word limit)) }
    ensures kept { OnErr result (take (length out.old.items) out.new.items ≡ out.old.items) }
{
    out.push(b' ')?;
    match limit {
        Limit::Max => out.extend_from_slice(b"max")?,
        Limit::UpTo(most) => {
            let mut buffer = Buffer::new();
            out.extend_from_slice(buffer.format(most.number).as_bytes())?;
        }
    }
    Ok(())
}

// The names of the controllers with commas between them, or a minus for none.
fn append_control(control: &Controllers, out: &mut Vec<u8>) -> Result<(), AllocError>
    ensures ok { OnOk result (out.new.items ≡ out.old.items ++ control_text control.now) }
    ensures kept { OnErr result (take (length out.old.items) out.new.items ≡ out.old.items) }
{
    if !write_names(*control, b',', out)? {
        out.push(b'-')?;
    }
    Ok(())
}

// The digit of a flag.
fn flag(value: bool) -> u8
    ensures { result ∷ [] ≡ flag_word value }
{
    if value { b'1' } else { b'0' }
}

// The list of the CPUs, or a minus for none.
fn append_asked_cpus(cpus: &BoxedCpus, out: &mut Vec<u8>) -> Result<(), AllocError>
    ensures ok { OnOk result (out.new.items ≡ out.old.items ++ asked_cpus_text cpus.now) }
    ensures kept { OnErr result (take (length out.old.items) out.new.items ≡ out.old.items) }
{
    if cpus.is_empty() {
        out.push(b'-')?;
        return Ok(());
    }
    cpus.get().write(out)
}
