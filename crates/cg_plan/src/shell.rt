//! Scripts as lines for a POSIX shell.
ghost use Rattle.std.specs.Prelude.{◌≡◌, ◌++◌, codes, IfOk, IfSome, OnOk};
ghost use Rattle.cg_command.specs.Meaning.{command_of};
ghost use Rattle.cg_cpus.specs.CpuList.{cpus_text};
ghost use Rattle.cg_plan.specs.Shell.{by_hand, file_in, folder, call_line, shell_line, write_line, IsInShell};
ghost use Rattle.cg_text.specs.FileText.{limit_word, line_text, ops_text};

use crate::quoting::append_word;
use crate::reading::requests_of;
use cg_command::Command;
use cg_core::Request;
use cg_cpus::CpuSet;
use cg_name::{FileName, Path};
use cg_text::{ControlOps, Limit, write_ops};
use itoa::Buffer;
use std::alloc::{AllocError, Global};

// The first lines: what reads the text, and that the first line that fails ends it.
const HEAD: &[u8] = b"#!/bin/sh\nset -e\n";

// What stands behind the CPUs that are to be online: no file of a tree sets them.
const BY_HAND: &[u8] =
    b": by hand, 1 into /sys/devices/system/cpu/cpuN/online of each of these, and 0 into that of each other\n";

/// The text for a shell that does what a script does, to the tree that is mounted at a folder: the first line that fails ends it.
/// `None` where the script has a request that is no command, or aborts.
pub(crate) fn shell_text(
    alloc: Global,
    root: &str,
    script: &[u8],
) -> Result<Option<Vec<u8>>, AllocError>
    ensures { IfOk result (λ told. IfSome told (λ text. IsInShell root.now script.now text.items)) }
{
    let Some(requests) = requests_of(alloc, script)? else {
        return Ok(None);
    };
    let mut text = Vec::from_slice(alloc, HEAD)?;
    for request in requests.as_slice() {
        let Request::Do(command) = request else {
            return Ok(None);
        };
        append_line(alloc, root, command, &mut text)?;
    }
    Ok(Some(text))
}

// What follows appends to a text; after an error, where there is no memory, nothing is said of it.

// The line of a command.
fn append_line(
    alloc: Global,
    root: &str,
    command: &Command,
    out: &mut Vec<u8>,
) -> Result<(), AllocError>
    ensures { OnOk result (out.new.items ≡ out.old.items ++ shell_line root.now (command_of command.now)) }
{
    match command {
        Command::Create { path } => append_group(alloc, "mkdir", root, path, out),
        Command::Remove { path } => append_group(alloc, "rmdir", root, path, out),
        Command::Migrate { pid, path } => {
            let mut digits = Buffer::new();
            let value = digits.format(pid.number).as_bytes();
            append_write(alloc, root, path, FileName::Procs, value, out)
        }
        Command::Subtree { path, ops } => append_subtree(alloc, root, path, &ops.get(), out),
        Command::Freeze { path, value } => {
            let value = if *value { b"1" } else { b"0" };
            append_write(alloc, root, path, FileName::Freeze, value, out)
        }
        Command::LowCpus { path, cpus } => append_cpus(alloc, root, path, &cpus.get(), out),
        Command::WideCpus { path, cpus } => append_cpus(alloc, root, path, &cpus.get(), out),
        Command::Show { path, file } => append_shown(alloc, root, path, *file, out),
        Command::Online { cpus } => append_online(&cpus.cpus.get(), out),
        Command::MaxDescendants { path, limit } => {
            append_limit(alloc, root, path, FileName::MaxDescendants, *limit, out)
        }
        Command::MaxDepth { path, limit } => {
            append_limit(alloc, root, path, FileName::MaxDepth, *limit, out)
        }
    }
}

// The line that has a program make the folder of a group, or take it away.
fn append_group(
    alloc: Global,
    program: &str,
    root: &str,
    path: &Path,
    out: &mut Vec<u8>,
) -> Result<(), AllocError>
    ensures { OnOk result (out.new.items ≡ out.old.items ++ call_line program.now (folder root.now path.now)) }
{
    let folder = folder_of(alloc, root, path)?;
    append_call(program, folder.as_slice(), out)
}

// The line that shows a file of a group.
fn append_shown(
    alloc: Global,
    root: &str,
    path: &Path,
    file: FileName,
    out: &mut Vec<u8>,
) -> Result<(), AllocError>
    ensures { OnOk result (out.new.items ≡ out.old.items ++ call_line (codes "cat") (file_in root.now path.now file)) }
{
    let name = file_of(alloc, root, path, file)?;
    append_call("cat", name.as_slice(), out)
}

// The line that calls a program on a file or a folder.
fn append_call(program: &str, name: &[u8], out: &mut Vec<u8>) -> Result<(), AllocError>
    ensures { OnOk result (out.new.items ≡ out.old.items ++ call_line program.now name.now) }
{
    out.extend_from_slice(program.as_bytes())?;
    out.extend_from_slice(b" -- ")?;
    append_word(name, out)?;
    out.push(b'\n')?;
    Ok(())
}

// The line that writes operations.
fn append_subtree(
    alloc: Global,
    root: &str,
    path: &Path,
    ops: &ControlOps,
    out: &mut Vec<u8>,
) -> Result<(), AllocError>
    ensures { OnOk result (out.new.items ≡ out.old.items ++ write_line root.now path.now FileName.SubtreeControl (ops_text ops.now)) }
{
    let mut value = Vec::new(alloc);
    write_ops(*ops, &mut value)?;
    let file = FileName::SubtreeControl;
    append_write(alloc, root, path, file, value.as_slice(), out)
}

// The line that writes CPUs.
fn append_cpus(
    alloc: Global,
    root: &str,
    path: &Path,
    cpus: &CpuSet,
    out: &mut Vec<u8>,
) -> Result<(), AllocError>
    ensures { OnOk result (out.new.items ≡ out.old.items ++ write_line root.now path.now FileName.Cpus (cpus_text cpus.now)) }
{
    let mut value = Vec::new(alloc);
    cpus.write(&mut value)?;
    append_write(alloc, root, path, FileName::Cpus, value.as_slice(), out)
}

// The line that writes a limit.
fn append_limit(
    alloc: Global,
    root: &str,
    path: &Path,
    file: FileName,
    limit: Limit,
    out: &mut Vec<u8>,
) -> Result<(), AllocError>
    ensures { OnOk result (out.new.items ≡ out.old.items ++ write_line root.now path.now file (limit_word limit)) }
{
    match limit {
        Limit::Max => append_write(alloc, root, path, file, b"max", out),
        Limit::UpTo(most) => {
            let mut digits = Buffer::new();
            let value = digits.format(most.number).as_bytes();
            append_write(alloc, root, path, file, value, out)
        }
    }
}

// The line that tells which CPUs are to be online.
fn append_online(cpus: &CpuSet, out: &mut Vec<u8>) -> Result<(), AllocError>
    ensures { OnOk result (out.new.items ≡ out.old.items ++ line_text (codes "# online " ++ cpus_text cpus.now ++ by_hand)) }
{
    out.extend_from_slice(b"# online ")?;
    cpus.write(out)?;
    out.extend_from_slice(BY_HAND)?;
    Ok(())
}

// The line that writes a value and a newline into a file of a group.
fn append_write(
    alloc: Global,
    root: &str,
    path: &Path,
    file: FileName,
    value: &[u8],
    out: &mut Vec<u8>,
) -> Result<(), AllocError>
    ensures { OnOk result (out.new.items ≡ out.old.items ++ write_line root.now path.now file value.now) }
{
    let name = file_of(alloc, root, path, file)?;
    out.extend_from_slice(b"printf '%s\\n' ")?;
    append_word(value, out)?;
    out.extend_from_slice(b" > ")?;
    append_word(name.as_slice(), out)?;
    out.push(b'\n')?;
    Ok(())
}

// A file in the folder of a group.
fn file_of(alloc: Global, root: &str, path: &Path, file: FileName) -> Result<Vec<u8>, AllocError>
    ensures { IfOk result (λ name. name.items ≡ file_in root.now path.now file) }
{
    let mut name = folder_of(alloc, root, path)?;
    name.push(b'/')?;
    name.extend_from_slice(file.word().as_bytes())?;
    Ok(name)
}

// The folder of a group, below that of the root.
fn folder_of(alloc: Global, root: &str, path: &Path) -> Result<Vec<u8>, AllocError>
    ensures { IfOk result (λ name. name.items ≡ folder root.now path.now) }
{
    let mut folder = Vec::from_slice(alloc, root.as_bytes())?;
    for name in path.names() {
        folder.push(b'/')?;
        folder.extend_from_slice(name.as_bytes())?;
    }
    Ok(folder)
}
