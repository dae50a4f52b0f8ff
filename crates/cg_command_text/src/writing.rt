//! Commands written as words.
ghost use Rattle.std.specs.Prelude.{◌≡◌, ◌++◌, ◌∷◌, [], OnOk, OnErr, codes, length, take};
ghost use Rattle.std.specs.Fmt.{decimal};
ghost use Rattle.cg_name.specs.Path.{path_word};
ghost use Rattle.cg_text.specs.FileText.{flag_word, limit_word, op_words};
ghost use Rattle.cg_text.specs.Words.{line_of};
ghost use Rattle.cg_command.specs.Meaning.{command_of};
ghost use Rattle.cg_command_text.specs.CommandText.{command_text, cpu_words};
ghost use Rattle.cg_command_text.specs.Spaced.{spaced};

use cg_command::Command;
use cg_cpus::CpuSet;
use cg_name::{Path, or_truncate};
use cg_text::{ControlOps, Limit, write_ops};
use itoa::Buffer;
use std::alloc::AllocError;

/// Appends the command's words, with single spaces: the path bare where it can be, the PID without leading zeros, a
/// word for each controller of the operations in the kernel's order, a list of CPUs in its one form, and no word for
/// the empty list or for no operation. An error, where there is no memory, leaves `out` as it was.
pub fn write_command(command: &Command, out: &mut Vec<u8>) -> Result<(), AllocError>
    ensures ok { OnOk result (out.new.items ≡ out.old.items ++ command_text (command_of command.now)) }
    ensures err { OnErr result (out.new.items ≡ out.old.items) }
{
    let start = out.len();
    let written = append_command(command, out);
    or_truncate(written, start, out)
}

// What follows appends to `out`, and an error leaves what stood there at the front.

// The command's words.
fn append_command(command: &Command, out: &mut Vec<u8>) -> Result<(), AllocError>
    ensures ok { OnOk result (out.new.items ≡ out.old.items ++ command_text (command_of command.now)) }
    ensures kept { OnErr result (take (length out.old.items) out.new.items ≡ out.old.items) }
{
    match command {
        Command::Create { path } => append_at("create", path, out),
        Command::Remove { path } => append_at("remove", path, out),
        Command::Migrate { pid, path } => append_migrate(pid.number, path, out),
        Command::Subtree { path, ops } => append_subtree(path, &ops.get(), out),
        Command::Freeze { path, value } => append_freeze(path, *value, out),
        Command::LowCpus { path, cpus } => append_cpus(path, &cpus.get(), out),
        Command::WideCpus { path, cpus } => append_cpus(path, &cpus.get(), out),
        Command::Show { path, file } => append_value("show", path, file.word(), out),
        Command::Online { cpus } => append_online(&cpus.cpus.get(), out),
        Command::MaxDescendants { path, limit } => {
            append_limit("maxdescendants", path, *limit, out)
        }
        Command::MaxDepth { path, limit } => append_limit("maxdepth", path, *limit, out),
    }
}

// A keyword and a path.
fn append_at(keyword: &str, path: &Path, out: &mut Vec<u8>) -> Result<(), AllocError>
    ensures ok { OnOk result (out.new.items ≡ out.old.items ++ line_of (keyword.now ∷ path_word path.now ∷ [])) }
    ensures kept { OnErr result (take (length out.old.items) out.new.items ≡ out.old.items) }
{
    out.extend_from_slice(keyword.as_bytes())?;
    out.push(b' ')?;
    path.write(out)
}

// A keyword, a path and one word more.
fn append_value(
    keyword: &str,
    path: &Path,
    value: &str,
    out: &mut Vec<u8>,
) -> Result<(), AllocError>
    ensures ok { OnOk result (out.new.items ≡ out.old.items ++ line_of (keyword.now ∷ path_word path.now ∷ value.now ∷ [])) }
    ensures kept { OnErr result (take (length out.old.items) out.new.items ≡ out.old.items) }
{
    append_at(keyword, path, out)?;
    out.push(b' ')?;
    out.extend_from_slice(value.as_bytes())?;
    Ok(())
}

// The words of `migrate`.
fn append_migrate(pid: u32, path: &Path, out: &mut Vec<u8>) -> Result<(), AllocError>
    ensures ok { OnOk result (out.new.items ≡ out.old.items ++ line_of (codes "migrate" ∷ decimal pid ∷ path_word path.now ∷ [])) }
    ensures kept { OnErr result (take (length out.old.items) out.new.items ≡ out.old.items) }
{
    out.extend_from_slice(b"migrate ")?;
    append_at(Buffer::new().format(pid), path, out)
}

// The words of `subtree`.
fn append_subtree(path: &Path, ops: &ControlOps, out: &mut Vec<u8>) -> Result<(), AllocError>
    ensures ok { OnOk result (out.new.items ≡ out.old.items ++ line_of (codes "subtree" ∷ path_word path.now ∷ op_words ops.now)) }
    ensures kept { OnErr result (take (length out.old.items) out.new.items ≡ out.old.items) }
{
    append_at("subtree", path, out)?;
    append_op_words(ops, out)
}

// A word for each controller of the operations, each with a space before it.
fn append_op_words(ops: &ControlOps, out: &mut Vec<u8>) -> Result<(), AllocError>
    ensures ok { OnOk result (out.new.items ≡ out.old.items ++ spaced (op_words ops.now)) }
    ensures kept { OnErr result (take (length out.old.items) out.new.items ≡ out.old.items) }
{
    if ops.plus.union(&ops.minus).is_empty() {
        return Ok(());
    }
    out.push(b' ')?;
    write_ops(*ops, out)
}

// The words of `freeze`.
fn append_freeze(path: &Path, value: bool, out: &mut Vec<u8>) -> Result<(), AllocError>
    ensures ok { OnOk result (out.new.items ≡ out.old.items ++ line_of (codes "freeze" ∷ path_word path.now ∷ flag_word value ∷ [])) }
    ensures kept { OnErr result (take (length out.old.items) out.new.items ≡ out.old.items) }
{
    append_value("freeze", path, if value { "1" } else { "0" }, out)
}

// The words of `cpus`.
fn append_cpus(path: &Path, cpus: &CpuSet, out: &mut Vec<u8>) -> Result<(), AllocError>
    ensures ok { OnOk result (out.new.items ≡ out.old.items ++ line_of (codes "cpus" ∷ path_word path.now ∷ cpu_words cpus.now)) }
    ensures kept { OnErr result (take (length out.old.items) out.new.items ≡ out.old.items) }
{
    append_at("cpus", path, out)?;
    append_cpu_words(cpus, out)
}

// The words of `online`.
fn append_online(cpus: &CpuSet, out: &mut Vec<u8>) -> Result<(), AllocError>
    ensures ok { OnOk result (out.new.items ≡ out.old.items ++ line_of (codes "online" ∷ cpu_words cpus.now)) }
    ensures kept { OnErr result (take (length out.old.items) out.new.items ≡ out.old.items) }
{
    out.extend_from_slice(b"online")?;
    append_cpu_words(cpus, out)
}

// The list of the CPUs with a space before it, or nothing for none.
fn append_cpu_words(cpus: &CpuSet, out: &mut Vec<u8>) -> Result<(), AllocError>
    ensures ok { OnOk result (out.new.items ≡ out.old.items ++ spaced (cpu_words cpus.now)) }
    ensures kept { OnErr result (take (length out.old.items) out.new.items ≡ out.old.items) }
{
    if cpus.is_empty() {
        return Ok(());
    }
    out.push(b' ')?;
    cpus.write(out)
}

// A keyword, a path and a limit.
fn append_limit(
    keyword: &str,
    path: &Path,
    limit: Limit,
    out: &mut Vec<u8>,
) -> Result<(), AllocError>
    ensures ok { OnOk result (out.new.items ≡ out.old.items ++ line_of (keyword.now ∷ path_word path.now ∷ limit_word limit ∷ [])) }
    ensures kept { OnErr result (take (length out.old.items) out.new.items ≡ out.old.items) }
{
    match limit {
        Limit::Max => append_value(keyword, path, "max", out),
        Limit::UpTo(most) => append_value(keyword, path, Buffer::new().format(most.number), out),
    }
}
