//! An interface file of a group, in a world that a word names, shown as JSON.
ghost use Rattle.std.specs.Prelude.{◌≡◌, ◌⊎◌, ◌++◌, ℕ, true, false, List, Ok, Err, IfErr, IfOk, IfSome, OnOk};
ghost use Rattle.std.specs.Result.{IsErrOf};
ghost use Rattle.std.specs.Io.KnownBytes.{Appends};
ghost use Rattle.cg_json.specs.Text.{fields_of, fields_text, json_text};
ghost use Rattle.cg_program.specs.declared.fault.ShowFault.TheVariants.{Stopped};
ghost use Rattle.cg_json_program.specs.Shown.{file_line, file_value, text_fields, FindsLine};
ghost use Rattle.cg_lines.specs.Device.{AppendsFront, Failed};
ghost use Rattle.cg_lines.specs.Lines.{pending};
ghost use Rattle.cg_name.specs.declared.refusal.Refusal.{Refusal};
ghost use Rattle.cg_name.specs.declared.refusal.Refusal.TheVariants as refusals;
ghost use Rattle.cg_program.specs.Fault.{refusal_of_fault};
ghost use Rattle.cg_program.specs.Named.{is_standard, named};
ghost use Rattle.cg_program.specs.Program.{WritesUnlessFailed};
ghost use Rattle.cg_program.specs.Show.{WhyNotShown};
ghost use Rattle.cg_program.specs.Status.{refusal_line, status_where};
ghost use Rattle.cg_script.specs.declared.fault.ScriptFault.TheVariants as faults;

use cg_json::{write_name, write_string};
use cg_json_world::write_path;
use cg_lines::{LineReader, Sink, Source, write_all};
use cg_name::{FileName, Path, PathRef};
use cg_program::{Inputs, ShowFault, Status, find_file, open_reader};
use cg_script::ScriptFault;
use std::alloc::{AllocError, Global};

/// Shows an interface file of a group in the world that a word names, as `show_named` does, and tells of it as an object of JSON on a
/// line: the path, the file and its text.
pub fn show_json_named<P: Inputs, O: Sink, E: Sink>(
    alloc: Global,
    inputs: &P,
    world: &str,
    path: &str,
    file: &str,
    out: &mut O,
    err: &mut E,
) -> u8
    // The file is found and its line written, and nothing told;
    ensures done { result ≡ 0 → (line : List ℕ) × FindsLine (named (P.standard inputs.now) (P.file inputs.now) world.now) path.now file.now line × Appends (O.taken out.old) (O.taken out.new) line }
    ensures quiet { result ≡ 0 → err.new ≡ err.old }

    // or there is a refusal, which is told and has its cause.
    ensures told { (result ≡ 0) ⊎ ((refusal : Refusal) × (result ≡ status_where refusal)
        × WritesUnlessFailed (E.taken err.old) (E.taken err.new) (E.failed err.old) (E.failed err.new) (refusal_line refusal)
        × WhyNotShown (named (P.standard inputs.now) (P.file inputs.now) world.now) path.now file.now refusal
        × (refusal ≡ refusals.WriteFault → Failed (O.failed out.old) (O.failed out.new))) }
    ensures refused { result ≡ 2 → out.new ≡ out.old }
    ensures front { result ≡ 3 → (out.new ≡ out.old) ⊎ ((line : List ℕ) × FindsLine (named (P.standard inputs.now) (P.file inputs.now) world.now) path.now file.now line × AppendsFront (O.taken out.old) (O.taken out.new) line) }

    // A file that can't be opened: nothing is done, whatever the other words are.
    ensures no_world { is_standard world.now ≡ false → P.is_missing inputs.now world.now ≡ true → (result ≡ 3) × (out.new ≡ out.old)
        × WritesUnlessFailed (E.taken err.old) (E.taken err.new) (E.failed err.old) (E.failed err.new) (refusal_line refusals.ReadFault) }
{
    match show(alloc, inputs, world, path, file, out) {
        Ok(()) => Status::Done.code(),
        Err(fault) => fault.tell(err),
    }
}

// Writes the line of the file that the words ask for.
fn show<P: Inputs, O: Sink>(
    alloc: Global,
    inputs: &P,
    world: &str,
    path: &str,
    file: &str,
    out: &mut O,
) -> Result<(), ShowFault>
    ensures done { OnOk result ((line : List ℕ) × FindsLine (named (P.standard inputs.now) (P.file inputs.now) world.now) path.now file.now line × Appends (O.taken out.old) (O.taken out.new) line) }
    ensures why { IfErr result (λ e. WhyNotShown (named (P.standard inputs.now) (P.file inputs.now) world.now) path.now file.now (refusal_of_fault e)) }
    ensures writes { IsErrOf result (Stopped faults.WriteFault) → Failed (O.failed out.old) (O.failed out.new) }
    ensures kept { IfErr result (λ e. (out.new ≡ out.old) ⊎ (e ≡ Stopped faults.WriteFault)) }
    ensures front { IsErrOf result (Stopped faults.WriteFault) → (line : List ℕ) × FindsLine (named (P.standard inputs.now) (P.file inputs.now) world.now) path.now file.now line × AppendsFront (O.taken out.old) (O.taken out.new) line }
    ensures missing { is_standard world.now ≡ false → P.is_missing inputs.now world.now ≡ true → IsErrOf result (Stopped faults.ReadFault) × (out.new ≡ out.old) }
{
    let line = line_named(alloc, inputs, world, path, file)?;
    match write_all(out, line.as_slice()) {
        Ok(()) => Ok(()),
        Err(_) => Err(ShowFault::Stopped(ScriptFault::WriteFault)),
    }
}

// The line of the file that the words ask for. The world is opened before the other two words are read.
fn line_named<P: Inputs>(
    alloc: Global,
    inputs: &P,
    world: &str,
    path: &str,
    file: &str,
) -> Result<Vec<u8>, ShowFault>
    ensures value { IfOk result (λ line. FindsLine (named (P.standard inputs.now) (P.file inputs.now) world.now) path.now file.now line.items) }
    ensures why { IfErr result (λ e. WhyNotShown (named (P.standard inputs.now) (P.file inputs.now) world.now) path.now file.now (refusal_of_fault e)) }
    ensures writes { ¬ (IsErrOf result (Stopped faults.WriteFault)) }
    ensures missing { is_standard world.now ≡ false → P.is_missing inputs.now world.now ≡ true → IsErrOf result (Stopped faults.ReadFault) }
{
    let mut reader = open_reader(alloc, inputs, world)?;
    line_of(alloc, &mut reader, path, file)
}

// The same in the world that the reader's text begins with.
fn line_of<W: Source>(
    alloc: Global,
    world: &mut LineReader<W>,
    path: &str,
    file: &str,
) -> Result<Vec<u8>, ShowFault>
    ensures value { IfOk result (λ line. FindsLine (pending world.old) path.now file.now line.items) }
    ensures why { IfErr result (λ e. WhyNotShown (pending world.old) path.now file.now (refusal_of_fault e)) }
    ensures writes { ¬ (IsErrOf result (Stopped faults.WriteFault)) }
{
    let found = find_file(alloc, world, path, file)?;
    let mut line = Vec::new(alloc);
    append_line(&found.path, found.file, found.text.as_slice(), &mut line)?;
    Ok(line)
}

// What appends does so to a text; after an error, where there is no memory, nothing is said of it.

// Appends the line of a file.
#[tactic(auto, unfolding(crate::specs::Shown::file_line))]
fn append_line(
    path: &Path,
    file: FileName,
    text: &[u8],
    out: &mut Vec<u8>,
) -> Result<(), AllocError>
    ensures { OnOk result (out.new.items ≡ out.old.items ++ file_line path.now file text.now) }
{
    append_value(&path.borrowed(), file, text, out)?;
    out.push(b'\n')?;
    Ok(())
}

// Appends what is told of a file.
fn append_value(
    path: &PathRef<'_>,
    file: FileName,
    text: &[u8],
    out: &mut Vec<u8>,
) -> Result<(), AllocError>
    ensures { OnOk result (out.new.items ≡ out.old.items ++ json_text (file_value path.now file text.now)) }
{
    out.push(b'{')?;
    write_name(false, "path", out)?;
    write_path(path, out)?;
    append_text(file, text, out)
}

// Appends the last fields, the file's name and its text, and the closing brace.
fn append_text(file: FileName, text: &[u8], out: &mut Vec<u8>) -> Result<(), AllocError>
    ensures { OnOk result (out.new.items ≡ out.old.items ++ fields_text true (fields_of (text_fields file text.now))) }
{
    write_name(true, "file", out)?;
    write_string(file.word().as_bytes(), out)?;
    write_name(true, "text", out)?;
    write_string(text, out)?;
    out.push(b'}')?;
    Ok(())
}
