//! An interface file of a group, shown from a world's text.
ghost use Rattle.std.specs.Prelude.{◌≡◌, ◌⊎◌, ℕ, List, Ok, IfErr, IfOk, IfSome, OnOk};
ghost use Rattle.std.specs.Result.{IsErrOf};
ghost use Rattle.std.specs.Io.KnownBytes.{Appends};
ghost use Rattle.cg_name.specs.FileName.{file_word};
ghost use Rattle.cg_name.specs.Path.{SpellsPath};
ghost use Rattle.cg_name.specs.declared.refusal.Refusal.{Refusal};
ghost use Rattle.cg_name.specs.declared.refusal.Refusal.TheVariants as refusals;
ghost use Rattle.cg_lines.specs.Device.{AppendsFront, Failed};
ghost use Rattle.cg_lines.specs.Lines.{pending};
ghost use Rattle.cg_script.specs.WorldPart.{HasNoWorld};
ghost use Rattle.cg_script.specs.declared.fault.ScriptFault.TheVariants as faults;
ghost use Rattle.cg_program.specs.Program.{IsBroken, WritesUnlessFailed};
ghost use Rattle.cg_program.specs.Show.{Finds, IsFileOf, NamesNoFile, SpellsNoPath, WhyNotShown};
ghost use Rattle.cg_program.specs.Status.{status_where, refusal_line};
ghost use Rattle.cg_program.specs.Fault.{refusal_of_fault};

use crate::fault::ShowFault;
use crate::status::Status;
use cg_lines::{LineReader, Sink, Source, write_all};
use cg_name::{FileName, Path, Refusal};
use cg_script::{ScriptFault, read_world};
use cg_tree::Tree;
use std::alloc::Global;

/// Shows an interface file of a group in the world that `world` begins with: the path of the group and the name of the
/// file are one word each, as it stands. The file's text goes to `out` as it is. The status is 0 when it is written, 2
/// when `path`, `file` or the world isn't in its grammar or there is no such group or file, and 3 when memory, the source
/// or the sink fails. For 2 and 3 the refusal stands on a line in `err`. Both words are read before the world.
pub fn show_to<W: Source, O: Sink, E: Sink>(
    alloc: Global,
    world: &mut LineReader<W>,
    path: &str,
    file: &str,
    out: &mut O,
    err: &mut E,
) -> u8
    // The file is found and written, and nothing told;
    ensures done { result ≡ 0 → (text : List ℕ) × Finds (pending world.old) path.now file.now (Ok text) × Appends (O.taken out.old) (O.taken out.new) text }
    ensures quiet { result ≡ 0 → err.new ≡ err.old }

    // or there is a refusal, which is told and has its cause.
    ensures told { (result ≡ 0) ⊎ ((refusal : Refusal) × (result ≡ status_where refusal)
        × WritesUnlessFailed (E.taken err.old) (E.taken err.new) (E.failed err.old) (E.failed err.new) (refusal_line refusal)
        × WhyNotShown (pending world.old) path.now file.now refusal
        × (refusal ≡ refusals.ReadFault → IsBroken world.new)
        × (refusal ≡ refusals.WriteFault → Failed (O.failed out.old) (O.failed out.new))) }
    ensures refused { result ≡ 2 → out.new ≡ out.old }
    ensures front { result ≡ 3 → (out.new ≡ out.old) ⊎ ((text : List ℕ) × Finds (pending world.old) path.now file.now (Ok text) × AppendsFront (O.taken out.old) (O.taken out.new) text) }

    // For words that ask for nothing the world isn't read.
    ensures unread { SpellsNoPath path.now ⊎ NamesNoFile file.now → world.new ≡ world.old }
{
    match show(alloc, world, path, file, out) {
        Ok(()) => Status::Done.code(),
        Err(fault) => fault.tell(err),
    }
}

// Writes the text of the file that the words ask for.
fn show<W: Source, O: Sink>(
    alloc: Global,
    world: &mut LineReader<W>,
    path: &str,
    file: &str,
    out: &mut O,
) -> Result<(), ShowFault>
    ensures done { OnOk result ((text : List ℕ) × Finds (pending world.old) path.now file.now (Ok text) × Appends (O.taken out.old) (O.taken out.new) text) }
    ensures why { IfErr result (λ e. WhyNotShown (pending world.old) path.now file.now (refusal_of_fault e)) }
    ensures reads { IsErrOf result (ShowFault.Stopped faults.ReadFault) → IsBroken world.new }
    ensures writes { IsErrOf result (ShowFault.Stopped faults.WriteFault) → Failed (O.failed out.old) (O.failed out.new) }
    ensures kept { IfErr result (λ e. (out.new ≡ out.old) ⊎ (e ≡ ShowFault.Stopped faults.WriteFault)) }
    ensures front { IsErrOf result (ShowFault.Stopped faults.WriteFault) → (text : List ℕ) × Finds (pending world.old) path.now file.now (Ok text) × AppendsFront (O.taken out.old) (O.taken out.new) text }
    ensures unread { SpellsNoPath path.now ⊎ NamesNoFile file.now → world.new ≡ world.old }
{
    let found = find_file(alloc, world, path, file)?;
    match write_all(out, found.text.as_slice()) {
        Ok(()) => Ok(()),
        Err(_) => Err(ShowFault::Stopped(ScriptFault::WriteFault)),
    }
}

/// An interface file of a group, as two words ask for it.
#[derive(Drop)]
pub struct FoundFile {
    /// The path of the group.
    pub path: Path,
    /// Which file it is.
    pub file: FileName,
    /// What it shows.
    pub text: Vec<u8>,
}

/// Finds the file that two words ask for, in the world that the reader's text begins with. Both words are read before the world.
pub fn find_file<W: Source>(
    alloc: Global,
    world: &mut LineReader<W>,
    path: &str,
    file: &str,
) -> Result<FoundFile, ShowFault>
    ensures path { IfOk result (λ found. SpellsPath path.now found.path) }
    ensures file { IfOk result (λ found. file.now ≡ file_word found.file) }
    ensures text { IfOk result (λ found. IsFileOf (pending world.old) found.path found.file (Ok found.text.items)) }
    ensures why { IfErr result (λ e. WhyNotShown (pending world.old) path.now file.now (refusal_of_fault e)) }
    ensures reads { IsErrOf result (ShowFault.Stopped faults.ReadFault) → IsBroken world.new }
    ensures writes { ¬ (IsErrOf result (ShowFault.Stopped faults.WriteFault)) }
    ensures unread { SpellsNoPath path.now ⊎ NamesNoFile file.now → world.new ≡ world.old }
{
    let (path, file) = read_words(alloc, path, file)?;
    let text = find(alloc, world, &path, file)?;
    Ok(FoundFile { path, file, text })
}

// The path and the file that the words name.
fn read_words(alloc: Global, path: &str, file: &str) -> Result<(Path, FileName), ScriptFault>
    ensures path { IfOk result (λ asked. SpellsPath path.now asked.0) }
    ensures file { IfOk result (λ asked. file.now ≡ file_word asked.1) }
    ensures syntax { IsErrOf result faults.Syntax → SpellsNoPath path.now ⊎ NamesNoFile file.now }
    ensures faults { IfErr result (λ e. (e ≡ faults.Syntax) ⊎ (e ≡ faults.Memory)) }
{
    let path = match Path::read(alloc, path) {
        Ok(path) => path,
        Err(Refusal::Syntax) => return Err(ScriptFault::Syntax),
        Err(_) => return Err(ScriptFault::Memory),
    };
    match FileName::read(file) {
        Ok(file) => Ok((path, file)),
        Err(_) => Err(ScriptFault::Syntax),
    }
}

// The text of the file, in the world that the reader's text begins with.
fn find<W: Source>(
    alloc: Global,
    world: &mut LineReader<W>,
    path: &Path,
    file: FileName,
) -> Result<Vec<u8>, ShowFault>
    ensures value { IfOk result (λ text. IsFileOf (pending world.old) path.now file (Ok text.items)) }
    ensures syntax { IsErrOf result (ShowFault.Stopped faults.Syntax) → IfSome (pending world.old) HasNoWorld }
    ensures no_group { IsErrOf result ShowFault.NoGroup → IsFileOf (pending world.old) path.now file (Err refusals.NoGroup) }
    ensures no_file { IsErrOf result ShowFault.NoFile → IsFileOf (pending world.old) path.now file (Err refusals.NoFile) }
    ensures reads { IsErrOf result (ShowFault.Stopped faults.ReadFault) → IsBroken world.new }
    ensures writes { ¬ (IsErrOf result (ShowFault.Stopped faults.WriteFault)) }
{
    let world = read_world(alloc, world)?;
    let Ok(tree) = Tree::from_world(alloc, &world) else {
        return Err(ShowFault::Stopped(ScriptFault::Memory));
    };
    match cg_derive::file(alloc, &tree, path, file) {
        Ok(text) => Ok(text),
        Err(Refusal::NoGroup) => Err(ShowFault::NoGroup),
        Err(Refusal::NoFile) => Err(ShowFault::NoFile),
        Err(_) => Err(ShowFault::Stopped(ScriptFault::Memory)),
    }
}
