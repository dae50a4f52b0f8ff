//! The file of a history: it is made before anything is played, and takes its name when all is written.
ghost use Rattle.std.specs.Prelude.{◌≡◌, ◌≢◌, ◌⊎◌, true, Bool, List, ℕ, IfErr, IfOk, IfSome, IsErr, OnErr, OnOk};
ghost use Rattle.std.specs.Io.KnownBytes.{Appends};
ghost use Rattle.std.specs.Result.{IsErrOf};
ghost use Rattle.cg_lines.specs.Device.{AppendsFront, Failed};
ghost use Rattle.cg_lines.specs.Lines.{pending};
ghost use Rattle.cg_model.specs.Cgroups.{cgroups};
ghost use Rattle.cg_model.specs.History.{History};
ghost use Rattle.cg_program.specs.Files.{IsOfWord, IsOfWords};
ghost use Rattle.cg_program.specs.Program.{DoneOver, Plays, Stops};
ghost use Rattle.cg_script.specs.HistoryText.{history_text};
ghost use Rattle.cg_script.specs.WorldPart.{HasNoWorld};
ghost use Rattle.cg_script.specs.declared.fault.ScriptFault.TheVariants as faults;

use crate::named::is_standard;
use crate::outputs::{CreateFault, Outputs};
use crate::playback::Playback;
use crate::replaying::play;
use cg_core::Core;
use cg_lines::{LineReader, Sink, Source, write_all};
use cg_script::{ScriptFault, write_history};
use std::alloc::Global;

/// Plays the schedule over the world, as `replay_to` does, and writes the text of the history to the file, which takes its name then;
/// else nothing of it stays, and no file has changed. Gives whether a request was refused.
pub(crate) fn play_kept<P: Outputs, B: Playback, W: Source, T: Source, O: Sink>(
    alloc: Global,
    files: &mut P,
    playback: &B,
    world: &mut LineReader<W>,
    schedule: &mut Option<LineReader<T>>,
    mut file: P::Output,
    name: &str,
    out: &mut O,
) -> Result<bool, ScriptFault>
    requires { P.Output.taken file ≡ P.nothing }
    ensures done { IfOk result (λ is_refused. (past : History cgroups)
        × DoneOver (λ tree lines. Plays (B.plays playback.now tree 1048576) is_refused past lines (O.taken out.old) (O.taken out.new)) (pending world.old) schedule.old
        × Appends P.nothing (P.file files.new name.now) (history_text past)) }
    ensures syntax { IsErrOf result faults.Syntax → IfSome (pending world.old) HasNoWorld × (out.new ≡ out.old) }
    ensures front { OnErr result ((out.new ≡ out.old) ⊎ (DoneOver (λ tree lines. Stops (B.tells playback.now tree 1048576) lines (O.taken out.old) (O.taken out.new)) (pending world.old) schedule.old
        ⊎ ((is_refused : Bool) × (past : History cgroups) × DoneOver (λ tree lines. Plays (B.plays playback.now tree 1048576) is_refused past lines (O.taken out.old) (O.taken out.new)) (pending world.old) schedule.old))) }
    ensures unchanged { OnErr result (P.file files.new ≡ P.file files.old) }
    ensures others { (other : List ℕ) → other ≢ name.now → P.file files.new other ≡ P.file files.old other }
{
    match play_told(alloc, playback, world, schedule, &mut file, out) {
        Ok(is_refused) => match files.keep(file, name) {
            Ok(()) => Ok(is_refused),
            Err(fault) => Err(fault.into()),
        },
        Err(fault) => {
            files.discard(file);
            Err(fault)
        }
    }
}

// Plays the schedule over the world, and then writes the text of the history to its sink.
fn play_told<B: Playback, W: Source, T: Source, H: Sink, O: Sink>(
    alloc: Global,
    playback: &B,
    world: &mut LineReader<W>,
    schedule: &mut Option<LineReader<T>>,
    history: &mut H,
    out: &mut O,
) -> Result<bool, ScriptFault>
    ensures done { IfOk result (λ is_refused. (past : History cgroups)
        × DoneOver (λ tree lines. Plays (B.plays playback.now tree 1048576) is_refused past lines (O.taken out.old) (O.taken out.new)) (pending world.old) schedule.old
        × Appends (H.taken history.old) (H.taken history.new) (history_text past)) }
    ensures syntax { IsErrOf result faults.Syntax → IfSome (pending world.old) HasNoWorld × (out.new ≡ out.old) }
    ensures front { OnErr result ((out.new ≡ out.old) ⊎ (DoneOver (λ tree lines. Stops (B.tells playback.now tree 1048576) lines (O.taken out.old) (O.taken out.new)) (pending world.old) schedule.old
        ⊎ ((is_refused : Bool) × (past : History cgroups) × DoneOver (λ tree lines. Plays (B.plays playback.now tree 1048576) is_refused past lines (O.taken out.old) (O.taken out.new)) (pending world.old) schedule.old))) }
{
    match play(alloc, playback, world, schedule, out) {
        Ok(played) => match tell_history(alloc, &played.core, history) {
            Ok(()) => Ok(played.is_refused),
            Err(fault) => Err(fault),
        },
        Err(fault) => Err(fault),
    }
}

/// A file for the history of this name, which is that of neither word.
pub(crate) fn create_history<P: Outputs>(
    files: &P,
    name: &str,
    world: &str,
    schedule: &str,
) -> Result<P::Output, CreateFault>
    ensures empty { IfOk result (λ output. P.Output.taken output ≡ P.nothing) }
    ensures inputs { IsOfWords (P.is_read files.now name.now) (P.is_same files.now name.now) world.now schedule.now → IsErr result }
    ensures barred { P.is_barred files.now name.now ≡ true → IsErr result }
{
    if is_of_word(files, name, world) || is_of_word(files, name, schedule) {
        return Err(CreateFault::Unwritable);
    }
    files.create_file(name)
}

/// Whether the file of this name is that which the word names. It is told for sure only of what is known.
pub fn is_of_word<P: Outputs>(files: &P, name: &str, word: &str) -> bool
    ensures { IsOfWord (P.is_read files.now name.now) (P.is_same files.now name.now) word.now → result ≡ true }
{
    if is_standard(word) {
        return files.is_read(name);
    }
    files.is_same(name, word)
}

/// Writes the text of the history.
pub fn tell_history<H: Sink>(alloc: Global, core: &Core, sink: &mut H) -> Result<(), ScriptFault>
    ensures past { OnOk result (Appends (H.taken sink.old) (H.taken sink.new) (history_text core.now.history)) }
    ensures front { OnErr result (AppendsFront (H.taken sink.old) (H.taken sink.new) (history_text core.now.history)) }
    ensures writes { IsErrOf result faults.WriteFault → Failed (H.failed sink.old) (H.failed sink.new) }
    ensures faults { IfErr result (λ e. (e ≡ faults.Memory) ⊎ (e ≡ faults.WriteFault)) }
{
    let mut text = Vec::new(alloc);
    write_history(core.history(), &mut text)?;
    write_all(sink, text.as_slice())?;
    Ok(())
}
