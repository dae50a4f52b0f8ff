//! A run whose inputs are named by words.
ghost use Rattle.std.specs.Prelude.{◌≡◌, ◌⊎◌, ◌&&◌, ℕ, true, false, Bool, List, Ok, IfOk, IfSome, IsErrAnd, IsSome, MatchOption, IfErr, OnErr};
ghost use Rattle.std.specs.Option.{option_map};
ghost use Rattle.std.specs.Result.{IsErrOf};
ghost use Rattle.std.specs.Io.KnownBytes.{Appends};
ghost use Rattle.cg_name.specs.declared.refusal.Refusal.{Refusal};
ghost use Rattle.cg_name.specs.declared.refusal.Refusal.TheVariants as refusals;
ghost use Rattle.cg_lines.specs.Device.{AppendsFront, Failed};
ghost use Rattle.cg_lines.specs.Lines.{pending};
ghost use Rattle.cg_model.specs.Cgroups.{cgroups};
ghost use Rattle.cg_model.specs.History.{History};
ghost use Rattle.cg_script.specs.HistoryText.{history_text};
ghost use Rattle.cg_script.specs.WorldPart.{HasNoWorld};
ghost use Rattle.cg_script.specs.declared.fault.ScriptFault.{ScriptFault};
ghost use Rattle.cg_script.specs.declared.fault.ScriptFault.TheVariants as faults;
ghost use Rattle.cg_program.specs.Files.{IsFileNamed, IsNotNamed, IsOfWords};
ghost use Rattle.cg_program.specs.Named.{is_standard, named, DoneOverNamed};
ghost use Rattle.cg_program.specs.Program.{played_status, status_of, fault_line, IsPlayed, Plays, Stops, WritesUnlessFailed};
ghost use Rattle.cg_program.specs.Show.{Finds, WhyNotShown};
ghost use Rattle.cg_program.specs.Status.{status_where, refusal_line};

use crate::inputs::Inputs;
use crate::keeping::{create_history, play_kept};
use crate::outputs::Outputs;
use crate::playback::Playback;
use crate::replaying::{play_alone, status_of_played, stop};
use crate::showing::show_to;
use cg_lines::{LineReader, Sink};
use cg_script::ScriptFault;
use std::alloc::Global;

/// Replays what two words name: `-` is standard input, and any other word the file of this name, as it stands. Where both
/// are standard input, the schedule stands behind the world. The world is opened before the schedule, and a file that
/// can't be opened is a read fault. What is written, and the status, are as `replay_to` says.
///
/// Where `history` is given, its text is written to the file of this name, `-` too: that is made before anything is played, takes its
/// name when all is written, and else no file has changed. It is not made in place of the world or of the schedule. That, and one that
/// can't be made or written, is a write fault.
pub fn replay_named<P: Outputs, B: Playback, O: Sink, E: Sink>(
    alloc: Global,
    files: &mut P,
    playback: &B,
    world: &str,
    schedule: &str,
    history: Option<&str>,
    is_strict: bool,
    out: &mut O,
    err: &mut E,
) -> u8
    // All is played, the history of that is the file of its name, and nothing is told;
    ensures done { IsPlayed result → (is_refused : Bool) × (past : History cgroups) × (result ≡ played_status is_strict is_refused)
        × DoneOverNamed (λ tree lines. Plays (B.plays playback.now tree 1048576) is_refused past lines (O.taken out.old) (O.taken out.new)) (P.standard files.old) (P.file files.old) world.now schedule.now
        × IsFileNamed P.nothing (P.file files.new) (option_map (λ w. w.now) history.entry) (history_text past) }
    ensures quiet { IsPlayed result → err.new ≡ err.old }

    // or there is a fault, which is told, and no file has changed.
    ensures told { IsPlayed result ⊎ ((fault : ScriptFault) × (result ≡ status_of fault)
        × WritesUnlessFailed (E.taken err.old) (E.taken err.new) (E.failed err.old) (E.failed err.new) (fault_line fault)
        × (fault ≡ faults.WriteFault → Failed (O.failed out.old) (O.failed out.new) ⊎ IsSome history.entry)) }
    ensures syntax { result ≡ 2 → IfSome (named (P.standard files.old) (P.file files.old) world.now) HasNoWorld × (out.new ≡ out.old) }
    ensures front { result ≡ 3 → (out.new ≡ out.old)
        ⊎ (DoneOverNamed (λ tree lines. Stops (B.tells playback.now tree 1048576) lines (O.taken out.old) (O.taken out.new)) (P.standard files.old) (P.file files.old) world.now schedule.now
        ⊎ (IsSome history.entry × ((is_refused : Bool) × (past : History cgroups) × DoneOverNamed (λ tree lines. Plays (B.plays playback.now tree 1048576) is_refused past lines (O.taken out.old) (O.taken out.new)) (P.standard files.old) (P.file files.old) world.now schedule.now))) }
    ensures unchanged { ¬ (IsPlayed result) → P.file files.new ≡ P.file files.old }

    // No file has changed but the history, which is none of the inputs.
    ensures others { (name : List ℕ) → IsNotNamed (option_map (λ w. w.now) history.entry) name → P.file files.new name ≡ P.file files.old name }
    ensures inputs { IfSome history.entry (λ name. IsOfWords (P.is_read files.old name.now) (P.is_same files.old name.now) world.now schedule.now → (result ≡ 3) × (out.new ≡ out.old)) }

    // A file that can't be opened or made: nothing is done.
    ensures no_world { is_standard world.now ≡ false → P.is_missing files.old world.now ≡ true → (result ≡ 3) × (out.new ≡ out.old)
        × WritesUnlessFailed (E.taken err.old) (E.taken err.new) (E.failed err.old) (E.failed err.new) (fault_line faults.ReadFault) }
    ensures no_schedule { is_standard schedule.now ≡ false → P.is_missing files.old schedule.now ≡ true → (result ≡ 3) × (out.new ≡ out.old) }
    ensures barred { IfSome history.entry (λ name. P.is_barred files.old name.now ≡ true → (result ≡ 3) × (out.new ≡ out.old)) }
{
    match play_named(alloc, files, playback, world, schedule, history, out) {
        Ok(is_refused) => status_of_played(is_strict, is_refused),
        Err(fault) => stop(fault, err),
    }
}

// Plays what the words name, and gives whether a request was refused.
fn play_named<P: Outputs, B: Playback, O: Sink>(
    alloc: Global,
    files: &mut P,
    playback: &B,
    world: &str,
    schedule: &str,
    history: Option<&str>,
    out: &mut O,
) -> Result<bool, ScriptFault>
    ensures done { IfOk result (λ is_refused. (past : History cgroups)
        × DoneOverNamed (λ tree lines. Plays (B.plays playback.now tree 1048576) is_refused past lines (O.taken out.old) (O.taken out.new)) (P.standard files.old) (P.file files.old) world.now schedule.now
        × IsFileNamed P.nothing (P.file files.new) (option_map (λ w. w.now) history.entry) (history_text past)) }
    ensures writes { IsErrOf result faults.WriteFault → Failed (O.failed out.old) (O.failed out.new) ⊎ IsSome history.entry }
    ensures syntax { IsErrOf result faults.Syntax → IfSome (named (P.standard files.old) (P.file files.old) world.now) HasNoWorld × (out.new ≡ out.old) }
    ensures front { OnErr result ((out.new ≡ out.old)
        ⊎ (DoneOverNamed (λ tree lines. Stops (B.tells playback.now tree 1048576) lines (O.taken out.old) (O.taken out.new)) (P.standard files.old) (P.file files.old) world.now schedule.now
        ⊎ (IsSome history.entry × ((is_refused : Bool) × (past : History cgroups) × DoneOverNamed (λ tree lines. Plays (B.plays playback.now tree 1048576) is_refused past lines (O.taken out.old) (O.taken out.new)) (P.standard files.old) (P.file files.old) world.now schedule.now)))) }
    ensures unchanged { OnErr result (P.file files.new ≡ P.file files.old) }
    ensures others { (name : List ℕ) → IsNotNamed (option_map (λ w. w.now) history.entry) name → P.file files.new name ≡ P.file files.old name }
    ensures inputs { IfSome history.entry (λ name. IsOfWords (P.is_read files.old name.now) (P.is_same files.old name.now) world.now schedule.now → IsErrAnd result (λ e. status_of e ≡ 3) × (out.new ≡ out.old)) }
    ensures no_world { is_standard world.now ≡ false → P.is_missing files.old world.now ≡ true → IsErrOf result faults.ReadFault × (out.new ≡ out.old) }
    ensures no_schedule { is_standard schedule.now ≡ false → P.is_missing files.old schedule.now ≡ true → IsErrAnd result (λ e. status_of e ≡ 3) × (out.new ≡ out.old) }
    ensures barred { IfSome history.entry (λ name. P.is_barred files.old name.now ≡ true → IsErrAnd result (λ e. status_of e ≡ 3) × (out.new ≡ out.old)) }
{
    match readers(alloc, files, world, schedule) {
        Ok((mut first, mut second)) => match history {
            None => play_alone(alloc, playback, &mut first, &mut second, out),
            Some(name) => match create_history(files, name, world, schedule) {
                Ok(file) => {
                    play_kept(
                        alloc,
                        files,
                        playback,
                        &mut first,
                        &mut second,
                        file,
                        name,
                        out,
                    )
                }
                Err(fault) => Err(fault.into()),
            },
        },
        Err(fault) => Err(fault),
    }
}

/// Shows an interface file of a group in the world that a word names: `-` is standard input, and any other word the file of
/// this name, as it stands. It is opened before the other two words are read, and where it can't be opened that is a read
/// fault. What is written, and the status, are as `show_to` says.
pub fn show_named<P: Inputs, O: Sink, E: Sink>(
    alloc: Global,
    inputs: &P,
    world: &str,
    path: &str,
    file: &str,
    out: &mut O,
    err: &mut E,
) -> u8
    // The file is found and written, and nothing told;
    ensures done { result ≡ 0 → (text : List ℕ) × Finds (named (P.standard inputs.now) (P.file inputs.now) world.now) path.now file.now (Ok text) × Appends (O.taken out.old) (O.taken out.new) text }
    ensures quiet { result ≡ 0 → err.new ≡ err.old }

    // or there is a refusal, which is told and has its cause.
    ensures told { (result ≡ 0) ⊎ ((refusal : Refusal) × (result ≡ status_where refusal)
        × WritesUnlessFailed (E.taken err.old) (E.taken err.new) (E.failed err.old) (E.failed err.new) (refusal_line refusal)
        × WhyNotShown (named (P.standard inputs.now) (P.file inputs.now) world.now) path.now file.now refusal
        × (refusal ≡ refusals.WriteFault → Failed (O.failed out.old) (O.failed out.new))) }
    ensures refused { result ≡ 2 → out.new ≡ out.old }
    ensures front { result ≡ 3 → (out.new ≡ out.old) ⊎ ((text : List ℕ) × Finds (named (P.standard inputs.now) (P.file inputs.now) world.now) path.now file.now (Ok text) × AppendsFront (O.taken out.old) (O.taken out.new) text) }

    // A file that can't be opened: nothing is done, whatever the other words are.
    ensures no_world { is_standard world.now ≡ false → P.is_missing inputs.now world.now ≡ true → (result ≡ 3) × (out.new ≡ out.old)
        × WritesUnlessFailed (E.taken err.old) (E.taken err.new) (E.failed err.old) (E.failed err.new) (refusal_line refusals.ReadFault) }
{
    match open_reader(alloc, inputs, world) {
        Ok(mut reader) => show_to(alloc, &mut reader, path, file, out, err),
        Err(fault) => stop(fault, err),
    }
}

/// A reader of the lines of what the word names: `ReadFault` where there is no such file, or it may not be read, and `Memory` where
/// there is none for it.
pub fn open_reader<P: Inputs>(
    alloc: Global,
    inputs: &P,
    word: &str,
) -> Result<LineReader<P::Input>, ScriptFault>
    ensures pending { IfOk result (λ r. pending r ≡ named (P.standard inputs.now) (P.file inputs.now) word.now) }
    ensures missing { is_standard word.now ≡ false → P.is_missing inputs.now word.now ≡ true → IsErrOf result faults.ReadFault }
    ensures faults { IfErr result (λ e. (e ≡ faults.ReadFault) ⊎ (e ≡ faults.Memory)) }
{
    let source = open(inputs, word)?;
    Ok(LineReader::new(alloc, source)?)
}

/// The readers of the world and of the schedule that two words name; the schedule has none of its own where both are standard
/// input, and it stands behind the world. The world is opened before the schedule. Faults are as of `open_reader`.
pub fn readers<P: Inputs>(
    alloc: Global,
    inputs: &P,
    world: &str,
    schedule: &str,
) -> Result<(LineReader<P::Input>, Option<LineReader<P::Input>>), ScriptFault>
    ensures world { IfOk result (λ readers. pending readers.0 ≡ named (P.standard inputs.now) (P.file inputs.now) world.now) }
    ensures schedule { IfOk result (λ readers. MatchOption readers.1 (is_standard world.now && is_standard schedule.now ≡ true)
        (λ r. (is_standard world.now && is_standard schedule.now ≡ false) × (pending r ≡ named (P.standard inputs.now) (P.file inputs.now) schedule.now))) }
    ensures no_world { is_standard world.now ≡ false → P.is_missing inputs.now world.now ≡ true → IsErrOf result faults.ReadFault }
    ensures no_schedule { is_standard schedule.now ≡ false → P.is_missing inputs.now schedule.now ≡ true → (IsErrOf result faults.ReadFault) ⊎ (IsErrOf result faults.Memory) }
    ensures faults { ¬ (IsErrOf result faults.Syntax) × ¬ (IsErrOf result faults.WriteFault) }
{
    let first = open(inputs, world)?;
    if is_standard(world) && is_standard(schedule) {
        return Ok((LineReader::new(alloc, first)?, None));
    }
    let second = open(inputs, schedule)?;
    Ok((
        LineReader::new(alloc, first)?,
        Some(LineReader::new(alloc, second)?),
    ))
}

// What the word names.
fn open<P: Inputs>(inputs: &P, word: &str) -> Result<P::Input, ScriptFault>
    ensures bytes { IfOk result (λ input. P.Input.left input ≡ named (P.standard inputs.now) (P.file inputs.now) word.now) }
    ensures missing { is_standard word.now ≡ false → P.is_missing inputs.now word.now ≡ true → IsErrOf result faults.ReadFault }
    ensures faults { IfErr result (λ e. (e ≡ faults.ReadFault) ⊎ (e ≡ faults.Memory)) }
{
    if is_standard(word) {
        return Ok(inputs.open_standard());
    }
    Ok(inputs.open_file(word)?)
}

/// Whether the word names standard input: it is `-`.
pub fn is_standard(word: &str) -> bool
    ensures { result ≡ is_standard word.now }
{
    matches!(word.as_bytes(), [b'-'])
}
