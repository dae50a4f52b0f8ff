//! A schedule played from a world's text to the end of the run.
ghost use Rattle.std.specs.Prelude.{◌≡◌, ◌⊎◌, Bool, IfErr, IfOk, IfSome, OnErr, OnOk};
ghost use Rattle.std.specs.Result.{IsErrOf};
ghost use Rattle.cg_lines.specs.Device.{Failed};
ghost use Rattle.cg_lines.specs.Lines.{pending};
ghost use Rattle.cg_model.specs.Cgroups.{cgroups};
ghost use Rattle.cg_model.specs.History.{History};
ghost use Rattle.cg_script.specs.WorldPart.{HasNoWorld};
ghost use Rattle.cg_script.specs.declared.fault.ScriptFault.{ScriptFault};
ghost use Rattle.cg_script.specs.declared.fault.ScriptFault.TheVariants as faults;
ghost use Rattle.cg_program.specs.Program.{played_status, status_of, fault_line, AreBroken, DoneOver, IsBroken, IsPlayed, Plays, Stops, WritesUnlessFailed};

use crate::playback::{Playback, Played};
use crate::status::Status;
use cg_lines::{LineReader, Sink, Source, write_all};
use cg_script::{ScriptFault, read_world};
use std::alloc::Global;
use std::mem::forget;

// The most records of a history.
const LONGEST_HISTORY: u32 = 1_048_576;

/// Reads the world from `world` and plays a schedule over it: that of `schedule`, or what follows the world where there
/// is none. What is written goes to `out`. The status is 0 when all is played, or 1 where a request was refused, as the playback
/// tells it, and `is_strict` is set; 2 when the world isn't in its grammar; and 3 when memory, a source or the sink fails. For 2 and 3
/// the refusal stands on a line in `err`. It is what a program does at last: where all is played, what the machine keeps isn't given
/// back before the process ends.
pub fn replay_to<B: Playback, W: Source, T: Source, O: Sink, E: Sink>(
    alloc: Global,
    playback: &B,
    world: &mut LineReader<W>,
    schedule: &mut Option<LineReader<T>>,
    is_strict: bool,
    out: &mut O,
    err: &mut E,
) -> u8
    // All is played, and nothing told;
    ensures done { IsPlayed result → (is_refused : Bool) × (past : History cgroups) × (result ≡ played_status is_strict is_refused)
        × DoneOver (λ tree lines. Plays (B.plays playback.now tree 1048576) is_refused past lines (O.taken out.old) (O.taken out.new)) (pending world.old) schedule.old }
    ensures quiet { IsPlayed result → err.new ≡ err.old }

    // or there is a fault, which is told and has its cause.
    ensures told { IsPlayed result ⊎ ((fault : ScriptFault) × (result ≡ status_of fault)
        × WritesUnlessFailed (E.taken err.old) (E.taken err.new) (E.failed err.old) (E.failed err.new) (fault_line fault)
        × (fault ≡ faults.ReadFault → AreBroken world.new schedule.new)
        × (fault ≡ faults.WriteFault → Failed (O.failed out.old) (O.failed out.new))) }
    ensures syntax { result ≡ 2 → IfSome (pending world.old) HasNoWorld × (out.new ≡ out.old) }
    ensures front { result ≡ 3 → (out.new ≡ out.old) ⊎ DoneOver (λ tree lines. Stops (B.tells playback.now tree 1048576) lines (O.taken out.old) (O.taken out.new)) (pending world.old) schedule.old }
{
    match play_alone(alloc, playback, world, schedule, out) {
        Ok(is_refused) => status_of_played(is_strict, is_refused),
        Err(fault) => stop(fault, err),
    }
}

/// The status of a run that played its schedule.
pub(crate) fn status_of_played(is_strict: bool, is_refused: bool) -> u8
    ensures { result ≡ played_status is_strict is_refused }
{
    if is_strict && is_refused { 1 } else { 0 }
}

/// Tells a fault on a line of its own, and gives the status of a run that stops at it: 2 for a text that isn't in its
/// grammar, else 3. It takes no memory.
pub fn stop<E: Sink>(fault: ScriptFault, err: &mut E) -> u8
    ensures status { result ≡ status_of fault }
    ensures line { WritesUnlessFailed (E.taken err.old) (E.taken err.new) (E.failed err.old) (E.failed err.new) (fault_line fault) }
{
    let _ = write_all(err, line_of(fault));
    Status::of_fault(fault).code()
}

/// Plays the schedule over the world, as `replay_to` does, and gives whether a request was refused.
pub(crate) fn play_alone<B: Playback, W: Source, T: Source, O: Sink>(
    alloc: Global,
    playback: &B,
    world: &mut LineReader<W>,
    schedule: &mut Option<LineReader<T>>,
    out: &mut O,
) -> Result<bool, ScriptFault>
    ensures done { IfOk result (λ is_refused. (past : History cgroups) × DoneOver (λ tree lines. Plays (B.plays playback.now tree 1048576) is_refused past lines (O.taken out.old) (O.taken out.new)) (pending world.old) schedule.old) }
    ensures syntax { IsErrOf result faults.Syntax → IfSome (pending world.old) HasNoWorld × (out.new ≡ out.old) }
    ensures front { OnErr result ((out.new ≡ out.old) ⊎ DoneOver (λ tree lines. Stops (B.tells playback.now tree 1048576) lines (O.taken out.old) (O.taken out.new)) (pending world.old) schedule.old) }
    ensures reads { IsErrOf result faults.ReadFault → AreBroken world.new schedule.new }
    ensures writes { IsErrOf result faults.WriteFault → Failed (O.failed out.old) (O.failed out.new) }
{
    match play(alloc, playback, world, schedule, out) {
        Ok(played) => {
            let is_refused = played.is_refused;
            // The program ends next, and all that the machine keeps goes with it: to give it back group by group takes longer.
            forget(played);
            Ok(is_refused)
        }
        Err(fault) => Err(fault),
    }
}

/// The same, and gives the machine, too.
pub(crate) fn play<B: Playback, W: Source, T: Source, O: Sink>(
    alloc: Global,
    playback: &B,
    world: &mut LineReader<W>,
    schedule: &mut Option<LineReader<T>>,
    out: &mut O,
) -> Result<Played, ScriptFault>
    ensures done { IfOk result (λ played. DoneOver (λ tree lines. Plays (B.plays playback.now tree 1048576) played.is_refused played.core.history lines (O.taken out.old) (O.taken out.new)) (pending world.old) schedule.old) }
    ensures syntax { IsErrOf result faults.Syntax → IfSome (pending world.old) HasNoWorld × (out.new ≡ out.old) }
    ensures front { OnErr result ((out.new ≡ out.old) ⊎ DoneOver (λ tree lines. Stops (B.tells playback.now tree 1048576) lines (O.taken out.old) (O.taken out.new)) (pending world.old) schedule.old) }
    ensures reads { IsErrOf result faults.ReadFault → AreBroken world.new schedule.new }
    ensures writes { IsErrOf result faults.WriteFault → Failed (O.failed out.old) (O.failed out.new) }
{
    let tree = match read_world(alloc, world) {
        Ok(tree) => tree,
        Err(fault) => return Err(fault),
    };
    match schedule {
        None => playback.play(alloc, world, out, tree, LONGEST_HISTORY),
        Some(reader) => playback.play(alloc, reader, out, tree, LONGEST_HISTORY),
    }
}

// The line that tells a fault.
fn line_of(fault: ScriptFault) -> &'static [u8]
    ensures { result.now ≡ fault_line fault }
{
    match fault {
        ScriptFault::Syntax => b"refused 1 syntax\n",
        ScriptFault::Memory => b"refused 19 memory\n",
        ScriptFault::ReadFault => b"refused 24 readfault\n",
        ScriptFault::WriteFault => b"refused 25 writefault\n",
    }
}
