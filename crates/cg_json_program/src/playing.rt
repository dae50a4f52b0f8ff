//! Playing a schedule from a source to a sink, and telling of it as JSON.
ghost use Rattle.std.specs.Prelude.{◌≡◌, ◌≤◌, Bool, List, ℕ, IfOk, IfSome, OnErr};
ghost use Rattle.std.specs.Result.{IsErrOf};
ghost use Rattle.std.specs.Io.KnownBytes.{Appends};
ghost use Rattle.cg_json_program.specs.Output.{IsTold, IsToldFrom};
ghost use Rattle.cg_json_program.specs.Run.{PlaysTold, PlaysToldFrom};
ghost use Rattle.cg_lines.specs.Device.{AppendsFront, Failed};
ghost use Rattle.cg_lines.specs.Lines.{pending, CanBreak};
ghost use Rattle.cg_script.specs.declared.fault.ScriptFault.TheVariants as faults;

use crate::reporter::Reporter;
use cg_lines::write_all;
use cg_program::{Playback, Played};
use cg_replay::{LineReader, Sink, Source, answer_lines};
use cg_script::ScriptFault;
use cg_world::World;
use std::alloc::Global;

/// Plays a schedule over a world as `replay` does, and tells of each answer, of the aborts at the end and of the tree as an object of
/// JSON on a line of its own. Gives the machine, and whether a request was refused: a line outside the grammar counts. What waits is
/// written before the reader's next read of its source. After a fault what was written is the front of what would have been.
pub fn tell<S: Source, K: Sink>(
    alloc: Global,
    reader: &mut LineReader<S>,
    sink: &mut K,
    world: World,
    limit: u32,
) -> Result<Played, ScriptFault>
    requires low { 2 ≤ limit }
    requires high { limit ≤ 1048576 }
    ensures output { IfOk result (λ played. IfSome (pending reader.old) (λ text. (out : List ℕ) × PlaysTold world limit text played.is_refused out played.core.history × Appends (K.taken sink.old) (K.taken sink.new) out)) }
    ensures front { OnErr result (IfSome (pending reader.old) (λ text. (is_refused : Bool) (out : List ℕ) → IsTold world limit text is_refused out → AppendsFront (K.taken sink.old) (K.taken sink.new) out)) }
    ensures reads { IsErrOf result faults.ReadFault → CanBreak reader.new.failed_before reader.new.failures reader.new.reads }
    ensures writes { IsErrOf result faults.WriteFault → Failed (K.failed sink.old) (K.failed sink.new) }
    ensures syntax { ¬ (IsErrOf result faults.Syntax) }
{
    let mut reporter = Reporter::open(alloc, world, limit)?;
    match play(alloc, reader, sink, &mut reporter) {
        Ok(is_refused) => Ok(Played {
            is_refused,
            core: reporter.into_core(),
        }),
        Err(fault) => Err(fault),
    }
}

/// The playback that tells as JSON.
#[derive(Clone, Copy, Debug)]
pub struct Json;

impl Playback for Json {
    ghost tells = { λ _. IsTold };

    ghost plays = { λ _. PlaysTold };

    fn play<S: Source, K: Sink>(
        &self,
        alloc: Global,
        reader: &mut LineReader<S>,
        sink: &mut K,
        world: World,
        limit: u32,
    ) -> Result<Played, ScriptFault> {
        tell(alloc, reader, sink, world, limit)
    }
}

// Tells of the lines of a schedule from here on, and of the end.
fn play<S: Source, K: Sink>(
    alloc: Global,
    reader: &mut LineReader<S>,
    sink: &mut K,
    reporter: &mut Reporter,
) -> Result<bool, ScriptFault>
    ensures output { IfOk result (λ is_refused. IfSome (pending reader.old) (λ text. (out : List ℕ) × PlaysToldFrom reporter.old text is_refused out reporter.new.player.core.history × Appends (K.taken sink.old) (K.taken sink.new) out)) }
    ensures front { OnErr result (IfSome (pending reader.old) (λ text. (is_refused : Bool) (out : List ℕ) → IsToldFrom reporter.old text is_refused out → AppendsFront (K.taken sink.old) (K.taken sink.new) out)) }
    ensures reads { IsErrOf result faults.ReadFault → CanBreak reader.new.failed_before reader.new.failures reader.new.reads }
    ensures writes { IsErrOf result faults.WriteFault → Failed (K.failed sink.old) (K.failed sink.new) }
    ensures syntax { ¬ (IsErrOf result faults.Syntax) }
{
    let waiting = answer_lines(alloc, reader, sink, reporter)?;
    write_all(sink, waiting.as_slice())?;
    let ending = reporter.end(alloc)?;
    write_all(sink, ending.as_slice())?;
    Ok(reporter.is_refused())
}
