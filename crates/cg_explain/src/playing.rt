//! Playing a schedule from a source to a sink, with comments beside its answers.
ghost use Rattle.std.specs.Prelude.{◌≡◌, ◌≤◌, Bool, List, ℕ, IfOk, IfSome, OnErr};
ghost use Rattle.std.specs.Result.{IsErrOf};
ghost use Rattle.std.specs.Io.KnownBytes.{Appends};
ghost use Rattle.cg_explain.specs.Explained.{CommentsStandAside, IsExplained, IsExplainedFrom};
ghost use Rattle.cg_explain.specs.Run.{PlaysExplained, PlaysExplainedFrom};
ghost use Rattle.cg_lines.specs.Device.{AppendsFront, Failed};
ghost use Rattle.cg_lines.specs.Lines.{pending, CanBreak};
ghost use Rattle.cg_script.specs.declared.fault.ScriptFault.TheVariants as faults;

use crate::explainer::{Comments, Explainer};
use cg_program::{Playback, Played};
use cg_replay::{LineReader, Sink, Source, answer_lines};
use cg_script::ScriptFault;
use cg_world::World;
use std::alloc::Global;

/// Plays a schedule over a world as `replay` does, with comments beside the answers. Gives the machine, and tells whether a request
/// was refused: a line outside the grammar counts. What waits is written before the reader's next read of its source. After a fault
/// what was written is the front of what would have been.
pub fn explain<S: Source, K: Sink>(
    alloc: Global,
    reader: &mut LineReader<S>,
    sink: &mut K,
    world: World,
    limit: u32,
    comments: Comments,
) -> Result<Played, ScriptFault>
    requires low { 2 ≤ limit }
    requires high { limit ≤ 1048576 }
    ensures output { IfOk result (λ played. IfSome (pending reader.old) (λ text. (out : List ℕ) × PlaysExplained comments world limit text played.is_refused out played.core.history × Appends (K.taken sink.old) (K.taken sink.new) out)) }
    ensures front { OnErr result (IfSome (pending reader.old) (λ text. (is_refused : Bool) (out : List ℕ) → IsExplained comments world limit text is_refused out → AppendsFront (K.taken sink.old) (K.taken sink.new) out)) }
    ensures reads { IsErrOf result faults.ReadFault → CanBreak reader.new.failed_before reader.new.failures reader.new.reads }
    ensures writes { IsErrOf result faults.WriteFault → Failed (K.failed sink.old) (K.failed sink.new) }
    ensures syntax { ¬ (IsErrOf result faults.Syntax) }
{
    let mut explainer = Explainer::open(alloc, world, limit, comments)?;
    match play(alloc, reader, sink, &mut explainer) {
        Ok(is_refused) => Ok(Played {
            is_refused,
            core: explainer.into_core(),
        }),
        Err(fault) => Err(fault),
    }
}

impl Playback for Comments {
    ghost tells = { IsExplained };

    ghost plays = { PlaysExplained };

    fn play<S: Source, K: Sink>(
        &self,
        alloc: Global,
        reader: &mut LineReader<S>,
        sink: &mut K,
        world: World,
        limit: u32,
    ) -> Result<Played, ScriptFault> {
        explain(alloc, reader, sink, world, limit, *self)
    }
}

// Answers the lines of a schedule from here on.
fn play<S: Source, K: Sink>(
    alloc: Global,
    reader: &mut LineReader<S>,
    sink: &mut K,
    explainer: &mut Explainer,
) -> Result<bool, ScriptFault>
    ensures output { IfOk result (λ is_refused. IfSome (pending reader.old) (λ text. (out : List ℕ) × PlaysExplainedFrom explainer.old text is_refused out explainer.new.player.core.history × Appends (K.taken sink.old) (K.taken sink.new) out)) }
    ensures front { OnErr result (IfSome (pending reader.old) (λ text. (is_refused : Bool) (out : List ℕ) → IsExplainedFrom explainer.old text is_refused out → AppendsFront (K.taken sink.old) (K.taken sink.new) out)) }
    ensures reads { IsErrOf result faults.ReadFault → CanBreak reader.new.failed_before reader.new.failures reader.new.reads }
    ensures writes { IsErrOf result faults.WriteFault → Failed (K.failed sink.old) (K.failed sink.new) }
    ensures syntax { ¬ (IsErrOf result faults.Syntax) }
{
    let mut waiting = answer_lines(alloc, reader, sink, explainer)?;
    explainer.write_end(alloc, &mut waiting, sink)?;
    Ok(explainer.is_refused())
}

/// The comments stand aside: where they are left out before the last tree, the plain output of the schedule is left.
pub fn comments_stand_aside()
    ensures { CommentsStandAside }
{}
