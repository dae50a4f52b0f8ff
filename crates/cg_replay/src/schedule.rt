//! Replaying a schedule from a source to a sink.
ghost use Rattle.std.specs.Prelude.{◌≡◌, ◌≤◌, List, ℕ, IfOk, IfSome, OnErr, OnOk};
ghost use Rattle.std.specs.Result.{IsErrOf};
ghost use Rattle.std.specs.Io.KnownBytes.{Appends};
ghost use Rattle.cg_lines.specs.Device.{AppendsFront, Failed};
ghost use Rattle.cg_lines.specs.Lines.{pending, CanBreak};
ghost use Rattle.cg_replay.specs.HistoryReplay.{HistoriesAreReplayed, OwnHistoriesAreReplayed};
ghost use Rattle.cg_replay.specs.Replay.{opened, AnswersPassed, IsOutput, IsOutputFrom, IsOutputAndHistory, IsOutputAndHistoryFrom, OneOutput, SomeOutput};
ghost use Rattle.cg_replay.specs.MachineOutput.{IsMachineOutput, OutputsAreTheMachines};
ghost use Rattle.cg_script.specs.declared.fault.ScriptFault.TheVariants as faults;

use crate::answering::answer_lines;
use crate::player::Player;
use cg_core::Core;
use cg_lines::{LineReader, Sink, Source};
use cg_script::ScriptFault;
use cg_world::World;
use std::alloc::Global;

/// Answers the lines of a schedule over a world, one after another, aborts what is still open at the end, and
/// writes the tree's world text; and gives the machine, of which nothing is open any more. Answers are written before
/// the reader's next read of its source, and at 64 KiB at the latest. After a fault what was written is the front of
/// what would have been; after a read fault it is the answers to the lines that the reader went past.
pub fn replay<S: Source, K: Sink>(
    alloc: Global,
    reader: &mut LineReader<S>,
    sink: &mut K,
    world: World,
    limit: u32,
) -> Result<Core, ScriptFault>
    requires low { 2 ≤ limit }
    requires high { limit ≤ 1048576 }
    ensures output { IfOk result (λ core. IfSome (pending reader.old) (λ text. (out : List ℕ) × IsOutputAndHistory world limit text out core.history × Appends (K.taken sink.old) (K.taken sink.new) out)) }
    ensures machine { OnOk result (IfSome (pending reader.old) (λ text. (out : List ℕ) × IsMachineOutput world limit text out × Appends (K.taken sink.old) (K.taken sink.new) out)) }
    ensures front { OnErr result (IfSome (pending reader.old) (λ text. (out : List ℕ) → IsOutput world limit text out → AppendsFront (K.taken sink.old) (K.taken sink.new) out)) }
    ensures reads { IsErrOf result faults.ReadFault → CanBreak reader.new.failed_before reader.new.failures reader.new.reads }
    ensures passed { IsErrOf result faults.ReadFault → IfSome (pending reader.old) (λ text. AnswersPassed (opened world limit) text (pending reader.new) (K.taken sink.old) (K.taken sink.new)) }
    ensures writes { IsErrOf result faults.WriteFault → Failed (K.failed sink.old) (K.failed sink.new) }
    ensures syntax { ¬ (IsErrOf result faults.Syntax) }
{
    // A world tells that its tree is sound when it is looked at.
    let _ = world.tree();
    let mut player = Player::open(alloc, world, limit)?;
    match play(alloc, reader, sink, &mut player) {
        Ok(()) => Ok(player.into_core()),
        Err(fault) => Err(fault),
    }
}

// Answers the lines of a schedule from here on.
fn play<S: Source, K: Sink>(
    alloc: Global,
    reader: &mut LineReader<S>,
    sink: &mut K,
    player: &mut Player,
) -> Result<(), ScriptFault>
    ensures output { OnOk result (IfSome (pending reader.old) (λ text. (out : List ℕ) × IsOutputAndHistoryFrom player.old text out player.new.core.history × Appends (K.taken sink.old) (K.taken sink.new) out)) }
    ensures front { OnErr result (IfSome (pending reader.old) (λ text. (out : List ℕ) → IsOutputFrom player.old text out → AppendsFront (K.taken sink.old) (K.taken sink.new) out)) }
    ensures reads { IsErrOf result faults.ReadFault → CanBreak reader.new.failed_before reader.new.failures reader.new.reads }
    ensures passed { IsErrOf result faults.ReadFault → IfSome (pending reader.old) (λ text. AnswersPassed player.old text (pending reader.new) (K.taken sink.old) (K.taken sink.new)) }
    ensures writes { IsErrOf result faults.WriteFault → Failed (K.failed sink.old) (K.failed sink.new) }
    ensures syntax { ¬ (IsErrOf result faults.Syntax) }
{
    let mut waiting = answer_lines(alloc, reader, sink, player)?;
    player.write_end(alloc, &mut waiting, sink)
}

/// A schedule's text has one output at most over a tree and a limit of the history.
pub fn a_schedule_has_one_output_at_most()
    ensures { OneOutput }
{}

/// A schedule's text, whatever its bytes, has an output: it can't have none.
pub fn a_schedule_has_an_output()
    ensures { SomeOutput }
{}

/// The machine of the definitions, asked what the lines of a schedule ask, answers what the output has.
pub fn outputs_are_the_machines()
    ensures { OutputsAreTheMachines }
{}

/// The text of a history, replayed over a sound tree, is answered what the machine answers to these requests.
pub fn histories_are_replayed()
    ensures { HistoriesAreReplayed }
{}

/// The text of a machine's own history, of which nothing is open any more, replayed over the tree that the machine was opened on
/// and with its bound, is answered by just the answers that stand in its comments, and then its tree is written: where there are
/// at most 4,096 sessions, the requests can be asked for, and no comment is longer than a line.
pub fn own_histories_are_replayed()
    ensures { OwnHistoriesAreReplayed }
{}
