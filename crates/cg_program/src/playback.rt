//! How a schedule is played, and what is written for it.
ghost use Rattle.std.specs.Prelude.{◌≤◌, Bool, List, ℕ, IfOk, IfSome, OnErr};
ghost use Rattle.std.specs.Result.{IsErrOf};
ghost use Rattle.std.specs.Io.KnownBytes.{Appends};
ghost use Rattle.cg_lines.specs.Device.{AppendsFront, Failed};
ghost use Rattle.cg_lines.specs.Lines.{pending, CanBreak};
ghost use Rattle.cg_model.specs.Cgroups.{cgroups};
ghost use Rattle.cg_model.specs.History.{History};
ghost use Rattle.cg_model.specs.Tree.{Tree};
ghost use Rattle.cg_program.specs.Plain.{PlaysPlain, TellsPlain};
ghost use Rattle.cg_script.specs.declared.fault.ScriptFault.TheVariants as faults;

use cg_core::Core;
use cg_lines::{LineReader, Sink, Source};
use cg_replay::replay;
use cg_script::ScriptFault;
use cg_world::World;
use std::alloc::Global;

/// A schedule that was played to its end.
#[derive(Drop)]
pub struct Played {
    /// Whether a request was refused, where that is looked for.
    pub is_refused: bool,
    /// The machine, of which nothing is open any more.
    pub core: Core,
}

/// How a schedule is played, and what is written for it.
pub trait Playback {
    /// This is written for a text, over a tree and a limit of the history, and so it is whether a request was refused.
    ghost tells: { Self → Tree → ℕ → List ℕ → Bool → List ℕ → Type 0 };

    /// The same, and this history results, with the aborts at the end.
    ghost plays: { Self → Tree → ℕ → List ℕ → Bool → List ℕ → History cgroups → Type 0 };

    /// Plays a schedule over a world. What waits is written before the reader's next read of its source. After a fault what was
    /// written is the front of what would have been.
    fn play<S: Source, K: Sink>(
        &self,
        alloc: Global,
        reader: &mut LineReader<S>,
        sink: &mut K,
        world: World,
        limit: u32,
    ) -> Result<Played, ScriptFault>
        requires low { 2 ≤ limit }
        requires high { limit ≤ 1048576 }
        ensures output { IfOk result (λ played. IfSome (pending reader.old) (λ text. (out : List ℕ) × plays self.now world limit text played.is_refused out played.core.history × Appends (K.taken sink.old) (K.taken sink.new) out)) }
        ensures front { OnErr result (IfSome (pending reader.old) (λ text. (is_refused : Bool) (out : List ℕ) → tells self.now world limit text is_refused out → AppendsFront (K.taken sink.old) (K.taken sink.new) out)) }
        ensures reads { IsErrOf result faults.ReadFault → CanBreak reader.new.failed_before reader.new.failures reader.new.reads }
        ensures writes { IsErrOf result faults.WriteFault → Failed (K.failed sink.old) (K.failed sink.new) }
        ensures syntax { ¬ (IsErrOf result faults.Syntax) };
}

/// The answers alone. It doesn't look for refused requests, and tells of none.
#[derive(Clone, Copy, Debug)]
pub struct Plain;

impl Playback for Plain {
    ghost tells = { λ _. TellsPlain };

    ghost plays = { λ _. PlaysPlain };

    fn play<S: Source, K: Sink>(
        &self,
        alloc: Global,
        reader: &mut LineReader<S>,
        sink: &mut K,
        world: World,
        limit: u32,
    ) -> Result<Played, ScriptFault> {
        match replay(alloc, reader, sink, world, limit) {
            Ok(core) => Ok(Played {
                is_refused: false,
                core,
            }),
            Err(fault) => Err(fault),
        }
    }
}
