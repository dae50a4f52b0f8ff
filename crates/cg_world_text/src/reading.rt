//! Worlds read from their text.
ghost use Rattle.std.specs.Prelude.{IfOk, IfErr};
ghost use Rattle.std.specs.Result.{IsErrOf};
ghost use Rattle.cg_name.specs.Refusal.{IsSyntaxOrMemory};
ghost use Rattle.cg_model.specs.Tree.{Tree};
ghost use Rattle.cg_world_text.specs.World.{SpellsWorld};

use crate::reader::WorldReader;
use cg_name::Refusal;
use cg_world::World;
use std::alloc::Global;

/// The most bytes of a world text: of all of it, or of its lines through `end` where something else follows them.
pub const LONGEST_WORLD: usize = 16_777_216;

/// Reading from a text.
pub trait ReadWorld: Sized {
    /// What a text of at most 16,777,216 bytes spells; `Syntax` where it spells none, an unsound tree too; `Memory`
    /// where there is none for it.
    fn read(alloc: Global, text: &[u8]) -> Result<Self, Refusal>;
}

impl ReadWorld for World {
    fn read(alloc: Global, text: &[u8]) -> Result<World, Refusal>
        ensures value { IfOk result (λ w. SpellsWorld text.now w) }
        ensures syntax { IsErrOf result Refusal.Syntax → (T : Tree) → SpellsWorld text.now T → ⊥ }
        ensures refusals { IfErr result IsSyntaxOrMemory }
    {
        if text.len() > LONGEST_WORLD {
            return Err(Refusal::Syntax);
        }
        let mut reader = WorldReader::new();
        for line in text.split(|byte| *byte == b'\n') {
            reader.take_line(alloc, line)?;
        }
        reader.finish(alloc)
    }
}
