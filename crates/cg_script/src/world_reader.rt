//! Reads the world at the head of a text, line by line.
ghost use Rattle.std.specs.Prelude.{◌≡◌, ◌<◌, ◌≤◌, ◌+◌, ◌∷◌, ◌++◌, [], List, ℕ, Option, length, IfOk, IfSome, OnOk};
ghost use Rattle.std.specs.Result.{IsErrOf};
ghost use Rattle.cg_text.specs.Words.{Line};
ghost use Rattle.cg_model.specs.Sound.{Sound};
ghost use Rattle.cg_model.specs.Tree.{Tree};
ghost use Rattle.cg_world_text.specs.Reader.{HasTaken, SomeEnds, SpellTree};
ghost use Rattle.cg_lines.specs.Lines.{pending, bytes_to_come, CanBreak};
ghost use Rattle.cg_script.specs.WorldPart.{HasNoWorld, ReadsWorld};
ghost use Rattle.cg_script.specs.WorldLines.{IsPart, IsPartBehind, SpoilEnd, SpoilWorld};
ghost use Rattle.cg_script.specs.declared.fault.ScriptFault.TheVariants as faults;

use crate::fault::ScriptFault;
use cg_lines::{LineKind, LineReader, Source};
use cg_name::Refusal;
use cg_world::World;
use cg_world_text::{LONGEST_WORLD, WorldReader};
use std::alloc::Global;

/// The world that the text through the first line `end` spells, that line's newline included where there is one; the
/// reader goes on behind it. `Syntax` where it spells none, where it has more than 16,777,216 bytes, and where no line
/// says `end`. After a fault nothing is told of where the reader stands.
pub fn read_world<S: Source>(
    alloc: Global,
    reader: &mut LineReader<S>,
) -> Result<World, ScriptFault>
    ensures value { IfOk result (λ w. IfSome (pending reader.old) (λ text. ReadsWorld text w (pending reader.new))) }
    ensures syntax { IsErrOf result faults.Syntax → IfSome (pending reader.old) HasNoWorld }
    ensures reads { IsErrOf result faults.ReadFault → CanBreak reader.new.failed_before reader.new.failures reader.new.reads }
    ensures writes { ¬ (IsErrOf result faults.WriteFault) }
{
    let mut part = Part::new();
    'lines: loop {
        take_line(alloc, reader, &mut part)?;
        if part.world.has_ended() {
            return part.finish(alloc);
        }
    }
}

// Takes the reader's next line into the part, of which nothing is told after a fault.
fn take_line<S: Source>(
    alloc: Global,
    reader: &mut LineReader<S>,
    part: &mut Part,
) -> Result<(), ScriptFault>
    ensures taken { OnOk result ((start : Option (List ℕ)) → IsPart start part.old.world part.old.bytes (pending reader.old) → IsPartBehind start part.new.world part.new.bytes (pending reader.new)) }
    ensures progress { OnOk result (bytes_to_come reader.new < bytes_to_come reader.old) }
    ensures syntax { IsErrOf result faults.Syntax → (start : Option (List ℕ)) → IsPart start part.old.world part.old.bytes (pending reader.old) → IfSome start HasNoWorld }
    ensures reads { IsErrOf result faults.ReadFault → CanBreak reader.new.failed_before reader.new.failures reader.new.reads }
    ensures writes { ¬ (IsErrOf result faults.WriteFault) }
{
    match reader.next_line()? {
        LineKind::Text => {
            let line = reader.line();
            part.take(alloc, line, line.len() + 1)
        }
        LineKind::Last => part.take_last(alloc, reader.line()),
        LineKind::TooLong => Err(ScriptFault::Syntax),
        LineKind::End => Err(ScriptFault::Syntax),
    }
}

// The part of a text that is a world, as far as it was read.
#[derive(Drop)]
struct Part {
    world: WorldReader,
    // How many bytes its lines have, with their newlines.
    bytes: usize,
    ghost short: { bytes ≤ 16777216 },
}

impl Part {
    // A part of no lines.
    fn new() -> Part
        ensures taken { HasTaken result.world [] }
        ensures counted { result.bytes ≡ 0 }
    {
        Part {
            world: WorldReader::new(),
            bytes: 0,
        }
    }

    // Takes a line more, of so many bytes with its newline. `Syntax` where it is bad or too much. After a fault nothing is
    // told of the part.
    fn take(&mut self, alloc: Global, line: &[u8], bytes: usize) -> Result<(), ScriptFault>
        ensures taken { OnOk result ((lines : List Line) → HasTaken self.old.world lines → HasTaken self.new.world (lines ++ line.now ∷ [])) }
        ensures counted { OnOk result (self.new.bytes ≡ self.old.bytes + bytes) }
        ensures syntax { IsErrOf result faults.Syntax → (lines : List Line) → HasTaken self.old.world lines → SpoilWorld (lines ++ line.now ∷ []) (self.old.bytes + bytes) }
        ensures reads { ¬ (IsErrOf result faults.ReadFault) }
        ensures writes { ¬ (IsErrOf result faults.WriteFault) }
    {
        if bytes > LONGEST_WORLD - self.bytes {
            return Err(ScriptFault::Syntax);
        }
        match self.world.take_line(alloc, line) {
            Ok(()) => {
                self.bytes += bytes;
                Ok(())
            }
            Err(Refusal::Syntax) => Err(ScriptFault::Syntax),
            Err(_) => Err(ScriptFault::Memory),
        }
    }

    // Takes the text's last line, which has no newline. `Syntax` where it ends no world, too. After a fault nothing is told
    // of the part.
    fn take_last(&mut self, alloc: Global, line: &[u8]) -> Result<(), ScriptFault>
        ensures taken { OnOk result ((lines : List Line) → HasTaken self.old.world lines → HasTaken self.new.world (lines ++ line.now ∷ [])) }
        ensures counted { OnOk result (self.new.bytes ≡ self.old.bytes + length line.now) }
        ensures ended { OnOk result ((lines : List Line) → HasTaken self.old.world lines → SomeEnds (lines ++ line.now ∷ [])) }
        ensures syntax { IsErrOf result faults.Syntax → (lines : List Line) → HasTaken self.old.world lines → SpoilEnd lines line.now (self.old.bytes + length line.now) }
        ensures reads { ¬ (IsErrOf result faults.ReadFault) }
        ensures writes { ¬ (IsErrOf result faults.WriteFault) }
    {
        self.take(alloc, line, line.len())?;
        if self.world.has_ended() {
            Ok(())
        } else {
            Err(ScriptFault::Syntax)
        }
    }

    // The world of the part.
    fn finish(self, alloc: Global) -> Result<World, ScriptFault>
        ensures value { IfOk result (λ w. (lines : List Line) → HasTaken self.world lines → SpellTree lines w × Sound w) }
        ensures syntax { IsErrOf result faults.Syntax → (lines : List Line) (T : Tree) → HasTaken self.world lines → SpellTree lines T → Sound T → ⊥ }
        ensures reads { ¬ (IsErrOf result faults.ReadFault) }
        ensures writes { ¬ (IsErrOf result faults.WriteFault) }
    {
        match self.world.finish(alloc) {
            Ok(world) => Ok(world),
            Err(Refusal::Syntax) => Err(ScriptFault::Syntax),
            Err(_) => Err(ScriptFault::Memory),
        }
    }
}
