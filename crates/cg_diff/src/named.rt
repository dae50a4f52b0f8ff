//! The difference of two worlds that words name.
ghost use Rattle.std.specs.Prelude.{◌≡◌, ◌⊎◌, ◌&&◌, ℕ, false, true, List, Option, IfOk, IfErr, IfSome, MatchOption, OnOk};
ghost use Rattle.std.specs.Result.{IsErrOf};
ghost use Rattle.std.specs.Io.KnownBytes.{Appends};
ghost use Rattle.cg_diff.specs.DifferenceOf.{Differ, HaveNoWorlds, HoldsOfNamed, HoldsWith, IsTold, NameNoWorlds};
ghost use Rattle.cg_lines.specs.Device.{AppendsFront, Failed};
ghost use Rattle.cg_lines.specs.Lines.{pending};
ghost use Rattle.cg_program.specs.Named.{is_standard, named};
ghost use Rattle.cg_program.specs.Program.{status_of, fault_line, schedule_text, DoneOver, WritesUnlessFailed};
ghost use Rattle.cg_script.specs.WorldPart.{HasNoWorld, ReadsWorld};
ghost use Rattle.cg_script.specs.declared.fault.ScriptFault.{ScriptFault};
ghost use Rattle.cg_script.specs.declared.fault.ScriptFault.TheVariants as faults;

use crate::comparing::difference;
use cg_lines::{LineReader, Sink, Source, write_all};
use cg_program::{Inputs, Status, readers, stop};
use cg_script::{ScriptFault, read_world};
use cg_world::World;
use std::alloc::Global;

/// The status where two worlds differ.
pub const DIFFERENT: u8 = 1;

/// Writes what changed from the one world to the other, which two words name: `-` is standard input, and any other word the
/// file of this name, as it stands. Where both are standard input, the second world stands behind the first. The first is
/// opened before the second, and both before either is read. The status is 0 where the worlds are the same, 1 where they
/// differ and that is written, 2 where one isn't a world, and 3 when memory, a file or the sink fails. For 2 and 3 the
/// refusal stands on a line in `err`.
pub fn diff_named<P: Inputs, O: Sink, E: Sink>(
    alloc: Global,
    inputs: &P,
    before: &str,
    after: &str,
    out: &mut O,
    err: &mut E,
) -> u8
    // The worlds are the same, and nothing is written;
    ensures same { result ≡ 0 → HoldsOfNamed (λ A B. A ≡ B) (P.standard inputs.now) (P.file inputs.now) before.now after.now × (out.new ≡ out.old) }

    // they differ, and that is written;
    ensures different { result ≡ 1 → (text : List ℕ) × HoldsOfNamed (Differ text) (P.standard inputs.now) (P.file inputs.now) before.now after.now × Appends (O.taken out.old) (O.taken out.new) text }
    ensures quiet { (result ≡ 0) ⊎ (result ≡ 1) → err.new ≡ err.old }

    // or there is a fault, which is told.
    ensures told { (result ≡ 0) ⊎ (result ≡ 1) ⊎ ((fault : ScriptFault) × (result ≡ status_of fault)
        × WritesUnlessFailed (E.taken err.old) (E.taken err.new) (E.failed err.old) (E.failed err.new) (fault_line fault)
        × (fault ≡ faults.WriteFault → Failed (O.failed out.old) (O.failed out.new))) }
    ensures syntax { result ≡ 2 → NameNoWorlds (P.standard inputs.now) (P.file inputs.now) before.now after.now × (out.new ≡ out.old) }
    ensures front { result ≡ 3 → (out.new ≡ out.old) ⊎ ((text : List ℕ) × HoldsOfNamed (Differ text) (P.standard inputs.now) (P.file inputs.now) before.now after.now × AppendsFront (O.taken out.old) (O.taken out.new) text) }

    // A file that can't be opened: nothing is done.
    ensures no_before { is_standard before.now ≡ false → P.is_missing inputs.now before.now ≡ true → (result ≡ 3) × (out.new ≡ out.old)
        × WritesUnlessFailed (E.taken err.old) (E.taken err.new) (E.failed err.old) (E.failed err.new) (fault_line faults.ReadFault) }
    ensures no_after { is_standard after.now ≡ false → P.is_missing inputs.now after.now ≡ true → (result ≡ 3) × (out.new ≡ out.old) }
{
    match write_difference(alloc, inputs, before, after, out) {
        Ok(false) => Status::Done.code(),
        Ok(true) => DIFFERENT,
        Err(fault) => stop(fault, err),
    }
}

// Writes what changed, and tells whether anything did.
fn write_difference<P: Inputs, O: Sink>(
    alloc: Global,
    inputs: &P,
    before: &str,
    after: &str,
    out: &mut O,
) -> Result<bool, ScriptFault>
    ensures same { IfOk result (λ differ. differ ≡ false → HoldsOfNamed (λ A B. A ≡ B) (P.standard inputs.now) (P.file inputs.now) before.now after.now × (out.new ≡ out.old)) }
    ensures different { IfOk result (λ differ. differ ≡ true → (text : List ℕ) × HoldsOfNamed (Differ text) (P.standard inputs.now) (P.file inputs.now) before.now after.now × Appends (O.taken out.old) (O.taken out.new) text) }
    ensures syntax { IsErrOf result faults.Syntax → NameNoWorlds (P.standard inputs.now) (P.file inputs.now) before.now after.now }
    ensures writes { IsErrOf result faults.WriteFault → Failed (O.failed out.old) (O.failed out.new) }
    ensures kept { IfErr result (λ e. (out.new ≡ out.old) ⊎ (e ≡ faults.WriteFault)) }
    ensures front { IsErrOf result faults.WriteFault → (text : List ℕ) × HoldsOfNamed (Differ text) (P.standard inputs.now) (P.file inputs.now) before.now after.now × AppendsFront (O.taken out.old) (O.taken out.new) text }
    ensures no_before { is_standard before.now ≡ false → P.is_missing inputs.now before.now ≡ true → IsErrOf result faults.ReadFault × (out.new ≡ out.old) }
    ensures no_after { is_standard after.now ≡ false → P.is_missing inputs.now after.now ≡ true → (IsErrOf result faults.ReadFault ⊎ IsErrOf result faults.Memory) × (out.new ≡ out.old) }
{
    let text = difference_of(alloc, inputs, before, after)?;
    let bytes = text.as_slice();
    if bytes.is_empty() {
        return Ok(false);
    }
    match write_all(out, bytes) {
        Ok(()) => Ok(true),
        Err(_) => Err(ScriptFault::WriteFault),
    }
}

// What changed from the one world to the other.
fn difference_of<P: Inputs>(
    alloc: Global,
    inputs: &P,
    before: &str,
    after: &str,
) -> Result<Vec<u8>, ScriptFault>
    ensures value { IfOk result (λ text. HoldsOfNamed (IsTold text.items) (P.standard inputs.now) (P.file inputs.now) before.now after.now) }
    ensures syntax { IsErrOf result faults.Syntax → NameNoWorlds (P.standard inputs.now) (P.file inputs.now) before.now after.now }
    ensures writes { ¬ (IsErrOf result faults.WriteFault) }
    ensures no_before { is_standard before.now ≡ false → P.is_missing inputs.now before.now ≡ true → IsErrOf result faults.ReadFault }
    ensures no_after { is_standard after.now ≡ false → P.is_missing inputs.now after.now ≡ true → IsErrOf result faults.ReadFault ⊎ IsErrOf result faults.Memory }
{
    let (mut first, mut second) = readers(alloc, inputs, before, after)?;
    difference_in(alloc, &mut first, &mut second)
}

// What changed from the world of the one reader to that of the other.
fn difference_in<S: Source>(
    alloc: Global,
    first: &mut LineReader<S>,
    second: &mut Option<LineReader<S>>,
) -> Result<Vec<u8>, ScriptFault>
    ensures value { IfOk result (λ text. DoneOver (HoldsWith (IsTold text.items)) (pending first.old) second.old) }
    ensures syntax { IsErrOf result faults.Syntax → HaveNoWorlds (pending first.old) second.old }
    ensures writes { ¬ (IsErrOf result faults.WriteFault) }
{
    let before = read_world(alloc, first)?;
    let after = read_second(alloc, first, second)?;
    Ok(difference(alloc, before.tree(), after.tree())?)
}

/// Reads the second of two worlds, once the first is read: behind it where it has no reader of its own. Faults are as of `read_world`.
pub fn read_second<S: Source>(
    alloc: Global,
    first: &mut LineReader<S>,
    second: &mut Option<LineReader<S>>,
) -> Result<World, ScriptFault>
    ensures value { IfOk result (λ world. IfSome (schedule_text second.old (pending first.old)) (λ text. (rest : Option (List ℕ)) × ReadsWorld text world rest)) }
    ensures syntax { IsErrOf result faults.Syntax → IfSome (schedule_text second.old (pending first.old)) HasNoWorld }
    ensures writes { ¬ (IsErrOf result faults.WriteFault) }
{
    match second {
        None => read_world(alloc, first),
        Some(reader) => read_world(alloc, reader),
    }
}
