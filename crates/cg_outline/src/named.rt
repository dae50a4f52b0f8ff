//! The outline of a world that a word names.
ghost use Rattle.std.specs.Prelude.{◌≡◌, ◌⊎◌, ℕ, false, true, List, IfOk, IfErr, IfSome, OnOk};
ghost use Rattle.std.specs.Result.{IsErrOf};
ghost use Rattle.std.specs.Io.KnownBytes.{Appends};
ghost use Rattle.cg_lines.specs.Device.{AppendsFront, Failed};
ghost use Rattle.cg_outline.specs.OutlineOf.{IsOutlineOf};
ghost use Rattle.cg_program.specs.Named.{is_standard, named};
ghost use Rattle.cg_program.specs.Program.{status_of, fault_line, WritesUnlessFailed};
ghost use Rattle.cg_script.specs.WorldPart.{HasNoWorld};
ghost use Rattle.cg_script.specs.declared.fault.ScriptFault.{ScriptFault};
ghost use Rattle.cg_script.specs.declared.fault.ScriptFault.TheVariants as faults;

use crate::lines::outline;
use cg_json::Form;
use cg_lines::{Sink, write_all};
use cg_program::{Inputs, Status, open_reader, stop};
use cg_script::{ScriptFault, read_world};
use cg_tree::Tree;
use std::alloc::Global;

/// Writes the outline of the world that a word names, of its groups of at most `depth` names, as plain text or as JSON: `-` is
/// standard input, and any other word the file of this name, as it stands. The status is 0 when it is written, 2 when there
/// is no world, and 3 when memory, the file or the sink fails. For 2 and 3 the refusal stands on a line in `err`.
pub fn outline_named<P: Inputs, O: Sink, E: Sink>(
    alloc: Global,
    inputs: &P,
    world: &str,
    depth: u32,
    form: Form,
    out: &mut O,
    err: &mut E,
) -> u8
    // The outline is written, and nothing told;
    ensures done { result ≡ 0 → (text : List ℕ) × IsOutlineOf (named (P.standard inputs.now) (P.file inputs.now) world.now) form depth text × Appends (O.taken out.old) (O.taken out.new) text }
    ensures quiet { result ≡ 0 → err.new ≡ err.old }

    // or there is a fault, which is told.
    ensures told { (result ≡ 0) ⊎ ((fault : ScriptFault) × (result ≡ status_of fault)
        × WritesUnlessFailed (E.taken err.old) (E.taken err.new) (E.failed err.old) (E.failed err.new) (fault_line fault)
        × (fault ≡ faults.WriteFault → Failed (O.failed out.old) (O.failed out.new))) }
    ensures syntax { result ≡ 2 → IfSome (named (P.standard inputs.now) (P.file inputs.now) world.now) HasNoWorld × (out.new ≡ out.old) }
    ensures front { result ≡ 3 → (out.new ≡ out.old) ⊎ ((text : List ℕ) × IsOutlineOf (named (P.standard inputs.now) (P.file inputs.now) world.now) form depth text × AppendsFront (O.taken out.old) (O.taken out.new) text) }

    // A file that can't be opened: nothing is done.
    ensures no_world { is_standard world.now ≡ false → P.is_missing inputs.now world.now ≡ true → (result ≡ 3) × (out.new ≡ out.old)
        × WritesUnlessFailed (E.taken err.old) (E.taken err.new) (E.failed err.old) (E.failed err.new) (fault_line faults.ReadFault) }
{
    match write_outline(alloc, inputs, world, depth, form, out) {
        Ok(()) => Status::Done.code(),
        Err(fault) => stop(fault, err),
    }
}

// Writes the outline.
fn write_outline<P: Inputs, O: Sink>(
    alloc: Global,
    inputs: &P,
    world: &str,
    depth: u32,
    form: Form,
    out: &mut O,
) -> Result<(), ScriptFault>
    ensures done { OnOk result ((text : List ℕ) × IsOutlineOf (named (P.standard inputs.now) (P.file inputs.now) world.now) form depth text × Appends (O.taken out.old) (O.taken out.new) text) }
    ensures syntax { IsErrOf result faults.Syntax → IfSome (named (P.standard inputs.now) (P.file inputs.now) world.now) HasNoWorld }
    ensures writes { IsErrOf result faults.WriteFault → Failed (O.failed out.old) (O.failed out.new) }
    ensures kept { IfErr result (λ e. (out.new ≡ out.old) ⊎ (e ≡ faults.WriteFault)) }
    ensures front { IsErrOf result faults.WriteFault → (text : List ℕ) × IsOutlineOf (named (P.standard inputs.now) (P.file inputs.now) world.now) form depth text × AppendsFront (O.taken out.old) (O.taken out.new) text }
    ensures missing { is_standard world.now ≡ false → P.is_missing inputs.now world.now ≡ true → IsErrOf result faults.ReadFault × (out.new ≡ out.old) }
{
    let text = outline_of(alloc, inputs, world, depth, form)?;
    match write_all(out, text.as_slice()) {
        Ok(()) => Ok(()),
        Err(_) => Err(ScriptFault::WriteFault),
    }
}

// The outline of the world at the head of what the word names.
fn outline_of<P: Inputs>(
    alloc: Global,
    inputs: &P,
    world: &str,
    depth: u32,
    form: Form,
) -> Result<Vec<u8>, ScriptFault>
    ensures value { IfOk result (λ text. IsOutlineOf (named (P.standard inputs.now) (P.file inputs.now) world.now) form depth text.items) }
    ensures syntax { IsErrOf result faults.Syntax → IfSome (named (P.standard inputs.now) (P.file inputs.now) world.now) HasNoWorld }
    ensures missing { is_standard world.now ≡ false → P.is_missing inputs.now world.now ≡ true → IsErrOf result faults.ReadFault }
    ensures writes { ¬ (IsErrOf result faults.WriteFault) }
{
    let mut reader = open_reader(alloc, inputs, world)?;
    let world = read_world(alloc, &mut reader)?;
    let tree = Tree::from_world(alloc, &world)?;
    Ok(outline(alloc, &tree, depth, form)?)
}
