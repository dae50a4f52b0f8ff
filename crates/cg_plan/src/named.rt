//! Plans between two worlds, which words name.
ghost use Rattle.std.specs.Prelude.{◌≡◌, ◌⊎◌, ◌&&◌, ℕ, false, true, List, Option, IfErr, IfOk, IfSome, MatchOption};
ghost use Rattle.std.specs.Result.{IsErrOf};
ghost use Rattle.std.specs.Io.KnownBytes.{Appends};
ghost use Rattle.cg_diff.specs.DifferenceOf.{HaveNoWorlds, HoldsOfNamed, HoldsWith, NameNoWorlds};
ghost use Rattle.cg_lines.specs.Device.{AppendsFront, Failed};
ghost use Rattle.cg_lines.specs.Lines.{pending};
ghost use Rattle.cg_plan.specs.Forms.{LeadsAs};
ghost use Rattle.cg_plan.specs.Leads.{Leads};
ghost use Rattle.cg_plan.specs.Told.{none_line};
ghost use Rattle.cg_program.specs.Named.{is_standard, named};
ghost use Rattle.cg_program.specs.Program.{status_of, fault_line, schedule_text, DoneOver, WritesUnlessFailed};
ghost use Rattle.cg_script.specs.declared.fault.ScriptFault.{ScriptFault};
ghost use Rattle.cg_script.specs.declared.fault.ScriptFault.TheVariants as faults;

use crate::as_json::json_lines;
use crate::form::PlanForm;
use crate::planning::script_text;
use crate::running::leads;
use crate::shell::shell_text;
use cg_diff::read_second;
use cg_lines::{LineReader, Sink, Source, write_all};
use cg_program::{Inputs, Status, readers, stop};
use cg_script::{ScriptFault, read_world};
use cg_world::World;
use std::alloc::{AllocError, Global};

/// The status where no plan was found.
pub const NO_PLAN: u8 = 1;

/// Writes a script that turns the one world into the other, in the form that is asked for. Two words name the worlds: `-` is standard
/// input, and any other word the file of this name, as it stands. Where both are standard input, the second world stands behind the
/// first. The first is opened before the second, and both before either is read. The status is 0 where a script is written, 1 where
/// none was found, 2 where one isn't a world, and 3 when memory, a file or the sink fails. For 1 a line in `err` says so, and for 2
/// and 3 the refusal stands on one.
pub fn plan_named<P: Inputs, O: Sink, E: Sink>(
    alloc: Global,
    inputs: &P,
    from: &str,
    to: &str,
    form: PlanForm<'_>,
    out: &mut O,
    err: &mut E,
) -> u8
    // A script that leads from the one world to the other is written, and nothing told;
    ensures done { result ≡ 0 → (text : List ℕ) × HoldsOfNamed (LeadsAs form.entry text) (P.standard inputs.now) (P.file inputs.now) from.now to.now × Appends (O.taken out.old) (O.taken out.new) text }
    ensures quiet { result ≡ 0 → err.new ≡ err.old }

    // or none was found, which is told;
    ensures none { result ≡ 1 → (out.new ≡ out.old) × WritesUnlessFailed (E.taken err.old) (E.taken err.new) (E.failed err.old) (E.failed err.new) none_line }

    // or there is a fault, which is told.
    ensures told { (result ≡ 0) ⊎ (result ≡ 1) ⊎ ((fault : ScriptFault) × (result ≡ status_of fault)
        × WritesUnlessFailed (E.taken err.old) (E.taken err.new) (E.failed err.old) (E.failed err.new) (fault_line fault)
        × (fault ≡ faults.WriteFault → Failed (O.failed out.old) (O.failed out.new))) }
    ensures syntax { result ≡ 2 → NameNoWorlds (P.standard inputs.now) (P.file inputs.now) from.now to.now × (out.new ≡ out.old) }
    ensures front { result ≡ 3 → (out.new ≡ out.old) ⊎ ((text : List ℕ) × HoldsOfNamed (LeadsAs form.entry text) (P.standard inputs.now) (P.file inputs.now) from.now to.now × AppendsFront (O.taken out.old) (O.taken out.new) text) }

    // A file that can't be opened: nothing is done.
    ensures no_from { is_standard from.now ≡ false → P.is_missing inputs.now from.now ≡ true → (result ≡ 3) × (out.new ≡ out.old)
        × WritesUnlessFailed (E.taken err.old) (E.taken err.new) (E.failed err.old) (E.failed err.new) (fault_line faults.ReadFault) }
    ensures no_to { is_standard to.now ≡ false → P.is_missing inputs.now to.now ≡ true → (result ≡ 3) × (out.new ≡ out.old) }
{
    match write_plan(alloc, inputs, from, to, form, out) {
        Ok(true) => Status::Done.code(),
        Ok(false) => tell_none(err),
        Err(fault) => stop(fault, err),
    }
}

// Tells that no plan was found, and gives the status.
fn tell_none<E: Sink>(err: &mut E) -> u8
    ensures status { result ≡ 1 }
    ensures line { WritesUnlessFailed (E.taken err.old) (E.taken err.new) (E.failed err.old) (E.failed err.new) none_line }
{
    let _ = write_all(
        err,
        b"no script was found that turns the one world into the other\n",
    );
    NO_PLAN
}

// Writes a plan, and tells whether one was found.
fn write_plan<P: Inputs, O: Sink>(
    alloc: Global,
    inputs: &P,
    from: &str,
    to: &str,
    form: PlanForm<'_>,
    out: &mut O,
) -> Result<bool, ScriptFault>
    ensures done { IfOk result (λ found. found ≡ true → (text : List ℕ) × HoldsOfNamed (LeadsAs form.entry text) (P.standard inputs.now) (P.file inputs.now) from.now to.now × Appends (O.taken out.old) (O.taken out.new) text) }
    ensures none { IfOk result (λ found. found ≡ false → out.new ≡ out.old) }
    ensures syntax { IsErrOf result faults.Syntax → NameNoWorlds (P.standard inputs.now) (P.file inputs.now) from.now to.now }
    ensures writes { IsErrOf result faults.WriteFault → Failed (O.failed out.old) (O.failed out.new) }
    ensures kept { IfErr result (λ e. (out.new ≡ out.old) ⊎ (e ≡ faults.WriteFault)) }
    ensures front { IsErrOf result faults.WriteFault → (text : List ℕ) × HoldsOfNamed (LeadsAs form.entry text) (P.standard inputs.now) (P.file inputs.now) from.now to.now × AppendsFront (O.taken out.old) (O.taken out.new) text }
    ensures no_from { is_standard from.now ≡ false → P.is_missing inputs.now from.now ≡ true → IsErrOf result faults.ReadFault × (out.new ≡ out.old) }
    ensures no_to { is_standard to.now ≡ false → P.is_missing inputs.now to.now ≡ true → (IsErrOf result faults.ReadFault ⊎ IsErrOf result faults.Memory) × (out.new ≡ out.old) }
{
    let Some(text) = plan_of(alloc, inputs, from, to, form)? else {
        return Ok(false);
    };
    match write_all(out, text.as_slice()) {
        Ok(()) => Ok(true),
        Err(_) => Err(ScriptFault::WriteFault),
    }
}

// A plan between the worlds that the words name.
fn plan_of<P: Inputs>(
    alloc: Global,
    inputs: &P,
    from: &str,
    to: &str,
    form: PlanForm<'_>,
) -> Result<Option<Vec<u8>>, ScriptFault>
    ensures value { IfOk result (λ plan. IfSome plan (λ text. HoldsOfNamed (LeadsAs form.entry text.items) (P.standard inputs.now) (P.file inputs.now) from.now to.now)) }
    ensures syntax { IsErrOf result faults.Syntax → NameNoWorlds (P.standard inputs.now) (P.file inputs.now) from.now to.now }
    ensures writes { ¬ (IsErrOf result faults.WriteFault) }
    ensures no_from { is_standard from.now ≡ false → P.is_missing inputs.now from.now ≡ true → IsErrOf result faults.ReadFault }
    ensures no_to { is_standard to.now ≡ false → P.is_missing inputs.now to.now ≡ true → IsErrOf result faults.ReadFault ⊎ IsErrOf result faults.Memory }
{
    let (mut first, mut second) = readers(alloc, inputs, from, to)?;
    plan_in(alloc, &mut first, &mut second, form)
}

// A plan between the worlds of the two readers.
fn plan_in<S: Source>(
    alloc: Global,
    first: &mut LineReader<S>,
    second: &mut Option<LineReader<S>>,
    form: PlanForm<'_>,
) -> Result<Option<Vec<u8>>, ScriptFault>
    ensures value { IfOk result (λ plan. IfSome plan (λ text. DoneOver (HoldsWith (LeadsAs form.entry text.items)) (pending first.old) second.old)) }
    ensures syntax { IsErrOf result faults.Syntax → HaveNoWorlds (pending first.old) second.old }
    ensures writes { ¬ (IsErrOf result faults.WriteFault) }
{
    let from = read_world(alloc, first)?;
    let to = read_second(alloc, first, second)?;
    Ok(plan_as(alloc, &from, &to, form)?)
}

/// The text of a script that, run in one transaction on the one world, is accepted request by request, commits, and leaves the
/// other. It was run before it is given. `None` where none was found, and an error where there is no memory for it.
pub fn plan(alloc: Global, from: &World, to: &World) -> Result<Option<Vec<u8>>, AllocError>
    ensures { IfOk result (λ plan. IfSome plan (λ text. Leads text.items from.now to.now)) }
{
    let text = script_text(alloc, from.tree(), to.tree())?;
    if leads(alloc, text.as_slice(), from, to)? {
        Ok(Some(text))
    } else {
        Ok(None)
    }
}

/// The same, in the form that is asked for: a text for a shell does what such a script does, and JSON tells of its requests.
pub fn plan_as(
    alloc: Global,
    from: &World,
    to: &World,
    form: PlanForm<'_>,
) -> Result<Option<Vec<u8>>, AllocError>
    ensures { IfOk result (λ plan. IfSome plan (λ text. LeadsAs form.entry text.items from.now to.now)) }
{
    let Some(script) = plan(alloc, from, to)? else {
        return Ok(None);
    };
    match form {
        PlanForm::Script => Ok(Some(script)),
        PlanForm::Shell { root } => shell_text(alloc, root, script.as_slice()),
        PlanForm::Json => json_lines(alloc, script.as_slice()),
    }
}
