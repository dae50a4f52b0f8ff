//! The world of the tree at a folder that a word names.
ghost use Rattle.std.specs.Prelude.{◌≡◌, ◌⊎◌, true, is_some, IfErr, IfOk, IfSome, MatchOption};
ghost use Rattle.std.specs.Result.{IsErrOf};
ghost use Rattle.std.specs.Io.KnownBytes.{Appends};
ghost use Rattle.cg_cpus.specs.CpuList.{SpellsCpus};
ghost use Rattle.cg_lines.specs.Device.{AppendsFront, Failed};
ghost use Rattle.cg_model.specs.Sound.{Sound};
ghost use Rattle.cg_model.specs.Tree.{Tree};
ghost use Rattle.cg_world_text.specs.World.{world_text};
ghost use Rattle.cg_program.specs.Program.{status_of, fault_line, WritesUnlessFailed};
ghost use Rattle.cg_program.specs.declared.status.Status.TheVariants as statuses;
ghost use Rattle.cg_script.specs.declared.fault.ScriptFault.{ScriptFault};
ghost use Rattle.cg_script.specs.declared.fault.ScriptFault.TheVariants as faults;
ghost use Rattle.cg_import.specs.Imported.{IsWorldOf, MayLeaveOut};
ghost use Rattle.cg_import.specs.Mounted.{AreOnline, IsMountedAt, IsWhole};

use crate::folders::Folders;
use crate::left_out::LeftOut;
use crate::tree::read_tree;
use cg_cpus::CpuSet;
use cg_lines::{Sink, write_all};
use cg_name::{Path, Refusal};
use cg_program::{Status, stop};
use cg_script::ScriptFault;
use cg_world::World;
use cg_world_text::WriteWorld;
use std::alloc::Global;

// How often a tree that changed is read again.
const MOST_TRIES: u32 = 3;

// A tree that was read: the text of its world, and lines on what was left out.
#[derive(Drop)]
struct Imported {
    text: Vec<u8>,
    left_out: LeftOut,
}

/// Writes the world of the tree whose root is the folder of this name. Its CPUs are those of the list `online`, or else those that the
/// root's folder or this computer tells. What a world can't say is told in `err`, a line each, and left out. The status is 0 when the
/// world is written; 2 when `online` is no list of CPUs, or when something was left out and it is asked to be strict; and 3 when
/// memory or the sink fails, or the folder isn't one of a root. For the first of 2 and for 3 the refusal stands on a line in `err`.
pub fn import_named<P: Folders, O: Sink, E: Sink>(
    alloc: Global,
    inputs: &P,
    root: &str,
    online: Option<&str>,
    is_strict: bool,
    out: &mut O,
    err: &mut E,
) -> u8
    // The world of the folders is written, with the CPUs that are asked for, or else those that are online, and nothing is left out where
    // that isn't allowed;
    ensures done { result ≡ 0 → (T : Tree) × Sound T × MatchOption online.entry (AreOnline (P.file inputs.now) (P.is_missing inputs.now) root.now T.online) (λ list. SpellsCpus list.now T.online) × Appends (O.taken out.old) (O.taken out.new) (world_text T) × IsMountedAt (P.file inputs.now) (P.is_missing inputs.now) root.now T × (is_strict ≡ true → IsWhole (P.file inputs.now) (P.is_missing inputs.now) root.now T) }
    ensures strict { result ≡ 0 → is_strict ≡ true → err.new ≡ err.old }

    // or none;
    ensures refused { result ≡ 2 → out.new ≡ out.old }
    ensures why { result ≡ 2 → (is_strict ≡ true) ⊎ WritesUnlessFailed (E.taken err.old) (E.taken err.new) (E.failed err.old) (E.failed err.new) (fault_line faults.Syntax) }

    // or there is a fault, which is told.
    ensures ends { (result ≡ 0) ⊎ (result ≡ 2) ⊎ (result ≡ 3) }
    ensures told { result ≡ 3 → (fault : ScriptFault) × (result ≡ status_of fault)
        × WritesUnlessFailed (E.taken err.old) (E.taken err.new) (E.failed err.old) (E.failed err.new) (fault_line fault)
        × (fault ≡ faults.WriteFault → Failed (O.failed out.old) (O.failed out.new)) }
    ensures front { result ≡ 3 → (out.new ≡ out.old) ⊎ ((T : Tree) × Sound T × AppendsFront (O.taken out.old) (O.taken out.new) (world_text T)) }
{
    match write_import(alloc, inputs, root, online, is_strict, out) {
        Ok(left_out) => tell(&left_out, is_strict, err).code(),
        Err(fault) => stop(fault, err),
    }
}

// Writes the world, unless something was left out and that isn't allowed. What was left out is given.
fn write_import<P: Folders, O: Sink>(
    alloc: Global,
    inputs: &P,
    root: &str,
    online: Option<&str>,
    is_strict: bool,
    out: &mut O,
) -> Result<LeftOut, ScriptFault>
    ensures done { IfOk result (λ left_out. MayLeaveOut is_strict left_out.lines.items → (T : Tree) × Sound T × MatchOption online.entry (AreOnline (P.file inputs.now) (P.is_missing inputs.now) root.now T.online) (λ list. SpellsCpus list.now T.online) × Appends (O.taken out.old) (O.taken out.new) (world_text T) × IsMountedAt (P.file inputs.now) (P.is_missing inputs.now) root.now T × (is_strict ≡ true → IsWhole (P.file inputs.now) (P.is_missing inputs.now) root.now T)) }
    ensures refused { IfOk result (λ left_out. ¬ (MayLeaveOut is_strict left_out.lines.items) → out.new ≡ out.old) }
    ensures kept { IfErr result (λ e. (out.new ≡ out.old) ⊎ (e ≡ faults.WriteFault)) }
    ensures writes { IsErrOf result faults.WriteFault → Failed (O.failed out.old) (O.failed out.new) }
    ensures front { IsErrOf result faults.WriteFault → (T : Tree) × Sound T × AppendsFront (O.taken out.old) (O.taken out.new) (world_text T) }
{
    let online = online_of(online)?;
    let imported = read_steadily(alloc, inputs, root, &online)?;
    if is_strict && !imported.left_out.is_nothing() {
        return Ok(imported.left_out);
    }
    match write_all(out, imported.text.as_slice()) {
        Ok(()) => Ok(imported.left_out),
        Err(_) => Err(ScriptFault::WriteFault),
    }
}

// Tells what was left out, and whether that is allowed.
fn tell<E: Sink>(left_out: &LeftOut, is_strict: bool, err: &mut E) -> Status
    ensures done { result ≡ statuses.Done → MayLeaveOut is_strict left_out.now.lines.items }
    ensures refused { result ≡ statuses.Refused → (is_strict ≡ true) × ¬ (MayLeaveOut is_strict left_out.now.lines.items) }
    ensures strict { result ≡ statuses.Done → is_strict ≡ true → err.new ≡ err.old }
    ensures ends { (result ≡ statuses.Done) ⊎ (result ≡ statuses.Refused) }
{
    if left_out.is_nothing() {
        return Status::Done;
    }
    // That it can't be told is no reason to leave out the world.
    let _ = write_all(err, left_out.lines());
    if is_strict {
        Status::Refused
    } else {
        Status::Done
    }
}

// The CPUs that a list names, where one is given. It has one CPU at least.
fn online_of(list: Option<&str>) -> Result<Option<CpuSet>, ScriptFault>
    ensures value { IfOk result (λ cpus. IfSome list.entry (λ list. IfSome cpus (λ cpus. SpellsCpus list.now cpus))) }
    ensures some { IfOk result (λ cpus. is_some cpus ≡ is_some list.entry) }
    ensures fault { IfErr result (λ e. e ≡ faults.Syntax) }
{
    match list.map(CpuSet::read) {
        None => Ok(None),
        Some(Ok(cpus)) if !cpus.is_empty() => Ok(Some(cpus)),
        Some(_) => Err(ScriptFault::Syntax),
    }
}

// Reads the tree until two readings are the same, or it was read again three times.
fn read_steadily<P: Folders>(
    alloc: Global,
    inputs: &P,
    root: &str,
    online: &Option<CpuSet>,
) -> Result<Imported, ScriptFault>
    ensures world { IfOk result (λ imported. IsWorldOf (P.file inputs.now) (P.is_missing inputs.now) root.now online.now imported.text.items imported.left_out.lines.items) }
    ensures faults { IfErr result (λ e. (e ≡ faults.Memory) ⊎ (e ≡ faults.ReadFault)) }
{
    let mut last = read_once(alloc, inputs, root, online)?;
    for _try in 0..=MOST_TRIES {
        let again = read_once(alloc, inputs, root, online)?;
        let is_same = is_same(&last, &again);
        last = again;
        if is_same {
            return Ok(last);
        }
    }
    last.left_out.add(
        &Path::root(alloc),
        "changed each time that it was read: its groups may be of different moments",
    )?;
    Ok(last)
}

// Whether two readings gave the same.
fn is_same(one: &Imported, other: &Imported) -> bool {
    one.text.as_slice() == other.text.as_slice() && one.left_out.lines() == other.left_out.lines()
}

// Reads the tree once.
fn read_once<P: Folders>(
    alloc: Global,
    inputs: &P,
    root: &str,
    online: &Option<CpuSet>,
) -> Result<Imported, ScriptFault>
    ensures world { IfOk result (λ imported. IsWorldOf (P.file inputs.now) (P.is_missing inputs.now) root.now online.now imported.text.items imported.left_out.lines.items) }
    ensures faults { IfErr result (λ e. (e ≡ faults.Memory) ⊎ (e ≡ faults.ReadFault)) }
{
    let (tree, left_out) = read_tree(alloc, inputs, root, online)?;
    match tree.check_sound(alloc) {
        Ok(()) => {}
        Err(Refusal::Memory) => return Err(ScriptFault::Memory),
        Err(_) => return Err(ScriptFault::ReadFault),
    }
    let world = World::from_tree(tree);
    let mut text = Vec::new(alloc);
    world.write(&mut text)?;
    Ok(Imported { text, left_out })
}
