//! A tree's text written as its lines are made, behind what waits.
ghost use Rattle.std.specs.Prelude.{◌≡◌, ◌⊎◌, ◌<◌, ◌++◌, [], false, true, length, IfOk, IfErr, OnOk, OnErr};
ghost use Rattle.std.specs.Result.{IsErrOf};
ghost use Rattle.std.specs.Io.KnownBytes.{Appends};
ghost use Rattle.cg_lines.specs.Device.{AppendsFront, AppendsTo, Failed};
ghost use Rattle.cg_world_text.specs.World.{world_text};
ghost use Rattle.cg_script.specs.declared.fault.ScriptFault.TheVariants as faults;

use crate::answering::{GATHERED, send};
use cg_lines::Sink;
use cg_script::ScriptFault;
use cg_tree::Tree;
use cg_world_text::TreeLines;
use std::alloc::{AllocError, Global};

// Writes what waits, and then the tree's text, of which never much more than 64 KiB wait.
pub(crate) fn write_tree<K: Sink>(
    alloc: Global,
    tree: &Tree,
    sink: &mut K,
    out: &mut Vec<u8>,
) -> Result<(), ScriptFault>
    ensures whole { OnOk result (Appends (K.taken sink.old) (K.taken sink.new) (out.old.items ++ world_text tree.now.tree)) }
    ensures front { OnErr result (AppendsFront (K.taken sink.old) (K.taken sink.new) (out.old.items ++ world_text tree.now.tree)) }
    ensures writes { IsErrOf result faults.WriteFault → Failed (K.failed sink.old) (K.failed sink.new) }
    ensures faults { IfErr result (λ e. (e ≡ faults.WriteFault) ⊎ (e ≡ faults.Memory)) }
{
    match TreeLines::new(alloc, tree) {
        Ok(mut lines) => write_lines(&mut lines, sink, out),
        Err(AllocError) => Err(send_last(sink, out)),
    }
}

// Writes what waits, and then the lines that are to come.
fn write_lines<K: Sink>(
    lines: &mut TreeLines<'_>,
    sink: &mut K,
    out: &mut Vec<u8>,
) -> Result<(), ScriptFault>
    ensures whole { OnOk result (Appends (K.taken sink.old) (K.taken sink.new) (out.old.items ++ lines.old)) }
    ensures front { OnErr result (AppendsFront (K.taken sink.old) (K.taken sink.new) (out.old.items ++ lines.old)) }
    ensures writes { IsErrOf result faults.WriteFault → Failed (K.failed sink.old) (K.failed sink.new) }
    ensures faults { IfErr result (λ e. (e ≡ faults.WriteFault) ⊎ (e ≡ faults.Memory)) }
{
    'lines: while gather_next(lines, sink, out)? {}
    send(sink, out)
}

// Has the next line wait too, behind what waits, which is written first where it is much. False where none is to come.
fn gather_next<K: Sink>(
    lines: &mut TreeLines<'_>,
    sink: &mut K,
    out: &mut Vec<u8>,
) -> Result<bool, ScriptFault>
    ensures gathered { OnOk result (AppendsTo (K.taken sink.old) (K.taken sink.new) (out.old.items ++ lines.old) (out.new.items ++ lines.new)) }
    ensures none { IfOk result (λ more. more ≡ false → lines.new ≡ []) }
    ensures fewer { IfOk result (λ more. more ≡ true → length lines.new < length lines.old) }
    ensures counted { OnOk result (K.failed sink.new ≡ K.failed sink.old) }
    ensures front { OnErr result (AppendsFront (K.taken sink.old) (K.taken sink.new) out.old.items) }
    ensures writes { IsErrOf result faults.WriteFault → Failed (K.failed sink.old) (K.failed sink.new) }
    ensures faults { IfErr result (λ e. (e ≡ faults.WriteFault) ⊎ (e ≡ faults.Memory)) }
{
    send_much(sink, out)?;
    match lines.append_next(out) {
        Ok(more) => Ok(more),
        Err(AllocError) => Err(send_last(sink, out)),
    }
}

// Writes what waits, where it is much.
fn send_much<K: Sink>(sink: &mut K, out: &mut Vec<u8>) -> Result<(), ScriptFault>
    ensures sent { OnOk result (AppendsTo (K.taken sink.old) (K.taken sink.new) out.old.items out.new.items) }
    ensures few { OnOk result (length out.new.items < 65536) }
    ensures counted { OnOk result (K.failed sink.new ≡ K.failed sink.old) }
    ensures front { OnErr result (AppendsFront (K.taken sink.old) (K.taken sink.new) out.old.items) }
    ensures fault { IfErr result (λ e. e ≡ faults.WriteFault) }
    ensures failed { OnErr result (Failed (K.failed sink.old) (K.failed sink.new)) }
{
    if out.len() < GATHERED {
        return Ok(());
    }
    send(sink, out)
}

// Writes what waits, where there is no memory for more: the fault that is left.
pub(crate) fn send_last<K: Sink>(sink: &mut K, out: &mut Vec<u8>) -> ScriptFault
    ensures front { AppendsFront (K.taken sink.old) (K.taken sink.new) out.old.items }
    ensures writes { result ≡ faults.WriteFault → Failed (K.failed sink.old) (K.failed sink.new) }
    ensures faults { (result ≡ faults.WriteFault) ⊎ (result ≡ faults.Memory) }
{
    match send(sink, out) {
        Ok(()) => ScriptFault::Memory,
        Err(fault) => fault,
    }
}
