//! The lines of a source answered one after another, and the answers written to a sink.
ghost use Rattle.std.specs.Prelude.{◌≡◌, ◌⊎◌, ◌≤◌, ◌<◌, ◌++◌, [], true, false, length, List, ℕ, IfOk, IfErr, IfSome, OnOk, OnErr};
ghost use Rattle.std.specs.Result.{IsErrOf};
ghost use Rattle.std.specs.Io.KnownBytes.{Appends};
ghost use Rattle.cg_text.specs.Words.{lines_of};
ghost use Rattle.cg_lines.specs.Device.{AppendsFront, AppendsTo, Failed};
ghost use Rattle.cg_lines.specs.Lines.{pending, bytes_to_come, CanBreak, LosesOfLine};
ghost use Rattle.cg_replay.specs.Answering.{EachAnswers, FirstAnswers, FrontAnswers, PassedAnswers};
ghost use Rattle.cg_replay.specs.Waiting.{MayWait};
ghost use Rattle.cg_script.specs.declared.fault.ScriptFault.TheVariants as faults;

use cg_lines::{LineKind, LineReader, Sink, Source, write_all};
use cg_script::ScriptFault;
use std::alloc::{AllocError, Global};

// How many bytes of answers wait at most, but for one line's, until they are written.
pub(crate) const GATHERED: usize = 65_536;

/// What answers the lines of a text, one after another.
pub trait Answerer {
    /// In the first state the line is answered so, and that leaves the second one.
    ghost answers: { Self → List ℕ → List ℕ → Self → Type 0 };

    /// Answers a line, at the end of `out`. An error, where there is no memory for it, leaves `out` as it was.
    fn answer_line(
        &mut self,
        alloc: Global,
        line: &[u8],
        out: &mut Vec<u8>,
    ) -> Result<(), AllocError>
        ensures ok { OnOk result ((written : List ℕ) × (out.new.items ≡ out.old.items ++ written) × answers self.old line.now written self.new) }
        ensures err { OnErr result (out.new.items ≡ out.old.items) };

    /// Answers a line of more than 65,536 bytes, whichever these are, at the end of `out`. An error, where there is no memory for
    /// it, leaves `out` as it was.
    fn answer_long_line(&mut self, out: &mut Vec<u8>) -> Result<(), AllocError>
        ensures ok { OnOk result ((written : List ℕ) × (out.new.items ≡ out.old.items ++ written) × ((line : List ℕ) → 65536 < length line → answers self.old line written self.new)) }
        ensures err { OnErr result (out.new.items ≡ out.old.items) };
}

/// Answers all lines of a source, one after another, and gives what of the answers still waits to be written. They are written
/// before the reader's next read of its source, and at 64 KiB at the latest. After a fault what was written is the front of what
/// would have been; after a read fault it is the answers to the lines that the reader went past.
pub fn answer_lines<S: Source, K: Sink, A: Answerer>(
    alloc: Global,
    reader: &mut LineReader<S>,
    sink: &mut K,
    answerer: &mut A,
) -> Result<Vec<u8>, ScriptFault>
    ensures answered { IfOk result (λ waiting. IfSome (pending reader.old) (λ text. (answers : List ℕ) × EachAnswers A.answers answerer.old (lines_of text) answers answerer.new
        × AppendsTo (K.taken sink.old) (K.taken sink.new) answers waiting.items)) }
    ensures front { OnErr result (IfSome (pending reader.old) (λ text. FrontAnswers A.answers answerer.old text (K.taken sink.old) (K.taken sink.new))) }
    ensures reads { IsErrOf result faults.ReadFault → CanBreak reader.new.failed_before reader.new.failures reader.new.reads }
    ensures passed { IsErrOf result faults.ReadFault → IfSome (pending reader.old) (λ text. PassedAnswers A.answers answerer.old text (pending reader.new) (K.taken sink.old) (K.taken sink.new)) }
    ensures counted { OnOk result (K.failed sink.new ≡ K.failed sink.old) }
    ensures writes { IsErrOf result faults.WriteFault → Failed (K.failed sink.old) (K.failed sink.new) }
    ensures syntax { ¬ (IsErrOf result faults.Syntax) }
{
    let mut out = Vec::new(alloc);
    'lines: while answer_next(alloc, reader, sink, answerer, &mut out)? {}
    Ok(out)
}

// Answers the next line behind what waits in `out`. False is the end of the text.
fn answer_next<S: Source, K: Sink, A: Answerer>(
    alloc: Global,
    reader: &mut LineReader<S>,
    sink: &mut K,
    answerer: &mut A,
    out: &mut Vec<u8>,
) -> Result<bool, ScriptFault>
    ensures answered { IfOk result (λ more. more ≡ true → IfSome (pending reader.old) (λ text. (answer : List ℕ) × FirstAnswers A.answers answerer.old text answer answerer.new (pending reader.new)
        × AppendsTo (K.taken sink.old) (K.taken sink.new) (out.old.items ++ answer) out.new.items)) }
    ensures ended { IfOk result (λ more. more ≡ false → IfSome (pending reader.old) (λ text. text ≡ []) × (answerer.new ≡ answerer.old) × AppendsTo (K.taken sink.old) (K.taken sink.new) out.old.items out.new.items) }
    ensures progress { IfOk result (λ more. more ≡ true → bytes_to_come reader.new < bytes_to_come reader.old) }
    ensures counted { OnOk result (K.failed sink.new ≡ K.failed sink.old) }
    ensures reads { IsErrOf result faults.ReadFault → CanBreak reader.new.failed_before reader.new.failures reader.new.reads }
    ensures loses { IsErrOf result faults.ReadFault → LosesOfLine (pending reader.old) (pending reader.new) }
    ensures sent { IsErrOf result faults.ReadFault → Appends (K.taken sink.old) (K.taken sink.new) out.old.items }
    ensures front { OnErr result (AppendsFront (K.taken sink.old) (K.taken sink.new) out.old.items) }
    ensures writes { IsErrOf result faults.WriteFault → Failed (K.failed sink.old) (K.failed sink.new) }
    ensures syntax { ¬ (IsErrOf result faults.Syntax) }
{
    send_early(reader, sink, out)?;
    match answer_read(alloc, reader, answerer, out) {
        Ok(more) => Ok(more),
        Err(fault) => {
            send(sink, out)?;
            Err(fault)
        }
    }
}

// Writes what waits where the reader has to read for its next line, and where it is much.
fn send_early<S: Source, K: Sink>(
    reader: &LineReader<S>,
    sink: &mut K,
    out: &mut Vec<u8>,
) -> Result<(), ScriptFault>
    ensures sent { OnOk result (AppendsTo (K.taken sink.old) (K.taken sink.new) out.old.items out.new.items) }
    ensures counted { OnOk result (K.failed sink.new ≡ K.failed sink.old) }
    ensures front { OnErr result (AppendsFront (K.taken sink.old) (K.taken sink.new) out.old.items) }
    ensures fault { IfErr result (λ e. e ≡ faults.WriteFault) }
    ensures failed { OnErr result (Failed (K.failed sink.old) (K.failed sink.new)) }
    ensures early { OnOk result (MayWait reader.now out.new.items) }
{
    if reader.has_line() && out.len() < GATHERED {
        return Ok(());
    }
    send(sink, out)
}

// Writes what waits, and leaves nothing to wait.
pub(crate) fn send<K: Sink>(sink: &mut K, out: &mut Vec<u8>) -> Result<(), ScriptFault>
    ensures sent { OnOk result (Appends (K.taken sink.old) (K.taken sink.new) out.old.items) }
    ensures emptied { OnOk result (out.new.items ≡ []) }
    ensures counted { OnOk result (K.failed sink.new ≡ K.failed sink.old) }
    ensures front { OnErr result (AppendsFront (K.taken sink.old) (K.taken sink.new) out.old.items) }
    ensures fault { IfErr result (λ e. e ≡ faults.WriteFault) }
    ensures failed { OnErr result (Failed (K.failed sink.old) (K.failed sink.new)) }
{
    write_all(sink, out.as_slice())?;
    out.clear();
    Ok(())
}

// Answers the next line at the end of `out`, which is empty where the reader may have to wait for that line. False is the end of
// the text. After a fault `out` is as it was.
fn answer_read<S: Source, A: Answerer>(
    alloc: Global,
    reader: &mut LineReader<S>,
    answerer: &mut A,
    out: &mut Vec<u8>,
) -> Result<bool, ScriptFault>
    requires { MayWait reader.old out.old.items }
    ensures answered { IfOk result (λ more. more ≡ true → IfSome (pending reader.old) (λ text. (answer : List ℕ) × (out.new.items ≡ out.old.items ++ answer) × FirstAnswers A.answers answerer.old text answer answerer.new (pending reader.new))) }
    ensures ended { IfOk result (λ more. more ≡ false → IfSome (pending reader.old) (λ text. text ≡ []) × (answerer.new ≡ answerer.old) × (out.new.items ≡ out.old.items)) }
    ensures unchanged { OnErr result (out.new.items ≡ out.old.items) }
    ensures progress { IfOk result (λ more. more ≡ true → bytes_to_come reader.new < bytes_to_come reader.old) }
    ensures reads { IsErrOf result faults.ReadFault → CanBreak reader.new.failed_before reader.new.failures reader.new.reads }
    ensures loses { IsErrOf result faults.ReadFault → LosesOfLine (pending reader.old) (pending reader.new) }
    ensures faults { IfErr result (λ e. (e ≡ faults.ReadFault) ⊎ (e ≡ faults.Memory)) }
{
    match reader.next_line()? {
        LineKind::End => Ok(false),
        LineKind::TooLong => {
            answerer.answer_long_line(out)?;
            Ok(true)
        }
        LineKind::Text => {
            answerer.answer_line(alloc, reader.line(), out)?;
            Ok(true)
        }
        LineKind::Last => {
            answerer.answer_line(alloc, reader.line(), out)?;
            Ok(true)
        }
    }
}
