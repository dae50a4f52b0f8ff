//! Texts that are named by words, checked and told of.
#![tactic(auto)]

mod as_json;

ghost use Rattle.std.specs.Prelude.{◌≡◌, ◌⊎◌, ◌==◌, true, false, All, IfErr, IfOk, IfSome, OnErr, OnOk, map};
ghost use Rattle.std.specs.List.{Any};
ghost use Rattle.std.specs.Io.KnownBytes.{Appends};
ghost use Rattle.std.specs.Result.{IsErrOf};
ghost use Rattle.cg_lines.specs.Device.{AppendsFront, Failed};
ghost use Rattle.cg_program.specs.Named.{named};
ghost use Rattle.cg_program.specs.Program.{status_of, fault_line, WritesUnlessFailed};
ghost use Rattle.cg_script.specs.declared.fault.ScriptFault.{ScriptFault};
ghost use Rattle.cg_script.specs.declared.fault.ScriptFault.TheVariants as faults;
ghost use Rattle.cg_checked_files.specs.Named.{IsRightNamed, IsWrongNamed};
ghost use Rattle.cg_checked_files.specs.Told.{AppendsFrontOfOne, AppendsFrontTold, AppendsOne, AppendsTold, told_lines, told_of};

use crate::as_json::append_told;
pub use cg_check::Kind;
use cg_check::{Faults, check_text};
use cg_json::Form;
use cg_lines::{Sink, read_at_most, write_all};
use cg_program::{Inputs, Status, is_standard, stop};
use cg_script::ScriptFault;
use std::alloc::{AllocError, Global};
use std::fmt::Write;

/// The most bytes of a text that is checked.
pub const LONGEST_TEXT: usize = 1_073_741_824;

/// Checks the texts that words name, one after another: `-` is standard input, and any other word the file of this name, as it
/// stands. Each is read as of `kind`, or where none is given as of the kind that its lines tell. The faults of each text, at most 20,
/// go to `out` in the form that is asked for, a line each, and behind them a line that counts them. The status is 0 where no text has
/// a fault, 2 where one has, and 3 when memory, a source or the sink fails: then the refusal stands on a line in `err`, and the texts
/// behind aren't checked. A text of more than 1,073,741,824 bytes is one for which there is no memory.
pub fn check_named<P: Inputs, O: Sink, E: Sink>(
    alloc: Global,
    inputs: &P,
    kind: Option<Kind>,
    names: &[&str],
    form: Form,
    out: &mut O,
    err: &mut E,
) -> u8
    ensures right { result ≡ 0 → All (λ w. IsRightNamed (P.standard inputs.now) (P.file inputs.now) kind w.now) names.now }
    ensures wrong { result ≡ 2 → Any (λ w. IsWrongNamed (P.standard inputs.now) (P.file inputs.now) kind w.now) names.now }

    // As JSON, a value stands on each line: of each text in its turn the faults that are told, and how many there are; after a fault a front.
    ensures json { form ≡ Form.Json → (result ≡ 0) ⊎ (result ≡ 2) → AppendsTold (P.standard inputs.now) (P.file inputs.now) kind (map (λ w. w.now) names.now) (result == 0) (O.taken out.old) (O.taken out.new) }
    ensures front { form ≡ Form.Json → result ≡ 3 → AppendsFrontTold (P.standard inputs.now) (P.file inputs.now) kind (map (λ w. w.now) names.now) (O.taken out.old) (O.taken out.new) }

    // Nothing is told of faults of texts beside `out`; any other is told, and has its cause.
    ensures told { (((result ≡ 0) ⊎ (result ≡ 2)) × (err.new ≡ err.old)) ⊎ ((fault : ScriptFault) × (result ≡ 3) × (result ≡ status_of fault)
        × WritesUnlessFailed (E.taken err.old) (E.taken err.new) (E.failed err.old) (E.failed err.new) (fault_line fault)
        × (fault ≡ faults.WriteFault → Failed (O.failed out.old) (O.failed out.new))) }
{
    match check_all(alloc, inputs, kind, names, form, out) {
        Ok(true) => Status::Done.code(),
        Ok(false) => Status::Refused.code(),
        Err(fault) => stop(fault, err),
    }
}

// Whether the texts that the words name are right. Their faults are told.
fn check_all<P: Inputs, O: Sink>(
    alloc: Global,
    inputs: &P,
    kind: Option<Kind>,
    names: &[&str],
    form: Form,
    out: &mut O,
) -> Result<bool, ScriptFault>
    ensures right { IfOk result (λ right. right ≡ true → All (λ w. IsRightNamed (P.standard inputs.now) (P.file inputs.now) kind w.now) names.now) }
    ensures wrong { IfOk result (λ right. right ≡ false → Any (λ w. IsWrongNamed (P.standard inputs.now) (P.file inputs.now) kind w.now) names.now) }
    ensures json { form ≡ Form.Json → IfOk result (λ right. AppendsTold (P.standard inputs.now) (P.file inputs.now) kind (map (λ w. w.now) names.now) right (O.taken out.old) (O.taken out.new)) }
    ensures front { form ≡ Form.Json → OnErr result (AppendsFrontTold (P.standard inputs.now) (P.file inputs.now) kind (map (λ w. w.now) names.now) (O.taken out.old) (O.taken out.new)) }
    ensures syntax { ¬ (IsErrOf result faults.Syntax) }
    ensures writes { IsErrOf result faults.WriteFault → Failed (O.failed out.old) (O.failed out.new) }
{
    let mut are_right = true;
    for name in names {
        if !check_one(alloc, inputs, kind, name, form, out)? {
            are_right = false;
        }
    }
    Ok(are_right)
}

// Whether the text that the word names is right. Its faults are told.
fn check_one<P: Inputs, O: Sink>(
    alloc: Global,
    inputs: &P,
    kind: Option<Kind>,
    name: &str,
    form: Form,
    out: &mut O,
) -> Result<bool, ScriptFault>
    ensures right { IfOk result (λ right. right ≡ true → IsRightNamed (P.standard inputs.now) (P.file inputs.now) kind name.now) }
    ensures wrong { IfOk result (λ right. right ≡ false → IsWrongNamed (P.standard inputs.now) (P.file inputs.now) kind name.now) }
    ensures json { form ≡ Form.Json → IfOk result (λ right. AppendsOne (P.standard inputs.now) (P.file inputs.now) kind name.now right (O.taken out.old) (O.taken out.new)) }
    ensures front { form ≡ Form.Json → OnErr result (AppendsFrontOfOne (P.standard inputs.now) (P.file inputs.now) kind name.now (O.taken out.old) (O.taken out.new)) }
    ensures syntax { ¬ (IsErrOf result faults.Syntax) }
    ensures counted { OnOk result (O.failed out.new ≡ O.failed out.old) }
    ensures writes { IsErrOf result faults.WriteFault → Failed (O.failed out.old) (O.failed out.new) }
{
    let text = read_named(alloc, inputs, name)?;
    let kind = kind_of(alloc, kind, text.as_slice())?;
    let faults = check_text(alloc, kind, text.as_slice())?;
    tell(alloc, name, kind, &faults, form, out)?;
    Ok(faults.count == 0)
}

// Tells of a text in the form that is asked for.
fn tell<O: Sink>(
    alloc: Global,
    name: &str,
    kind: Kind,
    found: &Faults<'_>,
    form: Form,
    out: &mut O,
) -> Result<(), ScriptFault>
    ensures json { form ≡ Form.Json → OnOk result (Appends (O.taken out.old) (O.taken out.new) (told_lines (told_of name.now kind found.now))) }
    ensures front { form ≡ Form.Json → OnErr result ((O.taken out.new ≡ O.taken out.old) ⊎ AppendsFront (O.taken out.old) (O.taken out.new) (told_lines (told_of name.now kind found.now))) }
    ensures syntax { ¬ (IsErrOf result faults.Syntax) }
    ensures counted { OnOk result (O.failed out.new ≡ O.failed out.old) }
    ensures writes { IsErrOf result faults.WriteFault → Failed (O.failed out.old) (O.failed out.new) }
{
    match form {
        Form::Plain => {
            let told = plain_text(alloc, name, kind, found)?;
            write_all(out, told.as_bytes())?;
        }
        Form::Json => {
            let mut told = Vec::new(alloc);
            append_told(name, kind, found, &mut told)?;
            write_all(out, told.as_slice())?;
        }
    }
    Ok(())
}

// The kind that is asked for, or else the one that the text's lines tell.
fn kind_of(alloc: Global, asked: Option<Kind>, text: &[u8]) -> Result<Kind, AllocError>
    ensures { IfOk result (λ kind. IfSome asked (λ asked. asked ≡ kind)) }
{
    match asked {
        Some(kind) => Ok(kind),
        None => Kind::of_text(alloc, text),
    }
}

// The text that the word names.
fn read_named<P: Inputs>(alloc: Global, inputs: &P, name: &str) -> Result<Vec<u8>, ScriptFault>
    ensures text { IfOk result (λ text. IfSome (named (P.standard inputs.now) (P.file inputs.now) name.now) (λ known. text.items ≡ known)) }
    ensures faults { IfErr result (λ e. (e ≡ faults.ReadFault) ⊎ (e ≡ faults.Memory)) }
{
    let mut source = if is_standard(name) {
        inputs.open_standard()
    } else {
        inputs.open_file(name)?
    };
    match read_at_most(alloc, &mut source, LONGEST_TEXT)? {
        Some(text) => Ok(text),
        None => Err(ScriptFault::Memory),
    }
}

// What is told of a text in plain lines: one for each fault, and how many there are.
fn plain_text(
    alloc: Global,
    name: &str,
    kind: Kind,
    faults: &Faults<'_>,
) -> Result<String, AllocError> {
    let mut told = String::new(alloc);
    for fault in faults.told.as_slice() {
        let line = fault.line;
        let column = fault.column;
        let wrong = fault.wrong;
        write!(told, "{name}:{line}:{column}: {wrong}\n")?;
    }
    let count = faults.count;
    match count {
        0 => write!(told, "{name}: a {kind} without a fault\n")?,
        1 => write!(told, "{name}: a {kind} with 1 fault\n")?,
        _ if count <= 20 => write!(told, "{name}: a {kind} with {count} faults\n")?,
        _ => write!(
            told,
            "{name}: a {kind} with {count} faults, of which the first 20 are told\n"
        )?,
    }
    Ok(told)
}
