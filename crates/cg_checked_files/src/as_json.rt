//! What is told of a text as lines of JSON.
ghost use Rattle.std.specs.Prelude.{◌≡◌, ◌++◌, OnOk, option_copied, true};
ghost use Rattle.cg_checked_files.specs.Told.{count_value, fault_value, kind_fields, place_fields, told_lines, told_of, wrong_fields};
ghost use Rattle.cg_json.specs.Text.{fields_of, fields_text, json_line, json_text, string_or_null};

use cg_check::{Fault, Faults, Kind, Wrong};
use cg_json::{write_name, write_null, write_number, write_string};
use std::alloc::AllocError;

// Each appends to a text; after an error, where there is no memory, nothing is said of it.

/// Appends the lines that tell of a text of this name: one for each fault that is told, and one that counts all.
pub(crate) fn append_told(
    name: &str,
    kind: Kind,
    faults: &Faults<'_>,
    out: &mut Vec<u8>,
) -> Result<(), AllocError>
    ensures { OnOk result (out.new.items ≡ out.old.items ++ told_lines (told_of name.now kind faults.now)) }
{
    for fault in faults.told.as_slice() {
        append_fault(name, fault, out)?;
    }
    append_count(name, kind, faults.count, out)
}

// Appends the line of a fault.
fn append_fault(name: &str, fault: &Fault<'_>, out: &mut Vec<u8>) -> Result<(), AllocError>
    ensures { OnOk result (out.new.items ≡ out.old.items ++ json_line (fault_value name.now fault.now)) }
{
    out.push(b'{')?;
    write_name(false, "file", out)?;
    write_string(name.as_bytes(), out)?;
    append_place(fault, out)?;
    out.push(b'\n')?;
    Ok(())
}

// Appends the last fields of a fault, from its line on, and the closing brace.
fn append_place(fault: &Fault<'_>, out: &mut Vec<u8>) -> Result<(), AllocError>
    ensures { OnOk result (out.new.items ≡ out.old.items ++ fields_text true (fields_of (place_fields fault.now))) }
{
    write_name(true, "line", out)?;
    write_number(fault.line as u64, out)?;
    write_name(true, "column", out)?;
    write_number(fault.column as u64, out)?;
    append_wrong(&fault.wrong, out)
}

// The same from its word on.
fn append_wrong(wrong: &Wrong<'_>, out: &mut Vec<u8>) -> Result<(), AllocError>
    ensures { OnOk result (out.new.items ≡ out.old.items ++ fields_text true (fields_of (wrong_fields wrong.now))) }
{
    write_name(true, "word", out)?;
    append_word(wrong.word, out)?;
    write_name(true, "wrong", out)?;
    write_string(wrong.is.as_bytes(), out)?;
    write_name(true, "wanted", out)?;
    write_string(wrong.wanted.as_bytes(), out)?;
    out.push(b'}')?;
    Ok(())
}

// Appends the word of which a fault is said, where there is one.
fn append_word(word: Option<&str>, out: &mut Vec<u8>) -> Result<(), AllocError>
    ensures { OnOk result (out.new.items ≡ out.old.items ++ json_text (string_or_null (option_copied word.entry))) }
{
    match word {
        Some(word) => write_string(word.as_bytes(), out),
        None => write_null(out),
    }
}

// Appends the line that counts the faults of a text.
fn append_count(name: &str, kind: Kind, count: u64, out: &mut Vec<u8>) -> Result<(), AllocError>
    ensures { OnOk result (out.new.items ≡ out.old.items ++ json_line (count_value name.now kind count)) }
{
    out.push(b'{')?;
    write_name(false, "file", out)?;
    write_string(name.as_bytes(), out)?;
    append_kind(kind, count, out)?;
    out.push(b'\n')?;
    Ok(())
}

// Appends the last fields of a count, from the kind on, and the closing brace.
fn append_kind(kind: Kind, count: u64, out: &mut Vec<u8>) -> Result<(), AllocError>
    ensures { OnOk result (out.new.items ≡ out.old.items ++ fields_text true (fields_of (kind_fields kind count))) }
{
    write_name(true, "kind", out)?;
    write_string(kind.word().as_bytes(), out)?;
    write_name(true, "faults", out)?;
    write_number(count, out)?;
    out.push(b'}')?;
    Ok(())
}
