//! The parts of a JSON text.
ghost use Rattle.std.specs.Prelude.{◌≡◌, ◌<◌, ◌++◌, OnOk, option_copied};
ghost use Rattle.std.specs.Char.{digit_char};
ghost use Rattle.json.specs.Print.{escape, escape_byte, escape_letter};
ghost use Rattle.cg_json.specs.Text.{comma_behind, flag, flag_or_null, json_text, name_text, null, number, number_or_null, string_text, string, string_or_null};

use itoa::Buffer;
use std::alloc::AllocError;

// Each appends to a text; after an error, where there is no memory, nothing is said of it.

/// Appends the name of a field and a colon, with a comma before them where the field stands behind another one.
#[tactic(auto, unfolding(crate::specs::Text::name_text))]
pub fn write_name(is_behind: bool, name: &str, out: &mut Vec<u8>) -> Result<(), AllocError>
    ensures { OnOk result (out.new.items ≡ out.old.items ++ name_text is_behind name.now) }
{
    write_comma(is_behind, out)?;
    append_quoted(name.as_bytes(), out)?;
    out.push(b':')?;
    Ok(())
}

/// Appends a comma where an item of an array, or a field, stands behind another one.
pub fn write_comma(is_behind: bool, out: &mut Vec<u8>) -> Result<(), AllocError>
    ensures { OnOk result (out.new.items ≡ out.old.items ++ comma_behind is_behind) }
{
    if is_behind {
        out.push(b',')?;
    }
    Ok(())
}

/// Appends a string, whichever bytes it has.
pub fn write_string(text: &[u8], out: &mut Vec<u8>) -> Result<(), AllocError>
    ensures { OnOk result (out.new.items ≡ out.old.items ++ json_text (string text.now)) }
{
    append_quoted(text, out)
}

/// Appends a string, or `null` where there is none.
pub fn write_string_or_null(text: Option<&[u8]>, out: &mut Vec<u8>) -> Result<(), AllocError>
    ensures { OnOk result (out.new.items ≡ out.old.items ++ json_text (string_or_null (option_copied text.entry))) }
{
    match text {
        Some(text) => write_string(text, out),
        None => write_null(out),
    }
}

/// Appends a number in decimal digits.
pub fn write_number(value: u64, out: &mut Vec<u8>) -> Result<(), AllocError>
    ensures { OnOk result (out.new.items ≡ out.old.items ++ json_text (number value)) }
{
    let mut buffer = Buffer::new();
    out.extend_from_slice(buffer.format(value).as_bytes())?;
    Ok(())
}

/// Appends a number, or `null` where there is none.
pub fn write_number_or_null(value: Option<u64>, out: &mut Vec<u8>) -> Result<(), AllocError>
    ensures { OnOk result (out.new.items ≡ out.old.items ++ json_text (number_or_null value)) }
{
    match value {
        Some(value) => write_number(value, out),
        None => write_null(out),
    }
}

/// Appends `true` or `false`.
pub fn write_flag(value: bool, out: &mut Vec<u8>) -> Result<(), AllocError>
    ensures { OnOk result (out.new.items ≡ out.old.items ++ json_text (flag value)) }
{
    out.extend_from_slice(if value { b"true" } else { b"false" })?;
    Ok(())
}

/// Appends `true` or `false`, or `null` where there is neither.
pub fn write_flag_or_null(value: Option<bool>, out: &mut Vec<u8>) -> Result<(), AllocError>
    ensures { OnOk result (out.new.items ≡ out.old.items ++ json_text (flag_or_null value)) }
{
    match value {
        Some(value) => write_flag(value, out),
        None => write_null(out),
    }
}

/// Appends `null`.
pub fn write_null(out: &mut Vec<u8>) -> Result<(), AllocError>
    ensures { OnOk result (out.new.items ≡ out.old.items ++ json_text null) }
{
    out.extend_from_slice(b"null")?;
    Ok(())
}

// Appends a text between quotation marks.
#[tactic(auto, unfolding(crate::specs::Text::string_text))]
fn append_quoted(text: &[u8], out: &mut Vec<u8>) -> Result<(), AllocError>
    ensures { OnOk result (out.new.items ≡ out.old.items ++ string_text text.now) }
{
    out.push(b'"')?;
    append_escaped(text, out)?;
    out.push(b'"')?;
    Ok(())
}

// Appends what stands for a text between quotation marks.
fn append_escaped(text: &[u8], out: &mut Vec<u8>) -> Result<(), AllocError>
    ensures { OnOk result (out.new.items ≡ out.old.items ++ escape text.now) }
{
    for byte in text {
        append_byte(*byte, out)?;
    }
    Ok(())
}

// The same of a byte.
#[tactic(auto, unfolding(json::specs::Print::escape_byte))]
fn append_byte(byte: u8, out: &mut Vec<u8>) -> Result<(), AllocError>
    ensures { OnOk result (out.new.items ≡ out.old.items ++ escape_byte byte) }
{
    let letter = escape_letter(byte);
    if letter > 0 {
        out.extend_from_slice(&[b'\\', letter])?;
    } else if byte < 32 {
        out.extend_from_slice(b"\\u00")?;
        out.extend_from_slice(&[hex_digit(byte / 16), hex_digit(byte % 16)])?;
    } else {
        out.push(byte)?;
    }
    Ok(())
}

// The letter of the byte's short escape, or 0 where it has none.
fn escape_letter(byte: u8) -> u8
    ensures { result ≡ escape_letter byte }
{
    match byte {
        b'"' | b'\\' => byte,
        8 => b'b',
        12 => b'f',
        b'\n' => b'n',
        b'\r' => b'r',
        b'\t' => b't',
        _ => 0,
    }
}

// A hexadecimal digit.
fn hex_digit(digit: u8) -> u8
    requires { digit < 16 }
    ensures { result ≡ digit_char digit }
{
    if digit < 10 {
        b'0' + digit
    } else {
        b'a' - 10 + digit
    }
}
