//! Scripts as lines of JSON.
ghost use Rattle.std.specs.Prelude.{◌≡◌, ◌++◌, true, IfOk, IfSome, OnOk};
ghost use Rattle.cg_command.specs.Meaning.{command_of};
ghost use Rattle.cg_json.specs.Text.{fields_of, fields_text, json_line};
ghost use Rattle.cg_plan.specs.PlanValue.{command_value, request_fields, IsInJson};

use crate::reading::requests_of;
use cg_command::Command;
use cg_command_text::write_command;
use cg_core::Request;
use cg_json::{write_name, write_number, write_string};
use std::alloc::{AllocError, Global};

/// The lines of JSON that tell of a script: an object for each of its requests, with the number of its line, from 1 on, and its words.
/// `None` where the script has a request that is no command, or aborts.
pub(crate) fn json_lines(alloc: Global, script: &[u8]) -> Result<Option<Vec<u8>>, AllocError>
    ensures { IfOk result (λ told. IfSome told (λ text. IsInJson script.now text.items)) }
{
    let Some(requests) = requests_of(alloc, script)? else {
        return Ok(None);
    };
    let mut text = Vec::new(alloc);
    for (index, request) in requests.iter().enumerate() {
        let Request::Do(command) = request else {
            return Ok(None);
        };
        append_command(index as u64 + 1, command, &mut text)?;
    }
    Ok(Some(text))
}

// What follows appends to a text; after an error, where there is no memory, nothing is said of it.

// The line that tells of a command, with the number of its line in the script.
fn append_command(line: u64, command: &Command, out: &mut Vec<u8>) -> Result<(), AllocError>
    ensures { OnOk result (out.new.items ≡ out.old.items ++ json_line (command_value line (command_of command.now))) }
{
    out.push(b'{')?;
    write_name(false, "line", out)?;
    write_number(line, out)?;
    append_request(command, out)?;
    out.push(b'\n')?;
    Ok(())
}

// The last field, with the words of the command, and the closing brace.
fn append_request(command: &Command, out: &mut Vec<u8>) -> Result<(), AllocError>
    ensures { OnOk result (out.new.items ≡ out.old.items ++ fields_text true (fields_of (request_fields (command_of command.now)))) }
{
    let mut words = Vec::new(*out.allocator());
    write_command(command, &mut words)?;
    write_name(true, "request", out)?;
    write_string(words.as_slice(), out)?;
    out.push(b'}')?;
    Ok(())
}
