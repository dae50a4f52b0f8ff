//! The lines of a schedule.
ghost use Rattle.std.specs.Prelude.{◌≡◌, ◌++◌, IfOk, IfErr, OnOk, OnErr, Some, map, take, length, Option, List, ℕ};
ghost use Rattle.std.specs.Option.{option_map};
ghost use Rattle.std.specs.Result.{IsErrOf};
ghost use Rattle.cg_name.specs.Refusal.{IsSyntaxOrMemory};
ghost use Rattle.cg_name.specs.SaveName.{IsSaveName};
ghost use Rattle.cg_history.specs.Meaning.{request_of};
ghost use Rattle.cg_model.specs.Cgroups.{cgroups};
ghost use Rattle.cg_model.specs.History as model;
ghost use Rattle.cg_script.specs.Request.{CanBeAsked, SpellsCall, SpellsLine, SpellsRequest, request_line, request_text, OneCall, WrittenLinesAreSpelled};

use crate::session::SessionName;
use cg_command_text::{commands_can_be_asked_for, is_keyword, read_command, write_command};
use cg_history::Request;
use cg_name::{Refusal, SaveName, or_truncate};
use cg_text::{LineWords, read_words};
use std::alloc::{AllocError, Global};

/// Which session asks for what by this line: `None` where the line is blank or a comment. `Syntax` where it
/// isn't a line of the grammar, too long, or not UTF-8.
#[inline(always)]
pub fn read_line(alloc: Global, line: &[u8]) -> Result<Option<(SessionName, Request)>, Refusal>
    ensures value { IfOk result (λ call. SpellsLine line.now (option_map (λ c. (c.0, request_of c.1)) call)) }
    ensures syntax { IsErrOf result Refusal.Syntax → (call : Option (List ℕ × model.Request cgroups)) → SpellsLine line.now call → ⊥ }
    ensures refusals { IfErr result IsSyntaxOrMemory }
{
    let mut words = LineWords::new(alloc);
    if !read_words(line, &mut words)? {
        return Ok(None);
    }
    Ok(Some(read_call(alloc, words.as_slice())?))
}

// The session and the request that the words of a line spell.
#[inline(always)]
fn read_call(alloc: Global, words: &[&str]) -> Result<(SessionName, Request), Refusal>
    ensures value { IfOk result (λ c. SpellsCall (map (λ w. w.now) words.now) c.0 (request_of c.1)) }
    ensures syntax { IsErrOf result Refusal.Syntax → (n : List ℕ) (r : model.Request cgroups) → SpellsCall (map (λ w. w.now) words.now) n r → ⊥ }
    ensures refusals { IfErr result IsSyntaxOrMemory }
{
    let [name, others @ ..] = words else {
        return Err(Refusal::Syntax);
    };
    let name = SessionName::read(name)?;
    let request = read_request(alloc, others)?;
    Ok((name, request))
}

/// The request that the words behind a session's name spell; `Syntax` where they spell none.
#[inline(never)]
pub fn read_request(alloc: Global, words: &[&str]) -> Result<Request, Refusal>
    ensures value { IfOk result (λ r. SpellsRequest (map (λ w. w.now) words.now) (request_of r)) }
    ensures syntax { IsErrOf result Refusal.Syntax → (r : model.Request cgroups) → SpellsRequest (map (λ w. w.now) words.now) r → ⊥ }
    ensures refusals { IfErr result IsSyntaxOrMemory }
{
    let [keyword, others @ ..] = words else {
        return Err(Refusal::Syntax);
    };
    match others {
        [] if is_keyword(keyword, "begin") => Ok(Request::Begin),
        [] if is_keyword(keyword, "undo") => Ok(Request::Undo),
        [] if is_keyword(keyword, "commit") => Ok(Request::Commit),
        [] if is_keyword(keyword, "abort") => Ok(Request::Abort),
        [name] if is_keyword(keyword, "save") => Ok(Request::Save(SaveName::read(name)?)),
        [name] if is_keyword(keyword, "back") => Ok(Request::Back(SaveName::read(name)?)),
        _ => Ok(Request::Do(read_command(alloc, words)?)),
    }
}

/// Appends the line in which a session asks, without a newline: its words with single spaces. The line says that this session
/// asks this. An error, where there is no memory, leaves `out` as it was.
pub fn write_line(name: SessionName, request: &Request, out: &mut Vec<u8>) -> Result<(), AllocError>
    ensures ok { OnOk result (out.new.items ≡ out.old.items ++ request_line name (request_of request.now)) }
    ensures spelled { SpellsLine (request_line name (request_of request.now)) (Some (name, request_of request.now)) }
    ensures err { OnErr result (out.new.items ≡ out.old.items) }
{
    requests_can_be_asked_for(request);
    written_lines_are_spelled();
    tell_name(name);
    let start = out.len();
    let written = append_line(name, request, out);
    or_truncate(written, start, out)
}

/// Every request that code holds can be asked for: a savepoint has a name of 1 to 16 bytes, and of a command this says
/// `commands_can_be_asked_for`.
pub fn requests_can_be_asked_for(request: &Request)
    ensures { CanBeAsked (request_of request.now) }
{
    match request {
        Request::Do(command) => commands_can_be_asked_for(command),
        Request::Save(name) => tell_save_name(name),
        Request::Back(name) => tell_save_name(name),
        Request::Begin | Request::Undo | Request::Commit | Request::Abort => {}
    }
}

// A name tells what it is made of when its bytes are asked for.
fn tell_save_name(name: &SaveName)
    ensures { IsSaveName name.now }
{
    let _ = name.as_bytes();
}

// The same of a session's name.
fn tell_name(name: SessionName)
    ensures { IsSaveName name }
{
    let _ = name.as_bytes();
}

/// A line says nothing, or one session's request: never both, and never two.
pub fn a_line_says_one_thing_at_most()
    ensures { OneCall }
{}

/// The law of written lines: each spells what it was written for.
pub fn written_lines_are_spelled()
    ensures { WrittenLinesAreSpelled }
{}

// What follows appends to `out`, and an error leaves what stood there at the front.

// The line in which a session asks.
fn append_line(name: SessionName, request: &Request, out: &mut Vec<u8>) -> Result<(), AllocError>
    ensures ok { OnOk result (out.new.items ≡ out.old.items ++ request_line name (request_of request.now)) }
    ensures kept { OnErr result (take (length out.old.items) out.new.items ≡ out.old.items) }
{
    out.extend_from_slice(name.as_bytes())?;
    out.push(b' ')?;
    append_request(request, out)
}

// The words behind the session's name.
pub(crate) fn append_request(request: &Request, out: &mut Vec<u8>) -> Result<(), AllocError>
    ensures ok { OnOk result (out.new.items ≡ out.old.items ++ request_text (request_of request.now)) }
    ensures kept { OnErr result (take (length out.old.items) out.new.items ≡ out.old.items) }
{
    match request {
        Request::Begin => out.extend_from_slice(b"begin")?,
        Request::Save(name) => append_named("save ", name, out)?,
        Request::Back(name) => append_named("back ", name, out)?,
        Request::Undo => out.extend_from_slice(b"undo")?,
        Request::Commit => out.extend_from_slice(b"commit")?,
        Request::Abort => out.extend_from_slice(b"abort")?,
        Request::Do(command) => write_command(command, out)?,
    }
    Ok(())
}

// A word and a savepoint's name.
fn append_named(word: &str, name: &SaveName, out: &mut Vec<u8>) -> Result<(), AllocError>
    ensures ok { OnOk result (out.new.items ≡ out.old.items ++ (word.now ++ name.now)) }
    ensures kept { OnErr result (take (length out.old.items) out.new.items ≡ out.old.items) }
{
    out.extend_from_slice(word.as_bytes())?;
    out.extend_from_slice(name.as_bytes())?;
    Ok(())
}
