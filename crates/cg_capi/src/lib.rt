//! What C calls: a machine that is asked by lines and tells by texts, behind a handle that C holds. `include/cgtx.h` declares it.
#![tactic(auto)]

ghost use Rattle.std.specs.Prelude.{◌≡◌, drop, length};
ghost use Rattle.cg_capi.specs.Calls.{Closes, CopiesWord, OnHeld, OpensHeld, committed_held, holds, open_held, text_held};
ghost use Rattle.cg_line_machine.specs.Copies.{Copies};
ghost use Rattle.cg_line_machine.specs.Teller.{AbortsTold, AnswerTold, FileTold, StepsTold, TextTold};
ghost use Rattle.cg_replay.specs.Replay.{tree_now};
ghost use Rattle.cg_script.specs.HistoryText.{history_text};
ghost use Rattle.cg_world_text.specs.World.{world_text};

mod handle;
mod held;
mod loose;

use cg_line_machine::{Status, Teller, copy_text, word_of_number};
use cg_name::Refusal;
use handle::Handle;
use std::alloc::Global;

/// Opens a machine on the world that the text spells, whose history has at most `limit` slots, behind a closed handle.
#[unsafe(no_mangle)]
pub extern "C" fn cgtx_raw_open(alloc: Global, handle: &mut Handle, world: &[u8], limit: u32) -> u32
    ensures { OpensHeld (holds handle.old) (holds handle.new) world.now limit result }
{
    if handle.is_open() {
        return Status::InUse.number();
    }
    if limit < 2 || limit > 1_048_576 {
        return Status::BadLimit.number();
    }
    let teller = match Teller::open(alloc, world, limit) {
        Ok(teller) => teller,
        Err(refusal) => return Status::Refused(refusal).number(),
    };
    match Box::new(alloc, teller) {
        Ok(teller) => {
            handle.put(teller);
            Status::Done.number()
        }
        Err(_) => Status::Refused(Refusal::Memory).number(),
    }
}

/// Closes the machine behind the handle, and frees all of it.
#[unsafe(no_mangle)]
pub extern "C" fn cgtx_raw_close(alloc: Global, handle: &mut Handle) -> u32
    ensures { Closes (holds handle.old) (holds handle.new) result }
{
    match handle.take(alloc) {
        Some(_) => Status::Done.number(),
        None => Status::Closed.number(),
    }
}

/// Answers a line of a schedule, and tells the answer's line.
#[unsafe(no_mangle)]
pub extern "C" fn cgtx_raw_step(alloc: Global, handle: &mut Handle, line: &[u8]) -> u32
    ensures { OnHeld (holds handle.old) (holds handle.new) result (λ s status t. StepsTold s line.now status t) }
{
    let Some(mut teller) = handle.take(alloc) else {
        return Status::Closed.number();
    };
    let status = teller.step(alloc, line);
    handle.put(teller);
    status.number()
}

/// Aborts the open transaction with the least number, and tells the answer's line.
#[unsafe(no_mangle)]
pub extern "C" fn cgtx_raw_abort_oldest(alloc: Global, handle: &mut Handle) -> u32
    ensures { OnHeld (holds handle.old) (holds handle.new) result (λ s status t. AbortsTold s status t) }
{
    let Some(mut teller) = handle.take(alloc) else {
        return Status::Closed.number();
    };
    let status = teller.abort_oldest(alloc);
    handle.put(teller);
    status.number()
}

/// Tells the last answer again.
#[unsafe(no_mangle)]
pub extern "C" fn cgtx_raw_answer(alloc: Global, handle: &mut Handle) -> u32
    ensures { OnHeld (holds handle.old) (holds handle.new) result (λ s status t. AnswerTold s status t) }
{
    let Some(mut teller) = handle.take(alloc) else {
        return Status::Closed.number();
    };
    let status = teller.tell_answer();
    handle.put(teller);
    status.number()
}

/// Tells the tree as it stands, as the text of a world.
#[unsafe(no_mangle)]
pub extern "C" fn cgtx_raw_world(alloc: Global, handle: &mut Handle) -> u32
    ensures { OnHeld (holds handle.old) (holds handle.new) result (λ s status t. TextTold (world_text (tree_now s.machine.core)) s status t) }
{
    let Some(mut teller) = handle.take(alloc) else {
        return Status::Closed.number();
    };
    let status = teller.tell_world();
    handle.put(teller);
    status.number()
}

/// Tells the text of an interface file of a group.
#[unsafe(no_mangle)]
pub extern "C" fn cgtx_raw_file(alloc: Global, handle: &mut Handle, path: &[u8], name: &[u8]) -> u32
    ensures { OnHeld (holds handle.old) (holds handle.new) result (λ s status t. FileTold s path.now name.now status t) }
{
    let Some(mut teller) = handle.take(alloc) else {
        return Status::Closed.number();
    };
    let status = teller.tell_file(alloc, path, name);
    handle.put(teller);
    status.number()
}

/// Tells the text of the history.
#[unsafe(no_mangle)]
pub extern "C" fn cgtx_raw_history(alloc: Global, handle: &mut Handle) -> u32
    ensures { OnHeld (holds handle.old) (holds handle.new) result (λ s status t. TextTold (history_text s.machine.core.history) s status t) }
{
    let Some(mut teller) = handle.take(alloc) else {
        return Status::Closed.number();
    };
    let status = teller.tell_history();
    handle.put(teller);
    status.number()
}

/// How many bytes the text has that was told last: none behind a closed handle.
#[unsafe(no_mangle)]
pub extern "C" fn cgtx_raw_text_length(alloc: Global, handle: &mut Handle) -> usize
    ensures same { holds handle.new ≡ holds handle.old }
    ensures length { result ≡ length (text_held (holds handle.old)) }
{
    let Some(teller) = handle.take(alloc) else {
        return 0;
    };
    let length = teller.text().len();
    handle.put(teller);
    length
}

/// Copies the text that was told last, from its byte `from` on, to the front of `out`, as far as there is room, and gives how many
/// bytes these are: none behind a closed handle.
#[unsafe(no_mangle)]
pub extern "C" fn cgtx_raw_text(
    alloc: Global,
    handle: &mut Handle,
    from: usize,
    out: &mut [u8],
) -> usize
    ensures same { holds handle.new ≡ holds handle.old }
    ensures copied { Copies (drop from (text_held (holds handle.old))) out.old out.new result }
{
    let Some(teller) = handle.take(alloc) else {
        return 0;
    };
    let count = copy_text(teller.text(), from, out);
    handle.put(teller);
    count
}

/// How many transactions are open: none behind a closed handle.
#[unsafe(no_mangle)]
pub extern "C" fn cgtx_raw_open_count(alloc: Global, handle: &mut Handle) -> u32
    ensures same { holds handle.new ≡ holds handle.old }
    ensures count { result ≡ open_held (holds handle.old) }
{
    let Some(teller) = handle.take(alloc) else {
        return 0;
    };
    let count = teller.open_count();
    handle.put(teller);
    count
}

/// How many transactions committed: none behind a closed handle.
#[unsafe(no_mangle)]
pub extern "C" fn cgtx_raw_commit_count(alloc: Global, handle: &mut Handle) -> u32
    ensures same { holds handle.new ≡ holds handle.old }
    ensures count { result ≡ committed_held (holds handle.old) }
{
    let Some(teller) = handle.take(alloc) else {
        return 0;
    };
    let count = teller.commit_count();
    handle.put(teller);
    count
}

/// Copies the word of the refusals with this number to the front of `out`, as far as there is room, and gives how many bytes these
/// are: none where no refusal has it.
#[unsafe(no_mangle)]
pub extern "C" fn cgtx_raw_refusal_word(number: u32, out: &mut [u8]) -> usize
    ensures { CopiesWord number out.old out.new result }
{
    copy_text(word_of_number(number).as_bytes(), 0, out)
}
