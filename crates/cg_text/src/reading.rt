//! What is written to interface files: the values that texts spell. What may be written is the kernel's cgroup-v2
//! page's, "Core Interface Files". Spaces, tabs and newlines at both ends of a text don't count, as the kernel strips
//! what it is written before it reads a number or a word.
ghost use Rattle.std.specs.Prelude.{◌≡◌, ◌∷◌, [], IfOk, IfErr, OnOk, OnErr, ℕ, Bool, List, filter};
ghost use Rattle.std.specs.Result.{IsErrOf};
ghost use Rattle.cg_name.specs.Controller.{controller_word};
ghost use Rattle.cg_name.specs.declared.controller.Controller as controller;
ghost use Rattle.cg_name.specs.declared.refusal.Refusal.TheVariants.{Syntax};
ghost use Rattle.cg_text.specs.Reading.{sign_byte, SpellsFlag, SpellsLimit, SpellsOps, SpellsOpsAfter, SpellsPid};
ghost use Rattle.cg_text.specs.Words.{is_filled, Word};
ghost use Rattle.cg_text.specs.declared.control_ops.ControlOps as control_ops;
ghost use Rattle.cg_text.specs.declared.limit.Limit as limit;

use crate::control_ops::ControlOps;
use crate::limit::Limit;
use cg_digits::{is_white_space, read_digits, trim};
use cg_name::{Controller, Refusal};

/// The greatest PID: the kernel's limit is 4,194,304, which no PID reaches.
pub const LAST_PID: u32 = 4_194_303;

// The number that stands for no limit: the greatest that the kernel's `int` holds.
const NO_LIMIT: u32 = 2_147_483_647;

/// What is written to `cgroup.freeze`: `0` or `1`, with white space around it; `Syntax` where the text is neither.
pub fn read_flag(text: &str) -> Result<bool, Refusal>
    ensures value { IfOk result (λ flag. SpellsFlag text.now flag) }
    ensures syntax { IsErrOf result Syntax → (flag : Bool) → ¬ SpellsFlag text.now flag }
    ensures refusals { IfErr result (λ e. e ≡ Syntax) }
{
    match trim(text) {
        "0" => Ok(false),
        "1" => Ok(true),
        _ => Err(Refusal::Syntax),
    }
}

/// What is written to `cgroup.procs`: a PID from 1 to 4,194,303 in decimal digits alone, leading zeros allowed,
/// with white space around it; `Syntax` where the text spells none.
pub fn read_pid(text: &str) -> Result<u32, Refusal>
    ensures value { IfOk result (λ pid. SpellsPid text.now pid) }
    ensures syntax { IsErrOf result Syntax → (pid : ℕ) → ¬ SpellsPid text.now pid }
    ensures refusals { IfErr result (λ e. e ≡ Syntax) }
{
    match read_digits(trim(text)) {
        Ok(pid) if 1 <= pid && pid <= LAST_PID => Ok(pid),
        _ => Err(Refusal::Syntax),
    }
}

/// What is written to `cgroup.max.descendants` and `cgroup.max.depth`: `max`, or a number up to 2,147,483,647 in
/// decimal digits alone, leading zeros allowed, with white space around it; `Syntax` where the text spells none. The
/// greatest number is no limit, since the kernel keeps `max` as that number.
pub fn read_limit(text: &str) -> Result<Limit, Refusal>
    ensures value { IfOk result (λ limit. SpellsLimit text.now limit) }
    ensures syntax { IsErrOf result Syntax → (limit : limit.Limit) → ¬ SpellsLimit text.now limit }
    ensures refusals { IfErr result (λ e. e ≡ Syntax) }
{
    let word = trim(text);
    if word == "max" {
        return Ok(Limit::Max);
    }
    match read_digits(word) {
        Ok(number) if number <= Limit::LAST => Ok(Limit::up_to(number)),
        Ok(number) if number == NO_LIMIT => Ok(Limit::Max),
        _ => Err(Refusal::Syntax),
    }
}

/// What is written to `cgroup.subtree_control`: words that white space separates, each a `+` or a `-` and the name of a
/// controller, possibly none; `Syntax` where a word is something else. Where several name one controller, the last
/// counts, so no controller is both enabled and disabled.
pub fn read_ops(text: &str) -> Result<ControlOps, Refusal>
    ensures value { IfOk result (λ ops. SpellsOps text.now ops) }
    ensures syntax { IsErrOf result Syntax → (ops : control_ops.ControlOps) → ¬ SpellsOps text.now ops }
    ensures refusals { IfErr result (λ e. e ≡ Syntax) }
{
    let mut ops = ControlOps::none();
    for word in text.as_bytes().split(|byte| is_white_space(*byte)) {
        add_word(&mut ops, word)?;
    }
    Ok(ops)
}

// Adds what stands between white space: an operation, or nothing.
fn add_word(ops: &mut ControlOps, word: &[u8]) -> Result<(), Refusal>
    ensures value { OnOk result (SpellsOpsAfter ops.old (filter is_filled (word.now ∷ [])) ops.new) }
    ensures syntax { OnErr result ((words : List Word) (all : control_ops.ControlOps) → ¬ SpellsOpsAfter ops.old (filter is_filled (word.now ∷ words)) all) }
    ensures refusals { IfErr result (λ e. e ≡ Syntax) }
{
    if word.is_empty() {
        return Ok(());
    }
    let (enables, controller) = read_op(word)?;
    ops.add(enables, controller);
    Ok(())
}

// Whether a word enables or disables, and the controller that it names.
fn read_op(word: &[u8]) -> Result<(bool, Controller), Refusal>
    ensures value { IfOk result (λ op. word.now ≡ sign_byte op.0 ∷ controller_word op.1) }
    ensures syntax { OnErr result ((enables : Bool) (c : controller.Controller) → ¬ (word.now ≡ sign_byte enables ∷ controller_word c)) }
    ensures refusals { IfErr result (λ e. e ≡ Syntax) }
{
    match word {
        [b'+', name @ ..] => Ok((true, read_name(name)?)),
        [b'-', name @ ..] => Ok((false, read_name(name)?)),
        _ => Err(Refusal::Syntax),
    }
}

// The controller of that name.
fn read_name(name: &[u8]) -> Result<Controller, Refusal>
    ensures value { IfOk result (λ c. name.now ≡ controller_word c) }
    ensures syntax { OnErr result ((c : controller.Controller) → ¬ (name.now ≡ controller_word c)) }
    ensures refusals { IfErr result (λ e. e ≡ Syntax) }
{
    match std::str::from_utf8(name) {
        Ok(name) => Controller::read(name),
        Err(_) => Err(Refusal::Syntax),
    }
}
