//! Commands read from words.
ghost use Rattle.std.specs.Prelude.{◌≡◌, ◌∷◌, [], false, Bool, IfOk, IfErr, OnErr, List, codes, map, ℕ};
ghost use Rattle.std.specs.Result.{IsErrOf};
ghost use Rattle.cg_maps.specs.FiniteSet.{FiniteSet, is_empty_set};
ghost use Rattle.cg_name.specs.Controller.{controller_word};
ghost use Rattle.cg_name.specs.Path.{SpellsPath};
ghost use Rattle.cg_name.specs.Refusal.{IsSyntaxOrMemory};
ghost use Rattle.cg_name.specs.declared.controller.Controller as controller;
ghost use Rattle.cg_name.specs.declared.refusal.Refusal.TheVariants.{Syntax};
ghost use Rattle.cg_cpus.specs.CpuList.{SpellsCpus};
ghost use Rattle.cg_text.specs.Reading.{SpellsOpsAfter, no_ops, sign_byte};
ghost use Rattle.cg_text.specs.Words.{Word};
ghost use Rattle.cg_text.specs.declared.control_ops.ControlOps as control_ops;
ghost use Rattle.cg_model.specs.Command as model;
ghost use Rattle.cg_command.specs.Meaning.{command_of};
ghost use Rattle.cg_command_text.specs.CommandText.{SpellsCommand, SpellsCpuWords};
ghost use Rattle.cg_command_text.specs.Read.{ReadsCommand};

use crate::keyword::is_keyword;
use cg_boxed::BoxedCpus;
use cg_command::{Command, CompactOps, OnlineCpus, Pid};
use cg_cpus::CpuSet;
use cg_name::{Controller, Path, Refusal};
use cg_text::{ControlOps, FileName, read_flag, read_limit, read_pid};
use std::alloc::Global;

/// The command that the words spell: its keyword, and behind it what the keyword asks for. `Syntax` where they spell
/// none, `Memory` where there is none for the path.
#[inline(always)]
pub fn read_command(alloc: Global, words: &[&str]) -> Result<Command, Refusal>
    ensures value { IfOk result (λ c. SpellsCommand (map (λ w. w.now) words.now) (command_of c)) }
    ensures syntax { IsErrOf result Refusal.Syntax → (c : model.Command) → SpellsCommand (map (λ w. w.now) words.now) c → ⊥ }
    ensures refusals { IfErr result IsSyntaxOrMemory }
{
    let [keyword, others @ ..] = words else {
        return Err(Refusal::Syntax);
    };
    if is_keyword(keyword, "create") {
        return read_create(alloc, others);
    }
    if is_keyword(keyword, "remove") {
        return read_remove(alloc, others);
    }
    if is_keyword(keyword, "migrate") {
        return read_migrate(alloc, others);
    }
    if is_keyword(keyword, "subtree") {
        return read_subtree(alloc, others);
    }
    if is_keyword(keyword, "freeze") {
        return read_freeze(alloc, others);
    }
    if is_keyword(keyword, "cpus") {
        return read_cpus(alloc, others);
    }
    if is_keyword(keyword, "show") {
        return read_show(alloc, others);
    }
    if is_keyword(keyword, "online") {
        return read_online(alloc, others);
    }
    if is_keyword(keyword, "maxdescendants") {
        return read_max_descendants(alloc, others);
    }
    if is_keyword(keyword, "maxdepth") {
        return read_max_depth(alloc, others);
    }
    Err(Refusal::Syntax)
}

// What stands behind `create`.
fn read_create(alloc: Global, words: &[&str]) -> Result<Command, Refusal>
    ensures { ReadsCommand (codes "create" ∷ map (λ w. w.now) words.now) result }
{
    match words {
        [path] => Ok(Command::Create {
            path: Path::read(alloc, path)?,
        }),
        _ => Err(Refusal::Syntax),
    }
}

// What stands behind `remove`.
fn read_remove(alloc: Global, words: &[&str]) -> Result<Command, Refusal>
    ensures { ReadsCommand (codes "remove" ∷ map (λ w. w.now) words.now) result }
{
    match words {
        [path] => Ok(Command::Remove {
            path: Path::read(alloc, path)?,
        }),
        _ => Err(Refusal::Syntax),
    }
}

// What stands behind `migrate`.
fn read_migrate(alloc: Global, words: &[&str]) -> Result<Command, Refusal>
    ensures { ReadsCommand (codes "migrate" ∷ map (λ w. w.now) words.now) result }
{
    match words {
        [pid, path] => Ok(Command::Migrate {
            pid: Pid {
                number: read_pid(pid)?,
            },
            path: Path::read(alloc, path)?,
        }),
        _ => Err(Refusal::Syntax),
    }
}

// What stands behind `subtree`.
fn read_subtree(alloc: Global, words: &[&str]) -> Result<Command, Refusal>
    ensures { ReadsCommand (codes "subtree" ∷ map (λ w. w.now) words.now) result }
{
    match words {
        [path, ops @ ..] => Ok(Command::Subtree {
            ops: CompactOps::new(read_op_words(ops)?),
            path: Path::read(alloc, path)?,
        }),
        _ => Err(Refusal::Syntax),
    }
}

// What stands behind `freeze`.
fn read_freeze(alloc: Global, words: &[&str]) -> Result<Command, Refusal>
    ensures { ReadsCommand (codes "freeze" ∷ map (λ w. w.now) words.now) result }
{
    match words {
        [path, value] => Ok(Command::Freeze {
            value: read_flag(value)?,
            path: Path::read(alloc, path)?,
        }),
        _ => Err(Refusal::Syntax),
    }
}

// What stands behind `cpus`.
fn read_cpus(alloc: Global, words: &[&str]) -> Result<Command, Refusal>
    ensures { ReadsCommand (codes "cpus" ∷ map (λ w. w.now) words.now) result }
{
    match words {
        [path, list @ ..] => {
            let cpus = read_cpu_words(list)?;
            let path = Path::read(alloc, path)?;
            Ok(Command::of_cpus(alloc, path, cpus)?)
        }
        _ => Err(Refusal::Syntax),
    }
}

// What stands behind `show`.
fn read_show(alloc: Global, words: &[&str]) -> Result<Command, Refusal>
    ensures { ReadsCommand (codes "show" ∷ map (λ w. w.now) words.now) result }
{
    match words {
        [path, file] => Ok(Command::Show {
            file: FileName::read(file)?,
            path: Path::read(alloc, path)?,
        }),
        _ => Err(Refusal::Syntax),
    }
}

// What stands behind `online`.
fn read_online(alloc: Global, words: &[&str]) -> Result<Command, Refusal>
    ensures { ReadsCommand (codes "online" ∷ map (λ w. w.now) words.now) result }
{
    match words {
        [list] => Ok(Command::Online {
            cpus: read_online_cpus(alloc, list)?,
        }),
        _ => Err(Refusal::Syntax),
    }
}

// What stands behind `maxdescendants`.
fn read_max_descendants(alloc: Global, words: &[&str]) -> Result<Command, Refusal>
    ensures { ReadsCommand (codes "maxdescendants" ∷ map (λ w. w.now) words.now) result }
{
    match words {
        [path, limit] => Ok(Command::MaxDescendants {
            limit: read_limit(limit)?,
            path: Path::read(alloc, path)?,
        }),
        _ => Err(Refusal::Syntax),
    }
}

// What stands behind `maxdepth`.
fn read_max_depth(alloc: Global, words: &[&str]) -> Result<Command, Refusal>
    ensures { ReadsCommand (codes "maxdepth" ∷ map (λ w. w.now) words.now) result }
{
    match words {
        [path, limit] => Ok(Command::MaxDepth {
            limit: read_limit(limit)?,
            path: Path::read(alloc, path)?,
        }),
        _ => Err(Refusal::Syntax),
    }
}

// The operations of these words, possibly none. Of several for one controller the last counts.
fn read_op_words(words: &[&str]) -> Result<ControlOps, Refusal>
    ensures value { IfOk result (λ ops. SpellsOpsAfter no_ops (map (λ w. w.now) words.now) ops) }
    ensures syntax { OnErr result ((ops : control_ops.ControlOps) → SpellsOpsAfter no_ops (map (λ w. w.now) words.now) ops → ⊥) }
    ensures refusals { IfErr result (λ e. e ≡ Syntax) }
{
    let mut ops = ControlOps::none();
    for word in words {
        let (enables, controller) = read_op(word)?;
        ops.add(enables, controller);
    }
    Ok(ops)
}

// Whether a word enables or disables, and the controller that it names.
fn read_op(word: &str) -> Result<(bool, Controller), Refusal>
    ensures value { IfOk result (λ op. word.now ≡ sign_byte op.0 ∷ controller_word op.1) }
    ensures syntax { OnErr result ((enables : Bool) (c : controller.Controller) → word.now ≡ sign_byte enables ∷ controller_word c → ⊥) }
    ensures refusals { IfErr result (λ e. e ≡ Syntax) }
{
    if let Some(name) = word.strip_prefix('+') {
        return Ok((true, Controller::read(name)?));
    }
    match word.strip_prefix('-') {
        Some(name) => Ok((false, Controller::read(name)?)),
        None => Err(Refusal::Syntax),
    }
}

// The CPUs of a list, or none where there is no word.
fn read_cpu_words(words: &[&str]) -> Result<CpuSet, Refusal>
    ensures value { IfOk result (λ cpus. SpellsCpuWords (map (λ w. w.now) words.now) cpus) }
    ensures syntax { OnErr result ((cpus : FiniteSet) → SpellsCpuWords (map (λ w. w.now) words.now) cpus → ⊥) }
    ensures refusals { IfErr result (λ e. e ≡ Syntax) }
{
    match words {
        [] => Ok(CpuSet::empty()),
        [list] => CpuSet::read(list),
        _ => Err(Refusal::Syntax),
    }
}

// The CPUs of a list that has some.
fn read_online_cpus(alloc: Global, list: &str) -> Result<OnlineCpus, Refusal>
    ensures value { IfOk result (λ online. SpellsCpus list.now online.cpus) }
    ensures syntax { IsErrOf result Syntax → (cpus : FiniteSet) → SpellsCpus list.now cpus → is_empty_set cpus ≡ false → ⊥ }
    ensures refusals { IfErr result IsSyntaxOrMemory }
{
    let cpus = CpuSet::read(list)?;
    OnlineCpus::try_from(BoxedCpus::new(alloc, cpus)?)
}
