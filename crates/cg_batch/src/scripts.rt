//! The texts of scripts.
ghost use Rattle.std.specs.Prelude.{◌≡◌, ◌<◌, ◌≤◌, ◌⊎◌, IfErr, IfOk, IfSome, length, map, vec_len};
ghost use Rattle.std.specs.List.{AllZip};
ghost use Rattle.std.specs.Result.{IsErrOf};
ghost use Rattle.cg_lines.specs.Device.{Failed};
ghost use Rattle.cg_script.specs.ScriptOf.{SpellsAs, SpellsNoScript};
ghost use Rattle.cg_script.specs.declared.fault.ScriptFault.TheVariants as faults;
ghost use Rattle.cg_batch.specs.Batch.{SomeSpellsNone};

use cg_lines::{Source, read_at_most};
use cg_name::Refusal;
use cg_script::{LONGEST_SCRIPT, Script, ScriptFault, read_script};
use std::alloc::Global;

/// All that is left of the text of a script: `Syntax` exactly where that is longer than the text of a script may be, 16,777,216
/// bytes, `Memory` where there is none for it, and `ReadFault` where a read of the source fails.
pub fn read_all<S: Source>(alloc: Global, source: &mut S) -> Result<Vec<u8>, ScriptFault>
    ensures value { IfOk result (λ text. IfSome (S.left source.old) (λ left. text.items ≡ left)) }
    ensures bound { IfOk result (λ text. vec_len text ≤ 16777216) }
    ensures long { IsErrOf result faults.Syntax → IfSome (S.left source.old) (λ left. 16777216 < length left) }
    ensures reads { IsErrOf result faults.ReadFault → Failed (S.failed source.old) (S.failed source.new) }
    ensures writes { ¬ (IsErrOf result faults.WriteFault) }
{
    match read_at_most(alloc, source, LONGEST_SCRIPT)? {
        Some(text) => Ok(text),
        None => Err(ScriptFault::Syntax),
    }
}

// The scripts that the texts spell.
pub(crate) fn read_scripts(alloc: Global, texts: &[Vec<u8>]) -> Result<Vec<Script>, ScriptFault>
    ensures value { IfOk result (λ scripts. AllZip SpellsAs (map (λ t. t.items) texts.now) scripts.items) }
    ensures len { IfOk result (λ scripts. vec_len scripts ≡ length texts.now) }
    ensures syntax { IsErrOf result faults.Syntax → SomeSpellsNone (map (λ t. t.items) texts.now) }
    ensures faults { IfErr result (λ e. (e ≡ faults.Syntax) ⊎ (e ≡ faults.Memory)) }
{
    let mut scripts = Vec::with_capacity(alloc, texts.len())?;
    for text in texts {
        let script = script_of(alloc, text.as_slice())?;
        scripts.push(script)?;
    }
    Ok(scripts)
}

// The script that the text spells.
fn script_of(alloc: Global, text: &[u8]) -> Result<Script, ScriptFault>
    ensures value { IfOk result (SpellsAs text.now) }
    ensures syntax { IsErrOf result faults.Syntax → SpellsNoScript text.now }
    ensures faults { IfErr result (λ e. (e ≡ faults.Syntax) ⊎ (e ≡ faults.Memory)) }
{
    match read_script(alloc, text) {
        Ok(script) => Ok(script),
        Err(Refusal::Syntax) => Err(ScriptFault::Syntax),
        Err(_) => Err(ScriptFault::Memory),
    }
}
