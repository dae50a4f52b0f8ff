//! What the texts of interface files say.
ghost use Rattle.std.specs.Prelude.{◌≡◌, ◌↔◌, ◌⊎◌, ◌&&◌, IsTrue, IfOk, IfSome, OnErr, map, true, false};
ghost use Rattle.cg_cpus.specs.CpuList.{SpellsCpus};
ghost use Rattle.cg_maps.specs.FiniteSet.{no_members};
ghost use Rattle.cg_name.specs.Controller.{controller_word};
ghost use Rattle.cg_name.specs.declared.controller.Controller as controller;
ghost use Rattle.cg_text.specs.Controllers.{has};
ghost use Rattle.cg_text.specs.Reading.{SpellsFlag, SpellsLimit};
ghost use Rattle.cg_import.specs.Files.{IsSaid, file_in};
ghost use Rattle.cg_import.specs.Values.{NamesController, filled_lines};

use crate::reading::file_in;
use cg_cpus::CpuSet;
use cg_digits::is_white_space;
use cg_name::{Controller, Refusal};
use cg_program::Inputs;
use cg_text::{Controllers, Limit, read_flag, read_limit};
use std::alloc::{AllocError, Global};

/// The controllers that a text names, and whether it names nothing else.
pub(crate) fn controllers_in(text: &str) -> (Controllers, bool)
    ensures { (c : controller.Controller) → IsTrue (has result.0 c) ↔ NamesController text.now c }
{
    let mut found = Controllers::empty();
    let mut are_known = true;
    for word in text.as_bytes().split(|byte| is_white_space(*byte)) {
        let is_known = add_named(&mut found, word);
        are_known = are_known && is_known;
    }
    (found, are_known)
}

// Adds the controller that a word names. Whether the word is nothing else.
fn add_named(found: &mut Controllers, word: &[u8]) -> bool
    ensures { (c : controller.Controller) → IsTrue (has found.new c) ↔ (IsTrue (has found.old c) ⊎ (word.now ≡ controller_word c)) }
{
    match named(word) {
        Ok(controller) => {
            found.insert(controller);
            true
        }
        Err(_) => word.is_empty(),
    }
}

// The controller of this name.
fn named(name: &[u8]) -> Result<Controller, Refusal>
    ensures value { IfOk result (λ c. name.now ≡ controller_word c) }
    ensures none { OnErr result ((c : controller.Controller) → ¬ (name.now ≡ controller_word c)) }
{
    match std::str::from_utf8(name) {
        Ok(name) => Controller::read(name),
        Err(_) => Err(Refusal::Syntax),
    }
}

/// Those of both sets.
pub(crate) fn common(some: Controllers, others: Controllers) -> Controllers
    ensures { (c : controller.Controller) → has result c ≡ (has some c && has others c) }
{
    some.difference(&some.difference(&others))
}

/// Whether the group in a folder freezes: not where there is no file for it.
pub(crate) fn freeze_at<P: Inputs>(
    alloc: Global,
    inputs: &P,
    folder: &str,
    file: &str,
) -> Result<bool, AllocError>
    ensures { IfOk result (λ freeze. IsSaid (P.file inputs.now) (P.is_missing inputs.now) (file_in folder.now file.now) SpellsFlag false freeze) }
{
    let Some(text) = file_in(alloc, inputs, folder, file)? else {
        return Ok(false);
    };
    Ok(matches!(read_flag(text.as_str()), Ok(true)))
}

/// A limit of the group in a folder: none where there is no file for it.
pub(crate) fn limit_at<P: Inputs>(
    alloc: Global,
    inputs: &P,
    folder: &str,
    file: &str,
) -> Result<Limit, AllocError>
    ensures { IfOk result (λ limit. IsSaid (P.file inputs.now) (P.is_missing inputs.now) (file_in folder.now file.now) SpellsLimit Limit.Max limit) }
{
    let Some(text) = file_in(alloc, inputs, folder, file)? else {
        return Ok(Limit::Max);
    };
    match read_limit(text.as_str()) {
        Ok(limit) => Ok(limit),
        Err(_) => Ok(Limit::Max),
    }
}

/// The CPUs, where the text is a list of any that can be told.
pub(crate) fn cpus_in(text: &str) -> Option<CpuSet>
    ensures { IfSome result (λ cpus. SpellsCpus text.now cpus) }
{
    CpuSet::read(text).ok()
}

/// The lines of a text that have anything in them.
pub(crate) fn lines_in<'a>(alloc: Global, text: &'a str) -> Result<Vec<&'a str>, AllocError>
    ensures { IfOk result (λ lines. map (λ line. line.now) lines.items ≡ filled_lines text.entry.now) }
{
    let mut lines = Vec::new(alloc);
    for line in text.split('\n') {
        if !line.is_empty() {
            lines.push(line)?;
        }
    }
    Ok(lines)
}
