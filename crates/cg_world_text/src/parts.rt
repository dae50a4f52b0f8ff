//! The words of which the lines of a world text are made.
ghost use Rattle.std.specs.Prelude.{◌≡◌, ◌∷◌, [], IfOk, IfErr, OnOk, OnErr, List, map};
ghost use Rattle.std.specs.Result.{IsErrOf};
ghost use Rattle.cg_maps.specs.FiniteSet.{FiniteSet};
ghost use Rattle.cg_name.specs.Refusal.{IsSyntaxOrMemory};
ghost use Rattle.cg_name.specs.declared.refusal.Refusal.TheVariants.{Syntax};
ghost use Rattle.cg_text.specs.Words.{Word};
ghost use Rattle.cg_text.specs.Controllers.{no_controllers};
ghost use Rattle.cg_text.specs.declared.controllers.Controllers as controllers;
ghost use Rattle.cg_text.specs.declared.limit.Limit as limit;
ghost use Rattle.cg_text.specs.declared.settings.Settings as settings;
ghost use Rattle.cg_world_text.specs.Statement.{AddsControllers, SpellsControl, SpellsSomeCpus, SpellsAskedCpus, SpellsLimits};
ghost use Rattle.cg_world_text.specs.Version.{last_cpu};
ghost use Rattle.cg_world_text.specs.Parts.{SpellsSettings};

use crate::version::Version;
use cg_boxed::{BoxedCpus, CompactSettings};
use cg_cpus::CpuSet;
use cg_name::{Controller, Refusal};
use cg_text::{Controllers, Limit, read_flag, read_limit};
use std::alloc::Global;

// Adds the controller of that name; `Syntax` where there is none, or the set has it.
fn add_controller(set: &mut Controllers, name: &str) -> Result<(), Refusal>
    ensures value { OnOk result (AddsControllers set.old (name.now ∷ []) set.new) }
    ensures syntax { OnErr result ((names : List Word) (all : controllers.Controllers) → AddsControllers set.old (name.now ∷ names) all → ⊥) }
    ensures refusals { IfErr result (λ e. e ≡ Syntax) }
{
    let controller = Controller::read(name)?;
    if set.contains(controller) {
        return Err(Refusal::Syntax);
    }
    set.insert(controller);
    Ok(())
}

// The controllers of these names; `Syntax` where one is of no controller or stands twice.
pub(crate) fn read_controllers(names: &[&str]) -> Result<Controllers, Refusal>
    ensures value { IfOk result (λ all. AddsControllers no_controllers (map (λ w. w.now) names.now) all) }
    ensures syntax { OnErr result ((all : controllers.Controllers) → AddsControllers no_controllers (map (λ w. w.now) names.now) all → ⊥) }
    ensures refusals { IfErr result (λ e. e ≡ Syntax) }
{
    let mut set = Controllers::empty();
    for name in names {
        add_controller(&mut set, name)?;
    }
    Ok(set)
}

// The controllers whose names a word joins with commas, or none for a minus.
fn read_control(word: &str) -> Result<Controllers, Refusal>
    ensures value { IfOk result (λ all. SpellsControl word.now all) }
    ensures syntax { OnErr result ((all : controllers.Controllers) → SpellsControl word.now all → ⊥) }
    ensures refusals { IfErr result (λ e. e ≡ Syntax) }
{
    let mut set = Controllers::empty();
    if word == "-" {
        return Ok(set);
    }
    for name in word.split(',') {
        add_controller(&mut set, name)?;
    }
    Ok(set)
}

// The CPUs of a list: at least one, none above the version's greatest.
fn read_cpus(version: Version, word: &str) -> Result<CpuSet, Refusal>
    ensures value { IfOk result (λ cpus. SpellsSomeCpus (last_cpu version) word.now cpus) }
    ensures syntax { OnErr result ((cpus : FiniteSet) → SpellsSomeCpus (last_cpu version) word.now cpus → ⊥) }
    ensures refusals { IfErr result (λ e. e ≡ Syntax) }
{
    let cpus = CpuSet::read(word)?;
    let Some(last) = cpus.last() else {
        return Err(Refusal::Syntax);
    };
    if last > version.last_cpu() {
        return Err(Refusal::Syntax);
    }
    Ok(cpus)
}

// Those CPUs in the form in which they are kept. Out of line, so that a line that asks for none pays nothing for the room of
// a set.
#[inline(never)]
pub(crate) fn read_listed_cpus(
    alloc: Global,
    version: Version,
    word: &str,
) -> Result<BoxedCpus, Refusal>
    ensures value { IfOk result (λ cpus. SpellsSomeCpus (last_cpu version) word.now cpus) }
    ensures syntax { IsErrOf result Refusal.Syntax → (cpus : FiniteSet) → SpellsSomeCpus (last_cpu version) word.now cpus → ⊥ }
    ensures refusals { IfErr result IsSyntaxOrMemory }
{
    Ok(BoxedCpus::new(alloc, read_cpus(version, word)?)?)
}

// Such a list, or no CPU for a minus.
fn read_asked_cpus(alloc: Global, version: Version, word: &str) -> Result<BoxedCpus, Refusal>
    ensures value { IfOk result (λ cpus. SpellsAskedCpus (last_cpu version) word.now cpus) }
    ensures syntax { IsErrOf result Refusal.Syntax → (cpus : FiniteSet) → SpellsAskedCpus (last_cpu version) word.now cpus → ⊥ }
    ensures refusals { IfErr result IsSyntaxOrMemory }
{
    match word {
        "-" => Ok(BoxedCpus::empty()),
        _ => read_listed_cpus(alloc, version, word),
    }
}

// The limits on descendants and on depth, from the words behind a group's CPUs.
fn read_limits(version: Version, words: &[&str]) -> Result<(Limit, Limit), Refusal>
    ensures value { IfOk result (λ limits. SpellsLimits version (map (λ w. w.now) words.now) limits.0 limits.1) }
    ensures syntax { OnErr result ((descendants depth : limit.Limit) → SpellsLimits version (map (λ w. w.now) words.now) descendants depth → ⊥) }
    ensures refusals { IfErr result (λ e. e ≡ Syntax) }
{
    match version {
        Version::One => match words {
            [] => Ok((Limit::Max, Limit::Max)),
            _ => Err(Refusal::Syntax),
        },
        Version::Two => match words {
            [descendants, depth] => Ok((read_limit(descendants)?, read_limit(depth)?)),
            _ => Err(Refusal::Syntax),
        },
    }
}

// The settings of a group, from the words behind its path.
pub(crate) fn read_settings(
    alloc: Global,
    version: Version,
    control: &str,
    freeze: &str,
    cpus: &str,
    limits: &[&str],
) -> Result<CompactSettings, Refusal>
    ensures value { IfOk result (λ s. SpellsSettings version control.now freeze.now cpus.now (map (λ w. w.now) limits.now) s) }
    ensures syntax { IsErrOf result Refusal.Syntax → (s : settings.Settings) → SpellsSettings version control.now freeze.now cpus.now (map (λ w. w.now) limits.now) s → ⊥ }
    ensures refusals { IfErr result IsSyntaxOrMemory }
{
    let (max_descendants, max_depth) = read_limits(version, limits)?;
    let control = read_control(control)?;
    let freeze = read_flag(freeze)?;
    let cpus = read_asked_cpus(alloc, version, cpus)?;
    let mut settings = CompactSettings::fresh();
    settings.set_control(control);
    settings.set_freeze(freeze);
    settings.set_cpus(cpus);
    settings.set_max_descendants(max_descendants);
    settings.set_max_depth(max_depth);
    Ok(settings)
}
