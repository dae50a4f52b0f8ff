//! The version in which a tree's text is written.
ghost use Rattle.std.specs.Prelude.{◌≡◌};
ghost use Rattle.std.specs.List.{list_all};
ghost use Rattle.cg_maps.specs.FiniteMap.{entries, from_entries};
ghost use Rattle.cg_name.specs.Path.{path_cmp};
ghost use Rattle.cg_world_text.specs.World.{cpus_fit_one, fits_version_one, settings_fit_one, written_version};

use crate::version::Version;
use cg_boxed::{BoxedCpus, CompactSettings};
use cg_cpus::CpuSet;
use cg_name::Path;
use cg_text::Limit;
use cg_world::PlainTree;
use std::collections::BTreeMap;

/// The version in which the tree's text is written: 1 where it can be.
pub fn version_of(tree: &PlainTree) -> Version
    ensures { result ≡ written_version tree.now }
{
    if fits_version_one(tree) {
        Version::One
    } else {
        Version::Two
    }
}

// Whether no CPU number is too great for version 1, and no group has a limit.
fn fits_version_one(tree: &PlainTree) -> bool
    ensures { result ≡ fits_version_one tree.now }
{
    cpus_fit(&tree.online()) && groups_fit(tree.groups())
}

// Whether the groups' settings fit version 1.
fn groups_fit(groups: &BTreeMap<Path, CompactSettings>) -> bool
    ensures { result ≡ list_all (λ e. settings_fit_one e.1) (entries (from_entries path_cmp groups.now.entries)) }
{
    for (_path, settings) in groups {
        if !settings_fit(settings) {
            return false;
        }
    }
    true
}

// Whether the settings of a group fit version 1: no CPU number is above 127, and there is no limit.
pub(crate) fn settings_fit(settings: &CompactSettings) -> bool
    ensures { result ≡ settings_fit_one settings.now }
{
    asked_cpus_fit(settings.cpus())
        && matches!(settings.max_descendants(), Limit::Max)
        && matches!(settings.max_depth(), Limit::Max)
}

// Whether the CPUs that a group asks for fit version 1.
fn asked_cpus_fit(cpus: &BoxedCpus) -> bool
    ensures { result ≡ cpus_fit_one cpus.now }
{
    cpus.is_empty() || cpus_fit(&cpus.get())
}

// Whether the CPUs fit version 1: no number is above 127.
pub(crate) fn cpus_fit(cpus: &CpuSet) -> bool
    ensures { result ≡ cpus_fit_one cpus.now }
{
    match cpus.last() {
        Some(last) => last <= Version::One.last_cpu(),
        None => true,
    }
}
