//! Groups that come one by one, among which the paths of processes are looked up.
ghost use Rattle.std.specs.Prelude.{◌≡◌, ◌⊎◌, [], IfOk, IfSome, OnErr, OnOk, IsTrue, Some, is_some};
ghost use Rattle.std.specs.List.{AllByRecursion};
ghost use Rattle.std.specs.List.Sorted.{IsStrictlySortedBy};
ghost use Rattle.std.specs.Map.{keys_of};
ghost use Rattle.cg_maps.specs.FiniteMap.{get, set_at, from_entries};
ghost use Rattle.cg_name.specs.Path.{path_cmp};
ghost use Rattle.cg_world.specs.Gathered.{entries_of};
ghost use Rattle.cg_world.specs.Soundness.{IsPlaceIn};

use crate::gathered::{Gathered, Kept};
use crate::soundness::may_have_processes;
use cg_boxed::CompactSettings;
use cg_name::Path;
use indexmap::IndexSet;
use std::alloc::{AllocError, Global};
use std::collections::BTreeMap;
use std::marker::Model;

// From how many bytes on a path's text lies in memory of its own.
const WORTH_SHARING: usize = 13;

// How many processes are looked up among the groups themselves, whose paths are only kept by their hashes behind them: these, and
// one for so many groups. So the look-ups cost little beside the keeping of all paths, and a world of many groups and few processes
// has no use for that.
const FEW_PROCESSES: usize = 16;

const MANY_GROUPS: usize = 64;

/// Groups that come one by one, mostly by ascending paths.
pub(crate) struct GatheredGroups {
    kept: Gathered<Path, CompactSettings>,
    // The paths of those that may have processes. None before they pay, and again behind each group.
    allowed: Option<IndexSet<Path>>,
}

// By hand, so that whoever drops one calls this, and doesn't drop each thing in it: that makes proofs shorter.
impl Drop for GatheredGroups {
    fn drop(self) {
        let GatheredGroups {
            kept: _,
            allowed: _,
        } = self;
    }
}

impl Model for GatheredGroups {
    ghost use Rattle.std.specs.Prelude.{List, IfSome};
    ghost use Rattle.std.specs.List.{AllByRecursion};
    ghost use Rattle.cg_maps.specs.FiniteMap.{from_entries};
    ghost use Rattle.cg_name.specs.Path.{Path, path_cmp};
    ghost use Rattle.cg_text.specs.declared.settings.Settings.{Settings};
    ghost use Rattle.cg_world.specs.Soundness.{IsPlaceIn};

    ghost Value = { List (Path × Settings) };

    ghost view = { λ g. g.kept };

    ghost invariant = { λ g. IfSome g.allowed (λ paths. AllByRecursion (IsPlaceIn (from_entries path_cmp g.kept)) paths.keys) };
}

impl GatheredGroups {
    /// No group.
    pub(crate) fn new(alloc: Global) -> GatheredGroups
        ensures { result ≡ [] }
    {
        GatheredGroups {
            kept: Gathered::new(alloc),
            allowed: None,
        }
    }

    /// The groups so far.
    pub(crate) fn kept(&self) -> &Kept<Path, CompactSettings>
        ensures { entries_of result.now ≡ self.now }
    {
        self.kept.kept()
    }

    /// Makes the group at this path, or gives it these settings, and answers whether there was one. An error, where there is no
    /// memory, leaves the groups or none.
    pub(crate) fn insert(
        &mut self,
        alloc: Global,
        path: Path,
        settings: CompactSettings,
    ) -> Result<bool, AllocError>
        ensures ok { OnOk result (from_entries path_cmp self.new ≡ set_at (from_entries path_cmp self.old) path (Some settings)) }
        ensures had { IfOk result (λ had. had ≡ is_some (get (from_entries path_cmp self.old) path)) }
        ensures err { OnErr result ((self.new ≡ self.old) ⊎ (self.new ≡ [])) }
    {
        self.allowed = None;
        let had = self.kept.insert(alloc, path, settings)?;
        Ok(had)
    }

    /// Whether the group at this path is found to be one that may have processes, where the tree has so many processes already. If so,
    /// the path shares its text from now on. It stays the same path, and the groups stay the same. An error where there is no memory.
    pub(crate) fn admit(
        &mut self,
        alloc: Global,
        processes: usize,
        path: &mut Path,
    ) -> Result<bool, AllocError>
        ensures same { self.new ≡ self.old }
        ensures path { path.new ≡ path.old }
        ensures known { IfOk result (λ known. IsTrue known → IsPlaceIn (from_entries path_cmp self.old) path.old) }
    {
        self.keep_allowed(alloc, processes)?;
        let Some(kept) = self.find_allowed(&*path) else {
            return Ok(false);
        };
        share(alloc, kept, path);
        Ok(true)
    }

    // Keeps the paths of the groups that may have processes, where that pays and isn't done. The groups stay the same. An error where
    // there is no memory.
    fn keep_allowed(&mut self, alloc: Global, processes: usize) -> Result<(), AllocError>
        ensures { self.new ≡ self.old }
    {
        if self.allowed.is_none() && processes >= FEW_PROCESSES + self.kept.len() / MANY_GROUPS {
            self.allowed = Some(allowed_paths(alloc, self.kept.kept())?);
        }
        Ok(())
    }

    // The path of the group there, where that is found to be one that may have processes.
    fn find_allowed(&self, path: &Path) -> Option<&Path>
        ensures path { IfSome result (λ kept. kept.now ≡ path.now) }
        ensures known { IfSome result (λ kept. IsPlaceIn (from_entries path_cmp self.now) path.now) }
    {
        if let Some(paths) = &self.allowed {
            return paths.get(path);
        }
        match self.kept.find(path) {
            Some((kept, settings)) if may_have_processes(kept, settings) => Some(kept),
            _ => None,
        }
    }

    /// The map of the groups; an error where there is no memory for it.
    pub(crate) fn finish(self, alloc: Global) -> Result<BTreeMap<Path, CompactSettings>, AllocError>
        ensures { IfOk result (λ map. from_entries path_cmp map.entries ≡ from_entries path_cmp self) }
    {
        let GatheredGroups { kept, allowed } = self;
        // Gone before the map is made, so that both don't take room at once.
        drop(allowed);
        let map = kept.finish(alloc)?;
        Ok(map)
    }
}

// The path shares the text of the equal one from now on, where that is long, and lets go of its own. It stays the same path. Takes no
// memory.
fn share(alloc: Global, kept: &Path, path: &mut Path)
    requires { kept.now ≡ path.old }
    ensures { path.new ≡ path.old }
{
    if kept.as_bytes().len() < WORTH_SHARING {
        return;
    }
    if let Ok(copy) = kept.copy(alloc) {
        *path = copy;
    }
}

// The paths of the groups that may have processes. There a path is found by its hash, where it would be compared with a dozen others
// among the groups.
fn allowed_paths(
    alloc: Global,
    groups: &Kept<Path, CompactSettings>,
) -> Result<IndexSet<Path>, AllocError>
    requires { IsStrictlySortedBy path_cmp (keys_of (entries_of groups.now)) }
    ensures { IfOk result (λ paths. AllByRecursion (IsPlaceIn (from_entries path_cmp (entries_of groups.now))) paths.keys) }
{
    match groups {
        Kept::Run(run) => allowed_of_run(alloc, run.as_slice()),
        Kept::Map(map) => allowed_of_map(alloc, map),
    }
}

// Those of the groups in a row.
fn allowed_of_run(
    alloc: Global,
    groups: &[(Path, CompactSettings)],
) -> Result<IndexSet<Path>, AllocError>
    requires { IsStrictlySortedBy path_cmp (keys_of groups.now) }
    ensures { IfOk result (λ paths. AllByRecursion (IsPlaceIn (from_entries path_cmp groups.now)) paths.keys) }
{
    let mut paths = IndexSet::with_capacity(alloc, groups.len())?;
    for (path, settings) in groups {
        if may_have_processes(path, settings) {
            paths.insert(path.copy(alloc)?)?;
        }
    }
    Ok(paths)
}

// Those of the groups in a map.
fn allowed_of_map(
    alloc: Global,
    groups: &BTreeMap<Path, CompactSettings>,
) -> Result<IndexSet<Path>, AllocError>
    ensures { IfOk result (λ paths. AllByRecursion (IsPlaceIn (from_entries path_cmp groups.now.entries)) paths.keys) }
{
    let mut paths = IndexSet::with_capacity(alloc, groups.len())?;
    for (path, settings) in groups {
        if may_have_processes(path, settings) {
            paths.insert(path.copy(alloc)?)?;
        }
    }
    Ok(paths)
}
