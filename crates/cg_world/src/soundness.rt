//! Whether a plain tree is sound.
ghost use Rattle.std.specs.Prelude.{◌≡◌, ◌↔◌, false, length, Contains, IsTrue, IfOk, IfErr, IfSome, OnOk, None};
ghost use Rattle.std.specs.Result.{IsErrOf};
ghost use Rattle.cg_name.specs.Path.{is_parent, is_root};
ghost use Rattle.cg_name.specs.Refusal.{IsSyntaxOrMemory};
ghost use Rattle.cg_name.specs.declared.refusal.Refusal.TheVariants.{Memory};
ghost use Rattle.cg_model.specs.Sound.{Sound, IsChildOf, IsRootOf, admits};
ghost use Rattle.cg_world.specs.Soundness.{HasGroup, HasParent, HasNoParent, HasSoundRoot, HasSoundGroups, HasSoundPlaces, IsSoundGroup, IsSoundPlace, AreSoundPlaces};

use crate::plain::PlainTree;
use cg_boxed::CompactSettings;
use cg_name::{Path, Refusal};
use indexmap::IndexSet;
use std::alloc::{AllocError, Global};

// How many groups there are to a process at least where the processes are few.
const MANY_GROUPS: usize = 16;

impl PlainTree {
    /// Refuses with `Syntax` a tree that isn't sound. `Memory` comes where there is none to find that out.
    pub fn check_sound(&self, alloc: Global) -> Result<(), Refusal>
        ensures sound { OnOk result (Sound self.now) }
        ensures syntax { IsErrOf result Refusal.Syntax → ¬ (Sound self.now) }
        ensures refusals { IfErr result IsSyntaxOrMemory }
    {
        if self.online().is_empty()
            || !has_sound_root(self, alloc)
            || !has_sound_places(self, alloc)?
        {
            return Err(Refusal::Syntax);
        }
        if has_sound_groups(self, alloc)? {
            Ok(())
        } else {
            Err(Refusal::Syntax)
        }
    }
}

// Whether the root is a group with a root's settings.
fn has_sound_root(tree: &PlainTree, alloc: Global) -> bool
    ensures { IsTrue result ↔ HasSoundRoot tree.now }
{
    match tree.settings(&Path::root(alloc)) {
        Some(settings) => may_be_root(tree, settings),
        None => false,
    }
}

// Whether the root may have these settings.
fn may_be_root(tree: &PlainTree, settings: &CompactSettings) -> bool
    ensures { IsTrue result ↔ IsRootOf tree.now settings.now }
{
    settings.control().is_subset(&tree.controllers())
        && !settings.freeze()
        && settings.cpus().is_empty()
}

// A group of a tree.
#[derive(Clone, Copy)]
struct Found<'a> {
    path: &'a Path,
    settings: &'a CompactSettings,
    // How many names the path has.
    depth: u32,
    ghost counted: { depth ≡ length path.now },
}

impl<'a> Found<'a> {
    // The group at this path, with these settings.
    fn new(path: &'a Path, settings: &'a CompactSettings) -> Found<'a>
        ensures path { result.path.now ≡ path.now }
        ensures settings { result.settings.now ≡ settings.now }
    {
        Found {
            path,
            settings,
            depth: path.depth(),
        }
    }

    // Whether this group is the parent of the other.
    fn is_parent_of(&self, other: &Found) -> bool
        ensures { result ≡ is_parent self.now.path.now other.now.path.now }
    {
        other.depth.saturating_sub(self.depth) == 1 && self.path.is_prefix(other.path)
    }
}

impl<'a> Found<'a> {
    ghost use Rattle.cg_world.specs.declared.soundness.Found.{Found};

    // Takes those off the end whose paths have no fewer names, and gives the last of those that are left.
    fn last_above(above: &mut Vec<Found<'a>>, depth: u32) -> Option<Found<'a>>
        ensures kept { (g : Found) → Contains above.new.items g → Contains above.old.items g }
        ensures last { IfSome result (λ g. Contains above.old.items g) }
    {
        while let Some(last) = above.last().copied() {
            if last.depth < depth {
                return Some(last);
            }
            above.pop();
        }
        None
    }
}

// Whether each group may be where it is.
fn has_sound_groups(tree: &PlainTree, alloc: Global) -> Result<bool, AllocError>
    ensures { IfOk result (λ sound. IsTrue sound ↔ HasSoundGroups tree.now) }
{
    // The group before, and those above it.
    let mut above = Vec::new(alloc);
    for (path, settings) in tree.groups() {
        let child = Found::new(path, settings);
        let near = Found::last_above(&mut above, child.depth);
        if !is_sound_group(tree, alloc, child, near)? {
            return Ok(false);
        }
        above.push(child)?;
    }
    Ok(true)
}

// Whether a group may be where it is. One that is near is looked at before its parent is looked up.
fn is_sound_group(
    tree: &PlainTree,
    alloc: Global,
    child: Found<'_>,
    near: Option<Found<'_>>,
) -> Result<bool, AllocError>
    requires child { HasGroup tree.now child.path.now child.settings.now }
    requires near { IfSome near (λ g. HasGroup tree.now g.path.now g.settings.now) }
    ensures { IfOk result (λ sound. IsTrue sound ↔ IsSoundGroup tree.now child.entry.path.now child.entry.settings.now) }
{
    if child.path.is_root() {
        return Ok(true);
    }
    match find_parent(tree, alloc, child, near)? {
        Some(parent) => Ok(may_be_child(parent.settings, child.settings)),
        None => Ok(false),
    }
}

// The parent of a group that isn't the root. In the order of the paths it is the last of the groups before whose path is shorter.
fn find_parent<'a>(
    tree: &'a PlainTree,
    alloc: Global,
    child: Found<'a>,
    near: Option<Found<'a>>,
) -> Result<Option<Found<'a>>, AllocError>
    requires below { is_root child.path.now ≡ false }
    requires near { IfSome near (λ g. HasGroup tree.now g.path.now g.settings.now) }
    ensures found { IfOk result (λ parent. IfSome parent (λ g. HasParent tree.now g.path.now g.settings.now child.entry.path.now)) }
    ensures none { IfOk result (λ parent. parent ≡ None → HasNoParent tree.now child.entry.path.now) }
{
    match near {
        Some(last) if last.is_parent_of(&child) => return Ok(near),
        _ => {}
    }
    let path = child.path.prefix(alloc, child.depth.saturating_sub(1))?;
    match tree.entry(&path) {
        Some((path, settings)) => Ok(Some(Found::new(path, settings))),
        None => Ok(None),
    }
}

// Whether the child of a group may have these settings.
fn may_be_child(parent: &CompactSettings, settings: &CompactSettings) -> bool
    ensures { IsTrue result ↔ IsChildOf parent.now settings.now }
{
    let control = parent.control();
    settings.control().is_subset(&control) && (settings.cpus().is_empty() || control.cpuset)
}

// Whether each process may be where it is. It is looked up where that isn't known already.
fn has_sound_places(tree: &PlainTree, alloc: Global) -> Result<bool, AllocError>
    ensures { IfOk result (λ sound. IsTrue sound ↔ HasSoundPlaces tree.now) }
{
    if tree.are_places_sound() {
        return Ok(true);
    }
    let kept = allowed_places(tree, alloc)?;
    let allowed = kept.as_ref();
    for (_pid, path) in tree.places() {
        if !is_sound_place(tree, allowed, path) {
            return Ok(false);
        }
    }
    Ok(true)
}

// Whether a process may be in the group at this path.
fn is_sound_place(tree: &PlainTree, allowed: Option<&IndexSet<&Path>>, path: &Path) -> bool
    requires { IfSome allowed (λ paths. AreSoundPlaces tree.now paths.now.keys) }
    ensures { IsTrue result ↔ IsSoundPlace tree.now path.now }
{
    match allowed {
        Some(paths) => paths.contains(&path),
        None => match tree.settings(path) {
            Some(settings) => may_have_processes(path, settings),
            None => false,
        },
    }
}

// The paths of the groups that may have processes; none where the processes are so few that to look up the path of each in the
// tree costs less than to go over the groups.
fn allowed_places(tree: &PlainTree, alloc: Global) -> Result<Option<IndexSet<&Path>>, AllocError>
    ensures { IfOk result (λ allowed. IfSome allowed (λ paths. AreSoundPlaces tree.now paths.keys)) }
{
    if tree.places().len() <= tree.groups().len() / MANY_GROUPS {
        return Ok(None);
    }
    Ok(Some(sound_places(tree, alloc)?))
}

// The paths of the groups that may have processes. There a path is found by its hash, where the map of the groups would
// compare it with a dozen others.
fn sound_places(tree: &PlainTree, alloc: Global) -> Result<IndexSet<&Path>, AllocError>
    ensures { IfOk result (λ paths. AreSoundPlaces tree.now paths.keys) }
{
    let mut paths = IndexSet::new(alloc);
    for (path, settings) in tree.groups() {
        if may_have_processes(path, settings) {
            paths.insert(path)?;
        }
    }
    Ok(paths)
}

// Whether the group at this path may have processes, with these settings.
pub(crate) fn may_have_processes(path: &Path, settings: &CompactSettings) -> bool
    ensures { result ≡ admits path.now settings.now }
{
    path.is_root() || settings.control().is_empty()
}
