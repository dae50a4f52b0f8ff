//! Which mark of a footprint clashes with another footprint.
ghost use Rattle.std.specs.Prelude.{◌≡◌, length, option_copied, option_map, is_some, take, IfSome};
ghost use Rattle.std.specs.List.{find, list_any};
ghost use Rattle.cg_locks.specs.Clashing.{any_mark, clashes_any, first_clashing};
ghost use Rattle.cg_locks.specs.Counts.{counts_at, prefixes, AreDescending};
ghost use Rattle.cg_locks.specs.Meaning.{counts_of, mark_of};
ghost use Rattle.cg_model.specs.Footprint as model;
ghost use Rattle.cg_model.specs.Footprint.{clash, clashes};
ghost use Rattle.cg_name.specs.Path.{same_path};

use crate::footprint::{Counted, Footprint};
use crate::mark::Mark;
use cg_name::Path;

/// A mark of a footprint, of any kind.
#[derive(Clone, Copy)]
pub enum AnyMark<'a> {
    /// One that isn't on a number of descendants.
    Plain(&'a Mark),
    /// One on the number of descendants of the group at the first so many names of the path.
    Descendants(&'a Path, u32),
}

impl Footprint {
    /// The first of these marks that clashes with one of the other footprint, where one does. Takes no memory.
    pub fn clashing(&self, other: &Footprint) -> Option<AnyMark<'_>>
        ensures first { option_map any_mark result ≡ first_clashing self.now other.now }
        ensures some { is_some result ≡ clashes self.now other.now }
    {
        let (marks, counted) = self.parts();
        let (others, others_counted) = other.parts();
        match first_plain(marks, others) {
            Some(mark) => Some(AnyMark::Plain(mark)),
            None => first_counted(counted, others_counted),
        }
    }
}

// The first of these marks that clashes with one of the others.
fn first_plain<'a>(marks: &'a [Mark], others: &[Mark]) -> Option<&'a Mark>
    ensures { option_copied result ≡ find (λ mark. list_any (λ other. clash (mark_of mark) (mark_of other)) others.now) marks.now }
{
    marks.iter().find(|mark| clashes_one(mark, others))
}

// Whether the mark clashes with one of these.
fn clashes_one(mark: &Mark, others: &[Mark]) -> bool
    ensures { result ≡ list_any (λ other. clash (mark_of mark.now) (mark_of other)) others.now }
{
    others.iter().any(|other| mark.clashes(other))
}

// The first of these marks on numbers of descendants that clashes with one of the others.
fn first_counted<'a>(
    counted: Option<Counted<'a>>,
    others: Option<Counted<'_>>,
) -> Option<AnyMark<'a>>
    requires these { IfSome counted (λ c. AreDescending (length c.path.now) c.depths.now) }
    requires others { IfSome others (λ c. AreDescending (length c.path.now) c.depths.now) }
    ensures { option_map any_mark result ≡ first_clashing (counts_of counted.entry) (counts_of others.entry) }
{
    let Some(these) = counted else {
        return None;
    };
    let Some(others) = others else {
        return None;
    };
    match first_depth(these.path, these.depths, others) {
        Some(depth) => Some(AnyMark::Descendants(these.path, depth)),
        None => None,
    }
}

// How many names the path of the first of these groups has whose number of descendants both mark.
fn first_depth(path: &Path, depths: &[u32], others: Counted<'_>) -> Option<u32>
    requires these { AreDescending (length path.now) depths.now }
    requires others { AreDescending (length others.path.now) others.depths.now }
    ensures { option_map (λ n. model.Count (take n path.now)) result ≡ first_clashing (counts_at (prefixes path.now depths.now)) (counts_at (prefixes others.entry.path.now others.entry.depths.now)) }
{
    let Some((depth, shorter)) = depths.split_first() else {
        return None;
    };
    if let Some(first) = first_depth(path, shorter, others) {
        return Some(first);
    }
    if is_counted(path, *depth, others.path, others.depths) {
        Some(*depth)
    } else {
        None
    }
}

// Whether the number of descendants of the group at the first so many names of the path is one of these.
fn is_counted(path: &Path, depth: u32, other: &Path, depths: &[u32]) -> bool
    requires { AreDescending (length other.now) depths.now }
    ensures { result ≡ clashes_any (counts_at (prefixes other.now depths.now)) (model.Count (take depth path.now)) }
{
    let Some((first, shorter)) = depths.split_first() else {
        return false;
    };
    is_counted(path, depth, other, shorter) || is_same_group(path, depth, other, *first)
}

// Whether the paths of the first names, so many, are one.
fn is_same_group(path: &Path, depth: u32, other: &Path, other_depth: u32) -> bool
    ensures { result ≡ same_path (take depth path.now) (take other_depth other.now) }
{
    path.prefix_bytes(depth) == other.prefix_bytes(other_depth)
}
