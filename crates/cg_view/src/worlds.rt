//! Whether two worlds are the same.
ghost use Rattle.std.specs.Prelude.{◌≡◌, ◌↔◌, IsTrue};

use cg_world::{PlainTree, World};

/// Whether the worlds are the same.
pub(crate) fn are_same(left: &World, right: &World) -> bool
    ensures { IsTrue result ↔ (left.now ≡ right.now) }
{
    if left.controllers() != right.controllers() {
        return false;
    }
    if left.online() != right.online() {
        return false;
    }
    if !have_same_groups(left.tree(), right.tree()) {
        return false;
    }
    have_same_places(left.tree(), right.tree())
}

// Whether the same groups are there, with the same settings.
fn have_same_groups(left: &PlainTree, right: &PlainTree) -> bool
    ensures { IsTrue result ↔ (left.now.groups ≡ right.now.groups) }
{
    let (left, right) = (left.groups(), right.groups());
    // Maps tell that their keys ascend where they are gone over.
    let _ = left.iter();
    let _ = right.iter();
    left == right
}

// Whether the same processes are there, in the same groups.
fn have_same_places(left: &PlainTree, right: &PlainTree) -> bool
    ensures { IsTrue result ↔ (left.now.places ≡ right.now.places) }
{
    let (left, right) = (left.places(), right.places());
    // As for groups.
    let _ = left.iter();
    let _ = right.iter();
    left == right
}
