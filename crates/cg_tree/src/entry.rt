// What a tree has at a path.
ghost use Rattle.std.specs.Prelude.{◌≡◌};
ghost use Rattle.cg_tree.specs.Entries.{counted, CanCount};

use crate::passing::Passing;
use cg_boxed::CompactSettings;

// The settings of a group, what it is populated by, how many groups are below, and what those right below pass on. What most
// commands look at stands first, in one line of the cache or two.
pub(crate) struct Entry {
    // The settings of the group, and `None` where the path is dead.
    pub(crate) settings: Option<CompactSettings>,
    // How many processes are in the group itself, and how many of those right below it are populated, in one sum: the group is
    // populated where that isn't 0.
    pub(crate) populated_by: u32,
    // How many groups are below the path.
    pub(crate) below: u32,
    // How many of them are right below it.
    pub(crate) right_below: u32,
    // For each controller, how many of these pass it on.
    pub(crate) passing: Passing,
}

// By hand, so that whoever drops one calls this, and doesn't drop each thing in it: that makes proofs shorter.
impl Drop for Entry {
    fn drop(self) {
        let Entry {
            settings: _,
            populated_by: _,
            below: _,
            right_below: _,
            passing: _,
        } = self;
    }
}

// The count with one more, where it comes, and else with one less.
pub(crate) fn counted(count: u32, comes: bool) -> u32
    requires { CanCount comes count }
    ensures { result ≡ counted comes count }
{
    if comes { count + 1 } else { count - 1 }
}
