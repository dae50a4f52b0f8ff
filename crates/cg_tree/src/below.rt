//! All groups, the groups below a path, and the children of a group.
ghost use Rattle.std.specs.Prelude.{◌≡◌, filter, take, IfOk};
ghost use Rattle.cg_maps.specs.FiniteMap.{entries, is_nonempty};
ghost use Rattle.cg_model.specs.Control.{used_below};
ghost use Rattle.cg_model.specs.Derived.{children, descendants};
ghost use Rattle.cg_tree.specs.Listing.{asks_for_cpus};

use crate::listed::Listed;
use crate::tree::Tree;
use cg_name::Path;
use cg_text::Controllers;
use std::alloc::{AllocError, Global};

impl Tree {
    /// All groups with their settings, in the order of their paths; an error where there is no memory for the list.
    pub fn present_groups(&self, alloc: Global) -> Result<Listed<'_>, AllocError>
        ensures { IfOk result (λ l. l ≡ entries self.now.tree.groups) }
    {
        self.groups().present_groups(alloc)
    }

    /// The children of the group at the path, with their settings, in the order of their names; an error where there is no memory
    /// for the list. It costs nothing for groups elsewhere.
    pub fn children(&self, alloc: Global, path: &Path) -> Result<Listed<'_>, AllocError>
        ensures { IfOk result (λ l. l ≡ children self.now.tree path.now) }
    {
        self.groups().children(alloc, path)
    }

    /// The children of the group at the path that ask for CPUs, with their settings, in the order of their names; an error
    /// where there is no memory for the list. Goes over all children, and puts these alone in order.
    pub fn children_with_cpus(&self, alloc: Global, path: &Path) -> Result<Listed<'_>, AllocError>
        ensures { IfOk result (λ l. l ≡ filter asks_for_cpus (children self.now.tree path.now)) }
    {
        self.groups().children_with_cpus(alloc, path)
    }

    /// The controllers that a child of the group at the path passes on. One look-up.
    pub fn control_below(&self, path: &Path) -> Controllers
        ensures { result ≡ used_below (children self.now.tree path.now) }
    {
        self.groups().control_below(path)
    }

    /// Whether the group at the path has a child. One look-up.
    pub fn has_children(&self, path: &Path) -> bool
        ensures { result ≡ is_nonempty (children self.now.tree path.now) }
    {
        self.groups().has_children(path)
    }

    /// How many groups are below the path of the first names, so many as there are up to that number. One look-up.
    pub fn descendants(&self, path: &Path, depth: u32) -> u64
        ensures { result ≡ descendants self.now.tree (take depth path.now) }
    {
        self.groups().descendants(path, depth) as u64
    }
}
