//! The processes of a group, and of those below it.
ghost use Rattle.std.specs.Prelude.{◌≡◌, IfOk};
ghost use Rattle.cg_maps.specs.FiniteMap.{is_nonempty};
ghost use Rattle.cg_model.specs.Derived.{is_populated, processes};

use crate::tree::Tree;
use cg_name::Path;
use std::alloc::{AllocError, Global};

impl Tree {
    /// Whether the group at the path has a process of its own. One look-up.
    pub fn has_processes(&self, path: &Path) -> bool
        ensures { result ≡ is_nonempty (processes self.now.tree path.now) }
    {
        self.groups().has_processes(path)
    }

    /// The PIDs of the own processes of the group at the path, ascending; an error where there is no memory for the list.
    pub fn processes(&self, alloc: Global, path: &Path) -> Result<Vec<u32>, AllocError>
        ensures { IfOk result (λ pids. pids.items ≡ processes self.now.tree path.now) }
    {
        self.groups().processes(alloc, path)
    }

    /// Whether a process is in the group at the path or in one below it. One look-up.
    pub fn is_populated(&self, path: &Path) -> bool
        ensures { result ≡ is_populated self.now.tree path.now }
    {
        self.groups().is_populated(path)
    }
}
