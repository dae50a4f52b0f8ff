//! The settings of a group.
ghost use Rattle.std.specs.Prelude.{◌≡◌};
ghost use Rattle.cg_text.specs.Settings.{fresh};

use crate::controllers::Controllers;
use crate::limit::Limit;
use cg_cpus::CpuSet;

/// What the interface files of one group hold.
#[derive(Clone, Copy, Debug, PartialEq, Eq)]
pub struct Settings {
    /// `cgroup.subtree_control`: the controllers that the group's children have.
    pub control: Controllers,
    /// `cgroup.freeze`: the group's own value.
    pub freeze: bool,
    /// `cpuset.cpus`: the CPUs that were asked for.
    pub cpus: CpuSet,
    /// `cgroup.max.descendants`.
    pub max_descendants: Limit,
    /// `cgroup.max.depth`.
    pub max_depth: Limit,
}

impl Settings {
    /// What a new group has: no controllers for its children, not frozen, no CPUs asked for, no limits.
    pub fn fresh() -> Settings
        ensures { result ≡ fresh }
    {
        Settings {
            control: Controllers::empty(),
            freeze: false,
            cpus: CpuSet::empty(),
            max_descendants: Limit::Max,
            max_depth: Limit::Max,
        }
    }
}
