//! One setting of a group, and the value that it is to have.
ghost use Rattle.std.specs.Prelude.{◌≡◌, Some};
ghost use Rattle.cg_model.specs.Key.{with_setting};
ghost use Rattle.cg_tree.specs.NewValue.{field_of, is_limit, is_limited, value_of, value_there, with_new, HasCpusUpTo};
ghost use Rattle.cg_tree.specs.Passing.{control_of};

use cg_boxed::{BoxedCpus, CompactSettings};
use cg_text::{Controllers, Limit};

/// Which setting of a group, and the value that it is to have.
#[derive(Drop)]
pub enum NewValue {
    /// `cgroup.subtree_control`: the controllers that the group's children have.
    Control(Controllers),
    /// `cgroup.freeze`: the group's own value.
    Freeze(bool),
    /// `cpuset.cpus`: the CPUs that are asked for.
    Cpus(BoxedCpus),
    /// `cgroup.max.descendants`.
    MaxDescendants(Limit),
    /// `cgroup.max.depth`.
    MaxDepth(Limit),
}

impl NewValue {
    // Puts it in the place of the setting's value, and gives that one.
    pub(crate) fn exchange(self, settings: &mut CompactSettings) -> NewValue
        ensures settings { settings.new ≡ with_setting (field_of self) (value_of self) settings.old }
        ensures before { result ≡ value_there self settings.old }
    {
        match self {
            NewValue::Control(value) => {
                let before = settings.control();
                settings.set_control(value);
                NewValue::Control(before)
            }
            NewValue::Freeze(value) => {
                let before = settings.freeze();
                settings.set_freeze(value);
                NewValue::Freeze(before)
            }
            NewValue::Cpus(value) => NewValue::Cpus(settings.set_cpus(value)),
            NewValue::MaxDescendants(value) => {
                let before = settings.max_descendants();
                settings.set_max_descendants(value);
                NewValue::MaxDescendants(before)
            }
            NewValue::MaxDepth(value) => {
                let before = settings.max_depth();
                settings.set_max_depth(value);
                NewValue::MaxDepth(before)
            }
        }
    }

    // The controllers that a group of the settings passes on with this value.
    pub(crate) fn control(&self, settings: &CompactSettings) -> Controllers
        ensures { result ≡ control_of (with_new self.now (Some settings.now)) }
    {
        match self {
            NewValue::Control(value) => *value,
            _ => settings.control(),
        }
    }

    // CPUs tell what holds of them.
    pub(crate) fn tell_cpus(&self)
        ensures { HasCpusUpTo 1023 self.now }
    {
        if let NewValue::Cpus(cpus) = self {
            let _ = cpus.contains(0);
        }
    }

    // Whether it is a limit other than `max`.
    pub(crate) fn is_limit(&self) -> bool
        ensures { result ≡ is_limit self.now }
    {
        match self {
            NewValue::MaxDescendants(value) => is_limited(value),
            NewValue::MaxDepth(value) => is_limited(value),
            _ => false,
        }
    }
}

fn is_limited(limit: &Limit) -> bool
    ensures { result ≡ is_limited limit.now }
{
    match limit {
        Limit::Max => false,
        Limit::UpTo(_) => true,
    }
}
