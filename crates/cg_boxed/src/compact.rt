//! Settings of a group in little room.
ghost use Rattle.std.specs.Prelude.{◌≡◌, IfOk, IsOk, true};
ghost use Rattle.cg_maps.specs.FiniteSet.{is_empty_set};
ghost use Rattle.cg_text.specs.Settings.{fresh};

use crate::cpus::BoxedCpus;
use crate::limit::KeptLimit;
use cg_text::{Controllers, Limit, Settings};
use std::alloc::{AllocError, Global};
use std::marker::Model;
use std::mem::replace;

/// What the interface files of one group hold. The CPUs that it asks for have memory of their own only where one is 64 or
/// more.
pub struct CompactSettings {
    control: Controllers,
    freeze: bool,
    max_descendants: KeptLimit,
    max_depth: KeptLimit,
    cpus: BoxedCpus,
}

// It stands in each group.
const _: () = prove!(size_of::<CompactSettings>() == 40);

// By hand, so that whoever drops one calls this, and doesn't drop each thing in it: that makes proofs shorter.
impl Drop for CompactSettings {
    fn drop(self) {
        let CompactSettings {
            control: _,
            freeze: _,
            max_descendants: _,
            max_depth: _,
            cpus: _,
        } = self;
    }
}

impl Model for CompactSettings {
    ghost use Rattle.cg_text.specs.declared.settings.Settings.{Settings};

    ghost Value = { Settings };

    ghost view = { λ s. record { control = s.control; freeze = s.freeze; cpus = s.cpus; max_descendants = s.max_descendants; max_depth = s.max_depth } };
}

impl PartialEq for CompactSettings {
    ghost use Rattle.cg_text.specs.contracts.settings.SettingsPartialEq.TheImpl as settings_eq;
    ghost use Rattle.cg_text.specs.contracts.settings.SettingsPartialEq.TheImpl.Laws.{laws-law};

    ghost eq = { settings_eq.ghosts.eq };

    ghost laws = { laws-law };

    fn eq(&self, other: &CompactSettings) -> bool {
        self.control == other.control
            && self.freeze == other.freeze
            && self.cpus == other.cpus
            && self.max_descendants.get() == other.max_descendants.get()
            && self.max_depth.get() == other.max_depth.get()
    }
}

impl CompactSettings {
    /// What a new group has.
    pub fn fresh() -> CompactSettings
        ensures { result ≡ fresh }
    {
        CompactSettings {
            control: Controllers::empty(),
            freeze: false,
            max_descendants: KeptLimit::new(Limit::Max),
            max_depth: KeptLimit::new(Limit::Max),
            cpus: BoxedCpus::empty(),
        }
    }

    /// These settings; an error where there is no memory for them. Where no CPUs are asked for, they take none.
    pub fn new(alloc: Global, settings: &Settings) -> Result<CompactSettings, AllocError>
        ensures value { IfOk result (λ s. s ≡ settings.now) }
        ensures without_cpus { is_empty_set settings.now.cpus ≡ true → IsOk result }
    {
        Ok(CompactSettings {
            control: settings.control,
            freeze: settings.freeze,
            max_descendants: KeptLimit::new(settings.max_descendants),
            max_depth: KeptLimit::new(settings.max_depth),
            cpus: BoxedCpus::new(alloc, settings.cpus)?,
        })
    }

    /// The settings.
    pub fn get(&self) -> Settings
        ensures { result ≡ self.now }
    {
        Settings {
            control: self.control,
            freeze: self.freeze,
            cpus: self.cpus.get(),
            max_descendants: self.max_descendants.get(),
            max_depth: self.max_depth.get(),
        }
    }

    /// Equal settings; an error where there is no memory for them. Where no CPUs are asked for, they take none.
    pub fn copy(&self, alloc: Global) -> Result<CompactSettings, AllocError>
        ensures value { IfOk result (λ s. s ≡ self.now) }
        ensures without_cpus { is_empty_set self.now.cpus ≡ true → IsOk result }
    {
        Ok(CompactSettings {
            control: self.control,
            freeze: self.freeze,
            max_descendants: self.max_descendants,
            max_depth: self.max_depth,
            cpus: self.cpus.copy(alloc)?,
        })
    }

    /// `cgroup.subtree_control`: the controllers that the group's children have.
    pub fn control(&self) -> Controllers
        ensures { result ≡ self.now.control }
    {
        self.control
    }

    /// `cgroup.freeze`: the group's own value.
    pub fn freeze(&self) -> bool
        ensures { result ≡ self.now.freeze }
    {
        self.freeze
    }

    /// `cpuset.cpus`: the CPUs that were asked for.
    pub fn cpus(&self) -> &BoxedCpus
        ensures { result.now ≡ self.now.cpus }
    {
        &self.cpus
    }

    /// `cgroup.max.descendants`.
    pub fn max_descendants(&self) -> Limit
        ensures { result ≡ self.now.max_descendants }
    {
        self.max_descendants.get()
    }

    /// `cgroup.max.depth`.
    pub fn max_depth(&self) -> Limit
        ensures { result ≡ self.now.max_depth }
    {
        self.max_depth.get()
    }

    /// Writes `cgroup.subtree_control`.
    pub fn set_control(&mut self, value: Controllers)
        ensures { self.new ≡ record self.old { control = value } }
    {
        self.control = value;
    }

    /// Writes `cgroup.freeze`.
    pub fn set_freeze(&mut self, value: bool)
        ensures { self.new ≡ record self.old { freeze = value } }
    {
        self.freeze = value;
    }

    /// Writes `cpuset.cpus`, and gives the CPUs that were asked for before. Takes no memory.
    pub fn set_cpus(&mut self, value: BoxedCpus) -> BoxedCpus
        ensures settings { self.new ≡ record self.old { cpus = value } }
        ensures before { result ≡ self.old.cpus }
    {
        replace(&mut self.cpus, value)
    }

    /// Writes `cgroup.max.descendants`.
    pub fn set_max_descendants(&mut self, value: Limit)
        ensures { self.new ≡ record self.old { max_descendants = value } }
    {
        self.max_descendants = KeptLimit::new(value);
    }

    /// Writes `cgroup.max.depth`.
    pub fn set_max_depth(&mut self, value: Limit)
        ensures { self.new ≡ record self.old { max_depth = value } }
    {
        self.max_depth = KeptLimit::new(value);
    }
}
