//! What turns one world into another, in an order that every rule accepts.
use crate::sets::growing;
use crate::steps::Steps;
use cg_boxed::CompactSettings;
use cg_cpus::CpuSet;
use cg_name::Path;
use cg_text::{Limit, Settings};
use cg_world::PlainTree;
use std::alloc::{AllocError, Global};
use std::collections::BTreeSet;

/// The text of a script that is to turn one tree into another. First limits that are in the way are raised, and processes leave the
/// groups that go or are to pass controllers on. Then groups are taken away and controllers disabled, those below first; groups are
/// made and controllers enabled, those above first. Then processes go where they are to be, and settings are written, limits last.
pub(crate) fn script_text(
    alloc: Global,
    from: &PlainTree,
    to: &PlainTree,
) -> Result<Vec<u8>, AllocError> {
    let mut plan = Planning {
        from,
        to,
        raised: growing(alloc, from, to)?,
        steps: Steps::none(alloc),
    };
    plan.take_steps(alloc)?;
    Ok(plan.into_steps().into_text())
}

/// A plan that is being made.
#[derive(Drop)]
struct Planning<'a> {
    from: &'a PlainTree,
    to: &'a PlainTree,
    // The groups that stay and whose limits are raised.
    raised: BTreeSet<Path>,
    steps: Steps,
}

impl Planning<'_> {
    // The steps so far.
    fn into_steps(self) -> Steps {
        let Planning {
            from: _,
            to: _,
            raised: _,
            steps,
        } = self;
        steps
    }

    // All steps, in their order.
    fn take_steps(&mut self, alloc: Global) -> Result<(), AllocError> {
        if self.from.online() != self.to.online() {
            self.steps.online(alloc, self.to.online())?;
        }
        self.raise_limits(alloc)?;
        self.leave_groups(alloc)?;
        self.remove_groups(alloc)?;
        self.disable_controllers(alloc)?;
        self.create_groups(alloc)?;
        self.enable_controllers(alloc)?;
        self.place_processes(alloc)?;
        self.write_settings(alloc)
    }

    fn raise_limits(&mut self, alloc: Global) -> Result<(), AllocError> {
        for (path, settings) in self.from.groups() {
            self.raise(alloc, path, settings)?;
        }
        Ok(())
    }

    fn leave_groups(&mut self, alloc: Global) -> Result<(), AllocError> {
        for (pid, path) in self.from.places() {
            self.leave(alloc, *pid, path)?;
        }
        Ok(())
    }

    // Those below before those above.
    fn remove_groups(&mut self, alloc: Global) -> Result<(), AllocError> {
        for (path, _settings) in self.from.groups().iter().rev() {
            if self.to.settings(path).is_none() {
                self.steps.remove(alloc, path)?;
            }
        }
        Ok(())
    }

    // The same here.
    fn disable_controllers(&mut self, alloc: Global) -> Result<(), AllocError> {
        for (path, settings) in self.from.groups().iter().rev() {
            self.disable(alloc, path, settings)?;
        }
        Ok(())
    }

    // Those above before those below, here and in what follows.
    fn create_groups(&mut self, alloc: Global) -> Result<(), AllocError> {
        for (path, _settings) in self.to.groups() {
            if self.from.settings(path).is_none() {
                self.steps.create(alloc, path)?;
            }
        }
        Ok(())
    }

    fn enable_controllers(&mut self, alloc: Global) -> Result<(), AllocError> {
        for (path, settings) in self.to.groups() {
            let has = self.settings_before(path).control;
            let more = settings.control().difference(&has);
            self.steps.subtree(alloc, path, true, more)?;
        }
        Ok(())
    }

    fn place_processes(&mut self, alloc: Global) -> Result<(), AllocError> {
        for (pid, path) in self.to.places() {
            self.arrive(alloc, *pid, path)?;
        }
        Ok(())
    }

    fn write_settings(&mut self, alloc: Global) -> Result<(), AllocError> {
        for (path, settings) in self.to.groups() {
            self.write(alloc, path, &settings.get())?;
        }
        Ok(())
    }

    // Raises the limits of a group, where they are in the way.
    fn raise(
        &mut self,
        alloc: Global,
        path: &Path,
        settings: &CompactSettings,
    ) -> Result<(), AllocError> {
        if !self.raised.contains(path) || self.to.settings(path).is_none() {
            return Ok(());
        }
        if settings.max_descendants() != Limit::Max {
            self.steps.max_descendants(alloc, path, Limit::Max)?;
        }
        if settings.max_depth() != Limit::Max {
            self.steps.max_depth(alloc, path, Limit::Max)?;
        }
        Ok(())
    }

    // Has a process leave its group, where that goes or is to pass controllers on: for the group where it is to be, or the root where
    // that one can't have it yet.
    fn leave(&mut self, alloc: Global, pid: u32, path: &Path) -> Result<(), AllocError> {
        if !self.has_to_leave(path) {
            return Ok(());
        }
        match self.to.location(pid) {
            Some(goal) if self.is_open(goal) => self.steps.migrate(alloc, pid, goal),
            _ => self.steps.migrate(alloc, pid, &Path::root(alloc)),
        }
    }

    // Whether a group goes, or is to pass controllers on and so can't have processes.
    fn has_to_leave(&self, path: &Path) -> bool {
        match self.to.settings(path) {
            None => true,
            Some(settings) => !path.is_root() && !settings.control().is_empty(),
        }
    }

    // Whether a group can have processes from the first.
    fn is_open(&self, path: &Path) -> bool {
        match self.from.settings(path) {
            None => false,
            Some(settings) => path.is_root() || settings.control().is_empty(),
        }
    }

    // Where a process is once those have left that had to.
    fn is_there(&self, pid: u32, goal: &Path) -> bool {
        match self.from.location(pid) {
            None => true,
            Some(place) if self.has_to_leave(place) => self.is_open(goal) || goal.is_root(),
            Some(place) => place == goal,
        }
    }

    // Moves a process to where it is to be.
    fn arrive(&mut self, alloc: Global, pid: u32, goal: &Path) -> Result<(), AllocError> {
        if self.is_there(pid, goal) {
            return Ok(());
        }
        self.steps.migrate(alloc, pid, goal)
    }

    // Disables what a group that stays isn't to pass on any more.
    fn disable(
        &mut self,
        alloc: Global,
        path: &Path,
        settings: &CompactSettings,
    ) -> Result<(), AllocError> {
        match self.to.settings(path) {
            None => Ok(()),
            Some(goal) => {
                let gone = settings.control().difference(&goal.control());
                self.steps.subtree(alloc, path, false, gone)
            }
        }
    }

    // The settings of a group before anything is done, fresh ones where it isn't there.
    fn settings_before(&self, path: &Path) -> Settings {
        match self.from.settings(path) {
            Some(settings) => settings.get(),
            None => Settings::fresh(),
        }
    }

    // Writes the settings of a group that aren't so yet.
    fn write(&mut self, alloc: Global, path: &Path, goal: &Settings) -> Result<(), AllocError> {
        let before = self.settings_before(path);
        if self.cpus_by_now(alloc, path, before.cpus)? != goal.cpus {
            self.steps.cpus(alloc, path, goal.cpus)?;
        }
        if before.freeze != goal.freeze {
            self.steps.freeze(alloc, path, goal.freeze)?;
        }
        let is_raised = self.raised.contains(path);
        if limit_by_now(is_raised, before.max_descendants) != goal.max_descendants {
            self.steps
                .max_descendants(alloc, path, goal.max_descendants)?;
        }
        if limit_by_now(is_raised, before.max_depth) != goal.max_depth {
            self.steps.max_depth(alloc, path, goal.max_depth)?;
        }
        Ok(())
    }

    // The CPUs that a group asks for by now: none where its parent doesn't pass `cpuset` on any more.
    fn cpus_by_now(
        &self,
        alloc: Global,
        path: &Path,
        before: CpuSet,
    ) -> Result<CpuSet, AllocError> {
        Ok(match path.parent(alloc)? {
            Some(parent) if self.passes_cpuset(&parent) => before,
            _ => CpuSet::empty(),
        })
    }

    // Whether a group is to pass `cpuset` on.
    fn passes_cpuset(&self, path: &Path) -> bool {
        match self.to.settings(path) {
            Some(settings) => settings.control().cpuset,
            None => false,
        }
    }
}

// A limit by now.
fn limit_by_now(is_raised: bool, before: Limit) -> Limit {
    if is_raised { Limit::Max } else { before }
}
