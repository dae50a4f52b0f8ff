//! The commands of a plan, one behind the other.
use cg_boxed::BoxedCpus;
use cg_command::{Command, CompactOps, OnlineCpus, Pid};
use cg_command_text::write_command;
use cg_cpus::CpuSet;
use cg_name::{Controller, Path};
use cg_text::{ControlOps, Controllers, Limit};
use std::alloc::{AllocError, Global};

/// The text of a script, line by line.
#[derive(Drop)]
pub(crate) struct Steps {
    text: Vec<u8>,
}

impl Steps {
    // No line.
    pub(crate) fn none(alloc: Global) -> Steps {
        Steps {
            text: Vec::new(alloc),
        }
    }

    // The text.
    pub(crate) fn into_text(self) -> Vec<u8> {
        self.text
    }

    // One more.
    fn add(&mut self, command: Command) -> Result<(), AllocError> {
        write_command(&command, &mut self.text)?;
        self.text.push(b'\n')?;
        Ok(())
    }

    // Makes a group.
    pub(crate) fn create(&mut self, alloc: Global, path: &Path) -> Result<(), AllocError> {
        let path = path.copy(alloc)?;
        self.add(Command::Create { path })
    }

    // Takes a group away.
    pub(crate) fn remove(&mut self, alloc: Global, path: &Path) -> Result<(), AllocError> {
        let path = path.copy(alloc)?;
        self.add(Command::Remove { path })
    }

    // Moves a process.
    pub(crate) fn migrate(
        &mut self,
        alloc: Global,
        pid: u32,
        path: &Path,
    ) -> Result<(), AllocError> {
        let Ok(pid) = Pid::try_from(pid) else {
            return Ok(());
        };
        let path = path.copy(alloc)?;
        self.add(Command::Migrate { pid, path })
    }

    // Enables controllers, or disables them, where there are any.
    pub(crate) fn subtree(
        &mut self,
        alloc: Global,
        path: &Path,
        enables: bool,
        controllers: Controllers,
    ) -> Result<(), AllocError> {
        if controllers.is_empty() {
            return Ok(());
        }
        let path = path.copy(alloc)?;
        let ops = CompactOps::new(ops_of(enables, controllers));
        self.add(Command::Subtree { path, ops })
    }

    // Freezes a group, or lets it go on.
    pub(crate) fn freeze(
        &mut self,
        alloc: Global,
        path: &Path,
        value: bool,
    ) -> Result<(), AllocError> {
        let path = path.copy(alloc)?;
        self.add(Command::Freeze { path, value })
    }

    // Asks for CPUs for a group.
    pub(crate) fn cpus(
        &mut self,
        alloc: Global,
        path: &Path,
        cpus: CpuSet,
    ) -> Result<(), AllocError> {
        let path = path.copy(alloc)?;
        self.add(Command::of_cpus(alloc, path, cpus)?)
    }

    // Sets the limit on descendants.
    pub(crate) fn max_descendants(
        &mut self,
        alloc: Global,
        path: &Path,
        limit: Limit,
    ) -> Result<(), AllocError> {
        let path = path.copy(alloc)?;
        self.add(Command::MaxDescendants { path, limit })
    }

    // Sets the limit on depth.
    pub(crate) fn max_depth(
        &mut self,
        alloc: Global,
        path: &Path,
        limit: Limit,
    ) -> Result<(), AllocError> {
        let path = path.copy(alloc)?;
        self.add(Command::MaxDepth { path, limit })
    }

    // Sets which CPUs are online.
    pub(crate) fn online(&mut self, alloc: Global, cpus: CpuSet) -> Result<(), AllocError> {
        match OnlineCpus::try_from(BoxedCpus::new(alloc, cpus)?) {
            Ok(cpus) => self.add(Command::Online { cpus }),
            Err(_) => Ok(()),
        }
    }
}

// What enables these controllers, or disables them.
fn ops_of(enables: bool, controllers: Controllers) -> ControlOps {
    let mut ops = ControlOps::none();
    for controller in Controller::ALL.iter().copied() {
        if controllers.contains(controller) {
            ops.add(enables, controller);
        }
    }
    ops
}
