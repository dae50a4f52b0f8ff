//! One reading of a whole tree.
ghost use Rattle.std.specs.Prelude.{◌≡◌, ◌⊎◌, ℕ, [], Some, true, IfErr, IfOk, IfSome, IsSome, MatchOption, OnOk};
ghost use Rattle.cg_cpus.specs.CpuList.{SpellsCpus};
ghost use Rattle.cg_maps.specs.FiniteSet.{no_members};
ghost use Rattle.cg_model.specs.Sound.{admits};
ghost use Rattle.cg_model.specs.Tree.{place_of};
ghost use Rattle.cg_name.specs.FileName.{file_word};
ghost use Rattle.cg_name.specs.declared.file_name.FileName.TheVariants as files;
ghost use Rattle.cg_text.specs.Controllers.{no_controllers};
ghost use Rattle.cg_text.specs.Reading.{SpellsPid};
ghost use Rattle.cg_script.specs.declared.fault.ScriptFault.TheVariants as faults;
ghost use Rattle.cg_import.specs.Files.{IsSaid, file_in};
ghost use Rattle.cg_import.specs.Mounted.{AreOnline, AreSaid, AreSettingsIn, IsMountedAt, IsWhole};
ghost use Rattle.cg_import.specs.Taking.{PutsProcesses, passed_on};
ghost use Rattle.cg_import.specs.Values.{ListsPid, SpellsNamed, SpellsPassedOn};

use crate::folders::Folders;
use crate::left_out::LeftOut;
use crate::reading::{file_in, folder_of};
use crate::values::{common, controllers_in, cpus_in, freeze_at, limit_at, lines_in};
use cg_boxed::CompactSettings;
use cg_cpus::CpuSet;
use cg_name::{Name, Path, Refusal};
use cg_program::{Inputs, OpenFault};
use cg_script::ScriptFault;
use cg_text::{Controllers, Settings, read_pid};
use cg_world::PlainTree;
use std::alloc::{AllocError, Global};

// The most groups that are read.
const MOST_GROUPS: u32 = 1_048_576;

// Where the computer tells which CPUs are online.
const CPUS: &str = "/sys/devices/system/cpu";

// A tree that is being read.
#[derive(Drop)]
struct Import {
    tree: PlainTree,
    left_out: LeftOut,
    // The groups that are still to be read. Those above each are in the tree when it is read.
    pending: Vec<Path>,
}

/// Reads the tree at a folder, with these CPUs or those that are online. `ReadFault` where the folder's files aren't those of a root.
pub(crate) fn read_tree<P: Folders>(
    alloc: Global,
    inputs: &P,
    root: &str,
    online: &Option<CpuSet>,
) -> Result<(PlainTree, LeftOut), ScriptFault>
    ensures online { IfOk result (λ read. MatchOption online.now (AreOnline (P.file inputs.now) (P.is_missing inputs.now) root.now read.0.online) (λ cpus. read.0.online ≡ cpus)) }
    ensures read { IfOk result (λ read. IsMountedAt (P.file inputs.now) (P.is_missing inputs.now) root.now read.0) }
    ensures whole { IfOk result (λ read. read.1.lines.items ≡ [] → IsWhole (P.file inputs.now) (P.is_missing inputs.now) root.now read.0) }
    ensures faults { IfErr result (λ e. (e ≡ faults.Memory) ⊎ (e ≡ faults.ReadFault)) }
{
    let Some(text) = file_in(alloc, inputs, root, "cgroup.controllers")? else {
        return Err(ScriptFault::ReadFault);
    };
    let online = online_at(alloc, inputs, root, online)?;
    let (controllers, are_known) = controllers_in(text.as_str());
    let path = Path::root(alloc);
    let mut left_out = LeftOut::nothing(alloc);
    if !are_known {
        left_out.add(
            &path,
            "has controllers that no world knows: they are left out",
        )?;
    }
    let mut import = Import {
        tree: PlainTree::new(alloc, controllers, online),
        left_out,
        pending: Vec::new(alloc),
    };
    import.pending.push(path)?;
    import.take_all(alloc, inputs, root)?;
    let Import {
        tree,
        left_out,
        pending: _,
    } = import;
    Ok((tree, left_out))
}

// The CPUs that are asked for, or else those that are online, as the root's folder tells it, or else this computer.
fn online_at<P: Inputs>(
    alloc: Global,
    inputs: &P,
    root: &str,
    asked: &Option<CpuSet>,
) -> Result<CpuSet, ScriptFault>
    ensures online { IfOk result (λ cpus. MatchOption asked.now (AreOnline (P.file inputs.now) (P.is_missing inputs.now) root.now cpus) (λ asked. cpus ≡ asked)) }
    ensures faults { IfErr result (λ e. (e ≡ faults.Memory) ⊎ (e ≡ faults.ReadFault)) }
{
    if let Some(cpus) = asked {
        return Ok(*cpus);
    }
    if let Some(cpus) = online_in(alloc, inputs, root, "cpuset.cpus.effective")? {
        return Ok(cpus);
    }
    match online_in(alloc, inputs, CPUS, "online")? {
        Some(cpus) => Ok(cpus),
        None => Err(ScriptFault::ReadFault),
    }
}

// The CPUs that a file says, where it says any.
fn online_in<P: Inputs>(
    alloc: Global,
    inputs: &P,
    folder: &str,
    file: &str,
) -> Result<Option<CpuSet>, AllocError>
    ensures { IfOk result (λ online. IfSome online (λ cpus. AreSaid (P.file inputs.now) (P.is_missing inputs.now) (file_in folder.now file.now) cpus)) }
{
    let Some(text) = file_in(alloc, inputs, folder, file)? else {
        return Ok(None);
    };
    match cpus_in(text.as_str()) {
        Some(cpus) if !cpus.is_empty() => Ok(Some(cpus)),
        _ => Ok(None),
    }
}

// Whether the folder is that of a threaded group.
fn is_threaded<P: Inputs>(alloc: Global, inputs: &P, folder: &str) -> Result<bool, AllocError> {
    Ok(match file_in(alloc, inputs, folder, "cgroup.type")? {
        Some(text) => matches!(text.as_str(), "threaded\n" | "domain invalid\n"),
        None => false,
    })
}

// Whether the folder is that of a partition of CPUs.
fn is_partition<P: Inputs>(alloc: Global, inputs: &P, folder: &str) -> Result<bool, AllocError> {
    Ok(
        match file_in(alloc, inputs, folder, "cpuset.cpus.partition")? {
            Some(text) => text.as_str() != "member\n",
            None => false,
        },
    )
}

impl Import {
    // Takes all groups.
    fn take_all<P: Folders>(
        &mut self,
        alloc: Global,
        inputs: &P,
        root: &str,
    ) -> Result<(), ScriptFault>
        requires read { IsMountedAt (P.file inputs.now) (P.is_missing inputs.now) root.now self.old.tree }
        requires whole { self.old.left_out.lines.items ≡ [] → IsWhole (P.file inputs.now) (P.is_missing inputs.now) root.now self.old.tree }
        ensures online { OnOk result (self.new.tree.online ≡ self.old.tree.online) }
        ensures read { OnOk result (IsMountedAt (P.file inputs.now) (P.is_missing inputs.now) root.now self.new.tree) }
        ensures whole { OnOk result (self.new.left_out.lines.items ≡ [] → IsWhole (P.file inputs.now) (P.is_missing inputs.now) root.now self.new.tree) }
        ensures faults { IfErr result (λ e. (e ≡ faults.Memory) ⊎ (e ≡ faults.ReadFault)) }
    {
        for _group in 0..MOST_GROUPS {
            match self.pending.pop() {
                Some(path) => self.take_group(alloc, inputs, root, path)?,
                None => return Ok(()),
            }
        }
        Err(ScriptFault::Memory)
    }

    // Takes a group, where its folder is one's, and puts off those below it.
    fn take_group<P: Folders>(
        &mut self,
        alloc: Global,
        inputs: &P,
        root: &str,
        path: Path,
    ) -> Result<(), ScriptFault>
        requires read { IsMountedAt (P.file inputs.now) (P.is_missing inputs.now) root.now self.old.tree }
        requires whole { self.old.left_out.lines.items ≡ [] → IsWhole (P.file inputs.now) (P.is_missing inputs.now) root.now self.old.tree }
        ensures online { OnOk result (self.new.tree.online ≡ self.old.tree.online) }
        ensures read { OnOk result (IsMountedAt (P.file inputs.now) (P.is_missing inputs.now) root.now self.new.tree) }
        ensures whole { OnOk result (self.new.left_out.lines.items ≡ [] → IsWhole (P.file inputs.now) (P.is_missing inputs.now) root.now self.new.tree) }
        ensures faults { IfErr result (λ e. (e ≡ faults.Memory) ⊎ (e ≡ faults.ReadFault)) }
    {
        // A folder that is listed twice is taken once, and none without what is above it.
        if self.tree.settings(&path).is_some() {
            return Ok(());
        }
        let Some(above) = self.available(alloc, &path)? else {
            return Ok(());
        };
        let folder = folder_of(alloc, root, &path)?;
        let folder = folder.as_str();
        if is_threaded(alloc, inputs, folder)? {
            self.left_out
                .add(&path, "is threaded: it is left out, with all below it")?;
            return Ok(());
        }
        let Some(pids) = file_in(alloc, inputs, folder, "cgroup.procs")? else {
            self.left_out.add(
                &path,
                "has no processes that can be read: it is left out, with all below it",
            )?;
            return Ok(());
        };
        let settings = self.settings_at(alloc, inputs, &path, folder, above)?;
        self.take_processes(alloc, &path, &settings, pids.as_str())?;
        self.take_below(alloc, inputs, &path, folder)?;
        let compact = CompactSettings::new(alloc, &settings)?;
        self.tree.set_group(path, compact)?;
        Ok(())
    }

    // What the files of a group say. What doesn't fit its parent is left out.
    fn settings_at<P: Inputs>(
        &mut self,
        alloc: Global,
        inputs: &P,
        path: &Path,
        folder: &str,
        above: Controllers,
    ) -> Result<Settings, AllocError>
        ensures tree { OnOk result (self.new.tree ≡ self.old.tree) }
        ensures kept { OnOk result (self.new.left_out.lines.items ≡ [] → self.old.left_out.lines.items ≡ []) }
        ensures whole { IfOk result (λ settings. self.new.left_out.lines.items ≡ [] → IsSaid (P.file inputs.now) (P.is_missing inputs.now) (file_in folder.now (file_word files.SubtreeControl)) SpellsNamed no_controllers settings.control) }
        ensures read { IfOk result (λ settings. AreSettingsIn (P.file inputs.now) (P.is_missing inputs.now) folder.now above settings) }
    {
        let control = self.control_at(alloc, inputs, path, folder, above)?;
        let freeze = freeze_at(alloc, inputs, folder, "cgroup.freeze")?;
        let cpus = self.cpus_at(alloc, inputs, path, folder, above)?;
        Ok(Settings {
            control,
            freeze: !path.is_root() && freeze,
            cpus,
            max_descendants: limit_at(alloc, inputs, folder, "cgroup.max.descendants")?,
            max_depth: limit_at(alloc, inputs, folder, "cgroup.max.depth")?,
        })
    }

    // The controllers that the group at a path has from above: none are known where its parent is no group.
    fn available(&self, alloc: Global, path: &Path) -> Result<Option<Controllers>, AllocError>
        ensures { IfOk result (λ above. above ≡ passed_on self.now.tree path.now) }
    {
        let Some(parent) = path.parent(alloc)? else {
            return Ok(Some(self.tree.controllers()));
        };
        match self.tree.settings(&parent) {
            Some(settings) => Ok(Some(settings.control())),
            None => Ok(None),
        }
    }

    // Those that it passes on.
    fn control_at<P: Inputs>(
        &mut self,
        alloc: Global,
        inputs: &P,
        path: &Path,
        folder: &str,
        above: Controllers,
    ) -> Result<Controllers, AllocError>
        ensures tree { OnOk result (self.new.tree ≡ self.old.tree) }
        ensures kept { OnOk result (self.new.left_out.lines.items ≡ [] → self.old.left_out.lines.items ≡ []) }
        ensures whole { IfOk result (λ control. self.new.left_out.lines.items ≡ [] → IsSaid (P.file inputs.now) (P.is_missing inputs.now) (file_in folder.now (file_word files.SubtreeControl)) SpellsNamed no_controllers control) }
        ensures read { IfOk result (λ control. IsSaid (P.file inputs.now) (P.is_missing inputs.now) (file_in folder.now (file_word files.SubtreeControl)) (SpellsPassedOn above) no_controllers control) }
    {
        let Some(text) = file_in(alloc, inputs, folder, "cgroup.subtree_control")? else {
            return Ok(Controllers::empty());
        };
        let (control, are_known) = controllers_in(text.as_str());
        let passed = common(control, above);
        if !are_known || passed != control {
            self.left_out.add(
                path,
                "passes on controllers that no world knows or that it has not: they are left out",
            )?;
        }
        Ok(passed)
    }

    // The CPUs that it asks for.
    fn cpus_at<P: Inputs>(
        &mut self,
        alloc: Global,
        inputs: &P,
        path: &Path,
        folder: &str,
        above: Controllers,
    ) -> Result<CpuSet, AllocError>
        ensures tree { OnOk result (self.new.tree ≡ self.old.tree) }
        ensures kept { OnOk result (self.new.left_out.lines.items ≡ [] → self.old.left_out.lines.items ≡ []) }
        ensures read { IfOk result (λ cpus. IsSaid (P.file inputs.now) (P.is_missing inputs.now) (file_in folder.now (file_word files.Cpus)) SpellsCpus no_members cpus) }
    {
        if path.is_root() {
            return Ok(CpuSet::empty());
        }
        if is_partition(alloc, inputs, folder)? {
            self.left_out
                .add(path, "is a partition of CPUs: that is left out")?;
        }
        let Some(text) = file_in(alloc, inputs, folder, "cpuset.cpus")? else {
            return Ok(CpuSet::empty());
        };
        match cpus_in(text.as_str()) {
            Some(cpus) if cpus.is_empty() || above.cpuset => Ok(cpus),
            _ => {
                self.left_out.add(
                    path,
                    "asks for CPUs that a world can't say: they are left out",
                )?;
                Ok(CpuSet::empty())
            }
        }
    }

    // Takes the processes of a group.
    fn take_processes(
        &mut self,
        alloc: Global,
        path: &Path,
        settings: &Settings,
        pids: &str,
    ) -> Result<(), AllocError>
        ensures puts { OnOk result (PutsProcesses path.now (ListsPid pids.now) self.old.tree self.new.tree) }
        ensures kept { OnOk result (self.new.left_out.lines.items ≡ [] → self.old.left_out.lines.items ≡ []) }
        ensures all { OnOk result ((admits path.now settings.now ≡ true) ⊎ (self.new.left_out.lines.items ≡ []) → (k : ℕ) → ListsPid pids.now k → IsSome (place_of self.new.tree k)) }
    {
        if pids.is_empty() {
            return Ok(());
        }
        if !path.is_root() && !settings.control.is_empty() {
            return self.left_out.add(
                path,
                "has processes and passes controllers on: its processes are left out",
            );
        }
        let lines = lines_in(alloc, pids)?;
        let mut are_known = true;
        for line in lines.as_slice() {
            let is_known = self.take_process(alloc, path, line)?;
            are_known = are_known && is_known;
        }
        if !are_known {
            self.left_out.add(path, "has processes without a PID here: they are left out")?;
        }
        Ok(())
    }

    // Takes the process of a line into the group at this path. Whether the line is a PID.
    fn take_process(&mut self, alloc: Global, path: &Path, line: &str) -> Result<bool, AllocError>
        ensures puts { OnOk result (PutsProcesses path.now (SpellsPid line.now) self.old.tree self.new.tree) }
        ensures same { OnOk result (self.new.left_out ≡ self.old.left_out) }
        ensures all { OnOk result ((k : ℕ) → SpellsPid line.now k → IsSome (place_of self.new.tree k)) }
    {
        let Ok(pid) = read_pid(line) else {
            return Ok(false);
        };
        self.tree.set_place(pid, path.copy(alloc)?)?;
        Ok(true)
    }

    // Puts off the groups below one, so that they are taken by their names.
    fn take_below<P: Folders>(
        &mut self,
        alloc: Global,
        inputs: &P,
        path: &Path,
        folder: &str,
    ) -> Result<(), ScriptFault>
        ensures tree { OnOk result (self.new.tree ≡ self.old.tree) }
        ensures kept { OnOk result (self.new.left_out.lines.items ≡ [] → self.old.left_out.lines.items ≡ []) }
        ensures faults { IfErr result (λ e. (e ≡ faults.Memory) ⊎ (e ≡ faults.ReadFault)) }
    {
        let listed = match inputs.folders(alloc, folder) {
            Ok(listed) => listed,
            Err(OpenFault::Memory) => return Err(ScriptFault::Memory),
            Err(OpenFault::Unreadable) => {
                self.left_out.add(
                    path,
                    "has groups below it that can't be read: they are left out",
                )?;
                return Ok(());
            }
        };
        if listed.has_others {
            self.left_out.add(
                path,
                "has a group below it whose name is no UTF-8: it is left out",
            )?;
        }
        let mut names = listed.names;
        names.as_mut_slice().sort_unstable();
        for name in names.iter().rev() {
            self.put_off(alloc, path, name.as_str())?;
        }
        Ok(())
    }

    // Puts off the group of this name below one.
    fn put_off(&mut self, alloc: Global, path: &Path, name: &str) -> Result<(), AllocError>
        ensures tree { OnOk result (self.new.tree ≡ self.old.tree) }
        ensures kept { OnOk result (self.new.left_out.lines.items ≡ [] → self.old.left_out.lines.items ≡ []) }
    {
        let child = match Name::read(alloc, name) {
            Ok(name) => path.child(alloc, &name),
            Err(refusal) => Err(refusal),
        };
        match child {
            Ok(path) => Ok(self.pending.push(path)?),
            Err(Refusal::Syntax) => self.left_out.add(
                path,
                "has a group below it that no path of a world names: it is left out",
            ),
            Err(_) => Err(AllocError),
        }
    }
}
