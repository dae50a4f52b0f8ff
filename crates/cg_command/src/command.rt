//! The ten commands (the kernel's cgroup-v2 page, "Organizing Processes and Threads", "Core Interface Files" and "Cpuset
//! Interface Files").
ghost use Rattle.std.specs.Prelude.{◌≡◌, ◌<◌, ℕ, IfOk, IfErr, IsOk, IsTrue, OnErr, OnOk, option_copied};
ghost use Rattle.cg_maps.specs.FiniteSet.{has};
ghost use Rattle.cg_command.specs.Alike.{like};
ghost use Rattle.cg_command.specs.Applied.{entries_after, outcome_of, IsCarriedOut};
ghost use Rattle.cg_command.specs.Meaning.{command_of, path_of};
ghost use Rattle.cg_model.specs.Change.{done, undone, Fits};
ghost use Rattle.cg_model.specs.Command.{Cpus, IsAccepted};
ghost use Rattle.cg_model.specs.Effect.{effect};
ghost use Rattle.cg_model.specs.Room.{RoomFor};
ghost use Rattle.cg_model.specs.Sound.{Sound};
ghost use Rattle.cg_model.specs.System.{Accept, Refuse};
ghost use Rattle.cg_tree.specs.Room.{has_entry};

use crate::apply;
use crate::apply::{create, freeze, max_depth, max_descendants, migrate, online, remove, show};
use crate::checks::{
    check_cpus, check_create, check_freeze, check_limit, check_migrate, check_remove, check_show,
    check_subtree,
};
use crate::compact_ops::CompactOps;
use crate::online_cpus::OnlineCpus;
use crate::pid::Pid;
use crate::shared_cpus::SharedCpus;
use crate::subtree::subtree;
use cg_boxed::{BoxedText, LowCpus};
use cg_cpus::CpuSet;
use cg_inverse::Inverse;
use cg_name::{Path, Refusal};
use cg_text::{FileName, Limit};
use cg_tree::Tree;
use std::alloc::{AllocError, Global};

/// What a session asks of the tree.
pub enum Command {
    /// Makes the group at the path.
    Create {
        /// Where.
        path: Path,
    },
    /// Takes away the group at the path, which has neither children nor processes.
    Remove {
        /// Where.
        path: Path,
    },
    /// Moves a process into a group.
    Migrate {
        /// The process.
        pid: Pid,
        /// The group.
        path: Path,
    },
    /// Writes `cgroup.subtree_control`.
    Subtree {
        /// The group.
        path: Path,
        /// The controllers to be enabled and disabled for its children.
        ops: CompactOps,
    },
    /// Writes `cgroup.freeze`.
    Freeze {
        /// The group.
        path: Path,
        /// Whether it is to be frozen.
        value: bool,
    },
    /// Writes `cpuset.cpus`, of CPUs below 64.
    LowCpus {
        /// The group.
        path: Path,
        /// The CPUs that it asks for.
        cpus: LowCpus,
    },
    /// Writes `cpuset.cpus`, of any CPUs.
    WideCpus {
        /// The group.
        path: Path,
        /// The CPUs that it asks for.
        cpus: SharedCpus,
    },
    /// Reads an interface file.
    Show {
        /// The group.
        path: Path,
        /// The file.
        file: FileName,
    },
    /// Sets which CPUs are online.
    Online {
        /// These CPUs.
        cpus: OnlineCpus,
    },
    /// Writes `cgroup.max.descendants`.
    MaxDescendants {
        /// The group.
        path: Path,
        /// Its limit.
        limit: Limit,
    },
    /// Writes `cgroup.max.depth`.
    MaxDepth {
        /// The group.
        path: Path,
        /// Its limit.
        limit: Limit,
    },
}

// It stands in each record of a history, and is handed on with each line.
const _: () = prove!(size_of::<Command>() == 32);

// By hand, so that whoever drops one calls this, and doesn't drop each thing in it: that makes proofs shorter. As a rule none is
// dropped: the record of its step keeps it.
impl Drop for Command {
    #[cold]
    fn drop(self) {
        match self {
            Command::Create { path: _ } => {}
            Command::Remove { path: _ } => {}
            Command::Migrate { pid: _, path: _ } => {}
            Command::Subtree { path: _, ops: _ } => {}
            Command::Freeze { path: _, value: _ } => {}
            Command::LowCpus { path: _, cpus: _ } => {}
            Command::WideCpus { path: _, cpus: _ } => {}
            Command::Show { path: _, file: _ } => {}
            Command::Online { cpus: _ } => {}
            Command::MaxDescendants { path: _, limit: _ } => {}
            Command::MaxDepth { path: _, limit: _ } => {}
        }
    }
}

/// What an accepted command gives.
#[derive(Drop)]
pub enum Outcome {
    /// It is done.
    Done,
    /// The text of the file that was asked for.
    Text(BoxedText),
}

// By hand, since the same CPUs are the same however they are kept.
impl PartialEq for Command {
    ghost use Rattle.std.specs.Cmp.{on_per};
    ghost use Rattle.cg_command.specs.Alike.{alike, alike_per};

    ghost eq = { λ a b. alike (command_of a) (command_of b) };

    ghost laws = { on_per command_of alike_per };

    fn eq(&self, other: &Command) -> bool {
        self.is_like(other) && self.path() == other.path()
    }
}

impl Eq for Command {
    ghost use Rattle.std.specs.Cmp.{on_equiv};
    ghost use Rattle.cg_command.specs.Alike.{alike_equiv};

    ghost laws = { on_equiv command_of alike_equiv };
}

impl Command {
    // Whether it is the same as the other but for the path.
    fn is_like(&self, other: &Command) -> bool
        ensures { result ≡ like (command_of self.now) (command_of other.now) }
    {
        match (self, other) {
            (Command::Create { .. }, Command::Create { .. })
            | (Command::Remove { .. }, Command::Remove { .. }) => true,
            (Command::Migrate { pid, .. }, Command::Migrate { pid: other, .. }) => pid == other,
            (Command::Subtree { ops, .. }, Command::Subtree { ops: other, .. }) => ops == other,
            (Command::Freeze { value, .. }, Command::Freeze { value: other, .. }) => value == other,
            (Command::LowCpus { cpus, .. }, Command::LowCpus { cpus: other, .. }) => cpus == other,
            (Command::WideCpus { cpus, .. }, Command::WideCpus { cpus: other, .. }) => {
                cpus == other
            }
            (Command::LowCpus { cpus: low, .. }, Command::WideCpus { cpus: wide, .. })
            | (Command::WideCpus { cpus: wide, .. }, Command::LowCpus { cpus: low, .. }) => {
                low.boxed() == *wide.boxed()
            }
            (Command::Show { file, .. }, Command::Show { file: other, .. }) => file == other,
            (Command::Online { cpus }, Command::Online { cpus: other }) => cpus == other,
            (Command::MaxDescendants { limit, .. }, Command::MaxDescendants { limit: other, .. })
            | (Command::MaxDepth { limit, .. }, Command::MaxDepth { limit: other, .. }) => {
                limit == other
            }
            _ => false,
        }
    }

    /// That which has the group at the path ask for these CPUs. An error, where there is no memory for it: where all CPUs are below
    /// 64, it takes none.
    #[inline(always)]
    pub fn of_cpus(alloc: Global, path: Path, cpus: CpuSet) -> Result<Command, AllocError>
        ensures value { IfOk result (λ c. command_of c ≡ Cpus path cpus) }
        ensures low { ((n : ℕ) → IsTrue (has cpus n) → n < 64) → IsOk result }
    {
        if let Some(cpus) = LowCpus::of(&cpus) {
            return Ok(Command::LowCpus { path, cpus });
        }
        let cpus = SharedCpus::new(alloc, cpus)?;
        Ok(Command::WideCpus { path, cpus })
    }

    /// An equal command; an error where there is no memory for it.
    pub fn copy(&self, alloc: Global) -> Result<Command, AllocError>
        ensures { IfOk result (λ c. c ≡ self.now) }
    {
        Ok(match self {
            Command::Create { path } => Command::Create {
                path: path.copy(alloc)?,
            },
            Command::Remove { path } => Command::Remove {
                path: path.copy(alloc)?,
            },
            Command::Migrate { pid, path } => Command::Migrate {
                pid: *pid,
                path: path.copy(alloc)?,
            },
            Command::Subtree { path, ops } => Command::Subtree {
                path: path.copy(alloc)?,
                ops: *ops,
            },
            Command::Freeze { path, value } => Command::Freeze {
                path: path.copy(alloc)?,
                value: *value,
            },
            Command::LowCpus { path, cpus } => Command::LowCpus {
                path: path.copy(alloc)?,
                cpus: *cpus,
            },
            Command::WideCpus { path, cpus } => Command::WideCpus {
                path: path.copy(alloc)?,
                cpus: cpus.copy()?,
            },
            Command::Show { path, file } => Command::Show {
                path: path.copy(alloc)?,
                file: *file,
            },
            Command::Online { cpus } => Command::Online {
                cpus: cpus.copy(alloc)?,
            },
            Command::MaxDescendants { path, limit } => Command::MaxDescendants {
                path: path.copy(alloc)?,
                limit: *limit,
            },
            Command::MaxDepth { path, limit } => Command::MaxDepth {
                path: path.copy(alloc)?,
                limit: *limit,
            },
        })
    }

    /// The path that it names, if it names one.
    pub fn path(&self) -> Option<&Path>
        ensures { option_copied result ≡ path_of (command_of self.now) }
    {
        match self {
            Command::Create { path }
            | Command::Remove { path }
            | Command::Migrate { path, .. }
            | Command::Subtree { path, .. }
            | Command::Freeze { path, .. }
            | Command::LowCpus { path, .. }
            | Command::WideCpus { path, .. }
            | Command::Show { path, .. }
            | Command::MaxDescendants { path, .. }
            | Command::MaxDepth { path, .. } => Some(path),
            Command::Online { .. } => None,
        }
    }

    /// Where its path is long and has an entry in the tree, the command shares the text of that from now on, and lets go of its
    /// own. Takes no memory.
    pub fn share(&mut self, alloc: Global, tree: &Tree)
        ensures { self.new ≡ self.old }
    {
        match self {
            Command::Create { path } => tree.share(alloc, path),
            Command::Remove { path } => tree.share(alloc, path),
            Command::Migrate { path, .. } => tree.share(alloc, path),
            Command::Subtree { path, .. } => tree.share(alloc, path),
            Command::Freeze { path, .. } => tree.share(alloc, path),
            Command::LowCpus { path, .. } => tree.share(alloc, path),
            Command::WideCpus { path, .. } => tree.share(alloc, path),
            Command::Show { path, .. } => tree.share(alloc, path),
            Command::MaxDescendants { path, .. } => tree.share(alloc, path),
            Command::MaxDepth { path, .. } => tree.share(alloc, path),
            Command::Online { .. } => {}
        }
    }

    /// Whether the tree accepts the command: its own checks, in order. A refusal is the one that the command's definition
    /// gives. Takes no memory.
    pub fn check(&self, tree: &Tree) -> Result<(), Refusal>
        ensures accepted { OnOk result (IsAccepted (effect (command_of self.now) tree.now.tree)) }
        ensures refused { IfErr result (λ e. effect (command_of self.now) tree.now.tree ≡ Refuse e) }
    {
        match self {
            Command::Create { path } => check_create(path, tree),
            Command::Remove { path } => check_remove(path, tree),
            Command::Migrate { pid, path } => check_migrate(pid.number, path, tree),
            Command::Subtree { path, ops } => check_subtree(path, ops.get(), tree),
            Command::Freeze { path, .. } => check_freeze(path, tree),
            Command::LowCpus { path, .. } => check_cpus(path, tree),
            Command::WideCpus { path, .. } => check_cpus(path, tree),
            Command::Show { path, file } => check_show(path, *file, tree),
            Command::Online { .. } => Ok(()),
            Command::MaxDescendants { path, .. } => check_limit(path, tree),
            Command::MaxDepth { path, .. } => check_limit(path, tree),
        }
    }

    /// Changes the tree as the accepted command does, and gives its outcome and its inverse: the list of its changes. The
    /// inverse fits, and undoing it at once gives the tree before. A group that is made gets an entry, and no other changes.
    /// An error, where there is no memory, leaves the tree as it was.
    pub fn apply(&self, alloc: Global, tree: &mut Tree) -> Result<(Outcome, Inverse), AllocError>
        requires { IsAccepted (effect (command_of self.now) tree.old.tree) }
        ensures effect { IfOk result (λ r. effect (command_of self.now) tree.old.tree ≡ Accept (outcome_of r.0) r.1) }
        ensures tree { IfOk result (λ r. tree.new.tree ≡ done r.1 tree.old.tree) }
        ensures fits { IfOk result (λ r. Fits r.1 tree.new.tree) }
        ensures room { IfOk result (λ r. RoomFor (has_entry tree.new) r.1) }
        ensures identity { IfOk result (λ r. undone r.1 tree.new.tree ≡ tree.old.tree) }
        ensures sound { Sound tree.old.tree → Sound tree.new.tree }
        ensures entries { OnOk result (tree.new.entries ≡ entries_after (command_of self.now) tree.old.entries) }
        ensures err { OnErr result (tree.new ≡ tree.old) }
    {
        self.run(alloc, tree)
    }

    // Changes the tree as the accepted command does.
    fn run(&self, alloc: Global, tree: &mut Tree) -> Result<(Outcome, Inverse), AllocError>
        requires { IsAccepted (effect (command_of self.now) tree.old.tree) }
        ensures { IsCarriedOut (command_of self.now) tree.old result tree.new }
    {
        match self {
            Command::Create { path } => create(path, alloc, tree),
            Command::Remove { path } => remove(path, alloc, tree),
            Command::Migrate { pid, path } => migrate(pid.number, path, alloc, tree),
            Command::Subtree { path, ops } => subtree(path, ops.get(), alloc, tree),
            Command::Freeze { path, value } => freeze(path, *value, alloc, tree),
            Command::LowCpus { path, cpus } => apply::cpus(path, &cpus.boxed(), alloc, tree),
            Command::WideCpus { path, cpus } => apply::cpus(path, cpus.boxed(), alloc, tree),
            Command::Show { path, file } => show(path, *file, alloc, tree),
            Command::Online { cpus } => online(&cpus.cpus, alloc, tree),
            Command::MaxDescendants { path, limit } => max_descendants(path, *limit, alloc, tree),
            Command::MaxDepth { path, limit } => max_depth(path, *limit, alloc, tree),
        }
    }
}
