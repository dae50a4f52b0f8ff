//! The interface files of a group.
ghost use Rattle.std.specs.Prelude.{◌≡◌, IfOk, IfErr, Some};
ghost use Rattle.std.specs.Result.{IsErrOf};
ghost use Rattle.cg_name.specs.declared.refusal.Refusal.TheVariants.{Syntax};
ghost use Rattle.std.specs.Fmt.{padded};
ghost use Rattle.cg_name.specs.FileName.{file_word};
ghost use Rattle.cg_name.specs.Reads.{Reads};

use crate::refusal::Refusal;
use std::fmt;
use std::str::FromStr;

/// One of the nine interface files that a group may show.
#[derive(Clone, Copy, Debug, PartialEq, Eq)]
pub enum FileName {
    /// `cgroup.procs`.
    Procs,
    /// `cgroup.controllers`.
    Controllers,
    /// `cgroup.subtree_control`.
    SubtreeControl,
    /// `cgroup.events`.
    Events,
    /// `cgroup.freeze`.
    Freeze,
    /// `cpuset.cpus`.
    Cpus,
    /// `cpuset.cpus.effective`.
    EffectiveCpus,
    /// `cgroup.max.descendants`.
    MaxDescendants,
    /// `cgroup.max.depth`.
    MaxDepth,
}

impl FileName {
    /// The file's name, as the kernel spells it.
    pub fn word(self) -> &'static str
        ensures { result.now ≡ file_word self }
    {
        match self {
            FileName::Procs => "cgroup.procs",
            FileName::Controllers => "cgroup.controllers",
            FileName::SubtreeControl => "cgroup.subtree_control",
            FileName::Events => "cgroup.events",
            FileName::Freeze => "cgroup.freeze",
            FileName::Cpus => "cpuset.cpus",
            FileName::EffectiveCpus => "cpuset.cpus.effective",
            FileName::MaxDescendants => "cgroup.max.descendants",
            FileName::MaxDepth => "cgroup.max.depth",
        }
    }

    /// The file of that name; `Syntax` where none of the nine has it.
    pub fn read(text: &str) -> Result<FileName, Refusal>
        ensures value { IfOk result (λ file. text.now ≡ file_word file) }
        ensures syntax { IsErrOf result Syntax → (file : FileName) → ¬ (text.now ≡ file_word file) }
        ensures refusals { IfErr result (λ e. e ≡ Syntax) }
    {
        match text {
            "cgroup.procs" => Ok(FileName::Procs),
            "cgroup.controllers" => Ok(FileName::Controllers),
            "cgroup.subtree_control" => Ok(FileName::SubtreeControl),
            "cgroup.events" => Ok(FileName::Events),
            "cgroup.freeze" => Ok(FileName::Freeze),
            "cpuset.cpus" => Ok(FileName::Cpus),
            "cpuset.cpus.effective" => Ok(FileName::EffectiveCpus),
            "cgroup.max.descendants" => Ok(FileName::MaxDescendants),
            "cgroup.max.depth" => Ok(FileName::MaxDepth),
            _ => Err(Refusal::Syntax),
        }
    }
}

impl FromStr for FileName {
    type Err = Refusal;

    ghost from_str_gives = { Reads (λ text file. text ≡ file_word file) };

    fn from_str(text: &str) -> Result<FileName, Refusal> {
        FileName::read(text)
    }
}

/// Shows the file's name.
impl fmt::Display for FileName {
    ghost output = { λ file. Some (file_word file) };

    ghost styled_output = { λ file spec. Some (padded spec (file_word file)) };

    fn fmt<W: fmt::Write>(&self, f: &mut fmt::Formatter<W>) -> fmt::Result {
        f.pad(self.word())
    }
}
