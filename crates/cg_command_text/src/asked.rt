//! That the commands of the code can be asked for.
ghost use Rattle.cg_command.specs.Meaning.{command_of};
ghost use Rattle.cg_name.specs.Path.{IsPath};
ghost use Rattle.cg_world.specs.Representable.{AreCpusUpTo};
ghost use Rattle.cg_command_text.specs.CommandText.{CanAskFor};

use cg_command::Command;
use cg_cpus::CpuSet;
use cg_name::Path;

/// Every command that code holds can be asked for: its path is one of a group, its PID is from 1 to 4,194,303, its CPUs are up to
/// 1,023, and of those that are to be online there are some. So what `write_command` writes for it spells it.
pub fn commands_can_be_asked_for(command: &Command)
    ensures { CanAskFor (command_of command.now) }
{
    match command {
        Command::Create { path } => tell(path),
        Command::Remove { path } => tell(path),
        Command::Migrate { path, .. } => tell(path),
        Command::Subtree { path, .. } => tell(path),
        Command::Freeze { path, .. } => tell(path),
        Command::LowCpus { path, cpus } => {
            tell(path);
            tell_cpus(&cpus.get());
        }
        Command::WideCpus { path, cpus } => {
            tell(path);
            tell_cpus(&cpus.get());
        }
        Command::Show { path, .. } => tell(path),
        Command::Online { cpus } => tell_cpus(&cpus.cpus.get()),
        Command::MaxDescendants { path, .. } => tell(path),
        Command::MaxDepth { path, .. } => tell(path),
    }
}

// A path tells that it is one of a group when its names are asked for.
fn tell(path: &Path)
    ensures { IsPath path.now }
{
    let _ = path.names();
}

// A set of CPUs tells of its numbers when it is asked for one.
fn tell_cpus(cpus: &CpuSet)
    ensures { AreCpusUpTo 1023 cpus.now }
{
    let _ = cpus.contains(0);
}
