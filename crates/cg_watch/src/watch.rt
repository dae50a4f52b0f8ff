//! Watches: the file that each one looks at, and where it tells what it sees.
ghost use Rattle.std.specs.Prelude.{◌≡◌, ◌⊎◌, IfErr, IfOk};
ghost use Rattle.std.specs.Result.{IsErrOf};
ghost use Rattle.cg_script.specs.declared.fault.ScriptFault.TheVariants.{Syntax, Memory};
ghost use Rattle.cg_watch.specs.Watches.{NamesFile, NamesNone};

use cg_lines::Sink;
use cg_name::{FileName, Path, Refusal};
use cg_script::ScriptFault;
use cg_view::{Told, Viewer};
use crossbeam_channel::Receiver;
use std::alloc::Global;

/// A file of a group that is watched, and a sink for the lines that tell what is seen of it.
#[derive(Drop)]
pub struct Watch<S> {
    /// The path of the group.
    pub path: Path,
    /// The file.
    pub file: FileName,
    /// Where the lines go.
    pub sink: S,
    // The value that was written last, as its line shows it. No value is without a byte.
    pub(crate) value: Vec<u8>,
    // What it looks through in a run.
    pub(crate) subscription: Option<Subscription>,
}

/// What a watch looks through, and where it is told that there is something to see.
#[derive(Drop)]
pub(crate) struct Subscription {
    pub(crate) viewer: Viewer,
    pub(crate) news: Receiver<Told>,
}

impl<S: Sink + Drop> Watch<S> {
    /// A watch of the file that the word names, as PATH:FILE, which tells the sink. `Syntax` where the word has no colon, or
    /// there is no path before its last one, or no interface file's name behind that; `Memory` where there is none for the path.
    pub fn read(alloc: Global, word: &str, sink: S) -> Result<Watch<S>, ScriptFault>
        ensures names { IfOk result (λ w. NamesFile word.now w.path w.file) }
        ensures sink { IfOk result (λ w. w.sink ≡ sink) }
        ensures syntax { IsErrOf result Syntax → NamesNone word.now }
        ensures faults { IfErr result (λ e. (e ≡ Syntax) ⊎ (e ≡ Memory)) }
    {
        let (path, file) = read_word(alloc, word)?;
        Ok(Watch {
            path,
            file,
            sink,
            value: Vec::new(alloc),
            subscription: None,
        })
    }
}

// The path and the file that the word names.
fn read_word(alloc: Global, word: &str) -> Result<(Path, FileName), ScriptFault>
    ensures names { IfOk result (λ named. NamesFile word.now named.0 named.1) }
    ensures syntax { IsErrOf result Syntax → NamesNone word.now }
    ensures faults { IfErr result (λ e. (e ≡ Syntax) ⊎ (e ≡ Memory)) }
{
    let Some((path, file)) = word.rsplit_once(':') else {
        return Err(ScriptFault::Syntax);
    };
    let Ok(file) = FileName::read(file) else {
        return Err(ScriptFault::Syntax);
    };
    match Path::read(alloc, path) {
        Ok(path) => Ok((path, file)),
        Err(Refusal::Syntax) => Err(ScriptFault::Syntax),
        Err(_) => Err(ScriptFault::Memory),
    }
}
