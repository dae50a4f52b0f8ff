//! What a world can't say, and is left out.
ghost use Rattle.std.specs.Prelude.{◌≡◌, ◌↔◌, [], IsTrue, OnOk};

use cg_name::Path;
use std::alloc::{AllocError, Global};

/// Lines on what was left out, each with the path of its group.
#[derive(Drop)]
pub(crate) struct LeftOut {
    lines: Vec<u8>,
}

impl LeftOut {
    // Nothing.
    pub(crate) fn nothing(alloc: Global) -> LeftOut {
        LeftOut {
            lines: Vec::new(alloc),
        }
    }

    // Whether nothing was left out.
    pub(crate) fn is_nothing(&self) -> bool
        ensures { IsTrue result ↔ (self.now.lines.items ≡ []) }
    {
        self.lines.is_empty()
    }

    // The lines.
    pub(crate) fn lines(&self) -> &[u8]
        ensures { result.now ≡ self.now.lines.items }
    {
        self.lines.as_slice()
    }

    // One more, of the group at this path.
    pub(crate) fn add(&mut self, path: &Path, what: &str) -> Result<(), AllocError>
        ensures { OnOk result (¬ (self.new.lines.items ≡ [])) }
    {
        path.write(&mut self.lines)?;
        self.lines.extend_from_slice(b": ")?;
        self.lines.extend_from_slice(what.as_bytes())?;
        self.lines.push(b'\n')?;
        Ok(())
    }
}
