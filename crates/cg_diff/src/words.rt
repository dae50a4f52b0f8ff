//! Values that are told as one word each.
ghost use Rattle.std.specs.Prelude.{◌≡◌, ◌++◌, ℕ, Bool, List, OnOk};
ghost use Rattle.std.specs.Bool.{beq};
ghost use Rattle.cg_name.specs.Path.{path_word, same_path};
ghost use Rattle.cg_text.specs.FileText.{flag_word, limit_word};
ghost use Rattle.cg_world_text.specs.World.{asked_cpus_text, control_text};
ghost use Rattle.cg_diff.specs.Difference.{same_controllers, same_cpus, same_limit};

use cg_cpus::CpuSet;
use cg_name::Path;
use cg_text::{Controllers, Limit, write_names};
use itoa::Buffer;
use std::alloc::AllocError;

/// A value that is told as one word.
pub(crate) trait AsWord {
    /// Whether two values are the same.
    ghost same: { Self → Self → Bool };

    /// The word.
    ghost word: { Self → List ℕ };

    /// Whether the two values are the same.
    fn is_same(&self, other: &Self) -> bool
        ensures { result ≡ same self.now other.now };

    /// Appends the word. After an error, where there is no memory, nothing is said of `out`.
    fn append_word(&self, out: &mut Vec<u8>) -> Result<(), AllocError>
        ensures { OnOk result (out.new.items ≡ out.old.items ++ word self.now) };
}

/// The names of the controllers with commas between them, or a minus for none.
impl AsWord for Controllers {
    ghost same = { same_controllers };

    ghost word = { control_text };

    fn is_same(&self, other: &Controllers) -> bool {
        self == other
    }

    fn append_word(&self, out: &mut Vec<u8>) -> Result<(), AllocError> {
        if !write_names(*self, b',', out)? {
            out.push(b'-')?;
        }
        Ok(())
    }
}

/// The list of the CPUs, or a minus for none.
impl AsWord for CpuSet {
    ghost same = { same_cpus };

    ghost word = { asked_cpus_text };

    fn is_same(&self, other: &CpuSet) -> bool {
        self == other
    }

    fn append_word(&self, out: &mut Vec<u8>) -> Result<(), AllocError> {
        if self.is_empty() {
            out.push(b'-')?;
            return Ok(());
        }
        self.write(out)
    }
}

/// 0 or 1.
impl AsWord for bool {
    ghost same = { beq };

    ghost word = { flag_word };

    fn is_same(&self, other: &bool) -> bool {
        self == other
    }

    fn append_word(&self, out: &mut Vec<u8>) -> Result<(), AllocError> {
        out.push(if *self { b'1' } else { b'0' })?;
        Ok(())
    }
}

/// `max`, or the number.
impl AsWord for Limit {
    ghost same = { same_limit };

    ghost word = { limit_word };

    fn is_same(&self, other: &Limit) -> bool {
        self == other
    }

    fn append_word(&self, out: &mut Vec<u8>) -> Result<(), AllocError> {
        match self {
            Limit::Max => out.extend_from_slice(b"max")?,
            Limit::UpTo(most) => {
                let mut buffer = Buffer::new();
                out.extend_from_slice(buffer.format(most.number).as_bytes())?;
            }
        }
        Ok(())
    }
}

/// The path as in a world.
impl AsWord for Path {
    ghost same = { same_path };

    ghost word = { path_word };

    fn is_same(&self, other: &Path) -> bool {
        self == other
    }

    fn append_word(&self, out: &mut Vec<u8>) -> Result<(), AllocError> {
        self.write(out)
    }
}
