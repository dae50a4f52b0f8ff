//! A handle, as C holds it.
ghost use Rattle.std.specs.Prelude.{◌≡◌, IsSome, is_some};
ghost use Rattle.std.specs.Option.{option_map};

use crate::held::{Held, erase, restore};
use crate::loose::Loose;
use cg_line_machine::Teller;
use std::alloc::Global;
use std::mem::replace;

// The mark of a handle with a machine behind it: the bytes of `cgtxopen`. No other mark is one.
const OPEN: u64 = 0x6367_7478_6f70_656e;

/// What C holds: closed, with any other mark, or with a machine behind it.
#[repr(C)]
#[derive(Drop)]
pub struct Handle {
    pub(crate) mark: u64,
    pub(crate) held: Held,
    pub ghost linked: { mark ≡ 7162821792970597742 → IsSome held.teller },
}

impl Handle {
    ghost use Rattle.cg_capi.specs.Calls.{holds};

    /// Whether a machine is behind it.
    pub(crate) fn is_open(&self) -> bool
        ensures { result ≡ is_some (holds self.now) }
    {
        self.mark == OPEN
    }

    // Puts a machine behind it. What was there before is lost.
    pub(crate) fn put(&mut self, teller: Box<Teller, Global>)
        ensures { holds self.new ≡ Some teller.value }
    {
        self.held = erase(Loose::of(teller));
        self.mark = OPEN;
    }

    // Takes the machine from behind it, and closes it.
    pub(crate) fn take(&mut self, alloc: Global) -> Option<Box<Teller, Global>>
        ensures taken { option_map (λ b. b.value) result ≡ holds self.old }
        ensures closed { holds self.new ≡ None }
    {
        if !self.is_open() {
            return None;
        }
        self.mark = 0;
        let held = replace(&mut self.held, Held::none());
        Some(restore(alloc, held).into_box())
    }
}
