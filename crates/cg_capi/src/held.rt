//! A boxed teller as its pointer, or none: what C keeps of it.
ghost use Rattle.std.specs.Prelude.{◌≡◌, IsSome, Option};
ghost use Rattle.cg_line_machine.specs.Teller.{Told};

use crate::loose::Loose;
use cg_line_machine::Teller;
use std::alloc::Global;
use std::marker::Model;
use std::ptr::null_mut;

/// A pointer that owns a teller on the C library's heap, or nothing. To C it is a word that only this crate reads.
#[repr(C)]
#[derive(Drop)]
pub struct Held {
    pub(crate) at: *mut u8,
    pub ghost teller: { Option Told },
}

impl Model for Held {
    ghost use Rattle.cg_capi.specs.Owns.{held_owns};

    ghost also_owns = { λ h. held_owns h.at h.teller };
}

impl Held {
    // A pointer that owns nothing.
    pub(crate) fn none() -> Held
        ensures { result.teller ≡ None }
    {
        Held { at: null_mut() }
    }
}

// Forgets what the box has in it, as C does.
pub(crate) fn erase(loose: Loose<Teller, Global>) -> Held
    ensures { result.teller ≡ Some loose.value }
{
    let Loose { at, alloc: _ } = loose;
    Held { at: at as *mut u8 }
}

// Knows it again.
pub(crate) fn restore(alloc: Global, held: Held) -> Loose<Teller, Global>
    requires { IsSome held.teller }
    ensures { held.teller ≡ Some result.value }
{
    let Held { at } = held;
    Loose {
        at: at as *mut Teller,
        alloc,
    }
}
