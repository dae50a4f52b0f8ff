//! Texts that are checked.
ghost use Rattle.std.specs.Prelude.{◌≡◌, ◌<◌, IfOk};
ghost use Rattle.cg_check.specs.Right.{IsRight};

use crate::fault::Faults;
use crate::kind::Kind;
use crate::schedule::check_schedule;
use crate::script::check_script;
use crate::world::check_world;
use std::alloc::{AllocError, Global};

/// The faults of a text that is read as this kind: none exactly where it is right, a world as `World::read` reads it, a schedule of
/// which no line is refused, or a script as `read_script` reads it. An error where there is no memory for them.
pub fn check_text<'a>(alloc: Global, kind: Kind, text: &'a [u8]) -> Result<Faults<'a>, AllocError>
    ensures right { IfOk result (λ faults. faults.count ≡ 0 → IsRight kind text.now) }
    ensures wrong { IfOk result (λ faults. 0 < faults.count → IsRight kind text.now → ⊥) }
{
    match kind {
        Kind::World => check_world(alloc, text),
        Kind::Schedule => check_schedule(alloc, text),
        Kind::Script => check_script(alloc, text),
    }
}
