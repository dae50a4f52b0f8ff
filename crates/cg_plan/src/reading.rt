//! Scripts that are read again.
ghost use Rattle.std.specs.Prelude.{false, map, IfOk, IfSome};
ghost use Rattle.cg_history.specs.Meaning.{request_of};
ghost use Rattle.cg_script.specs.Script.{SpellsScript};

use cg_core::Request;
use cg_name::Refusal;
use cg_script::read_script;
use std::alloc::{AllocError, Global};

/// The requests of the script that a text spells. `None` where it spells none, or one that aborts.
pub(crate) fn requests_of(alloc: Global, text: &[u8]) -> Result<Option<Vec<Request>>, AllocError>
    ensures { IfOk result (λ read. IfSome read (λ requests. SpellsScript text.now (map request_of requests.items) false)) }
{
    let script = match read_script(alloc, text) {
        Ok(script) => script,
        Err(Refusal::Syntax) => return Ok(None),
        Err(_) => return Err(AllocError),
    };
    if script.aborts {
        return Ok(None);
    }
    Ok(Some(script.requests))
}
