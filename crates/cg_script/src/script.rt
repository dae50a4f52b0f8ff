//! Scripts: the requests of one transaction.
ghost use Rattle.std.specs.Prelude.{◌≤◌, vec_len};
ghost use Rattle.cg_script.specs.Script.{AreScriptRequests, AreScriptRequests-prop};

use cg_history::Request;

/// What one transaction asks for. It begins by itself, and ends behind its last request.
#[derive(Drop)]
pub struct Script {
    /// Commands, `Save`, `Back` and `Undo`, at most 65,536, in the order in which they are asked for.
    pub requests: Vec<Request>,
    /// Whether it aborts at the end. Else it commits.
    pub aborts: bool,
    ghost few: { vec_len requests ≤ 65536 },
    ghost own: { AreScriptRequests requests.items } by { AreScriptRequests-prop requests.items },
}
