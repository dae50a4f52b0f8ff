//! Logs of sessions, compared with a history record by record.
ghost use Rattle.std.specs.Prelude.{◌≡◌, ◌≢◌, ◌↔◌, ◌∷◌, List, Some, IsTrue, length};
ghost use Rattle.std.specs.Bool.{OnFalse, OnTrue};
ghost use Rattle.cg_history.specs.Meaning.{history_of, record_of};
ghost use Rattle.cg_history.specs.SessionMap.{found, with_value, IsOnceEach};
ghost use Rattle.cg_log.specs.Call as model;
ghost use Rattle.cg_log.specs.Rests.{total, AreCallsOf};

use crate::rest::Rest;
use cg_history::{Record, SessionMap};

/// Whether each log has just the calls of its session in these records, which are as many as the calls of all logs. In time linear
/// in the records; calls that are found come off the logs.
pub fn all_are_in(rests: &mut SessionMap<Rest>, records: &[Record]) -> bool
    requires once { IsOnceEach rests.old }
    requires as_many { total rests.old ≡ length records.now }
    ensures { IsTrue result ↔ AreCallsOf (history_of records.now) rests.old }
{
    for entry in records {
        if !take_call(rests, entry) {
            return false;
        }
    }
    true
}

// Takes the next call of its session off, where that is the one recorded here; tells whether it is.
fn take_call(rests: &mut SessionMap<Rest>, entry: &Record) -> bool
    ensures taken { OnTrue result ((rest : List model.Call) × (found entry.now.session.0 rests.old ≡ Some (model.call_in (record_of entry.now) ∷ rest)) × (rests.new ≡ with_value entry.now.session.0 rest rests.old)) }
    ensures other { OnFalse result ((rest : List model.Call) → found entry.now.session.0 rests.old ≢ Some (model.call_in (record_of entry.now) ∷ rest)) }
{
    match rests.get_mut(entry.session) {
        Some(rest) => rest.take(entry),
        None => false,
    }
}
