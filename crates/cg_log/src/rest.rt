//! What is left of a log while it is compared with a history.
ghost use Rattle.std.specs.Prelude.{◌≡◌, ◌≢◌, ◌∷◌, List, map};
ghost use Rattle.std.specs.Bool.{OnFalse, OnTrue};
ghost use Rattle.cg_history.specs.Meaning.{record_of};
ghost use Rattle.cg_log.specs.Call as model;
ghost use Rattle.cg_log.specs.CallOf.{call_of};

use crate::call::Call;
use cg_history::Record;
use std::marker::Model;

/// The calls of a log that no record was found for yet.
#[derive(Drop)]
pub struct Rest<'a> {
    calls: &'a [Call],
}

impl<'a> Model for Rest<'a> {
    ghost use Rattle.std.specs.Prelude.{List, map};
    ghost use Rattle.cg_log.specs.Call.{Call};
    ghost use Rattle.cg_log.specs.CallCode.{calls_code};
    ghost use Rattle.cg_log.specs.CallOf.{call_of};

    ghost Value = { List Call };

    ghost coded = { calls_code };

    ghost view = { λ r. map call_of r.calls.now };
}

impl<'a> Rest<'a> {
    /// All calls of the log.
    pub fn of(calls: &'a [Call]) -> Rest<'a>
        ensures { result ≡ map call_of calls.now }
    {
        Rest { calls }
    }

    // Takes the next call off, where that is the one recorded here; tells whether it is.
    pub(crate) fn take(&mut self, entry: &Record) -> bool
        ensures taken { OnTrue result (self.old ≡ model.call_in (record_of entry.now) ∷ self.new) }
        ensures other { OnFalse result ((rest : List model.Call) → self.old ≢ model.call_in (record_of entry.now) ∷ rest) }
    {
        let Some((next, later)) = self.calls.split_first() else {
            return false;
        };
        if !next.is_in(entry) {
            return false;
        }
        self.calls = later;
        true
    }
}
