//! How transactions ended, as a history has it.
ghost use Rattle.std.specs.Prelude.{◌≡◌, IfOk, OnOk, ℕ};
ghost use Rattle.std.specs.BTreeMap.{get};
ghost use Rattle.std.specs.Ordering.{nat_cmp};
ghost use Rattle.cg_history.specs.Meaning.{answer_of, history_of, record_of};
ghost use Rattle.cg_batch.specs.Outcomes.{outcome_behind, outcome_by, outcome_in};

use cg_runner::{Answer, Record};
use std::alloc::{AllocError, Global};
use std::collections::BTreeMap;

/// How a transaction ended.
#[derive(Clone, Copy)]
pub(crate) enum Outcome {
    /// It was committed, as the commit of this number.
    Committed(u32),
    /// It was aborted.
    Aborted,
}

// How each transaction ended that has an end among these records, which come the oldest first, by its number.
pub(crate) fn outcomes_of(
    alloc: Global,
    records: &[Record],
) -> Result<BTreeMap<u32, Outcome>, AllocError>
    ensures { IfOk result (λ outcomes. (t : ℕ) → get nat_cmp outcomes t ≡ outcome_in (history_of records.now) t) }
{
    let mut outcomes = BTreeMap::new(alloc);
    for entry in records {
        note(entry, &mut outcomes)?;
    }
    Ok(outcomes)
}

// Notes how its transaction ended, if it did by this record. Nothing is said of an error, where there is no memory.
fn note(entry: &Record, outcomes: &mut BTreeMap<u32, Outcome>) -> Result<(), AllocError>
    ensures { OnOk result ((t : ℕ) → get nat_cmp outcomes.new t ≡ outcome_behind (record_of entry.now) t (get nat_cmp outcomes.old t)) }
{
    if let Some(outcome) = outcome_by(&entry.answer) {
        outcomes.insert(entry.txn.0, outcome)?;
    }
    Ok(())
}

// How a transaction ended, where that is noted.
pub(crate) fn outcome_of(outcomes: &BTreeMap<u32, Outcome>, transaction: u32) -> Option<Outcome>
    ensures { result ≡ get nat_cmp outcomes.now transaction }
{
    outcomes.get(&transaction).copied()
}

// How a transaction ended that was answered so, if it ended by that.
fn outcome_by(answer: &Answer) -> Option<Outcome>
    ensures { result ≡ outcome_by (answer_of answer.now) }
{
    match answer {
        Answer::Committed(number) => Some(Outcome::Committed(*number)),
        Answer::Aborted(_) => Some(Outcome::Aborted),
        _ => None,
    }
}
