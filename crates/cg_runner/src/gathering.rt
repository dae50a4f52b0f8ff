//! What all workers tell, put in order.
ghost use Rattle.std.specs.Prelude.{◌≡◌, ℕ, [], ◌∷◌, None, IfErr, IfOk, OnErr, OnOk, Some, map, slice_get};
ghost use Rattle.std.specs.List.{AllByRecursion};
ghost use Rattle.std.specs.Result.{IsErrOf};
ghost use Rattle.cg_runner.specs.Workers.{told_by, AreEnds, ArePut};

use crate::end::ScriptEnd;
use crate::fault::RunFault;
use crate::worker::{Finished, Worker};
use std::alloc::Global;

// The ends of so many scripts, in their order, where there is one for each; else `Disagree`, `Memory`, or a worker's fault.
pub(crate) fn gather(
    alloc: Global,
    workers: &[Worker],
    scripts: usize,
) -> Result<Vec<ScriptEnd>, RunFault>
    ensures faultless { OnOk result (AllByRecursion (λ w. w.fault ≡ None) workers.now) }
    ensures ends { IfOk result (λ ends. AreEnds scripts (told_by workers.now) ends.items) }
{
    let mut places = vec![in alloc; None; scripts]?;
    for worker in workers {
        if let Some(fault) = worker.fault {
            return Err(fault);
        }
        put_all(places.as_mut_slice(), worker.finished.as_slice())?;
    }
    ends_of(alloc, places.as_slice())
}

// Puts each end at its script's place, where there is none yet.
fn put_all(places: &mut [Option<ScriptEnd>], finished: &[Finished]) -> Result<(), RunFault>
    ensures put { OnOk result (ArePut finished.now places.old places.new) }
    ensures fault { IfErr result (λ f. f ≡ RunFault.Disagree) }
{
    for one in finished {
        put(places, one)?;
    }
    Ok(())
}

// Puts an end at its script's place, where there is none yet; else, and where there is no such place, it is `Disagree`.
fn put(places: &mut [Option<ScriptEnd>], finished: &Finished) -> Result<(), RunFault>
    ensures put { OnOk result (ArePut (finished.now ∷ []) places.old places.new) }
    ensures taken { OnErr result (¬ (slice_get places.old finished.now.place ≡ Some None)) }
    ensures fault { IfErr result (λ f. f ≡ RunFault.Disagree) }
{
    let Some(None) = places.get(finished.place) else {
        return Err(RunFault::Disagree);
    };
    places[finished.place] = Some(finished.end);
    Ok(())
}

// The ends at all places, where each has one; it is `Disagree` only where one has none.
fn ends_of(alloc: Global, places: &[Option<ScriptEnd>]) -> Result<Vec<ScriptEnd>, RunFault>
    ensures ends { IfOk result (λ ends. map Some ends.items ≡ places.now) }
    ensures missing { IsErrOf result RunFault.Disagree → (i : ℕ) × (slice_get places.now i ≡ Some None) }
{
    let mut ends = Vec::with_capacity(alloc, places.len())?;
    for place in places {
        let Some(end) = *place else {
            return Err(RunFault::Disagree);
        };
        ends.push(end)?;
    }
    Ok(ends)
}
