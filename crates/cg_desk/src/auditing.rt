//! Whether sessions and a history agree.
ghost use Rattle.std.specs.Prelude.{◌≡◌, ◌≤◌, ◌↔◌, ◌⊎◌, [], ℕ, Err, IfErr, IfOk, IsSome, IsTrue, OnOk, length};
ghost use Rattle.std.specs.List.{sum_by};
ghost use Rattle.cg_desk.specs.Audit.{AreNumbered, IsAudited};
ghost use Rattle.cg_history.specs.SessionMap.{found, IsOnceEach};
ghost use Rattle.cg_log.specs.Rests.{rests_of};
ghost use Rattle.cg_model.specs.Opens.{opens};
ghost use Rattle.cg_name.specs.declared.refusal.Refusal.TheVariants as refusals;

use crate::session::Session;
use cg_core::{Core, SessionId};
use cg_history::SessionMap;
use cg_log::{Rest, all_are_in};
use cg_name::Refusal;
use std::alloc::Global;

/// Whether these sessions, of which `handed` were handed out, made the machine's history, and have ended: they have the
/// numbers from 1 to `handed`, each once; the log of each has its calls in the history, in order, with their answers; the
/// logs have as many calls as the history has records; and no transaction is open. Else `Disagree`. `Memory` may come in
/// place of either. In time linear in the history, the sessions and `handed`.
pub fn audit(alloc: Global, core: &Core, handed: u32, sessions: &[Session]) -> Result<(), Refusal>
    ensures agrees { OnOk result (IsAudited core.now.history handed sessions.now) }
    ensures disagrees { result ≡ Err refusals.Disagree → ¬ IsAudited core.now.history handed sessions.now }
    ensures refusals { IfErr result (λ e. (e ≡ refusals.Disagree) ⊎ (e ≡ refusals.Memory)) }
{
    let records = core.history();
    if !has_ended(core) || !lengths_add_up(sessions, records.len()) {
        return Err(Refusal::Disagree);
    }
    let mut rests = by_number(alloc, handed, sessions)?;
    if all_are_in(&mut rests, records) {
        Ok(())
    } else {
        Err(Refusal::Disagree)
    }
}

// Whether no transaction is open.
fn has_ended(core: &Core) -> bool
    ensures { IsTrue result ↔ (opens core.now.history ≡ []) }
{
    core.open_count() == 0
}

// Whether the logs have so many calls together.
fn lengths_add_up(sessions: &[Session], calls: usize) -> bool
    ensures { IsTrue result ↔ (sum_by (λ s. length s.log) sessions.now ≡ calls) }
{
    let mut left = calls;
    for session in sessions {
        let own = session.log().len();
        if left < own {
            return false;
        }
        left -= own;
    }
    left == 0
}

// The logs by the sessions' numbers, where these are from 1 to `handed`, each once; else `Disagree`, or `Memory`.
fn by_number<'a>(
    alloc: Global,
    handed: u32,
    sessions: &'a [Session],
) -> Result<SessionMap<Rest<'a>>, Refusal>
    ensures logs { IfOk result (λ rests. rests ≡ rests_of sessions.now) }
    ensures once { IfOk result (λ rests. IsOnceEach rests) }
    ensures numbers { OnOk result (AreNumbered handed sessions.now) }
    ensures disagrees { result ≡ Err refusals.Disagree → ¬ AreNumbered handed sessions.now }
    ensures refusals { IfErr result (λ e. (e ≡ refusals.Disagree) ⊎ (e ≡ refusals.Memory)) }
{
    let mut rests = SessionMap::new(alloc);
    for session in sessions {
        let number = session.id();
        if number.0 == 0 || handed < number.0 || rests.get(number).is_some() {
            return Err(Refusal::Disagree);
        }
        rests.insert(number, Rest::of(session.log()))?;
    }
    if has_all(&rests, handed) {
        Ok(rests)
    } else {
        Err(Refusal::Disagree)
    }
}

// Whether each session from 1 to `handed` has a log.
fn has_all(rests: &SessionMap<Rest>, handed: u32) -> bool
    ensures { IsTrue result ↔ ((n : ℕ) → 1 ≤ n → n ≤ handed → IsSome (found n rests.now)) }
{
    for number in 1..=handed {
        if rests.get(SessionId(number)).is_none() {
            return false;
        }
    }
    true
}
