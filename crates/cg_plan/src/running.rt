//! Scripts that are run before anybody is told of them.
ghost use Rattle.std.specs.Prelude.{◌≡◌, true, map, IfOk, IfSome};
ghost use Rattle.cg_core.specs.State.{machine};
ghost use Rattle.cg_history.specs.Meaning.{request_of};
ghost use Rattle.cg_model.specs.Cgroups.{cgroups};
ghost use Rattle.cg_model.specs.Machine.{opened};
ghost use Rattle.cg_plan.specs.Leads.{in_transaction, Accepts, AcceptsAll, Leads};

use crate::reading::requests_of;
use cg_core::{Answer, Core, Request, SessionId};
use cg_diff::difference;
use cg_name::Refusal;
use cg_world::World;
use std::alloc::{AllocError, Global};

// The most slots that a history can have.
const LONGEST_HISTORY: u32 = 1_048_576;

// The session that runs a script.
const SESSION: SessionId = SessionId(1);

// Whether the text is a script that, run in one transaction on the one world, is accepted request by request, commits, and leaves
// the other.
pub(crate) fn leads(
    alloc: Global,
    text: &[u8],
    from: &World,
    to: &World,
) -> Result<bool, AllocError>
    ensures { IfOk result (λ yes. yes ≡ true → Leads text.now from.now to.now) }
{
    let Some(requests) = requests_of(alloc, text)? else {
        return Ok(false);
    };
    match run(alloc, from, requests)? {
        Some(core) => has_tree(alloc, &core, to),
        None => Ok(false),
    }
}

// Whether the machine's tree is that world's.
fn has_tree(alloc: Global, core: &Core, world: &World) -> Result<bool, AllocError>
    ensures { IfOk result (λ yes. yes ≡ true → (machine core.now).tree ≡ world.now) }
{
    let left = core.tree().to_world(alloc)?;
    Ok(difference(alloc, left.tree(), world.tree())?.is_empty())
}

// The machine that ran the requests in one transaction on that world, where it accepted each.
fn run(alloc: Global, from: &World, requests: Vec<Request>) -> Result<Option<Core>, AllocError>
    ensures { IfOk result (λ core. IfSome core (λ core. AcceptsAll (opened cgroups from.now 1048576) (in_transaction (map request_of requests.items)) (machine core))) }
{
    let mut core = Core::open(alloc, from.copy(alloc)?, LONGEST_HISTORY)?;
    if !ask(alloc, &mut core, Request::Begin)? {
        return Ok(None);
    }
    for request in requests {
        if !ask(alloc, &mut core, request)? {
            return Ok(None);
        }
    }
    if !ask(alloc, &mut core, Request::Commit)? {
        return Ok(None);
    }
    Ok(Some(core))
}

// Whether the machine accepts the request.
fn ask(alloc: Global, core: &mut Core, request: Request) -> Result<bool, AllocError>
    ensures { IfOk result (λ yes. yes ≡ true → Accepts (machine core.old) (request_of request) (machine core.new)) }
{
    match core.step(alloc, SESSION, request) {
        Answer::Refused(Refusal::Memory) => Err(AllocError),
        Answer::Refused(_) => Ok(false),
        answer => {
            drop(answer);
            Ok(true)
        }
    }
}
