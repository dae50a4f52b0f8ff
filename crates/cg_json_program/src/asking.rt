//! What a player is asked, and what is told of its answers.
ghost use Rattle.std.specs.Prelude.{◌≡◌, ◌<◌, ◌++◌, IfOk, IfSome, MatchOption, length, option_map};
ghost use Rattle.cg_history.specs.Meaning.{request_of};
ghost use Rattle.cg_json_program.specs.Meaning.{said_of};
ghost use Rattle.cg_json_program.specs.Steps.{Asked, EndsOldest};
ghost use Rattle.cg_json_program.specs.Report.{said_line};
ghost use Rattle.cg_model.specs.Opens.{opens};
ghost use Rattle.cg_replay.specs.Replay.{ending_text, tree_now};
ghost use Rattle.cg_world_text.specs.World.{world_text};

use crate::telling::{Reply, told_in};
use cg_core::Request;
use cg_replay::Player;
use cg_script::SessionName;
use std::alloc::{AllocError, Global};

/// Answers a session's request: not where its name is one too many.
pub(crate) fn ask(
    player: &mut Player,
    alloc: Global,
    name: SessionName,
    request: Request,
) -> Result<Option<Reply>, AllocError>
    ensures { IfOk result (λ r. Asked player.old name (request_of request) (option_map said_of r) player.new) }
{
    let Some(session) = player.session(name)? else {
        return Ok(None);
    };
    let before = player.core().txn_of(session);
    let answer = player.step(alloc, session, request)?;
    let txn = told_in(before, &answer);
    Ok(Some(Reply {
        session: Some(name),
        txn,
        answer,
    }))
}

/// Aborts the open transaction with the least number, as the end of a schedule does: not where none is open. Takes no memory.
pub(crate) fn abort_oldest(player: &mut Player) -> Option<Reply>
    ensures aborts { EndsOldest player.old (option_map said_of result) player.new }
    ensures plain { MatchOption result (ending_text player.old.core ≡ world_text (tree_now player.old.core)) (λ r. ending_text player.old.core ≡ said_line (said_of r) ++ ending_text player.new.core) }
    ensures fewer { IfSome result (λ _. length (opens player.new.core.history) < length (opens player.old.core.history)) }
{
    let Some(session) = player.core().oldest() else {
        return None;
    };
    player.core().laws();
    let name = player.name_of(session);
    let before = player.core().txn_of(session);
    let answer = player.abort(session);
    let txn = told_in(before, &answer);
    Some(Reply {
        session: name,
        txn,
        answer,
    })
}
