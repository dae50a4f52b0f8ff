//! A schedule being played, and what is told of it.
ghost use Rattle.std.specs.Prelude.{◌≡◌, ◌≤◌, ◌<◌, ◌||◌, ◌++◌, ℕ, true, false, length, IfOk, option_copied};
ghost use Rattle.cg_history.specs.Meaning.{answer_of, request_of};
ghost use Rattle.cg_json_program.specs.Meaning.{told_of};
ghost use Rattle.cg_json_program.specs.Output.{is_refused, opened_reporter, IsEnding, Tells, TellsCall};
ghost use Rattle.cg_json_program.specs.Steps.{aborted, told_bad, told_end, HasNoneOpen};
ghost use Rattle.cg_json_program.specs.Report.{plain_line, told_line};
ghost use Rattle.cg_history.specs.SessionMap.{oldest};
ghost use Rattle.cg_model.specs.Opens.{opens};
ghost use Rattle.cg_replay.specs.Replay.{ending_text, tree_now};
ghost use Rattle.cg_script.specs.Request.{request_text};
ghost use Rattle.cg_world_text.specs.World.{world_text};

use crate::asking::{abort_oldest, ask};
use crate::telling::{Reply, append_told};
use cg_core::{Answer, Core, Request};
use cg_json_world::write_world;
use cg_name::Refusal;
use cg_replay::{Answerer, Player};
use cg_script::{SessionName, read_line, write_line};
use cg_world::World;
use std::alloc::{AllocError, Global};

/// A schedule being played, and what its lines tell.
pub(crate) struct Reporter {
    player: Player,
    // How many lines there were, up to 2^64 - 1.
    lines: u64,
    is_refused: bool,
}

// By hand, so that whoever drops one calls this, and doesn't drop each thing in it: that makes proofs shorter.
impl Drop for Reporter {
    fn drop(self) {
        let Reporter {
            player: _,
            lines: _,
            is_refused: _,
        } = self;
    }
}

impl Reporter {
    /// One before the first line.
    pub(crate) fn open(alloc: Global, world: World, limit: u32) -> Result<Reporter, AllocError>
        requires low { 2 ≤ limit }
        requires high { limit ≤ 1048576 }
        ensures { IfOk result (λ t. t ≡ opened_reporter world limit) }
    {
        Ok(Reporter {
            player: Player::open(alloc, world, limit)?,
            lines: 0,
            is_refused: false,
        })
    }

    /// Whether a request was refused, a line outside the grammar among them.
    pub(crate) fn is_refused(&self) -> bool
        ensures { result ≡ self.now.is_refused }
    {
        self.is_refused
    }

    /// The machine that answers, when nothing more is played.
    pub(crate) fn into_core(self) -> Core
        ensures { result ≡ self.player.core }
    {
        let Reporter {
            player,
            lines: _,
            is_refused: _,
        } = self;
        player.into_core()
    }

    /// What is told of the end: the aborts of what is open, the least number first, and the tree.
    pub(crate) fn end(&mut self, alloc: Global) -> Result<Vec<u8>, AllocError>
        ensures ending { IfOk result (λ out. (e : IsEnding self.old.player out.items (ending_text self.old.player.core)) × (self.new.player ≡ e.last)) }
        ensures kept { self.new.is_refused ≡ self.old.is_refused }
    {
        ending(&mut self.player, alloc)
    }

    // What is told of a line.
    fn tell_line(&mut self, alloc: Global, line: &[u8]) -> Result<Vec<u8>, AllocError>
        ensures { IfOk result (λ out. Tells self.old line.now out.items self.new) }
    {
        self.lines = self.lines.saturating_add(1);
        match read_line(alloc, line) {
            Ok(None) => Ok(Vec::new(alloc)),
            Ok(Some((name, request))) => self.tell_call(alloc, name, request),
            Err(Refusal::Syntax) => self.tell_bad(alloc),
            Err(_) => Err(AllocError),
        }
    }

    // What is told of a session's request, where its line is counted.
    fn tell_call(
        &mut self,
        alloc: Global,
        name: SessionName,
        request: Request,
    ) -> Result<Vec<u8>, AllocError>
        ensures { IfOk result (λ out. TellsCall self.old name (request_of request) out.items self.new) }
    {
        let words = request_words(alloc, name, &request)?;
        match ask(&mut self.player, alloc, name, request)? {
            None => self.tell_bad(alloc),
            Some(reply) => self.tell_reply(alloc, Some(words.as_slice()), &reply),
        }
    }

    // What is told of a line that is refused as it stands, where it is counted.
    fn tell_bad(&mut self, alloc: Global) -> Result<Vec<u8>, AllocError>
        ensures text { IfOk result (λ out. out.items ≡ told_line (told_bad self.old.lines)) }
        ensures state { self.new ≡ record self.old { is_refused = true } }
    {
        let reply = Reply {
            session: None,
            txn: None,
            answer: Answer::Refused(Refusal::Syntax),
        };
        self.tell_reply(alloc, None, &reply)
    }

    // What is told of a reply to the newest line.
    fn tell_reply(
        &mut self,
        alloc: Global,
        request: Option<&[u8]>,
        reply: &Reply,
    ) -> Result<Vec<u8>, AllocError>
        ensures text { IfOk result (λ out. out.items ≡ told_line (told_of (Some self.old.lines) (option_copied request.entry) reply.now)) }
        ensures state { self.new ≡ record self.old { is_refused = self.old.is_refused || is_refused (answer_of reply.now.answer) } }
    {
        self.is_refused = self.is_refused || matches!(reply.answer, Answer::Refused(_));
        let mut out = Vec::new(alloc);
        append_told(Some(self.lines), request, reply, &mut out)?;
        Ok(out)
    }
}

impl Answerer for Reporter {
    ghost answers = { Tells };

    fn answer_line(
        &mut self,
        alloc: Global,
        line: &[u8],
        out: &mut Vec<u8>,
    ) -> Result<(), AllocError> {
        let told = self.tell_line(alloc, line)?;
        out.extend_from_slice(told.as_slice())?;
        Ok(())
    }

    fn answer_long_line(&mut self, out: &mut Vec<u8>) -> Result<(), AllocError> {
        self.lines = self.lines.saturating_add(1);
        let told = self.tell_bad(*out.allocator())?;
        out.extend_from_slice(told.as_slice())?;
        Ok(())
    }
}

// What is told of the end.
fn ending(player: &mut Player, alloc: Global) -> Result<Vec<u8>, AllocError>
    ensures { IfOk result (λ out. (e : IsEnding player.old out.items (ending_text player.old.core)) × (player.new ≡ e.last)) }
{
    let mut out = Vec::new(alloc);
    'ends: while append_abort(player, &mut out)? {}
    write_world(player.core().tree(), &mut out)?;
    Ok(out)
}

// Aborts the open transaction with the least number, and appends what is told of it. False where none is open. After an error, where
// there is no memory, nothing is said of `out`.
fn append_abort(player: &mut Player, out: &mut Vec<u8>) -> Result<bool, AllocError>
    ensures aborted { IfOk result (λ more. more ≡ true → (k : ℕ) × (oldest (opens player.old.core.history) ≡ Some k) × (player.new ≡ aborted player.old k) × (out.new.items ≡ out.old.items ++ told_line (told_end player.old k))
        × (ending_text player.old.core ≡ plain_line (told_end player.old k) ++ ending_text player.new.core)) }
    ensures ended { IfOk result (λ more. more ≡ false → HasNoneOpen player.old × (player.new ≡ player.old) × (out.new.items ≡ out.old.items) × (ending_text player.old.core ≡ world_text (tree_now player.old.core))) }
    ensures fewer { IfOk result (λ more. more ≡ true → length (opens player.new.core.history) < length (opens player.old.core.history)) }
{
    let Some(reply) = abort_oldest(player) else {
        return Ok(false);
    };
    append_told(None, None, &reply, out)?;
    Ok(true)
}

// The words of a request as they are written, without the session's name.
fn request_words(alloc: Global, name: SessionName, request: &Request) -> Result<Vec<u8>, AllocError>
    ensures { IfOk result (λ words. words.items ≡ request_text (request_of request.now)) }
{
    let mut line = Vec::new(alloc);
    write_line(name, request, &mut line)?;
    Vec::from_slice(alloc, &line.as_slice()[name.as_bytes().len() + 1..])
}
