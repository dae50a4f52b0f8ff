//! A schedule being played, with comments beside its answers.
ghost use Rattle.std.specs.Prelude.{◌≡◌, ◌⊎◌, ◌≤◌, ◌++◌, ◌∷◌, List, ℕ, OnOk, OnErr, IfOk, IfErr};
ghost use Rattle.std.specs.Result.{IsErrOf};
ghost use Rattle.std.specs.Fmt.{decimal};
ghost use Rattle.std.specs.Io.KnownBytes.{Appends};
ghost use Rattle.cg_explain.specs.Comment.{comment};
ghost use Rattle.cg_explain.specs.Explained.{behind_answer, is_beginning, is_refusal, notes_text, opened_with, shown_line, told_text, Explains};
ghost use Rattle.cg_lines.specs.Device.{AppendsFront, Failed};
ghost use Rattle.cg_replay.specs.Replay.{core_ended, ending_text};
ghost use Rattle.cg_script.specs.declared.fault.ScriptFault.TheVariants as faults;

use crate::asked::Asked;
use crate::begun::Begun;
use crate::comment::{append_comment, append_number};
use crate::notes::append_record_notes;
use cg_core::Core;
use cg_replay::{Answerer, Player, Sink, refuse};
use cg_script::ScriptFault;
use cg_text::LONGEST_LINE;
use cg_world::World;
use std::alloc::{AllocError, Global};

/// Which comments stand beside the answers.
#[derive(Clone, Copy, Debug, PartialEq, Eq)]
pub struct Comments {
    /// Before each answer the line that it is to.
    pub echo: bool,
    /// Behind each command that the tree refuses what is in its way.
    pub explain: bool,
}

/// A schedule being played, and what its comments tell of it.
pub(crate) struct Explainer {
    player: Player,
    comments: Comments,
    // How many lines there were, up to 2^64 - 1.
    lines: u64,
    is_refused: bool,
    begun: Begun,
    asked: Asked,
}

// By hand, so that whoever drops one calls this, and doesn't drop each thing in it: that makes proofs shorter.
impl Drop for Explainer {
    fn drop(self) {
        let Explainer {
            player: _,
            comments: _,
            lines: _,
            is_refused: _,
            begun: _,
            asked: _,
        } = self;
    }
}

impl Explainer {
    /// One before the first line.
    pub(crate) fn open(
        alloc: Global,
        world: World,
        limit: u32,
        comments: Comments,
    ) -> Result<Explainer, AllocError>
        requires low { 2 ≤ limit }
        requires high { limit ≤ 1048576 }
        ensures { IfOk result (λ e. e ≡ opened_with comments world limit) }
    {
        Ok(Explainer {
            player: Player::open(alloc, world, limit)?,
            comments,
            lines: 0,
            is_refused: false,
            begun: Begun::none(alloc),
            asked: Asked::none(alloc),
        })
    }

    /// Whether a request was refused, a line outside the grammar among them.
    pub(crate) fn is_refused(&self) -> bool
        ensures { result ≡ self.now.is_refused }
    {
        self.is_refused
    }

    /// The machine that answers, when nothing more is played.
    pub(crate) fn into_core(self) -> Core
        ensures { result ≡ self.player.core }
    {
        let Explainer {
            player,
            comments: _,
            lines: _,
            is_refused: _,
            begun: _,
            asked: _,
        } = self;
        player.into_core()
    }

    /// Writes what waits, and then what the end of the schedule is answered.
    pub(crate) fn write_end<K: Sink>(
        &mut self,
        alloc: Global,
        waiting: &mut Vec<u8>,
        sink: &mut K,
    ) -> Result<(), ScriptFault>
        ensures whole { OnOk result (Appends (K.taken sink.old) (K.taken sink.new) (waiting.old.items ++ ending_text self.old.player.core)) }
        ensures core { OnOk result (self.new.player.core ≡ core_ended self.old.player.core) }
        ensures kept { self.new.is_refused ≡ self.old.is_refused }
        ensures front { OnErr result (AppendsFront (K.taken sink.old) (K.taken sink.new) (waiting.old.items ++ ending_text self.old.player.core)) }
        ensures writes { IsErrOf result faults.WriteFault → Failed (K.failed sink.old) (K.failed sink.new) }
        ensures faults { IfErr result (λ e. (e ≡ faults.WriteFault) ⊎ (e ≡ faults.Memory)) }
    {
        self.player.write_end(alloc, waiting, sink)
    }

    // Counts a line that was answered so, before which there were so many records; `line` is what is shown of it.
    fn count(&mut self, before: usize, line: &[u8], answer: &[u8]) -> Result<(), AllocError>
        ensures { OnOk result (self.new ≡ behind_answer self.old self.old.player before line.now answer.now) }
    {
        self.lines = self.lines.saturating_add(1);
        self.is_refused = self.is_refused || is_refusal(answer);
        if is_beginning(answer) {
            self.begun.add(self.lines, line)?;
        }
        if before < self.player.core().history().len() {
            self.asked.add(self.lines)?;
        }
        Ok(())
    }

    // What is written for the line that was answered so and counted; `line` is what is shown of it.
    fn told(&self, alloc: Global, line: &[u8], answer: &[u8]) -> Result<Vec<u8>, AllocError>
        ensures { IfOk result (λ told. told.items ≡ told_text self.now line.now answer.now) }
    {
        let mut out = Vec::new(alloc);
        if self.comments.echo && !answer.is_empty() {
            append_echo(self.lines, line, &mut out)?;
        }
        out.extend_from_slice(answer)?;
        Ok(out)
    }
}

impl Explainer {
    // Appends what is told of the record that the last line made, if it made one: there were so many before. After an error, where
    // there is no memory, nothing is said of `out`.
    fn append_notes(&self, before: usize, out: &mut Vec<u8>) -> Result<(), AllocError>
        ensures { OnOk result (out.new.items ≡ out.old.items ++ notes_text self.now.comments.explain before self.now.begun self.now.asked self.now.player.core) }
    {
        let core = self.player.core();
        let records = core.history();
        if !self.comments.explain || records.len() <= before {
            return Ok(());
        }
        let newest = &records[records.len() - 1];
        append_record_notes(&self.begun, &self.asked, core, newest, out)
    }
}

impl Answerer for Explainer {
    ghost answers = { Explains };

    fn answer_line(
        &mut self,
        alloc: Global,
        line: &[u8],
        out: &mut Vec<u8>,
    ) -> Result<(), AllocError> {
        let before = self.player.core().history().len();
        let mut answer = Vec::new(alloc);
        self.player.answer(alloc, line, &mut answer)?;
        let shown = shown_line(line);
        self.count(before, shown, answer.as_slice())?;
        let mut told = self.told(alloc, shown, answer.as_slice())?;
        self.append_notes(before, &mut told)?;
        out.extend_from_slice(told.as_slice())?;
        Ok(())
    }

    fn answer_long_line(&mut self, out: &mut Vec<u8>) -> Result<(), AllocError> {
        let alloc = *out.allocator();
        let before = self.player.core().history().len();
        let mut answer = Vec::new(alloc);
        refuse(&mut answer)?;
        self.count(before, b"", answer.as_slice())?;
        let mut told = self.told(alloc, b"", answer.as_slice())?;
        self.append_notes(before, &mut told)?;
        out.extend_from_slice(told.as_slice())?;
        Ok(())
    }
}

// What is shown of a line: nothing of one that is too long.
fn shown_line(line: &[u8]) -> &[u8]
    ensures { result.now ≡ shown_line line.now }
{
    if line.len() <= LONGEST_LINE {
        line
    } else {
        b""
    }
}

// Whether the answer refuses.
fn is_refusal(answer: &[u8]) -> bool
    ensures { result ≡ is_refusal answer.now }
{
    answer.starts_with(b"refused")
}

// Whether the answer begins a transaction.
fn is_beginning(answer: &[u8]) -> bool
    ensures { result ≡ is_beginning answer.now }
{
    answer.starts_with(b"begun ")
}

// Appends a line with its number, as a comment. After an error, where there is no memory, nothing is said of `out`.
fn append_echo(number: u64, line: &[u8], out: &mut Vec<u8>) -> Result<(), AllocError>
    ensures { OnOk result (out.new.items ≡ out.old.items ++ comment (decimal number ++ 32 ∷ line.now)) }
{
    let mut text = Vec::new(*out.allocator());
    append_number(number, &mut text)?;
    text.push(b' ')?;
    text.extend_from_slice(line)?;
    append_comment(text.as_slice(), out)
}
