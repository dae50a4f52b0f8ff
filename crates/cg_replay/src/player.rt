//! A schedule being played: its sessions' names and the machine.
ghost use Rattle.std.specs.Prelude.{◌≡◌, ◌⊎◌, ◌≤◌, ◌<◌, ◌+◌, ◌-◌, ◌++◌, List, ℕ, map, MatchOption, IfOk, IfErr, OnOk, OnErr, Some, length, slice_get, take, true, false};
ghost use Rattle.cg_name.specs.declared.refusal.Refusal.TheVariants.{Syntax};
ghost use Rattle.std.specs.Option.{option_map};
ghost use Rattle.std.specs.Result.{IsErrOf};
ghost use Rattle.std.specs.Io.KnownBytes.{Appends};
ghost use Rattle.cg_lines.specs.Device.{AppendsFront, Failed};
ghost use Rattle.cg_script.specs.declared.fault.ScriptFault.TheVariants as faults;
ghost use Rattle.cg_name.specs.Refusal.{refusal_text};
ghost use Rattle.cg_history.specs.Meaning.{answer_of, request_of};
ghost use Rattle.cg_model.specs.Machine.{step};
ghost use Rattle.cg_model.specs.Opens.{opens};
ghost use Rattle.cg_world_text.specs.World.{world_text};
ghost use Rattle.cg_script.specs.Answer.{answer_text};
ghost use Rattle.cg_core.specs.State.{after, machine, reply};
ghost use Rattle.cg_model.specs.Cgroups.{cgroups};
ghost use Rattle.cg_model.specs.History.{Abort};
ghost use Rattle.cg_model.specs.History as model;
ghost use Rattle.cg_name.specs.SaveName.{IsSaveName};
ghost use Rattle.cg_replay.specs.Replay.{Answers, AnswersWords, AreRefused, IsAnswered, IsAnsweredAs, IsStepped, core_ended, ending_text, opened, tree_now};
ghost use Rattle.cg_script.specs.Request.{newline, SpellsCall, SpellsRequest};
ghost use Rattle.cg_script.specs.Turns.{session_number, with_name};

use crate::answering::Answerer;
use crate::ending::{send_last, write_tree};
use crate::recent::Recent;
use cg_core::{Answer, Core, Request, SessionId};
use cg_lines::Sink;
use cg_name::{Refusal, or_truncate};
use cg_script::{ScriptFault, SessionName, read_request, write_answer};
use cg_text::{LineWords, read_words};
use cg_world::World;
use cg_world_text::WriteWorld;
use indexmap::IndexSet;
use std::alloc::{AllocError, Global};
use std::marker::Model;

// The most session names of a schedule.
const MOST_NAMES: usize = 4_096;

/// The sessions of a schedule by the numbers of their names, and the machine that answers them.
pub struct Player {
    names: IndexSet<SessionName>,
    core: Core,
    // Where names were found last: that tells nothing but where to look first.
    recent: Recent,
}

// By hand, so that whoever drops one calls this, and doesn't drop each thing in it: that makes proofs shorter.
impl Drop for Player {
    fn drop(self) {
        let Player {
            names: _,
            core: _,
            recent: _,
        } = self;
    }
}

impl Model for Player {
    ghost use Rattle.std.specs.Prelude.{◌≤◌};
    ghost use Rattle.indexmap.specs.IndexSet.{index_set_len};
    ghost use Rattle.cg_replay.specs.Replay.{Replay};
    ghost use Rattle.cg_replay.specs.ReplayCode.{replay_code};

    ghost Value = { Replay };

    ghost coded = { replay_code };

    ghost view = { λ p. record { names = p.names.keys; core = p.core } };

    ghost invariant = { λ p. index_set_len p.names ≤ 4096 };
}

impl Player {
    /// A player before the first line.
    pub fn open(alloc: Global, world: World, limit: u32) -> Result<Player, AllocError>
        requires low { 2 ≤ limit }
        requires high { limit ≤ 1048576 }
        ensures { IfOk result (λ p. p ≡ opened world limit) }
    {
        Ok(Player {
            names: IndexSet::new(alloc),
            core: Core::open(alloc, world, limit)?,
            recent: Recent::new(),
        })
    }

    /// Answers a line, at the end of `out`: nothing for a line that says nothing. `Memory` is the only refusal, and
    /// leaves `out` as it was.
    pub fn answer(
        &mut self,
        alloc: Global,
        line: &[u8],
        out: &mut Vec<u8>,
    ) -> Result<(), AllocError>
        ensures ok { OnOk result ((written : List ℕ) × (out.new.items ≡ out.old.items ++ written) × Answers self.old line.now written self.new) }
        ensures err { OnErr result (out.new.items ≡ out.old.items) }
    {
        let mut words = LineWords::new(alloc);
        match read_words(line, &mut words) {
            Ok(true) => self.answer_words(alloc, words.as_slice(), out),
            Ok(false) => Ok(()),
            Err(Refusal::Syntax) => refuse(out),
            Err(_) => Err(AllocError),
        }
    }

    // The same for a line that has these words.
    #[inline(always)]
    fn answer_words(
        &mut self,
        alloc: Global,
        words: &[&str],
        out: &mut Vec<u8>,
    ) -> Result<(), AllocError>
        ensures ok { OnOk result ((written : List ℕ) × (out.new.items ≡ out.old.items ++ written) × AnswersWords self.old (map (λ w. w.now) words.now) written self.new) }
        ensures err { OnErr result (out.new.items ≡ out.old.items) }
    {
        match self.ask_by(alloc, words) {
            Ok(answer) => end_line(&answer, out),
            Err(Refusal::Syntax) => refuse(out),
            Err(_) => Err(AllocError),
        }
    }

    // What is answered to a line that has these words; `Syntax` where they are no session's request, or that of one session too
    // many. A refusal leaves all as it was.
    #[inline(always)]
    fn ask_by(&mut self, alloc: Global, words: &[&str]) -> Result<Answer, Refusal>
        ensures asked { IfOk result (λ a. (n : List ℕ) × (r : model.Request cgroups) × (k : ℕ) × SpellsCall (map (λ w. w.now) words.now) n r × IsAnsweredAs self.old n r k (Some (answer_of a)) self.new) }
        ensures syntax { IsErrOf result Syntax → AreRefused self.old (map (λ w. w.now) words.now) }
        ensures err { OnErr result (self.new ≡ self.old) }
    {
        let [name, others @ ..] = words else {
            return Err(Refusal::Syntax);
        };
        let count = self.names.len();
        let Some(session) = self.session_called(name)? else {
            return Err(Refusal::Syntax);
        };
        let answer = self.ask_as(alloc, session, others);
        if answer.is_err() {
            self.names.truncate(count);
        }
        answer
    }

    // Answers the request that the words spell, of the session with this number; `Syntax` where they spell none. A refusal
    // leaves all as it was.
    #[inline(always)]
    fn ask_as(
        &mut self,
        alloc: Global,
        session: SessionId,
        words: &[&str],
    ) -> Result<Answer, Refusal>
        ensures asked { IfOk result (λ a. (r : model.Request cgroups) × SpellsRequest (map (λ w. w.now) words.now) r × IsStepped self.old session.0 r (answer_of a) self.new) }
        ensures syntax { IsErrOf result Syntax → (r : model.Request cgroups) → SpellsRequest (map (λ w. w.now) words.now) r → ⊥ }
        ensures err { OnErr result (self.new ≡ self.old) }
    {
        let request = read_request(alloc, words)?;
        Ok(self.step(alloc, session, request)?)
    }

    /// The machine that answers.
    pub fn core(&self) -> &Core
        ensures { result.now ≡ self.now.core }
    {
        &self.core
    }

    /// The same, when nothing more is played.
    pub fn into_core(self) -> Core
        ensures { result ≡ self.core }
    {
        let Player {
            names: _,
            core,
            recent: _,
        } = self;
        core
    }

    // The session whose name the word spells, as `session` gives it; `Syntax` where it spells none. One that was asked for before
    // is told by the word, as a rule, before that is read.
    #[inline(always)]
    fn session_called(&mut self, word: &str) -> Result<Option<SessionId>, Refusal>
        ensures valid { OnOk result (IsSaveName word.now) }
        ensures number { IfOk result (λ s. option_map (λ k. k.0) s ≡ session_number self.old.names word.now) }
        ensures names { IfOk result (λ s. MatchOption s (self.new ≡ self.old) (λ _. self.new ≡ record self.old { names = with_name self.old.names word.now })) }
        ensures syntax { IsErrOf result Syntax → ¬ (IsSaveName word.now) }
        ensures err { OnErr result (self.new ≡ self.old) }
    {
        let place = self.recent.get(word.as_bytes());
        if is_at(&self.names, place, word.as_bytes()) {
            return Ok(Some(SessionId(place as u32 + 1)));
        }
        let name = SessionName::read(word)?;
        Ok(self.session_anew(name)?)
    }

    /// The session of this name, which gets the next number where it is new: none where it is one too many. An error, where there is
    /// no memory, leaves all as it was.
    #[inline(always)]
    pub fn session(&mut self, name: SessionName) -> Result<Option<SessionId>, AllocError>
        ensures number { IfOk result (λ s. option_map (λ k. k.0) s ≡ session_number self.old.names name) }
        ensures names { IfOk result (λ s. MatchOption s (self.new ≡ self.old) (λ _. self.new ≡ record self.old { names = with_name self.old.names name })) }
        ensures memory { OnErr result (self.new ≡ self.old) }
    {
        let place = self.recent.get(name.as_bytes());
        if is_at(&self.names, place, name.as_bytes()) {
            return Ok(Some(SessionId(place as u32 + 1)));
        }
        self.session_anew(name)
    }

    // The same, by a look-up.
    #[cold]
    fn session_anew(&mut self, name: SessionName) -> Result<Option<SessionId>, AllocError>
        ensures number { IfOk result (λ s. option_map (λ k. k.0) s ≡ session_number self.old.names name) }
        ensures names { IfOk result (λ s. MatchOption s (self.new ≡ self.old) (λ _. self.new ≡ record self.old { names = with_name self.old.names name })) }
        ensures memory { OnErr result (self.new ≡ self.old) }
    {
        if let Some(index) = self.names.get_index_of(&name) {
            self.recent.note(name.as_bytes(), index);
            return Ok(Some(SessionId(index as u32 + 1)));
        }
        let count = self.names.len();
        if count >= MOST_NAMES {
            return Ok(None);
        }
        self.names.insert(name)?;
        self.recent.note(name.as_bytes(), count);
        Ok(Some(SessionId(count as u32 + 1)))
    }

    /// The name of the session with this number, where one has it.
    pub fn name_of(&self, session: SessionId) -> Option<SessionName>
        ensures { result ≡ slice_get self.now.names (session.0 - 1) }
    {
        self.names
            .get_index(session.0.saturating_sub(1) as usize)
            .copied()
    }

    /// Answers the request of the session with this name: no answer where that is one too many. An error, where there is no memory,
    /// leaves all as it was.
    #[inline(always)]
    pub fn ask(
        &mut self,
        alloc: Global,
        name: SessionName,
        request: Request,
    ) -> Result<Option<Answer>, AllocError>
        ensures asked { IfOk result (λ a. IsAnswered self.old name (request_of request) (option_map answer_of a) self.new) }
        ensures memory { OnErr result (self.new ≡ self.old) }
    {
        let known = self.names.len();
        let Some(session) = self.session(name)? else {
            return Ok(None);
        };
        match self.step(alloc, session, request) {
            Ok(answer) => Ok(Some(answer)),
            Err(AllocError) => {
                self.names.truncate(known);
                Err(AllocError)
            }
        }
    }

    /// Answers the request of the session with this number. An error, where there is no memory, leaves all as it was.
    #[inline(always)]
    pub fn step(
        &mut self,
        alloc: Global,
        session: SessionId,
        request: Request,
    ) -> Result<Answer, AllocError>
        ensures answer { IfOk result (λ a. answer_of a ≡ reply self.old.core session.0 (request_of request)) }
        ensures state { OnOk result (self.new ≡ record self.old { core = after self.old.core session.0 (request_of request) }) }
        ensures machine { OnOk result (step cgroups (machine self.old.core) session.0 (request_of request) ≡ (machine self.new.core, reply self.old.core session.0 (request_of request))) }
        ensures memory { OnErr result (self.new ≡ self.old) }
    {
        let answer = self.core.step(alloc, session, request);
        if let Answer::Refused(Refusal::Memory) = answer {
            return Err(AllocError);
        }
        Ok(answer)
    }

    /// Answers the abort of the session with this number. Takes no memory.
    pub fn abort(&mut self, session: SessionId) -> Answer
        ensures answer { answer_of result ≡ reply self.old.core session.0 Abort }
        ensures state { self.new ≡ record self.old { core = after self.old.core session.0 Abort } }
        ensures machine { step cgroups (machine self.old.core) session.0 Abort ≡ (machine self.new.core, reply self.old.core session.0 Abort) }
    {
        let (answer, _) = self.core.step_without_memory(session, Request::Abort);
        answer
    }

    /// Writes what waits, and then what the end of the schedule is answered.
    pub fn write_end<K: Sink>(
        &mut self,
        alloc: Global,
        waiting: &mut Vec<u8>,
        sink: &mut K,
    ) -> Result<(), ScriptFault>
        ensures whole { OnOk result (Appends (K.taken sink.old) (K.taken sink.new) (waiting.old.items ++ ending_text self.old.core)) }
        ensures core { OnOk result (self.new.core ≡ core_ended self.old.core) }
        ensures front { OnErr result (AppendsFront (K.taken sink.old) (K.taken sink.new) (waiting.old.items ++ ending_text self.old.core)) }
        ensures writes { IsErrOf result faults.WriteFault → Failed (K.failed sink.old) (K.failed sink.new) }
        ensures faults { IfErr result (λ e. (e ≡ faults.WriteFault) ⊎ (e ≡ faults.Memory)) }
    {
        match self.append_aborts(waiting) {
            Ok(()) => write_tree(alloc, self.core.tree(), sink, waiting),
            Err(AllocError) => Err(send_last(sink, waiting)),
        }
    }

    /// Answers the end of the schedule, at the end of `out`: aborts what is open, the least number first, and shows the tree. `Memory`
    /// is the only refusal, and leaves `out` as it was.
    pub fn end(&mut self, alloc: Global, out: &mut Vec<u8>) -> Result<(), AllocError>
        ensures ok { OnOk result (out.new.items ≡ out.old.items ++ ending_text self.old.core) }
        ensures core { OnOk result (self.new.core ≡ core_ended self.old.core) }
        ensures err { OnErr result (out.new.items ≡ out.old.items) }
    {
        let start = out.len();
        let ended = self.append_end(out);
        or_truncate(ended, start, out)
    }

    // The same, where an error leaves what stood there at the front.
    fn append_end(&mut self, out: &mut Vec<u8>) -> Result<(), AllocError>
        ensures ok { OnOk result (out.new.items ≡ out.old.items ++ ending_text self.old.core) }
        ensures core { OnOk result (self.new.core ≡ core_ended self.old.core) }
        ensures kept { OnErr result (take (length out.old.items) out.new.items ≡ out.old.items) }
    {
        self.append_aborts(out)?;
        self.core.tree().write(out)
    }

    // Aborts what is open, the least number first, and appends the answers' lines; an error leaves the first ones of these.
    fn append_aborts(&mut self, out: &mut Vec<u8>) -> Result<(), AllocError>
        ensures aborted { OnOk result ((lines : List ℕ) × (out.new.items ≡ out.old.items ++ lines) × (ending_text self.old.core ≡ lines ++ world_text (tree_now self.new.core))) }
        ensures core { OnOk result (self.new.core ≡ core_ended self.old.core) }
        ensures first { OnErr result ((lines : List ℕ) × (rest : List ℕ) × (out.new.items ≡ out.old.items ++ lines) × (ending_text self.old.core ≡ lines ++ rest)) }
    {
        'ends: while self.append_abort(out)? {}
        Ok(())
    }

    // Aborts the open transaction with the least number, and appends the answer's line. False where none is open.
    fn append_abort(&mut self, out: &mut Vec<u8>) -> Result<bool, AllocError>
        ensures aborted { IfOk result (λ more. more ≡ true → (line : List ℕ) × (out.new.items ≡ out.old.items ++ line) × (ending_text self.old.core ≡ line ++ ending_text self.new.core)) }
        ensures goes_on { IfOk result (λ more. more ≡ true → core_ended self.old.core ≡ core_ended self.new.core) }
        ensures ended { IfOk result (λ more. more ≡ false → (self.new ≡ self.old) × (out.new.items ≡ out.old.items) × (ending_text self.old.core ≡ world_text (tree_now self.old.core))) }
        ensures last { IfOk result (λ more. more ≡ false → self.new.core ≡ core_ended self.old.core) }
        ensures fewer { IfOk result (λ more. more ≡ true → length (opens self.new.core.history) < length (opens self.old.core.history)) }
        ensures err { OnErr result (out.new.items ≡ out.old.items) }
    {
        let Some(session) = self.core.oldest() else {
            return Ok(false);
        };
        self.core.laws();
        let answer = self.abort(session);
        end_line(&answer, out)?;
        Ok(true)
    }
}

impl Answerer for Player {
    ghost answers = { Answers };

    fn answer_line(
        &mut self,
        alloc: Global,
        line: &[u8],
        out: &mut Vec<u8>,
    ) -> Result<(), AllocError> {
        self.answer(alloc, line, out)
    }

    fn answer_long_line(&mut self, out: &mut Vec<u8>) -> Result<(), AllocError> {
        refuse(out)
    }
}

// Whether this is the name at the place. It is a call: each line's answer keeps more in registers beside it.
#[inline(never)]
fn is_at(names: &IndexSet<SessionName>, place: usize, name: &[u8]) -> bool
    ensures valid { result ≡ true → IsSaveName name.now }
    ensures number { result ≡ true → session_number names.now.keys name.now ≡ Some (place + 1) }
    ensures names { result ≡ true → with_name names.now.keys name.now ≡ names.now.keys }
{
    // Names tell that no two of them are equal when they are counted.
    let _ = names.len();
    match names.get_index(place) {
        Some(there) => there.as_bytes() == name,
        None => false,
    }
}

// Appends the line of an answer. An error leaves `out` as it was.
#[inline(always)]
fn end_line(answer: &Answer, out: &mut Vec<u8>) -> Result<(), AllocError>
    ensures ok { OnOk result (out.new.items ≡ out.old.items ++ (answer_text (answer_of answer.now) ++ newline)) }
    ensures err { OnErr result (out.new.items ≡ out.old.items) }
{
    // Most answers are this one, which is appended in one step.
    if let Answer::Done = answer {
        out.extend_from_slice(b"done\n")?;
        return Ok(());
    }
    let start = out.len();
    let written = append_line(answer, out);
    or_truncate(written, start, out)
}

// The same, where an error leaves what stood there at the front.
fn append_line(answer: &Answer, out: &mut Vec<u8>) -> Result<(), AllocError>
    ensures ok { OnOk result (out.new.items ≡ out.old.items ++ (answer_text (answer_of answer.now) ++ newline)) }
    ensures kept { OnErr result (take (length out.old.items) out.new.items ≡ out.old.items) }
{
    write_answer(answer, out)?;
    out.push(b'\n')?;
    Ok(())
}

/// Appends the answer to a line outside the grammar. An error, where there is no memory for it, leaves `out` as it was.
#[cold]
pub fn refuse(out: &mut Vec<u8>) -> Result<(), AllocError>
    ensures ok { OnOk result (out.new.items ≡ out.old.items ++ (refusal_text Syntax ++ newline)) }
    ensures err { OnErr result (out.new.items ≡ out.old.items) }
{
    end_line(&Answer::Refused(Refusal::Syntax), out)
}
