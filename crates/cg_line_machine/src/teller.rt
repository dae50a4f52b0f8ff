//! A machine with the text that it told last.
ghost use Rattle.std.specs.Prelude.{◌≡◌, ◌⊎◌, ◌≤◌, [], IfErr, IfOk, drop, length};
ghost use Rattle.std.specs.Option.{option_map};
ghost use Rattle.std.specs.Result.{IsErrOf};
ghost use Rattle.cg_line_machine.specs.Status.{status_of};
ghost use Rattle.cg_line_machine.specs.Copies.{Copies};
ghost use Rattle.cg_line_machine.specs.Teller.{AbortsTold, AnswerTold, FileTold, HasNoMemory, StepsTold, TellsAnswer, TextTold, text_of, told_first};
ghost use Rattle.cg_line_machine.specs.declared.status.Status.TheVariants as statuses;
ghost use Rattle.cg_history.specs.Meaning.{answer_of};
ghost use Rattle.cg_model.specs.Opens.{commits, opens};
ghost use Rattle.cg_model.specs.Tree.{Tree};
ghost use Rattle.cg_name.specs.Refusal.{IsSyntaxOrMemory};
ghost use Rattle.cg_name.specs.declared.refusal.Refusal.TheVariants as refusals;
ghost use Rattle.cg_replay.specs.Replay.{tree_now};
ghost use Rattle.cg_script.specs.HistoryText.{history_text};
ghost use Rattle.cg_world_text.specs.World.{SpellsWorld, world_text};

use crate::machine::LineMachine;
use crate::status::Status;
use cg_core::Answer;
use cg_name::Refusal;
use cg_script::write_answer;
use std::alloc::Global;
use std::marker::Model;

/// A machine, its last answer, and the text of the last call that told one. A call that tells anything drops the text before it.
pub struct Teller {
    machine: LineMachine,
    answer: Option<Answer>,
    text: Vec<u8>,
}

// By hand, so that whoever drops one calls this, and doesn't drop each thing in it: that makes proofs shorter.
impl Drop for Teller {
    fn drop(self) {
        let Teller {
            machine: _,
            answer: _,
            text: _,
        } = self;
    }
}

impl Model for Teller {
    ghost use Rattle.std.specs.Option.{option_map};
    ghost use Rattle.cg_history.specs.Meaning.{answer_of};
    ghost use Rattle.cg_line_machine.specs.Teller.{Told};
    ghost use Rattle.cg_line_machine.specs.TellerCode.{told_code};

    ghost Value = { Told };

    ghost coded = { told_code };

    ghost view = { λ t. record { machine = t.machine; answer = option_map answer_of t.answer; text = t.text.items } };
}

impl Teller {
    /// A machine on the world that the text spells, whose history has at most `limit` slots, and nothing told. `Syntax` where the
    /// text spells no world, an unsound one too; `Memory` where there is none for it.
    pub fn open(alloc: Global, world: &[u8], limit: u32) -> Result<Teller, Refusal>
        requires low { 2 ≤ limit }
        requires high { limit ≤ 1048576 }
        ensures value { IfOk result (λ t. (T : Tree) × SpellsWorld world.now T × (t ≡ told_first T limit)) }
        ensures syntax { IsErrOf result refusals.Syntax → (T : Tree) → SpellsWorld world.now T → ⊥ }
        ensures refusals { IfErr result IsSyntaxOrMemory }
    {
        match LineMachine::open(alloc, world, limit) {
            Ok(machine) => Ok(Teller {
                machine,
                answer: None,
                text: Vec::new(alloc),
            }),
            Err(refusal) => Err(refusal),
        }
    }

    /// The text that was told last.
    pub fn text(&self) -> &[u8]
        ensures { result.now ≡ self.now.text }
    {
        self.text.as_slice()
    }

    /// How many transactions are open.
    pub fn open_count(&self) -> u32
        ensures { result ≡ length (opens self.now.machine.core.history) }
    {
        self.machine.open_count()
    }

    /// How many transactions committed.
    pub fn commit_count(&self) -> u32
        ensures { result ≡ commits self.now.machine.core.history }
    {
        self.machine.commit_count()
    }

    /// Answers a line of a schedule, and tells the answer's line, without its newline: nothing for a line that says nothing. The
    /// refusal `Memory` leaves the machine and the last answer as they were; after `Untold` the answer can be told again.
    pub fn step(&mut self, alloc: Global, line: &[u8]) -> Status
        ensures { StepsTold self.old line.now result self.new }
    {
        match self.machine.step_line(alloc, line) {
            Ok(answer) => self.tell_as(Status::Done, answer),
            Err(_) => self.out_of_memory(),
        }
    }

    /// Aborts the open transaction with the least number, and tells the answer's line. Takes memory for the text alone.
    pub fn abort_oldest(&mut self, alloc: Global) -> Status
        ensures { AbortsTold self.old result self.new }
    {
        let answer = self.machine.abort_oldest();
        self.tell_as(Status::NoneOpen, answer)
    }

    /// Tells the last answer again.
    pub fn tell_answer(&mut self) -> Status
        ensures { AnswerTold self.old result self.new }
    {
        let answer = self.answer.take();
        self.tell_as(Status::Done, answer)
    }

    /// Tells the tree as it stands, as the text of a world.
    pub fn tell_world(&mut self) -> Status
        ensures { TextTold (world_text (tree_now self.old.machine.core)) self.old result self.new }
    {
        self.text.clear();
        match self.machine.write_world(&mut self.text) {
            Ok(()) => Status::Done,
            Err(_) => Status::Refused(Refusal::Memory),
        }
    }

    /// Tells the text of the history.
    pub fn tell_history(&mut self) -> Status
        ensures { TextTold (history_text self.old.machine.core.history) self.old result self.new }
    {
        self.text.clear();
        match self.machine.write_history(&mut self.text) {
            Ok(()) => Status::Done,
            Err(_) => Status::Refused(Refusal::Memory),
        }
    }

    /// Tells the text of an interface file of a group in the tree as it stands.
    pub fn tell_file(&mut self, alloc: Global, path: &[u8], name: &[u8]) -> Status
        ensures { FileTold self.old path.now name.now result self.new }
    {
        self.text.clear();
        match self.machine.file(alloc, path, name) {
            Ok(text) => {
                self.text = text;
                Status::Done
            }
            Err(refusal) => Status::Refused(refusal),
        }
    }

    // Keeps an answer and tells it: by this status where there is none.
    fn tell_as(&mut self, quiet: Status, answer: Option<Answer>) -> Status
        ensures machine { self.new.machine ≡ self.old.machine }
        ensures told { TellsAnswer quiet (option_map answer_of answer) result self.new }
    {
        self.text.clear();
        let told = tell(quiet, &answer, &mut self.text);
        self.answer = answer;
        told
    }

    // Tells that there was no memory.
    fn out_of_memory(&mut self) -> Status
        ensures { HasNoMemory self.old result self.new }
    {
        self.text.clear();
        Status::Refused(Refusal::Memory)
    }
}

// Appends the text of an answer to an empty text, and gives its status: this one where there is none.
fn tell(quiet: Status, answer: &Option<Answer>, text: &mut Vec<u8>) -> Status
    requires { text.old.items ≡ [] }
    ensures { ((result ≡ status_of quiet (option_map answer_of answer.now)) × (text.new.items ≡ text_of (option_map answer_of answer.now))) ⊎ ((result ≡ statuses.Untold) × (text.new.items ≡ [])) }
{
    let Some(answer) = answer else {
        return quiet;
    };
    if write_answer(answer, text).is_err() {
        return Status::Untold;
    }
    match answer {
        Answer::Refused(refusal) => Status::Refused(*refusal),
        _ => Status::Done,
    }
}

/// Copies what of a text stands behind its first `from` bytes to the front of `out`, as far as there is room, and gives how many
/// bytes these are. The others of `out` stay.
pub fn copy_text(text: &[u8], from: usize, out: &mut [u8]) -> usize
    ensures { Copies (drop from text.now) out.old out.new result }
{
    if from >= text.len() {
        return 0;
    }
    let rest = &text[from..];
    let count = rest.len().min(out.len());
    out[..count].copy_from_slice(&rest[..count]);
    count
}
