//! A machine and the names of its sessions.
ghost use Rattle.std.specs.Prelude.{◌≡◌, ◌⊎◌, ◌≤◌, ◌++◌, ◌≢◌, Ok, Err, IfErr, IfOk, MatchOption, OnErr, OnOk, length};
ghost use Rattle.std.specs.List.{AllByRecursion};
ghost use Rattle.std.specs.Option.{option_map};
ghost use Rattle.std.specs.Result.{IsErrOf};
ghost use Rattle.cg_core.specs.State.{machine};
ghost use Rattle.cg_core_laws.specs.CommittedCommands.{AreCommits};
ghost use Rattle.cg_core_laws.specs.Laws.{GoBack, IsBusyExactly};
ghost use Rattle.cg_core_laws.specs.MachineOf.{Reached};
ghost use Rattle.cg_core_laws.specs.Room.{RoomKept};
ghost use Rattle.cg_core_laws.specs.Serial.{IsFaithful, IsSerial, OthersStay};
ghost use Rattle.cg_history.specs.Meaning.{answer_of, request_of};
ghost use Rattle.cg_line_machine.specs.Files.{IsFileAsked, NamesNoFile, SpellsNoPath};
ghost use Rattle.cg_line_machine.specs.Steps.{Asked, Steps, AbortsOldest, line_of};
ghost use Rattle.cg_model.specs.Cgroups.{cgroups};
ghost use Rattle.cg_model.specs.Opens.{commits, opens};
ghost use Rattle.cg_model.specs.Sound.{Sound};
ghost use Rattle.cg_model.specs.Tree.{Tree};
ghost use Rattle.cg_name.specs.FileName.{file_word};
ghost use Rattle.cg_name.specs.Path.{SpellsPath};
ghost use Rattle.cg_name.specs.Refusal.{IsSyntaxOrMemory};
ghost use Rattle.cg_name.specs.declared.refusal.Refusal.TheVariants as refusals;
ghost use Rattle.cg_replay.specs.Replay.{Answers, opened, tree_now};
ghost use Rattle.cg_script.specs.HistoryText.{IsAsked, history_text};
ghost use Rattle.cg_world_text.specs.World.{SpellsWorld, world_text};

use cg_core::{Answer, Request};
use cg_name::{FileName, Path, Refusal};
use cg_replay::Player;
use cg_script::{SessionName, read_line, write_history};
use cg_world::World;
use cg_world_text::{ReadWorld, WriteWorld};
use std::alloc::{AllocError, Global};
use std::marker::Model;
use std::str::from_utf8;

/// A machine that is asked by the lines of a schedule, and the names of its sessions in the order in which they first asked.
pub struct LineMachine {
    player: Player,
}

// By hand, so that whoever drops one calls this, and doesn't drop each thing in it: that makes proofs shorter.
impl Drop for LineMachine {
    fn drop(self) {
        let LineMachine { player: _ } = self;
    }
}

impl Model for LineMachine {
    ghost use Rattle.cg_replay.specs.Replay.{Replay};
    ghost use Rattle.cg_replay.specs.ReplayCode.{replay_code};

    ghost Value = { Replay };

    ghost coded = { replay_code };

    ghost view = { λ m. m.player };
}

impl LineMachine {
    /// A machine on the world that the text spells, whose history has at most `limit` slots. `Syntax` where the text spells no
    /// world, an unsound one too; `Memory` where there is none for it.
    pub fn open(alloc: Global, world: &[u8], limit: u32) -> Result<LineMachine, Refusal>
        requires low { 2 ≤ limit }
        requires high { limit ≤ 1048576 }
        ensures value { IfOk result (λ m. (T : Tree) × SpellsWorld world.now T × (m ≡ opened T limit)) }
        ensures syntax { IsErrOf result refusals.Syntax → (T : Tree) → SpellsWorld world.now T → ⊥ }
        ensures refusals { IfErr result IsSyntaxOrMemory }
    {
        match World::read(alloc, world) {
            Ok(world) => {
                let player = Player::open(alloc, world, limit)?;
                Ok(LineMachine { player })
            }
            Err(refusal) => Err(refusal),
        }
    }

    /// Answers a line of a schedule: no answer for a line that says nothing, and the refusal `Syntax` for one outside the grammar,
    /// or with a name too many. An error, where there is no memory, leaves all as it was.
    pub fn step_line(&mut self, alloc: Global, line: &[u8]) -> Result<Option<Answer>, AllocError>
        ensures steps { IfOk result (λ a. Steps self.old line.now (option_map answer_of a) self.new) }
        ensures replayed { IfOk result (λ a. Answers self.old line.now (line_of (option_map answer_of a)) self.new) }
        ensures memory { OnErr result (self.new ≡ self.old) }
    {
        match read_line(alloc, line) {
            Ok(None) => Ok(None),
            Ok(Some((name, request))) => self.ask(alloc, name, request),
            Err(Refusal::Syntax) => Ok(Some(Answer::Refused(Refusal::Syntax))),
            Err(_) => Err(AllocError),
        }
    }

    // Answers a session's request.
    fn ask(
        &mut self,
        alloc: Global,
        name: SessionName,
        request: Request,
    ) -> Result<Option<Answer>, AllocError>
        ensures asked { IfOk result (λ a. Asked self.old name (request_of request) (option_map answer_of a) self.new) }
        ensures memory { OnErr result (self.new ≡ self.old) }
    {
        let Some(answer) = self.player.ask(alloc, name, request)? else {
            return Ok(Some(Answer::Refused(Refusal::Syntax)));
        };
        Ok(Some(answer))
    }

    /// Aborts the open transaction with the least number, as its session's request does; none where no transaction is open. Takes
    /// no memory.
    pub fn abort_oldest(&mut self) -> Option<Answer>
        ensures { AbortsOldest self.old (option_map answer_of result) self.new }
    {
        let session = self.player.core().oldest()?;
        Some(self.player.abort(session))
    }

    /// How many transactions are open.
    pub fn open_count(&self) -> u32
        ensures { result ≡ length (opens self.now.core.history) }
    {
        self.player.core().open_count()
    }

    /// How many transactions committed.
    pub fn commit_count(&self) -> u32
        ensures { result ≡ commits self.now.core.history }
    {
        self.player.core().commit_count()
    }

    /// Appends the tree as it stands, as the text of a world. An error, where there is no memory, leaves `out` as it was.
    pub fn write_world(&self, out: &mut Vec<u8>) -> Result<(), AllocError>
        ensures ok { OnOk result (out.new.items ≡ out.old.items ++ world_text (tree_now self.now.core)) }
        ensures err { OnErr result (out.new.items ≡ out.old.items) }
    {
        self.player.core().tree().write(out)
    }

    /// Appends the text of the history: a schedule that asks for the same again, with each answer in a comment. An error, where
    /// there is no memory, leaves `out` as it was.
    pub fn write_history(&self, out: &mut Vec<u8>) -> Result<(), AllocError>
        ensures ok { OnOk result (out.new.items ≡ out.old.items ++ history_text self.now.core.history) }
        ensures asked { OnOk result (AllByRecursion IsAsked self.now.core.history) }
        ensures err { OnErr result (out.new.items ≡ out.old.items) }
    {
        write_history(self.player.core().history(), out)
    }

    /// The text of an interface file of a group in the tree as it stands: the path of the group and the name of the file are one
    /// word each. `Syntax` where one of them is no such word, `NoGroup` and `NoFile` where there is no such group or file, `Memory`
    /// where there is none for the text.
    pub fn file(&self, alloc: Global, path: &[u8], name: &[u8]) -> Result<Vec<u8>, Refusal>
        ensures value { IfOk result (λ text. IsFileAsked self.now path.now name.now (Ok text.items)) }
        ensures syntax { IsErrOf result refusals.Syntax → SpellsNoPath path.now ⊎ NamesNoFile name.now }
        ensures refused { IfErr result (λ e. e ≢ refusals.Memory → e ≢ refusals.Syntax → IsFileAsked self.now path.now name.now (Err e)) }
    {
        let (path, name) = read_words(alloc, path, name)?;
        cg_derive::file(alloc, self.player.core().tree(), &path, name)
    }

    /// Tells what holds of any machine, whatever was asked of it: what `Core::laws` says. Does nothing: it is called for what its
    /// contract says.
    pub fn laws(&self)
        ensures opening { Sound self.now.core.opening }
        ensures low { 2 ≤ self.now.core.bound }
        ensures high { self.now.core.bound ≤ 1048576 }
        ensures sound { Sound (tree_now self.now.core) }
        ensures reached { Reached self.now.core.opening self.now.core.bound self.now.core.history }
        ensures serial { IsSerial cgroups self.now.core.opening (machine self.now.core) }
        ensures faithful { IsFaithful cgroups self.now.core.opening (machine self.now.core) }
        ensures room { RoomKept self.now.core.opening (machine self.now.core) }
        ensures going_back { GoBack (machine self.now.core) }
        ensures others { OthersStay cgroups (machine self.now.core) }
        ensures busy { IsBusyExactly self.now.core.opening (machine self.now.core) }
        ensures commits { AreCommits cgroups self.now.core.opening self.now.core.history }
    {
        self.player.core().laws();
    }
}

// The path and the file that two words name.
fn read_words(alloc: Global, path: &[u8], name: &[u8]) -> Result<(Path, FileName), Refusal>
    ensures path { IfOk result (λ asked. SpellsPath path.now asked.0) }
    ensures name { IfOk result (λ asked. name.now ≡ file_word asked.1) }
    ensures syntax { IsErrOf result refusals.Syntax → SpellsNoPath path.now ⊎ NamesNoFile name.now }
    ensures refusals { IfErr result IsSyntaxOrMemory }
{
    let (Ok(path), Ok(name)) = (from_utf8(path), from_utf8(name)) else {
        return Err(Refusal::Syntax);
    };
    let path = Path::read(alloc, path)?;
    let name = FileName::read(name)?;
    Ok((path, name))
}
