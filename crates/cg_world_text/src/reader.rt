//! Worlds read line by line.
ghost use Rattle.std.specs.Prelude.{◌↔◌, ◌∷◌, ◌++◌, [], List, IfOk, IfErr, OnOk, IsTrue};
ghost use Rattle.std.specs.Result.{IsErrOf};
ghost use Rattle.cg_name.specs.Refusal.{IsSyntaxOrMemory};
ghost use Rattle.cg_text.specs.Words.{Line};
ghost use Rattle.cg_model.specs.Sound.{Sound};
ghost use Rattle.cg_model.specs.Tree.{Tree};
ghost use Rattle.cg_world_text.specs.Reader.{BeginTree, HasTaken, SomeEnds, SpellTree};

use crate::stage::Stage;
use crate::statement::Statement;
use cg_name::Refusal;
use cg_text::{LineWords, read_words};
use cg_world::World;
use std::alloc::Global;
use std::marker::Model;

/// Takes the lines of a world's text one by one and makes the world of them. It keeps the tree, and none of the lines.
#[derive(Drop)]
pub struct WorldReader {
    stage: Stage,
}

impl Model for WorldReader {
    ghost use Rattle.cg_world_text.specs.declared.stage.Stage.{Stage};

    ghost Value = { Stage };

    ghost view = { λ r. r.stage };
}

impl WorldReader {
    /// A reader that has taken no line.
    pub fn new() -> WorldReader
        ensures { HasTaken result [] }
    {
        WorldReader {
            stage: Stage::Begun,
        }
    }

    /// Takes one line more, which is given without its newline. `Syntax` where no lines that begin with those taken and
    /// this one spell a tree, so a bad world is refused at its line; `Memory` where there is none for what the line says.
    /// After an error nothing is told of the reader.
    pub fn take_line(&mut self, alloc: Global, line: &[u8]) -> Result<(), Refusal>
        ensures taken { OnOk result ((lines : List Line) → HasTaken self.old lines → HasTaken self.new (lines ++ line.now ∷ [])) }
        ensures begins { OnOk result ((lines : List Line) → HasTaken self.old lines → BeginTree (lines ++ line.now ∷ [])) }
        ensures syntax { IsErrOf result Refusal.Syntax → (lines : List Line) → HasTaken self.old lines → ¬ (BeginTree (lines ++ line.now ∷ [])) }
        ensures refusals { IfErr result IsSyntaxOrMemory }
    {
        let mut words = LineWords::new(alloc);
        if !read_words(line, &mut words)? {
            return Ok(());
        }
        let statement = Statement::read(alloc, self.stage.version(), words.as_slice())?;
        self.stage.take(alloc, statement)
    }

    /// Whether one of the lines says `end`. Behind it lines can be taken that say nothing.
    pub fn has_ended(&self) -> bool
        ensures { (lines : List Line) → HasTaken self.now lines → IsTrue result ↔ SomeEnds lines }
    {
        matches!(self.stage, Stage::Ended(_, _))
    }

    /// The world of the lines; `Syntax` where they spell no tree or an unsound one, `Memory` where there is none to
    /// test it.
    pub fn finish(self, alloc: Global) -> Result<World, Refusal>
        ensures value { IfOk result (λ w. (lines : List Line) → HasTaken self lines → SpellTree lines w × Sound w) }
        ensures syntax { IsErrOf result Refusal.Syntax → (lines : List Line) (T : Tree) → HasTaken self lines → SpellTree lines T → Sound T → ⊥ }
        ensures refusals { IfErr result IsSyntaxOrMemory }
    {
        let WorldReader { stage } = self;
        match stage {
            Stage::Ended(_, tree) => {
                tree.check_sound(alloc)?;
                Ok(World::from_tree(tree))
            }
            _ => Err(Refusal::Syntax),
        }
    }
}
