//! What readers see: the tree after the operations that were published, beside the list of these.
ghost use Rattle.std.specs.Prelude.{◌≡◌, [], ◌∷◌, ◌++◌, IfOk, OnOk, OnErr};
ghost use Rattle.cg_view.specs.Operations.{commits_in, tree_after};

use crate::operation::Operation;
use cg_tree::Tree;
use cg_world::World;
use left_right::Absorb;
use std::alloc::{AllocError, Global};

/// A tree, the world that it began with, and the operations that changed it since, the first one first, with the number of
/// scripts that they committed.
#[derive(Drop)]
pub struct Shown {
    alloc: Global,
    pub opening: World,
    pub tree: Tree,
    pub operations: Vec<Operation>,
    // No more than there are operations.
    pub commits: usize,
    ghost counted: { commits ≡ commits_in operations.items },
    ghost kept: { tree.tree ≡ tree_after opening operations.items },
}

impl Shown {
    /// The tree of the world, with no operations. An error where there is no memory.
    pub fn new(alloc: Global, world: &World) -> Result<Shown, AllocError>
        ensures { IfOk result (λ s. (s.opening ≡ world.now) × (s.operations.items ≡ [])) }
    {
        Ok(Shown {
            alloc,
            opening: world.copy(alloc)?,
            tree: Tree::from_world(alloc, world)?,
            operations: Vec::new(alloc),
            commits: 0,
        })
    }

    // Changes the tree as the operation does, and lists it. An error, where there is no memory, changes nothing.
    #[tactic(auto, using(crate::proofs::Operations::tree_after_push, crate::proofs::Operations::commits_push))]
    fn take_in(&mut self, operation: &Operation) -> Result<(), AllocError>
        ensures opening { self.new.opening ≡ self.old.opening }
        ensures ok { OnOk result (self.new.operations.items ≡ self.old.operations.items ++ operation.now ∷ []) }
        ensures err { OnErr result (self.new.operations.items ≡ self.old.operations.items) }
    {
        self.operations.reserve(1)?;
        let copy = operation.copy(self.alloc)?;
        operation.carry_out(self.alloc, &mut self.tree)?;
        self.commits += operation.commits();
        self.operations.push_reserved(copy);
        Ok(())
    }
}

impl Absorb<Operation> for Shown {
    // A clause reads an array as a list, of any length.
    type State = (World, [Operation; 0]);

    ghost state = { λ s. (s.opening, s.operations.items) };

    ghost applied = { λ s x. (s.0, s.1 ++ x ∷ []) };

    fn absorb_first(&mut self, operation: &Operation, _other: &Shown) -> Result<(), AllocError> {
        self.take_in(operation)
    }
}
