//! The nodes that were found for numbers.

use cg_path_tree::NodeKey;
use std::alloc::{AllocError, Global};

// Numbers from here on are not noted: no machine has so many groups at once.
const MOST: usize = 1_048_576;

// For each number the node that was found for it last; any, where none was noted.
#[derive(Drop)]
pub(crate) struct Numbered {
    nodes: Vec<NodeKey>,
    // For how many numbers there was to be room so far.
    wanted: usize,
}

impl Numbered {
    // Nothing was found yet.
    pub(crate) fn new(alloc: Global) -> Numbered {
        Numbered {
            nodes: Vec::new(alloc),
            wanted: 0,
        }
    }

    // How many numbers have room.
    #[inline(always)]
    pub(crate) fn len(&self) -> usize {
        self.nodes.len()
    }

    // The node that was found for the number last, or any.
    #[inline(always)]
    pub(crate) fn get(&self, number: u32) -> NodeKey {
        match self.nodes.get(number as usize) {
            Some(node) => *node,
            None => NodeKey::new(0),
        }
    }

    // This node was found for the number. Where there is no room for it yet, it is wanted.
    pub(crate) fn note(&mut self, number: u32, node: NodeKey) {
        let place = number as usize;
        if place < self.nodes.len() {
            self.nodes[place] = node;
        } else if place < MOST {
            self.wanted = self.wanted.max(place + 1);
        }
    }

    // Makes room for the numbers for which it was wanted. An error, where there is no memory, leaves what was noted.
    #[inline(always)]
    pub(crate) fn make_room(&mut self) -> Result<(), AllocError> {
        if self.wanted <= self.nodes.len() {
            return Ok(());
        }
        self.grow()
    }

    // The same, where there is less: for twice as many as before at least.
    #[cold]
    fn grow(&mut self) -> Result<(), AllocError> {
        let twice = self.nodes.len().saturating_mul(2);
        self.nodes.resize(self.wanted.max(twice), NodeKey::new(0))
    }
}
