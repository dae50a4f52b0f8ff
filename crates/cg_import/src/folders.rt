//! What lists folders.
use cg_program::{Inputs, OpenFault};
use std::alloc::Global;

/// The folders in a folder.
#[derive(Drop)]
pub struct Listed {
    /// Their names, in any order.
    pub names: Vec<String>,
    /// There are some whose names are no UTF-8.
    pub has_others: bool,
}

/// What lists folders, beside opening files.
pub trait Folders: Inputs {
    /// The folders that lie in the folder of this name, and no links to any.
    fn folders(&self, alloc: Global, name: &str) -> Result<Listed, OpenFault>;
}
