//! Names of interface files that are near a word, for whoever misspelt one.
#![tactic(auto)]

ghost use Rattle.std.specs.Prelude.{◌≡◌, ◌≤◌, length, IfOk, MatchOption};
ghost use Rattle.std.specs.Str.{chars};
ghost use Rattle.cg_name.specs.declared.file_name.FileName.{FileName};
ghost use Rattle.cg_near.specs.Near.{edits_to, IsNear, IsNearest};

use cg_name::FileName;
use std::alloc::{AllocError, Global};
use strsim::levenshtein;

// The interface files but the first, of those with the same number of edits the one that stands first is given.
const OTHERS: [FileName; 8] = [
    FileName::Controllers,
    FileName::SubtreeControl,
    FileName::Events,
    FileName::Freeze,
    FileName::Cpus,
    FileName::EffectiveCpus,
    FileName::MaxDescendants,
    FileName::MaxDepth,
];

/// The interface file whose name is nearest to the word, by the number of characters that have to be put in, left out or changed.
/// `None` where each name takes more than one such edit for three characters of the word. An error where there is no memory.
pub fn near_file(alloc: Global, word: &str) -> Result<Option<FileName>, AllocError>
    ensures { IfOk result (λ found. MatchOption found ((file : FileName) → ¬ (IsNear word.now file)) (λ file. IsNearest word.now file)) }
{
    let (file, edits) = nearest(alloc, word)?;
    let characters = characters_of(alloc, word)?;
    if edits <= characters.len() / 3 {
        Ok(Some(file))
    } else {
        Ok(None)
    }
}

// The interface file whose name takes the fewest edits, and how many.
fn nearest(alloc: Global, word: &str) -> Result<(FileName, usize), AllocError>
    ensures edits { IfOk result (λ found. found.1 ≡ edits_to word.now found.0) }
    ensures least { IfOk result (λ found. (other : FileName) → found.1 ≤ edits_to word.now other) }
{
    let mut nearest = FileName::Procs;
    let mut fewest = edits_to(alloc, word, nearest)?;
    for file in &OTHERS {
        let edits = edits_to(alloc, word, *file)?;
        if edits < fewest {
            nearest = *file;
            fewest = edits;
        }
    }
    Ok((nearest, fewest))
}

// How many edits lead from the word to the name of the file.
fn edits_to(alloc: Global, word: &str, file: FileName) -> Result<usize, AllocError>
    ensures { IfOk result (λ edits. edits ≡ edits_to word.now file) }
{
    levenshtein(alloc, word, file.word())
}

// The characters of a text.
fn characters_of(alloc: Global, text: &str) -> Result<Vec<char>, AllocError>
    ensures { IfOk result (λ characters. characters.items ≡ chars text.now) }
{
    text.chars().collect(alloc)
}
