//! Paths as a shell gives them.
use std::alloc::{AllocError, Global};

/// The path in quotation marks, as a text has it: of a word that begins as a path and has what stands between these alone. None of any
/// other word, which is taken as it stands.
pub fn quoted(alloc: Global, word: &str) -> Result<Option<String>, AllocError> {
    if !word.starts_with('/') || !word.chars().any(is_quoted) {
        return Ok(None);
    }
    let mut text = String::new(alloc);
    text.push('"')?;
    for letter in word.chars() {
        match letter {
            '"' | '\\' => {
                text.push('\\')?;
                text.push(letter)?;
            }
            _ => text.push(letter)?,
        }
    }
    text.push('"')?;
    Ok(Some(text))
}

// Whether a word has to stand in quotation marks to have this character.
fn is_quoted(letter: char) -> bool {
    matches!(letter, ' ' | '\t' | '"' | '\\')
}
