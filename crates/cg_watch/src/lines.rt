//! The lines that tell what is seen of a file.
ghost use Rattle.std.specs.Prelude.{◌≡◌, IfOk};
ghost use Rattle.cg_history.specs.Meaning.{answer_of};
ghost use Rattle.cg_script.specs.Answer.{answer_text};
ghost use Rattle.cg_watch.specs.Watches.{watch_line};

use cg_name::{FileName, Path};
use cg_runner::Answer;
use cg_script::write_answer;
use std::alloc::{AllocError, Global};
use std::fmt::Write;

// The value as its line shows it: as the answer to a request for the file.
pub(crate) fn value_of(alloc: Global, answer: &Answer) -> Result<Vec<u8>, AllocError>
    ensures { IfOk result (λ text. text.items ≡ answer_text (answer_of answer.now)) }
{
    let mut text = Vec::new(alloc);
    write_answer(answer, &mut text)?;
    Ok(text)
}

// The line of a value that is seen behind so many commits.
pub(crate) fn line_of(
    alloc: Global,
    path: &Path,
    file: FileName,
    commits: usize,
    value: &[u8],
) -> Result<Vec<u8>, AllocError>
    ensures { IfOk result (λ line. line.items ≡ watch_line path.now file commits value.now) }
{
    let mut head = String::new(alloc);
    write!(head, "watch {path}:{file} commits {commits}: ")?;
    let mut line = head.into_bytes();
    line.extend_from_slice(value)?;
    line.push(b'\n')?;
    Ok(line)
}
