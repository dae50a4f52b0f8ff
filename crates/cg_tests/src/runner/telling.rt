//! Reports of runs, as texts.
use crate::opening::{BARE, world};
use crate::replaying::{is_history_answered, text_of};
use cg_desk::Core;
use cg_name::Refusal;
use cg_runner::RunReport;
use std::alloc::{AllocError, Global};
use std::str;

// How the text of each tree begins here.
const HEAD: &str = "world 1
controllers cpuset cpu memory
online 0-7
group / - 0 -
";

// Appends what the machine's tree has beside its root.
fn write_tree(alloc: Global, core: &Core, out: &mut String) -> Result<(), AllocError> {
    let text = text_of(alloc, core)?;
    match text.as_slice().strip_prefix(HEAD.as_bytes()) {
        Some(rest) => out.push_str(str::from_utf8(rest).unwrap_or("no text\n")),
        None => out.push_str("another world\n"),
    }
}

// Whether the history of the machine, which was opened on the worlds' first, is answered the same when its text is played.
fn has_true_history(alloc: Global, core: &Core) -> Result<bool, Refusal> {
    let opening = world(alloc, BARE)?;
    Ok(is_history_answered(alloc, core, opening) == Ok(true))
}

/// Appends the lines of the ends, and of the tree; or that the text of the history isn't answered as it says.
pub(crate) fn write_report(
    alloc: Global,
    report: &RunReport,
    out: &mut String,
) -> Result<(), Refusal> {
    if !has_true_history(alloc, &report.core)? {
        out.push_str("another history\n")?;
    }
    for end in &report.ends {
        writeln!(out, "{end}")?;
    }
    write_tree(alloc, &report.core, out)?;
    Ok(())
}
