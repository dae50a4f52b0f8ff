//! The text of a machine's tree, and a second run of its history on a fresh machine.
use crate::opening::MOST_SLOTS;
use cg_desk::{Answer, Core, Record, World};
use cg_lines::{FromRead, FromWrite, LineReader};
use cg_replay::replay;
use cg_script::{ScriptFault, write_history};
use cg_world_text::WriteWorld;
use std::alloc::{AllocError, Global};

/// The text of the machine's tree.
pub(crate) fn text_of(alloc: Global, core: &Core) -> Result<Vec<u8>, AllocError> {
    let mut text = Vec::new(alloc);
    core.tree().write(&mut text)?;
    Ok(text)
}

// Whether two answers are the same.
fn is_same(answer: &Answer, other: &Answer) -> bool {
    match (answer, other) {
        (Answer::Begun(number), Answer::Begun(other)) => number == other,
        (Answer::Done, Answer::Done) => true,
        (Answer::Text(text), Answer::Text(other)) => text.as_slice() == other.as_slice(),
        (Answer::Saved, Answer::Saved) => true,
        (Answer::Back(count), Answer::Back(other)) => count == other,
        (Answer::Committed(number), Answer::Committed(other)) => number == other,
        (Answer::Aborted(number), Answer::Aborted(other)) => number == other,
        (Answer::Refused(refusal), Answer::Refused(other)) => refusal == other,
        _ => false,
    }
}

// Whether the machine answers the request of a record as is recorded.
fn is_answered_so(alloc: Global, core: &mut Core, record: &Record) -> Result<bool, AllocError> {
    let request = record.request.copy(alloc)?;
    let answer = core.step(alloc, record.session, request);
    Ok(is_same(&answer, &record.answer))
}

// Whether the machine, which is fresh, answers each request of these records as is recorded.
fn is_replayed(alloc: Global, records: &[Record], fresh: &mut Core) -> Result<bool, AllocError> {
    for record in records {
        if !is_answered_so(alloc, fresh, record)? {
            return Ok(false);
        }
    }
    Ok(fresh.history().len() == records.len())
}

// Whether the machine, which is fresh, answers as these records, and has a tree with this text then.
fn agrees_with(
    alloc: Global,
    records: &[Record],
    tree: &[u8],
    fresh: &mut Core,
) -> Result<bool, AllocError> {
    Ok(is_replayed(alloc, records, fresh)? && text_of(alloc, fresh)?.as_slice() == tree)
}

// The same of a machine of its own on this world.
fn is_replay(
    alloc: Global,
    records: &[Record],
    tree: &[u8],
    opening: World,
) -> Result<bool, AllocError> {
    let mut fresh = Core::open(alloc, opening, MOST_SLOTS)?;
    let agrees = agrees_with(alloc, records, tree, &mut fresh);
    drop(fresh);
    agrees
}

/// Whether the machine's history, replayed on a fresh one on this world, has the same answers and gives the same tree.
pub(crate) fn agrees_with_replay(
    alloc: Global,
    core: &Core,
    opening: World,
) -> Result<bool, AllocError> {
    let tree = text_of(alloc, core)?;
    is_replay(alloc, core.history(), tree.as_slice(), opening)
}

/// How many commits a history has.
pub(crate) fn commits_in(records: &[Record]) -> usize {
    records
        .iter()
        .filter(|record| matches!(record.answer, Answer::Committed(_)))
        .count()
}

// What stands behind `# ` in the lines of a history's text, each on a line, and then this.
fn answers_in(alloc: Global, text: &[u8], last: &[u8]) -> Result<Vec<u8>, AllocError> {
    let mut answers = Vec::new(alloc);
    for line in text.split(|byte| *byte == b'\n') {
        if let Some(answer) = line.strip_prefix(b"# ".as_slice()) {
            answers.extend_from_slice(answer)?;
            answers.push(b'\n')?;
        }
    }
    answers.extend_from_slice(last)?;
    Ok(answers)
}

// What this text is answered as a schedule over that world.
fn replayed(alloc: Global, text: &[u8], opening: World) -> Result<Vec<u8>, ScriptFault> {
    let mut out = Vec::new(alloc);
    let mut reader = LineReader::new(alloc, FromRead::new(text))?;
    let mut sink = FromWrite::new(&mut out);
    replay(alloc, &mut reader, &mut sink, opening, MOST_SLOTS)?;
    drop(sink);
    Ok(out)
}

/// Whether the text of the machine's history, played over this world, is answered by the lines behind `# `, and gives the
/// machine's tree.
pub(crate) fn is_history_answered(
    alloc: Global,
    core: &Core,
    opening: World,
) -> Result<bool, ScriptFault> {
    let mut text = Vec::new(alloc);
    write_history(core.history(), &mut text)?;
    let tree = text_of(alloc, core)?;
    let answers = answers_in(alloc, text.as_slice(), tree.as_slice())?;
    let out = replayed(alloc, text.as_slice(), opening)?;
    Ok(out.as_slice() == answers.as_slice())
}
