//! A plain list of the marks that transactions hold: each call goes over all of it.
use cg_locks::{Footprint, Mark};
use cg_name::{Path, TxnNumber};
use std::alloc::{AllocError, Global};

/// A mark with a path or a PID of its own.
#[derive(Drop)]
pub(crate) enum PlainMark {
    Changed(Path),
    Read(Path),
    Stays(Path),
    Process(u32),
    Descendants(Path),
}

// The same mark.
fn plain(alloc: Global, mark: &Mark) -> Result<PlainMark, AllocError> {
    match mark {
        Mark::Changed(path) => Ok(PlainMark::Changed(path.copy(alloc)?)),
        Mark::Read(path) => Ok(PlainMark::Read(path.copy(alloc)?)),
        Mark::Stays(path) => Ok(PlainMark::Stays(path.copy(alloc)?)),
        Mark::Process(pid) => Ok(PlainMark::Process(*pid)),
    }
}

/// The marks of a footprint, in its order: those on numbers of descendants stand from the root down.
pub(crate) fn marks_of(alloc: Global, footprint: &Footprint) -> Result<Vec<PlainMark>, AllocError> {
    let (ones, counted) = footprint.parts();
    let mut marks = Vec::new(alloc);
    for mark in ones {
        marks.push(plain(alloc, mark)?)?;
    }
    if let Some(counted) = counted {
        for depth in counted.depths.iter().rev() {
            marks.push(PlainMark::Descendants(counted.path.prefix(alloc, *depth)?))?;
        }
    }
    Ok(marks)
}

/// One holding: the transaction, the place of the footprint that it took, and a mark of that.
#[derive(Clone, Copy)]
pub(crate) struct Holding<'m> {
    pub(crate) transaction: TxnNumber,
    pub(crate) place: usize,
    mark: &'m PlainMark,
}

// The two are one mark.
fn is_same(mark: &PlainMark, other: &PlainMark) -> bool {
    match (mark, other) {
        (PlainMark::Changed(path), PlainMark::Changed(other)) => path == other,
        (PlainMark::Read(path), PlainMark::Read(other)) => path == other,
        (PlainMark::Stays(path), PlainMark::Stays(other)) => path == other,
        (PlainMark::Process(pid), PlainMark::Process(other)) => pid == other,
        (PlainMark::Descendants(path), PlainMark::Descendants(other)) => path == other,
        _ => false,
    }
}

// Marks of two transactions don't go together.
fn is_clashing(mark: &PlainMark, other: &PlainMark) -> bool {
    match (mark, other) {
        (PlainMark::Changed(path), PlainMark::Changed(other)) => path.comparable(other),
        (PlainMark::Changed(path), PlainMark::Read(other)) => path.comparable(other),
        (PlainMark::Read(path), PlainMark::Changed(other)) => path.comparable(other),
        (PlainMark::Changed(path), PlainMark::Stays(other)) => path.is_prefix(other),
        (PlainMark::Read(path), PlainMark::Stays(other)) => path.is_prefix(other),
        (PlainMark::Stays(path), PlainMark::Changed(other)) => other.is_prefix(path),
        (PlainMark::Stays(path), PlainMark::Read(other)) => other.is_prefix(path),
        (PlainMark::Process(pid), PlainMark::Process(other)) => pid == other,
        (PlainMark::Descendants(path), PlainMark::Descendants(other)) => path == other,
        _ => false,
    }
}

// How often the transaction holds the mark.
fn count(list: &[Holding], transaction: TxnNumber, mark: &PlainMark) -> usize {
    let mut count = 0_usize;
    for holding in list {
        if holding.transaction == transaction && is_same(holding.mark, mark) {
            count = count.saturating_add(1);
        }
    }
    count
}

// How often the mark stands in the footprint.
fn times(marks: &[PlainMark], mark: &PlainMark) -> usize {
    let mut times = 0_usize;
    for other in marks {
        if is_same(mark, other) {
            times = times.saturating_add(1);
        }
    }
    times
}

/// The transaction holds each mark as often as it stands among these.
pub(crate) fn holds(list: &[Holding], transaction: TxnNumber, marks: &[PlainMark]) -> bool {
    for mark in marks {
        if count(list, transaction, mark) < times(marks, mark) {
            return false;
        }
    }
    true
}

/// The transaction holds the subtree of the group at the path, to change it.
pub(crate) fn holds_changed(list: &[Holding], transaction: TxnNumber, path: &Path) -> bool {
    for holding in list {
        if let PlainMark::Changed(held) = holding.mark
            && holding.transaction == transaction
            && held == path
        {
            return true;
        }
    }
    false
}

/// The lesser of two numbers, of which each may be missing.
pub(crate) fn lesser(first: Option<TxnNumber>, second: Option<TxnNumber>) -> Option<TxnNumber> {
    match (first, second) {
        (Some(one), Some(other)) => Some(TxnNumber(one.0.min(other.0))),
        (Some(one), None) => Some(one),
        (None, other) => other,
    }
}

/// The least other transaction that holds a mark which clashes with this one.
pub(crate) fn clash_with(
    list: &[Holding],
    transaction: TxnNumber,
    mark: &PlainMark,
) -> Option<TxnNumber> {
    let mut least = None;
    for holding in list {
        if holding.transaction != transaction && is_clashing(mark, holding.mark) {
            least = lesser(least, Some(holding.transaction));
        }
    }
    least
}

/// Adds a holding of each mark.
pub(crate) fn take<'m>(
    list: &mut Vec<Holding<'m>>,
    transaction: TxnNumber,
    place: usize,
    marks: &'m [PlainMark],
) -> Result<(), AllocError> {
    for mark in marks {
        list.push(Holding {
            transaction,
            place,
            mark,
        })?;
    }
    Ok(())
}

// Takes the oldest holding of the mark away.
fn release_mark(list: &mut Vec<Holding>, transaction: TxnNumber, mark: &PlainMark) {
    for at in 0..list.len() {
        if list[at].transaction == transaction && is_same(list[at].mark, mark) {
            list.remove(at);
            return;
        }
    }
}

/// Takes a holding of each mark away.
pub(crate) fn release(list: &mut Vec<Holding>, transaction: TxnNumber, marks: &[PlainMark]) {
    for mark in marks {
        release_mark(list, transaction, mark);
    }
}
