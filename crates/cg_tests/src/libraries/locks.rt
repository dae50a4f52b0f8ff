//! The marks of commands, and the table of the marks that transactions hold.
use crate::libraries::asked::{Asked, command};
use crate::libraries::plain_locks::{PlainMark, marks_of};
use crate::opening::tree;
use cg_command::Command;
use cg_locks::{Footprint, LockTable};
use cg_name::{FileName, Refusal, TxnNumber};
use cg_tree::Tree;
use std::alloc::{AllocError, Global};

/// The descendants of the root and of `/a` are limited in number, those of `/a/b` are not.
pub(crate) const WORLD: &str = "world 2
controllers cpuset
online 0-7
group / - 0 - 9 max
group /a - 0 - 2 max
group /a/b - 0 - max max
group /p - 0 - 0 max
proc 10 /
proc 11 /p
end
";

// Appends a letter and the path of the mark.
fn write_mark(mark: &PlainMark, out: &mut Vec<u8>) -> Result<(), AllocError> {
    let (letter, path) = match mark {
        PlainMark::Changed(path) => (b'x', Some(path)),
        PlainMark::Read(path) => (b's', Some(path)),
        PlainMark::Stays(path) => (b'n', Some(path)),
        PlainMark::Process(_) => (b'p', None),
        PlainMark::Descendants(path) => (b'c', Some(path)),
    };
    out.push(letter)?;
    if let Some(path) = path {
        path.write(out)?;
    }
    Ok(())
}

// Appends the marks, and a newline.
fn write_marks(marks: &[PlainMark], out: &mut Vec<u8>) -> Result<(), AllocError> {
    for mark in marks {
        write_mark(mark, out)?;
    }
    out.push(b'\n')?;
    Ok(())
}

static ASKED: [(Asked, &str); 9] = [
    (Asked::Create, "/a/b/x"),
    (Asked::Remove, "/a"),
    (Asked::Remove, "/p/x"),
    (Asked::Create, "/"),
    (Asked::Migrate(11), "/a"),
    (Asked::Migrate(99), "/a"),
    (Asked::Show(FileName::Procs), "/a"),
    (Asked::Online, "/p"),
    (Asked::MaxDepth, "/p"),
];

const MARKS: &str = "x/a/b/xc/c/a
x/ac/
x/p/xc/c/p
x/
pn/an/p
pn/a
s/a
x/
x/p
";

// Appends those of the command.
fn write_marks_of(
    alloc: Global,
    tree: &Tree,
    command: &Command,
    out: &mut Vec<u8>,
) -> Result<(), AllocError> {
    let footprint = Footprint::of(alloc, command, tree)?;
    let marks = marks_of(alloc, &footprint)?;
    write_marks(marks.as_slice(), out)
}

// Appends those of the command at the path that a word spells.
fn write_marks_at(
    alloc: Global,
    tree: &Tree,
    asked: Asked,
    word: &str,
    out: &mut Vec<u8>,
) -> Result<(), Refusal> {
    let command = command(alloc, asked, word)?;
    Ok(write_marks_of(alloc, tree, &command, out)?)
}

// Appends those of the commands of all rows.
fn write_all_marks(
    alloc: Global,
    tree: &Tree,
    rows: &[(Asked, &str)],
    out: &mut Vec<u8>,
) -> Result<(), Refusal> {
    for (asked, word) in rows {
        write_marks_at(alloc, tree, *asked, word, out)?;
    }
    Ok(())
}

// Appends those of all commands over the tree.
fn write_asked(alloc: Global, out: &mut Vec<u8>) -> Result<(), Refusal> {
    let tree = tree(alloc, WORLD)?;
    write_all_marks(alloc, &tree, &ASKED, out)
}

#[test]
fn commands_have_marks(rt: HostRuntime) {
    let mut out = Vec::new(rt.alloc());
    assert!(rt; write_asked(rt.alloc(), &mut out) == Ok(()));
    assert!(rt; out.as_slice() == MARKS.as_bytes());
}

/// What is asked of the table of the marks of a command.
#[derive(Clone, Copy)]
enum LockCall {
    /// That a transaction takes them.
    Take,
    /// That it gives them back, if it holds them all.
    GiveBack,
    /// Whether it holds them all.
    Holds,
    /// Who is in its way.
    Clash,
}

// Takes the marks. No transaction is found.
fn take(
    alloc: Global,
    table: &mut LockTable,
    transaction: TxnNumber,
    marks: &mut Footprint,
) -> Result<Option<TxnNumber>, AllocError> {
    table.take(alloc, transaction, marks)?;
    Ok(None)
}

// The transaction, if it holds the marks.
fn holder(table: &LockTable, transaction: TxnNumber, marks: &Footprint) -> Option<TxnNumber> {
    if table.holds(transaction, marks) {
        Some(transaction)
    } else {
        None
    }
}

// The transaction, if it holds the marks, which it gives back.
fn give_back(
    table: &mut LockTable,
    transaction: TxnNumber,
    marks: &Footprint,
) -> Option<TxnNumber> {
    if !table.holds(transaction, marks) {
        return None;
    }
    table.release(transaction, marks);
    Some(transaction)
}

// The transaction that the call finds: it holds the marks, or is in the way of who would take them.
fn found(
    alloc: Global,
    table: &mut LockTable,
    call: LockCall,
    transaction: TxnNumber,
    marks: &mut Footprint,
) -> Result<Option<TxnNumber>, AllocError> {
    match call {
        LockCall::Take => take(alloc, table, transaction, marks),
        LockCall::GiveBack => Ok(give_back(table, transaction, marks)),
        LockCall::Holds => Ok(holder(table, transaction, marks)),
        LockCall::Clash => {
            if let Some(path) = marks.changed() {
                // One number for many paths: what was found for it is of another one, as a rule.
                table.visit(path, Some(transaction.0));
            }
            Ok(table.clash(transaction, marks))
        }
    }
}

// What the call finds for the marks of the command.
fn found_of(
    alloc: Global,
    tree: &Tree,
    table: &mut LockTable,
    call: LockCall,
    transaction: TxnNumber,
    command: &Command,
) -> Result<Option<TxnNumber>, AllocError> {
    let mut marks = Footprint::of(alloc, command, tree)?;
    found(alloc, table, call, transaction, &mut marks)
}

// What it finds for those of the command at the path that a word spells.
fn answer(
    alloc: Global,
    tree: &Tree,
    table: &mut LockTable,
    call: LockCall,
    transaction: TxnNumber,
    asked: Asked,
    word: &str,
) -> Result<Option<TxnNumber>, Refusal> {
    let command = command(alloc, asked, word)?;
    Ok(found_of(alloc, tree, table, call, transaction, &command)?)
}

/// A call, the number of the transaction that makes it, the command, and what the call finds.
type Row = (LockCall, u32, (Asked, &'static str), Option<TxnNumber>);

// Each row asks this of the table for the marks of this command, on behalf of the transaction with this number. Two
// transactions and more hold what `show` reads; the least is in the way until it has given back all that it took.
static CALLS: [Row; 10] = [
    (LockCall::Take, 3, (Asked::Create, "/a/b"), None),
    (LockCall::Take, 2, (Asked::Remove, "/a/b/x"), None),
    (LockCall::Take, 2, (Asked::MaxDepth, "/a/b/x"), None),
    (
        LockCall::Clash,
        1,
        (Asked::Show(FileName::Procs), "/a"),
        Some(TxnNumber(2)),
    ),
    (
        LockCall::Clash,
        2,
        (Asked::Show(FileName::Procs), "/a"),
        Some(TxnNumber(3)),
    ),
    (
        LockCall::GiveBack,
        2,
        (Asked::MaxDepth, "/a/b/x"),
        Some(TxnNumber(2)),
    ),
    (
        LockCall::Clash,
        1,
        (Asked::Show(FileName::Procs), "/a"),
        Some(TxnNumber(2)),
    ),
    (
        LockCall::GiveBack,
        2,
        (Asked::Remove, "/a/b/x"),
        Some(TxnNumber(2)),
    ),
    (
        LockCall::Clash,
        1,
        (Asked::Show(FileName::Procs), "/a"),
        Some(TxnNumber(3)),
    ),
    (
        LockCall::Holds,
        3,
        (Asked::Create, "/a/b"),
        Some(TxnNumber(3)),
    ),
];

// The first row whose call doesn't find what it should.
fn first_wrong(alloc: Global, tree: &Tree, table: &mut LockTable, rows: &[Row]) -> Option<usize> {
    for (row, (call, number, (asked, word), expected)) in rows.iter().enumerate() {
        let transaction = TxnNumber(*number);
        if answer(alloc, tree, table, *call, transaction, *asked, word) != Ok(*expected) {
            return Some(row);
        }
    }
    None
}

// The first of the calls, on a new table.
fn first_wrong_call(alloc: Global, tree: &Tree) -> Option<usize> {
    let mut table = LockTable::new(alloc);
    first_wrong(alloc, tree, &mut table, &CALLS)
}

// The same over the tree.
fn wrong_call(alloc: Global) -> Result<Option<usize>, Refusal> {
    let tree = tree(alloc, WORLD)?;
    Ok(first_wrong_call(alloc, &tree))
}

#[test]
fn transactions_hold_marks(rt: HostRuntime) {
    assert_eq!(rt; wrong_call(rt.alloc()), Ok(None));
}
