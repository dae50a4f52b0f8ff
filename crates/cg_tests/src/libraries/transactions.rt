//! The stack of a transaction.
use crate::opening::{SMALL, tree};
use cg_command::Command;
use cg_inverse::Inverse;
use cg_locks::Footprint;
use cg_name::{FileName, Path, Refusal, SaveName, TxnNumber};
use cg_tree::Tree;
use cg_txn::{Entry, Txn};
use std::alloc::{AllocError, Global};

// The footprint of a command that shows the root.
fn footprint(alloc: Global, tree: &Tree) -> Result<Footprint, AllocError> {
    let path = Path::root(alloc);
    let file = FileName::Procs;
    Footprint::of(alloc, &Command::Show { path, file }, tree)
}

// What stands of such a command, with its record at this place.
fn entry(alloc: Global, tree: &Tree, place: u32) -> Result<Entry, AllocError> {
    let footprint = footprint(alloc, tree)?;
    let inverse = Inverse::new(alloc);
    Ok(Entry {
        place,
        inverse,
        footprint,
    })
}

/// A call of a stack.
#[derive(Clone, Copy)]
enum StackCall {
    Push(u32),
    PushReserved(u32),
    Save(&'static str),
    Undo,
    Back(&'static str),
    Newest,
    Oldest,
}

fn push(alloc: Global, tree: &Tree, txn: &mut Txn, place: u32) -> Result<(), Refusal> {
    match txn.push(entry(alloc, tree, place)?) {
        Ok(()) => Ok(()),
        Err(_) => Err(Refusal::Memory),
    }
}

fn push_reserved(alloc: Global, tree: &Tree, txn: &mut Txn, place: u32) -> Result<(), Refusal> {
    txn.reserve()?;
    txn.push_reserved(entry(alloc, tree, place)?);
    Ok(())
}

fn save(txn: &mut Txn, name: &str) -> Result<(), Refusal> {
    txn.save(SaveName::read(name)?)
}

// The place of what is taken off.
fn undo(txn: &mut Txn) -> Result<u32, Refusal> {
    Ok(txn.undo()?.place)
}

// The place of what is taken off, if something is.
fn place_of(taken: Option<Entry>) -> Option<u32> {
    Some(taken?.place)
}

fn back(txn: &mut Txn, name: &str) -> Result<Option<u32>, Refusal> {
    Ok(place_of(txn.back(SaveName::read(name)?)?))
}

// What the call gives: the place of the command that it takes off, if it takes one.
fn answer(
    alloc: Global,
    tree: &Tree,
    txn: &mut Txn,
    call: StackCall,
) -> Result<Option<u32>, Refusal> {
    match call {
        StackCall::Push(place) => push(alloc, tree, txn, place)?,
        StackCall::PushReserved(place) => push_reserved(alloc, tree, txn, place)?,
        StackCall::Save(name) => save(txn, name)?,
        StackCall::Undo => return Ok(Some(undo(txn)?)),
        StackCall::Back(name) => return back(txn, name),
        StackCall::Newest => return Ok(place_of(txn.drain_newest_first())),
        StackCall::Oldest => return Ok(place_of(txn.drain_oldest_first())),
    }
    Ok(None)
}

/// A call, and what it gives.
type Row = (StackCall, Result<Option<u32>, Refusal>);

// Behind a call stands what is then on the stack, the oldest first.
static CALLS: [Row; 29] = [
    (StackCall::Undo, Err(Refusal::NothingToUndo)),
    (StackCall::Back("one"), Err(Refusal::NoSavepoint)),
    (StackCall::Newest, Ok(None)),
    (StackCall::Push(1), Ok(None)),
    (StackCall::Save("one"), Ok(None)), // 1 one
    (StackCall::Save("one"), Err(Refusal::NameTaken)),
    (StackCall::Undo, Err(Refusal::NothingToUndo)),
    (StackCall::Push(2), Ok(None)),
    (StackCall::Save("two"), Ok(None)),
    (StackCall::PushReserved(3), Ok(None)),
    (StackCall::Save("three"), Ok(None)), // 1 one 2 two 3 three
    (StackCall::Back("one"), Ok(Some(3))), // 1 one 2 two
    (StackCall::Back("three"), Err(Refusal::NoSavepoint)),
    (StackCall::Back("one"), Ok(Some(2))), // 1 one
    (StackCall::Back("one"), Ok(None)), // 1
    (StackCall::Back("one"), Err(Refusal::NoSavepoint)),
    (StackCall::Push(4), Ok(None)),
    (StackCall::Undo, Ok(Some(4))), // 1
    (StackCall::Save("one"), Ok(None)),
    (StackCall::Push(5), Ok(None)),
    (StackCall::Save("two"), Ok(None)), // 1 one 5 two
    (StackCall::Newest, Ok(Some(5))), // 1 one
    (StackCall::Push(6), Ok(None)),
    (StackCall::Push(7), Ok(None)),
    (StackCall::Save("two"), Ok(None)), // 1 one 6 7 two
    (StackCall::Oldest, Ok(Some(1))), // 6 7
    (StackCall::Back("one"), Err(Refusal::NoSavepoint)),
    (StackCall::Oldest, Ok(Some(6))), // 7
    (StackCall::Newest, Ok(Some(7))),
];

// The first row whose call doesn't give what it should.
fn first_wrong(alloc: Global, tree: &Tree, txn: &mut Txn, rows: &[Row]) -> Option<usize> {
    for (row, (call, expected)) in rows.iter().enumerate() {
        if answer(alloc, tree, txn, *call) != *expected {
            return Some(row);
        }
    }
    None
}

// Whether it is the stack of this transaction and nothing stands on it.
fn is_empty(txn: &mut Txn) -> bool {
    txn.number() == TxnNumber(8) && txn.len() == 0 && place_of(txn.drain_oldest_first()).is_none()
}

// The first of the calls, on a new stack; or how many calls there are, where something stands on it behind the last.
fn first_wrong_call(alloc: Global, tree: &Tree) -> Option<usize> {
    let mut txn = Txn::new(alloc, TxnNumber(8));
    let wrong = first_wrong(alloc, tree, &mut txn, &CALLS);
    if wrong.is_none() && !is_empty(&mut txn) {
        return Some(CALLS.len());
    }
    wrong
}

// The same over the tree.
fn wrong_call(alloc: Global) -> Result<Option<usize>, Refusal> {
    let tree = tree(alloc, SMALL)?;
    Ok(first_wrong_call(alloc, &tree))
}

#[test]
fn what_is_taken_off_a_stack(rt: HostRuntime) {
    assert_eq!(rt; wrong_call(rt.alloc()), Ok(None));
}
