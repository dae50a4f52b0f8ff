//! Items taken off, and the names of savepoints with them.
ghost use Rattle.std.specs.Prelude.{◌≡◌, ◌++◌, [], None};
ghost use Rattle.cg_txn.specs.Items.{names_of, stack_of, taken_item, taken_items};
ghost use Rattle.cg_txn.specs.Stack as model;
ghost use Rattle.cg_txn.specs.Stack.{commands, next_back, next_newest};

use crate::entry::{Entry, Item};
use cg_name::SaveName;
use indexmap::IndexSet;
use std::collections::VecDeque;

// Whether the newest item is a command.
pub(crate) fn ends_in_command(items: &VecDeque<Item>) -> bool
    ensures { result ≡ model.ends_in_command (stack_of items.now.items) }
{
    match items.back() {
        Some(item) => item.is_command(),
        None => false,
    }
}

// Takes items off, the newest first, through the first command, or else through the savepoint with the name.
pub(crate) fn take_back(
    items: &mut VecDeque<Item>,
    names: &mut IndexSet<SaveName>,
    name: SaveName,
) -> Option<Entry>
    requires { names.old.keys ≡ names_of items.old.items }
    ensures value { (taken_item result, stack_of items.new.items) ≡ next_back name (stack_of items.old.items) }
    ensures names { names.new.keys ≡ names_of items.new.items }
{
    while let Some(item) = items.pop_back() {
        match item {
            Item::Command(entry) => return Some(entry),
            Item::Savepoint(found) => {
                names.pop();
                if found == name {
                    return None;
                }
            }
        }
    }
    None
}

// Takes items off, the newest first, through the first command.
pub(crate) fn take_newest(
    items: &mut VecDeque<Item>,
    names: &mut IndexSet<SaveName>,
) -> Option<Entry>
    requires { names.old.keys ≡ names_of items.old.items }
    ensures tail { (taken_item result, stack_of items.new.items) ≡ next_newest (stack_of items.old.items) }
    ensures value { commands (stack_of items.old.items) ≡ taken_items result ++ commands (stack_of items.new.items) }
    ensures none { result ≡ None → stack_of items.new.items ≡ [] }
    ensures names { names.new.keys ≡ names_of items.new.items }
{
    while let Some(item) = items.pop_back() {
        match item {
            Item::Command(entry) => return Some(entry),
            Item::Savepoint(_) => {
                names.pop();
            }
        }
    }
    None
}

// Takes the oldest command off, where no savepoint stands.
pub(crate) fn take_oldest(items: &mut VecDeque<Item>) -> Option<Entry>
    requires { names_of items.old.items ≡ [] }
    ensures value { stack_of items.old.items ≡ stack_of items.new.items ++ taken_items result }
    ensures none { result ≡ None → stack_of items.new.items ≡ [] }
    ensures names { names_of items.new.items ≡ [] }
{
    match items.pop_front()? {
        Item::Command(entry) => Some(entry),
        Item::Savepoint(_) => unreachable!(),
    }
}

// Takes all savepoints off. Where none stands, this takes no time.
pub(crate) fn drop_savepoints(items: &mut VecDeque<Item>, names: &mut IndexSet<SaveName>)
    requires { names.old.keys ≡ names_of items.old.items }
    ensures value { stack_of items.new.items ≡ commands (stack_of items.old.items) }
    ensures none { names_of items.new.items ≡ [] }
    ensures names { names.new.keys ≡ [] }
{
    if names.is_empty() {
        return;
    }
    names.clear();
    items.retain(Item::is_command);
}
