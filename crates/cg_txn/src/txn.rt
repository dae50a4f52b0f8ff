//! The stack of one transaction.
ghost use Rattle.std.specs.Prelude.{◌≡◌, ◌≤◌, ◌+◌, ◌↔◌, ◌∷◌, ◌++◌, ◌⊎◌, [], drop, reverse, vec_len, IfErr, IfOk, IsOk, IsTrue, OnErr, OnOk, None, false, length, option_copied, option_map, true};
ghost use Rattle.std.specs.Result.{IsErrOf};
ghost use Rattle.std.specs.Vec.{vec_capacity};
ghost use Rattle.cg_txn.specs.Clashing.{oldest_clashing, told_clash};
ghost use Rattle.cg_txn.specs.Items.{command_item, taken_item, taken_items};
ghost use Rattle.cg_txn.specs.Places.{places_on};
ghost use Rattle.cg_txn.specs.Stack.{commands, ends_in_command, has_savepoint, next_back, next_newest, Savepoint};

use crate::entry::{Clash, Entry, Item};
use crate::items::{drop_savepoints, ends_in_command, take_back, take_newest, take_oldest};
use cg_locks::Footprint;
use cg_name::{Refusal, SaveName, TxnNumber};
use indexmap::IndexSet;
use std::alloc::{AllocError, Global};
use std::collections::VecDeque;
use std::marker::Model;

// For how many items room is made at least, where there is none: most transactions are short, and then this is done once.
const AT_ONCE: usize = 8;

// For how many items room is kept at most, for a transaction to come.
const MOST_KEPT: usize = 512;

/// An open transaction: its number, what stands of it, and whether room for one more item is reserved.
pub struct Txn {
    number: TxnNumber,
    // The oldest first.
    items: VecDeque<Item>,
    // Those of the savepoints among the items, in the same order.
    names: IndexSet<SaveName>,
    reserved: bool,
}

/// Room for items, which a transaction leaves as it ends. A transaction to come has it, so that its items aren't moved again and again
/// as more come.
#[derive(Drop)]
pub struct Room {
    items: VecDeque<Item>,
}

// By hand, so that whoever drops one calls this, and doesn't drop each thing in it: that makes proofs shorter. It
// stands in its callers all the same: most of these have nothing to give back.
impl Drop for Txn {
    #[inline(always)]
    fn drop(self) {
        let Txn {
            number: _,
            items: _,
            names: _,
            reserved: _,
        } = self;
    }
}

impl Model for Txn {
    ghost use Rattle.std.specs.Prelude.{◌≡◌, ◌<◌, IsTrue};
    ghost use Rattle.std.specs.VecDeque.{deque_capacity, deque_len};
    ghost use Rattle.cg_txn.specs.Code.{stack_code};
    ghost use Rattle.cg_txn.specs.Stack.{Stack};

    ghost Value = { Stack };

    ghost coded = { stack_code };

    ghost use Rattle.cg_txn.specs.Items.{names_of, stack_of};

    ghost view = { λ t. record { number = t.number.0; items = stack_of t.items.items; reserved = t.reserved } };

    ghost invariant = { λ t. (t.names.keys ≡ names_of t.items.items) × (IsTrue t.reserved → deque_len t.items < deque_capacity t.items) };
}

impl Room {
    /// No room.
    pub fn new(alloc: Global) -> Room {
        Room {
            items: VecDeque::new(alloc),
        }
    }
}

impl Txn {
    /// A transaction of which nothing stands.
    pub fn new(alloc: Global, number: TxnNumber) -> Txn
        ensures { result ≡ record { number = number.0; items = []; reserved = false } }
    {
        Txn::within(alloc, number, Room::new(alloc))
    }

    /// The same, whose items have this room. Takes no memory.
    pub fn within(alloc: Global, number: TxnNumber, room: Room) -> Txn
        ensures { result ≡ record { number = number.0; items = []; reserved = false } }
    {
        let mut kept = room.items;
        kept.clear();
        Txn {
            number,
            items: kept,
            names: IndexSet::new(alloc),
            reserved: false,
        }
    }

    // The room of its items, for a transaction to come; none, where it is for more than room is kept for.
    pub(crate) fn into_room(self) -> Room {
        let Txn {
            number: _,
            mut items,
            names: _,
            reserved: _,
        } = self;
        if items.capacity() > MOST_KEPT {
            return Room::new(*items.allocator());
        }
        items.clear();
        Room { items }
    }

    /// Its number.
    pub fn number(&self) -> TxnNumber
        ensures { result.0 ≡ self.now.number }
    {
        self.number
    }

    /// How many commands and savepoints stand.
    pub fn len(&self) -> usize
        ensures { result ≡ length self.now.items }
    {
        self.items.len()
    }

    // The command with that many items before it, the oldest first; none where that is a savepoint, or fewer items stand.
    pub(crate) fn command_at(&self, index: usize) -> Option<&Entry>
        ensures { commands (drop index (reverse self.now.items)) ≡ taken_items (option_copied result) ++ commands (drop (index + 1) (reverse self.now.items)) }
    {
        if self.items.len() <= index {
            return None;
        }
        match &self.items[index] {
            Item::Command(entry) => Some(entry),
            Item::Savepoint(_) => None,
        }
    }

    /// Whether a savepoint with this name stands. Takes no memory.
    pub fn has_savepoint(&self, name: SaveName) -> bool
        ensures { result ≡ has_savepoint name self.now.items }
    {
        // As a rule none stands, and no name is hashed.
        if self.names.is_empty() {
            return false;
        }
        self.names.contains(&name)
    }

    /// Writes the places of its commands behind the numbers that are there, the oldest first, in the room that they have for as
    /// many as items stand. Takes no memory.
    pub fn write_places(&self, numbers: &mut Vec<u32>)
        requires { vec_len numbers.old + length self.now.items ≤ vec_capacity numbers.old }
        ensures items { numbers.new.items ≡ numbers.old.items ++ places_on self.now.items }
        ensures capacity { vec_capacity numbers.new ≡ vec_capacity numbers.old }
    {
        let items = &self.items;
        for index in 0..items.len() {
            if let Some(place) = items[index].place() {
                numbers.push_reserved(place);
            }
        }
    }

    /// The oldest of its commands with a mark that clashes with one of the footprint, where one has such. Takes no memory.
    pub fn clashing(&self, footprint: &Footprint) -> Option<Clash<'_>>
        ensures { option_map told_clash result ≡ oldest_clashing footprint.now self.now.items }
    {
        let items = &self.items;
        let count = items.len();
        for index in 0..count {
            if let Some(clash) = items[index].clashing(footprint) {
                return Some(clash);
            }
        }
        None
    }

    /// Reserves room for one more item, so that a command can be put on the stack whatever comes between. An error, where
    /// there is no memory, leaves the stack as it was.
    pub fn reserve(&mut self) -> Result<(), AllocError>
        ensures ok { OnOk result (self.new ≡ record self.old { reserved = true }) }
        ensures err { OnErr result (self.new ≡ self.old) }
        ensures again { IsTrue self.old.reserved → IsOk result }
    {
        if self.items.len() == self.items.capacity() {
            self.items.reserve(AT_ONCE)?;
        }
        self.reserved = true;
        Ok(())
    }

    /// Puts a command on the stack, in the room that is reserved for it. Takes no memory.
    pub fn push_reserved(&mut self, entry: Entry)
        requires { IsTrue self.old.reserved }
        ensures { self.new ≡ record self.old { items = command_item entry ∷ self.old.items; reserved = false } }
    {
        self.reserved = false;
        self.items.push_back_reserved(Item::Command(entry));
    }

    /// Puts a command on the stack. Where there is no memory for it, it is handed back, and the stack is as it was.
    pub fn push(&mut self, entry: Entry) -> Result<(), Entry>
        ensures ok { OnOk result (self.new ≡ record self.old { items = command_item entry ∷ self.old.items; reserved = false }) }
        ensures err { OnErr result (self.new ≡ self.old) }
        ensures entry { IfErr result (λ e. e ≡ entry) }
        ensures reserved { IsTrue self.old.reserved → IsOk result }
    {
        if self.reserve().is_err() {
            return Err(entry);
        }
        self.push_reserved(entry);
        Ok(())
    }

    /// Puts a savepoint on the stack, after which no room is reserved. `NameTaken` where one with this name stands already, else
    /// `Memory` where there is none for it; the stack is then as it was.
    pub fn save(&mut self, name: SaveName) -> Result<(), Refusal>
        ensures ok { OnOk result (self.new ≡ record self.old { items = Savepoint name ∷ self.old.items; reserved = false }) }
        ensures taken { IsErrOf result Refusal.NameTaken ↔ (has_savepoint name self.old.items ≡ true) }
        ensures refusals { IfErr result (λ e. (e ≡ Refusal.NameTaken) ⊎ (e ≡ Refusal.Memory)) }
        ensures err { OnErr result (self.new ≡ self.old) }
    {
        if self.has_savepoint(name) {
            return Err(Refusal::NameTaken);
        }
        if self.items.reserve(1).is_err() {
            return Err(Refusal::Memory);
        }
        if self.names.insert(name).is_err() {
            return Err(Refusal::Memory);
        }
        self.reserved = false;
        self.items.push_back_reserved(Item::Savepoint(name));
        Ok(())
    }

    /// Takes the newest command off; `NothingToUndo` where the newest item is a savepoint or nothing stands, and the stack is
    /// then as it was. Reserved room stays. Takes no memory.
    pub fn undo(&mut self) -> Result<Entry, Refusal>
        ensures ok { IfOk result (λ e. self.old ≡ record self.new { items = command_item e ∷ self.new.items }) }
        ensures refused { IfErr result (λ r. (r ≡ Refusal.NothingToUndo) × (ends_in_command self.old.items ≡ false)) }
        ensures err { OnErr result (self.new ≡ self.old) }
    {
        if !ends_in_command(&self.items) {
            return Err(Refusal::NothingToUndo);
        }
        match self.items.pop_back() {
            Some(Item::Command(entry)) => Ok(entry),
            Some(Item::Savepoint(_)) => unreachable!(),
            None => unreachable!(),
        }
    }

    /// One step back to the savepoint with this name: takes the newest command above it off and gives it, or takes the
    /// savepoint off where there is none, and gives `None`. Savepoints on the way go too; then no room is reserved.
    /// `NoSavepoint` where none has this name, and the stack is then as it was. Takes no memory.
    pub fn back(&mut self, name: SaveName) -> Result<Option<Entry>, Refusal>
        ensures ok { IfOk result (λ e. (taken_item e, self.new.items) ≡ next_back name self.old.items) }
        ensures number { self.new.number ≡ self.old.number }
        ensures reserved { OnOk result (self.new.reserved ≡ false) }
        ensures refused { IfErr result (λ r. (r ≡ Refusal.NoSavepoint) × (has_savepoint name self.old.items ≡ false)) }
        ensures there { OnOk result (has_savepoint name self.old.items ≡ true) }
        ensures err { OnErr result (self.new ≡ self.old) }
    {
        if !self.has_savepoint(name) {
            return Err(Refusal::NoSavepoint);
        }
        Ok(self.step_back(name))
    }

    // The step that `back` takes, for a caller that knows that a savepoint with this name stands: it isn't looked up.
    pub(crate) fn step_back(&mut self, name: SaveName) -> Option<Entry>
        requires { has_savepoint name self.old.items ≡ true }
        ensures step { (taken_item result, self.new.items) ≡ next_back name self.old.items }
        ensures number { self.new.number ≡ self.old.number }
        ensures reserved { self.new.reserved ≡ false }
    {
        self.reserved = false;
        take_back(&mut self.items, &mut self.names, name)
    }

    /// Takes the newest command off, with the savepoints above it, after which no room is reserved; what stands below it stays.
    /// `None` where no command stands. Takes no memory.
    pub fn drain_newest_first(&mut self) -> Option<Entry>
        ensures tail { (taken_item result, self.new.items) ≡ next_newest self.old.items }
        ensures value { commands self.old.items ≡ taken_items result ++ commands self.new.items }
        ensures none { result ≡ None → self.new.items ≡ [] }
        ensures number { self.new.number ≡ self.old.number }
        ensures reserved { self.new.reserved ≡ false }
    {
        self.reserved = false;
        take_newest(&mut self.items, &mut self.names)
    }

    /// Takes the oldest command off, with all savepoints, after which no room is reserved; `None` where no command stands.
    /// Takes no memory.
    pub fn drain_oldest_first(&mut self) -> Option<Entry>
        ensures value { commands self.old.items ≡ self.new.items ++ taken_items result }
        ensures none { result ≡ None → self.new.items ≡ [] }
        ensures number { self.new.number ≡ self.old.number }
        ensures reserved { self.new.reserved ≡ false }
    {
        self.reserved = false;
        drop_savepoints(&mut self.items, &mut self.names);
        take_oldest(&mut self.items)
    }
}
