// The nodes of a tree's groups, with the counts of groups below each, and of what populates it, kept as these come and go.
ghost use Rattle.std.specs.Prelude.{◌≡◌, true, is_some, option_map, List, ℕ, IfOk, OnErr, OnOk, None, Some};
ghost use Rattle.std.specs.Option.{option_flatten};
ghost use Rattle.cg_maps.specs.FiniteMap.{get, set_at};
ghost use Rattle.cg_name.specs.Path.{is_above, is_parent, is_prefix};
ghost use Rattle.cg_path_tree.specs.Nodes.{with_value, HasParent, IsKey};
ghost use Rattle.cg_tree.specs.declared.entry.Entry.{Entry};
ghost use Rattle.cg_tree.specs.CountedUp.{IsCountedUp};
ghost use Rattle.cg_tree.specs.Entries.{counted, entry_at, groups_in, held_in, passing_in, path_at, with_below, with_passing, with_populated_by, with_right_below, AreCounted, AreCountedBelow, CanCount};
ghost use Rattle.cg_tree.specs.NewValue.{value_there, with_new};
ghost use Rattle.cg_tree.specs.Passing.{stepped, CanPass};

use crate::entry::{Entry, counted};
use crate::new_value::NewValue;
use crate::passing::{Passing, control_of};
use cg_boxed::CompactSettings;
use cg_name::Path;
use cg_path_tree::{NodeKey, PathTree};
use cg_text::Controllers;
use std::alloc::{AllocError, Global};
use std::mem::swap;

// Trades the settings of a node for these.
fn swap_settings(nodes: &mut PathTree<Entry>, key: NodeKey, settings: &mut Option<CompactSettings>)
    requires { IsKey nodes.old.keys key }
    ensures nodes { (e : Entry) → entry_at nodes.old key ≡ Some e → nodes.new ≡ with_value nodes.old (path_at nodes.old key) (record e { settings = settings.old }) }
    ensures before { (e : Entry) → entry_at nodes.old key ≡ Some e → settings.new ≡ e.settings }
{
    swap(&mut nodes.get_mut(key).settings, settings);
}

// Writes the value of one setting of a node, where there are settings, and gives the value before.
fn write_value(nodes: &mut PathTree<Entry>, key: NodeKey, value: NewValue) -> Option<NewValue>
    requires { IsKey nodes.old.keys key }
    ensures nodes { (e : Entry) → entry_at nodes.old key ≡ Some e → nodes.new ≡ with_value nodes.old (path_at nodes.old key) (record e { settings = with_new value e.settings }) }
    ensures before { (e : Entry) → entry_at nodes.old key ≡ Some e → result ≡ option_map (value_there value) e.settings }
{
    match &mut nodes.get_mut(key).settings {
        Some(settings) => Some(value.exchange(settings)),
        None => None,
    }
}

// One group more or less below a node.
fn count_below(nodes: &mut PathTree<Entry>, key: NodeKey, comes: bool)
    requires key { IsKey nodes.old.keys key }
    requires room { (e : Entry) → entry_at nodes.old key ≡ Some e → CanCount comes e.below }
    ensures { (e : Entry) → entry_at nodes.old key ≡ Some e → nodes.new ≡ with_value nodes.old (path_at nodes.old key) (with_below comes true e) }
{
    let entry = nodes.get_mut(key);
    entry.below = counted(entry.below, comes);
}

// One group more or less right below a node.
fn count_right_below(nodes: &mut PathTree<Entry>, key: NodeKey, comes: bool)
    requires key { IsKey nodes.old.keys key }
    requires room { (e : Entry) → entry_at nodes.old key ≡ Some e → CanCount comes e.right_below }
    ensures { (e : Entry) → entry_at nodes.old key ≡ Some e → nodes.new ≡ with_value nodes.old (path_at nodes.old key) (record e { right_below = counted comes e.right_below }) }
{
    let entry = nodes.get_mut(key);
    entry.right_below = counted(entry.right_below, comes);
}

// One more or less in the count of what a node is populated by, and that count then.
fn count_populating(nodes: &mut PathTree<Entry>, key: NodeKey, comes: bool) -> u32
    requires key { IsKey nodes.old.keys key }
    requires room { (e : Entry) → entry_at nodes.old key ≡ Some e → CanCount comes e.populated_by }
    ensures nodes { (e : Entry) → entry_at nodes.old key ≡ Some e → nodes.new ≡ with_value nodes.old (path_at nodes.old key) (with_populated_by comes true e) }
    ensures count { (e : Entry) → entry_at nodes.old key ≡ Some e → result ≡ counted comes e.populated_by }
{
    let entry = nodes.get_mut(key);
    entry.populated_by = counted(entry.populated_by, comes);
    entry.populated_by
}

// What a group right below a node passes on is another set.
fn change_passing(
    nodes: &mut PathTree<Entry>,
    key: NodeKey,
    before: &Controllers,
    after: &Controllers,
)
    requires key { IsKey nodes.old.keys key }
    requires room { (e : Entry) → entry_at nodes.old key ≡ Some e → CanPass before.now after.now e.passing }
    ensures { (e : Entry) → entry_at nodes.old key ≡ Some e → nodes.new ≡ with_value nodes.old (path_at nodes.old key) (record e { passing = stepped before.now after.now e.passing }) }
{
    let entry = nodes.get_mut(key);
    entry.passing = entry.passing.changed(before, after);
}

// One group more or less below each node above that of the key.
fn count_above(nodes: &mut PathTree<Entry>, key: NodeKey, comes: bool)
    requires key { IsKey nodes.old.keys key }
    requires room { (q : List (List ℕ)) (e : Entry) → is_above q (path_at nodes.old key) ≡ true → get nodes.old.values q ≡ Some e → CanCount comes e.below }
    ensures keys { nodes.new.keys ≡ nodes.old.keys }
    ensures values { (q : List (List ℕ)) → get nodes.new.values q ≡ option_map (with_below comes (is_above q (path_at nodes.old key))) (get nodes.old.values q) }
{
    nodes.laws();
    let mut at = key;
    while let Some(above) = nodes.parent(at) {
        count_below(nodes, above, comes);
        at = above;
    }
}

// One group more or less right below the parent of the node.
fn count_at_parent(nodes: &mut PathTree<Entry>, key: NodeKey, comes: bool)
    requires key { IsKey nodes.old.keys key }
    requires room { (q : List (List ℕ)) (e : Entry) → is_parent q (path_at nodes.old key) ≡ true → get nodes.old.values q ≡ Some e → CanCount comes e.right_below }
    ensures keys { nodes.new.keys ≡ nodes.old.keys }
    ensures values { (q : List (List ℕ)) → get nodes.new.values q ≡ option_map (with_right_below comes (is_parent q (path_at nodes.old key))) (get nodes.old.values q) }
{
    nodes.laws();
    if let Some(parent) = nodes.parent(key) {
        count_right_below(nodes, parent, comes);
    }
}

// What the group of the node passes on is another set: counted at the parent.
fn pass_at_parent(
    nodes: &mut PathTree<Entry>,
    key: NodeKey,
    before: &Controllers,
    after: &Controllers,
)
    requires key { IsKey nodes.old.keys key }
    requires room { (q : List (List ℕ)) (e : Entry) → is_parent q (path_at nodes.old key) ≡ true → get nodes.old.values q ≡ Some e → CanPass before.now after.now e.passing }
    ensures keys { nodes.new.keys ≡ nodes.old.keys }
    ensures values { (q : List (List ℕ)) → get nodes.new.values q ≡ option_map (with_passing before.now after.now (is_parent q (path_at nodes.old key))) (get nodes.old.values q) }
{
    nodes.laws();
    if let Some(parent) = nodes.parent(key) {
        change_passing(nodes, parent, before, after);
    }
}

// Puts the settings at the node, and leaves those before in their place: where a group comes or goes, it is counted above.
#[inline(always)]
fn put_group(nodes: &mut PathTree<Entry>, key: NodeKey, settings: &mut Option<CompactSettings>)
    requires key { IsKey nodes.old.keys key }
    requires counted { AreCountedBelow nodes.old.values }
    ensures keys { nodes.new.keys ≡ nodes.old.keys }
    ensures groups { groups_in nodes.new.values ≡ set_at (groups_in nodes.old.values) (path_at nodes.old key) (Some settings.old) }
    ensures counted { AreCountedBelow nodes.new.values }
    ensures passing { passing_in nodes.new.values ≡ passing_in nodes.old.values }
    ensures held { held_in nodes.new.values ≡ held_in nodes.old.values }
    ensures before { settings.new ≡ option_flatten (get (groups_in nodes.old.values) (path_at nodes.old key)) }
{
    // A tree can tell how many nodes it has, fewer than 2^32, so that each count has room.
    let _ = nodes.len();
    nodes.laws();
    let comes = settings.is_some();
    let was = nodes.get(key).settings.is_some();
    swap_settings(nodes, key, settings);
    if comes != was {
        count_at_parent(nodes, key, comes);
        count_above(nodes, key, comes);
    }
}

// Puts the settings at the node, and leaves those before in their place: where a group comes or goes, it is counted above, and
// where what it passes on changes, at its parent.
#[inline(always)]
pub(crate) fn put(nodes: &mut PathTree<Entry>, key: NodeKey, settings: &mut Option<CompactSettings>)
    requires key { IsKey nodes.old.keys key }
    requires counted { AreCounted nodes.old.values }
    ensures keys { nodes.new.keys ≡ nodes.old.keys }
    ensures groups { groups_in nodes.new.values ≡ set_at (groups_in nodes.old.values) (path_at nodes.old key) (Some settings.old) }
    ensures counted { AreCounted nodes.new.values }
    ensures held { held_in nodes.new.values ≡ held_in nodes.old.values }
    ensures before { settings.new ≡ option_flatten (get (groups_in nodes.old.values) (path_at nodes.old key)) }
{
    nodes.laws();
    let before = control_of(&nodes.get(key).settings);
    let after = control_of(settings);
    put_group(nodes, key, settings);
    nodes.laws();
    // As in `put_group`.
    let _ = nodes.len();
    if before != after {
        pass_at_parent(nodes, key, &before, &after);
    }
}

// Puts the value of one setting of the node, where that is a group's, and gives the value before: where what the group passes
// on changes, it is counted at its parent.
pub(crate) fn put_value(
    nodes: &mut PathTree<Entry>,
    key: NodeKey,
    value: NewValue,
) -> Option<NewValue>
    requires key { IsKey nodes.old.keys key }
    requires counted { AreCounted nodes.old.values }
    ensures before { result ≡ option_map (value_there value) (option_flatten (get (groups_in nodes.old.values) (path_at nodes.old key))) }
    ensures keys { nodes.new.keys ≡ nodes.old.keys }
    ensures groups { groups_in nodes.new.values ≡ set_at (groups_in nodes.old.values) (path_at nodes.old key) (option_map (with_new value) (get (groups_in nodes.old.values) (path_at nodes.old key))) }
    ensures counted { AreCounted nodes.new.values }
    ensures held { held_in nodes.new.values ≡ held_in nodes.old.values }
{
    nodes.laws();
    let Some(settings) = &nodes.get(key).settings else {
        return None;
    };
    let before = settings.control();
    let after = value.control(settings);
    let was = write_value(nodes, key, value);
    nodes.laws();
    // As in `put_group`.
    let _ = nodes.len();
    if before != after {
        pass_at_parent(nodes, key, &before, &after);
    }
    was
}

// One process more or less in the group of a node: counted there, and at the node above where the group turned populated or back,
// and so on. So one that comes to a populated group, or leaves one that stays so, is counted at one node.
pub(crate) fn count_process(nodes: &mut PathTree<Entry>, key: NodeKey, comes: bool)
    requires key { IsKey nodes.old.keys key }
    requires counted { AreCounted nodes.old.values }
    requires room { (q : List (List ℕ)) (n : ℕ) → is_prefix q (path_at nodes.old key) ≡ true → get (held_in nodes.old.values) q ≡ Some n → CanCount comes n }
    ensures keys { nodes.new.keys ≡ nodes.old.keys }
    ensures groups { groups_in nodes.new.values ≡ groups_in nodes.old.values }
    ensures counted { AreCounted nodes.new.values }
    ensures held { IsCountedUp comes (path_at nodes.old key) (held_in nodes.old.values) (held_in nodes.new.values) }
{
    nodes.laws();
    // What is counted of a group that turned: the first that comes turns it populated, and the last that goes turns it back.
    let turned = u32::from(comes);
    let mut at = key;
    'up: loop {
        if count_populating(nodes, at, comes) != turned {
            return;
        }
        let Some(above) = nodes.parent(at) else {
            return;
        };
        at = above;
    }
}

// Puts a dead entry at a path that has none. Where there is no memory for it, all is as it was.
pub(crate) fn add_dead(
    nodes: &mut PathTree<Entry>,
    alloc: Global,
    path: &Path,
) -> Result<NodeKey, AllocError>
    requires absent { get nodes.old.keys path.now ≡ None }
    requires parent { HasParent nodes.old.keys path.now }
    requires counted { AreCounted nodes.old.values }
    ensures keys { IfOk result (λ key. nodes.new.keys ≡ set_at nodes.old.keys path.now (Some key)) }
    ensures groups { OnOk result (groups_in nodes.new.values ≡ set_at (groups_in nodes.old.values) path.now (Some None)) }
    ensures counted { AreCounted nodes.new.values }
    ensures held { OnOk result (held_in nodes.new.values ≡ set_at (held_in nodes.old.values) path.now (Some 0)) }
    ensures err { OnErr result (nodes.new ≡ nodes.old) }
{
    nodes.laws();
    let entry = Entry {
        settings: None,
        below: 0,
        right_below: 0,
        passing: Passing::none(),
        populated_by: 0,
    };
    let Ok(key) = nodes.add(alloc, path, entry) else {
        return Err(AllocError);
    };
    Ok(key)
}
