//! Groups of a tree, one by one.
ghost use Rattle.std.specs.Prelude.{◌≡◌, ◌∷◌, [], filter, MatchOption, IfOk, drop, slice_get};
ghost use Rattle.std.specs.Iterator.{item_count, YieldsFirstBy};
ghost use Rattle.cg_tree.specs.Listing.{asks, asks_at, listed, AreKeys};

use crate::entry::Entry;
use cg_boxed::CompactSettings;
use cg_name::PathRef;
use cg_path_tree::{NodeKey, PathTree};
use std::alloc::{AllocError, Global};
use std::marker::Model;

/// Groups that are still to come, with their settings. The list was made when the groups were asked for: to go on in it takes
/// no memory.
#[derive(Drop)]
pub struct Listed<'a> {
    nodes: &'a PathTree<Entry>,
    // The nodes of the groups and of dead paths among them, in order.
    keys: Vec<NodeKey>,
    // How many of these have passed.
    passed: usize,
}

impl<'a> Model for Listed<'a> {
    ghost use Rattle.std.specs.Prelude.{List, ℕ, drop};
    ghost use Rattle.cg_text.specs.declared.settings.Settings.{Settings};
    ghost use Rattle.cg_tree.specs.Listing.{listed, AreKeys};

    ghost Value = { List (List (List ℕ) × Settings) };

    ghost view = { λ l. listed l.nodes.now (drop l.passed l.keys.items) };

    ghost invariant = { λ l. AreKeys l.nodes.now l.keys.items };
}

impl<'a> Listed<'a> {
    // Those of the nodes that are groups.
    pub(crate) fn new(nodes: &'a PathTree<Entry>, keys: Vec<NodeKey>) -> Listed<'a>
        requires { AreKeys nodes.now keys.items }
        ensures { result ≡ listed nodes.now keys.items }
    {
        Listed {
            nodes,
            keys,
            passed: 0,
        }
    }

    /// The number of the entry of the group that came last; any, where none has come. It is for calls of the tree that look near
    /// it, to which any number may be given, so no clause tells of it.
    pub fn near(&self) -> u32 {
        match key_at(self.keys.as_slice(), self.passed.saturating_sub(1)) {
            Some(key) => key.number(),
            None => 0,
        }
    }

    /// The same groups, looked at in the list, which doesn't go on.
    pub fn iter(&self) -> ListedIter<'_>
        ensures { result ≡ self.now }
    {
        ListedIter {
            nodes: self.nodes,
            keys: self.keys.as_slice(),
            passed: self.passed,
        }
    }
}

impl<'a> Iterator for Listed<'a> {
    type Item = (PathRef<'a>, &'a CompactSettings);

    ghost next_gives = { YieldsFirstBy (λ g. (g.0, g.1.now)) (λ gs. gs) };

    ghost remaining = { item_count (λ gs. gs) };

    fn next(&mut self) -> Option<(PathRef<'a>, &'a CompactSettings)> {
        next_group(self.nodes, &self.keys, &mut self.passed)
    }
}

/// Groups of a list that are still to come, with their settings, looked at in that list.
#[derive(Drop)]
pub struct ListedIter<'a> {
    nodes: &'a PathTree<Entry>,
    keys: &'a [NodeKey],
    // How many of these have passed.
    passed: usize,
}

impl<'a> Model for ListedIter<'a> {
    ghost use Rattle.std.specs.Prelude.{List, ℕ, drop};
    ghost use Rattle.cg_text.specs.declared.settings.Settings.{Settings};
    ghost use Rattle.cg_tree.specs.Listing.{listed, AreKeys};

    ghost Value = { List (List (List ℕ) × Settings) };

    ghost view = { λ l. listed l.nodes.now (drop l.passed l.keys.now) };

    ghost invariant = { λ l. AreKeys l.nodes.now l.keys.now };
}

impl<'a> Iterator for ListedIter<'a> {
    type Item = (PathRef<'a>, &'a CompactSettings);

    ghost next_gives = { YieldsFirstBy (λ g. (g.0, g.1.now)) (λ gs. gs) };

    ghost remaining = { item_count (λ gs. gs) };

    fn next(&mut self) -> Option<(PathRef<'a>, &'a CompactSettings)> {
        next_group(self.nodes, self.keys, &mut self.passed)
    }
}

// The next of the nodes that is a group.
fn next_group<'a>(
    nodes: &'a PathTree<Entry>,
    keys: &[NodeKey],
    passed: &mut usize,
) -> Option<(PathRef<'a>, &'a CompactSettings)>
    requires { AreKeys nodes.now keys.now }
    ensures { MatchOption result ((listed nodes.now (drop passed.old keys.now) ≡ []) × (listed nodes.now (drop passed.new keys.now) ≡ [])) (λ g. listed nodes.now (drop passed.old keys.now) ≡ (g.0, g.1.now) ∷ listed nodes.now (drop passed.new keys.now)) }
{
    nodes.laws();
    while let Some(key) = key_at(keys, *passed) {
        *passed += 1;
        if let Some(settings) = &nodes.get(key).settings {
            return Some((nodes.path(key), settings));
        }
    }
    None
}

// The key with that many before it, if there is one.
fn key_at(keys: &[NodeKey], index: usize) -> Option<NodeKey>
    ensures { result ≡ slice_get keys.now index }
{
    keys.get(index).copied()
}

// Those of the nodes that are groups which ask for CPUs.
pub(crate) fn asking_for_cpus(
    alloc: Global,
    nodes: &PathTree<Entry>,
    keys: &[NodeKey],
) -> Result<Vec<NodeKey>, AllocError>
    requires { AreKeys nodes.now keys.now }
    ensures { IfOk result (λ found. found.items ≡ filter (asks_at nodes.now) keys.now) }
{
    nodes.laws();
    let mut found = Vec::new(alloc);
    for key in keys {
        if asks_for_cpus(&nodes.get(*key).settings) {
            found.push(*key)?;
        }
    }
    Ok(found)
}

// Whether they are those of a group that asks for CPUs.
fn asks_for_cpus(settings: &Option<CompactSettings>) -> bool
    ensures { result ≡ asks settings.now }
{
    match settings {
        Some(settings) => !settings.cpus().is_empty(),
        None => false,
    }
}
