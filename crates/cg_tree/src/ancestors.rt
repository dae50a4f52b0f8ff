//! The way from a path up to the root, one group after another.
ghost use Rattle.std.specs.Prelude.{◌≡◌, ◌≤◌, ◌∷◌, [], MatchOption, length, option_copied, suc};
ghost use Rattle.std.specs.Iterator.{item_count, YieldsFirstBy};
ghost use Rattle.cg_tree.specs.Ancestors.{ancestors, ancestors_above};
ghost use Rattle.cg_tree.specs.Upward.{going_up, IsBelow, IsDeepest};

use crate::entry::Entry;
use crate::tree::Tree;
use cg_boxed::CompactSettings;
use cg_name::Path;
use cg_path_tree::{NodeKey, PathTree};
use std::marker::Model;

/// What a tree has at the first names of a path.
#[derive(Drop)]
pub struct Ancestor<'a> {
    depth: u32,
    settings: Option<&'a CompactSettings>,
    descendants: u64,
}

impl<'a> Model for Ancestor<'a> {
    ghost use Rattle.std.specs.Prelude.{option_copied};
    ghost use Rattle.cg_tree.specs.Ancestors.{AncestorValue};

    ghost Value = { AncestorValue };

    ghost view = { λ a. record { depth = a.depth; settings = option_copied a.settings; descendants = a.descendants } };
}

impl<'a> Ancestor<'a> {
    /// How many names these are, from 0 to 64.
    pub fn depth(&self) -> u32
        ensures { result ≡ self.now.depth }
    {
        self.depth
    }

    /// The settings of the group there, if there is one.
    pub fn settings(&self) -> Option<&'a CompactSettings>
        ensures { option_copied result ≡ self.now.settings }
    {
        self.settings
    }

    /// How many groups are below.
    pub fn descendants(&self) -> u64
        ensures { result ≡ self.now.descendants }
    {
        self.descendants
    }
}

/// What a tree has at a path, or at its parent's, and from there up to the root. To go on takes a step to a parent, and no
/// memory.
#[derive(Drop)]
pub struct Ancestors<'a> {
    nodes: &'a PathTree<Entry>,
    // The deepest node among those that are still to come, if there is any.
    at: Option<NodeKey>,
    // How many paths are still to come.
    left: u32,
}

impl<'a> Model for Ancestors<'a> {
    ghost use Rattle.std.specs.Prelude.{List};
    ghost use Rattle.cg_tree.specs.Ancestors.{AncestorValue};
    ghost use Rattle.cg_tree.specs.Upward.{going_up, IsBelow};

    ghost Value = { List AncestorValue };

    ghost view = { λ a. going_up a.nodes.now a.at a.left };

    ghost invariant = { λ a. IsBelow a.nodes.now a.at a.left };
}

impl<'a> Ancestors<'a> {
    // From so many names upward, of which the node is the deepest that there is.
    pub(crate) fn new(nodes: &'a PathTree<Entry>, at: Option<NodeKey>, left: u32) -> Ancestors<'a>
        requires { IsBelow nodes.now at left }
        ensures { result ≡ going_up nodes.now at left }
    {
        Ancestors { nodes, at, left }
    }
}

impl Tree {
    /// What the tree has at the path and at each above it, the deepest first. Most often two look-ups, and then a step for
    /// each; takes no memory.
    pub fn ancestors(&self, path: &Path) -> Ancestors<'_>
        ensures { result ≡ ancestors self.now.tree path.now }
    {
        self.groups().ancestors(path)
    }

    /// What the tree has at each path above, the deepest first. Most often one look-up, and then a step for each; takes no
    /// memory.
    pub fn above(&self, path: &Path) -> Ancestors<'_>
        ensures { result ≡ ancestors_above self.now.tree path.now }
    {
        self.groups().above(path)
    }
}

impl<'a> Iterator for Ancestors<'a> {
    type Item = Ancestor<'a>;

    ghost next_gives = { YieldsFirstBy (λ a. a) (λ rest. rest) };

    ghost remaining = { item_count (λ rest. rest) };

    fn next(&mut self) -> Option<Ancestor<'a>> {
        next_up(self.nodes, &mut self.at, &mut self.left)
    }
}

// What is told of the next path up.
fn next_up<'a>(
    nodes: &'a PathTree<Entry>,
    at: &mut Option<NodeKey>,
    left: &mut u32,
) -> Option<Ancestor<'a>>
    requires { IsBelow nodes.now at.old left.old }
    ensures below { IsBelow nodes.now at.new left.new }
    ensures value { MatchOption result ((going_up nodes.now at.old left.old ≡ []) × (going_up nodes.now at.new left.new ≡ [])) (λ a. going_up nodes.now at.old left.old ≡ a ∷ going_up nodes.now at.new left.new) }
{
    nodes.laws();
    let depth = left.checked_sub(1)?;
    *left = depth;
    if let Some(key) = *at {
        if nodes.depth(key) == depth {
            *at = nodes.parent(key);
            let entry = nodes.get(key);
            return Some(Ancestor {
                depth,
                settings: entry.settings.as_ref(),
                descendants: entry.below as u64,
            });
        }
    }
    Some(Ancestor {
        depth,
        settings: None,
        descendants: 0,
    })
}

// The deepest node on the path, if there is any, and how many names the path has. Most often it has a node, which knows that.
pub(crate) fn deepest(nodes: &PathTree<Entry>, path: &Path) -> (Option<NodeKey>, u32)
    ensures node { IsDeepest nodes.now path.now (suc (length path.now)) result.0 }
    ensures depth { result.1 ≡ length path.now }
    ensures few { result.1 ≤ 64 }
{
    // The path tells that it has few names.
    let _ = path.names();
    if let Some(key) = nodes.find(path) {
        return (Some(key), nodes.depth(key));
    }
    let at = match nodes.deepest_above(path) {
        Some((key, _)) => Some(key),
        None => None,
    };
    (at, path.depth())
}

// The deepest node above the path, if there is any.
pub(crate) fn deepest_above(nodes: &PathTree<Entry>, path: &Path) -> Option<NodeKey>
    ensures { IsDeepest nodes.now path.now (length path.now) result }
{
    nodes.laws();
    if path.is_root() {
        return None;
    }
    if let Some(key) = nodes.find_parent(path) {
        return Some(key);
    }
    let (key, _) = nodes.deepest(path)?;
    Some(key)
}
