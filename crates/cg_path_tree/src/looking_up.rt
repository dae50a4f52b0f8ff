//! Nodes found by their paths.
ghost use Rattle.std.specs.Prelude.{◌≡◌, [], ◌↔◌, false, true, ◌<◌, ◌≤◌, ℕ, length, option_copied, take, IsTrue, IfNone, IfSome, None, Some};
ghost use Rattle.cg_maps.specs.FiniteMap.{get};
ghost use Rattle.cg_name.specs.Packed.{names_in, IsPacked};
ghost use Rattle.cg_name.specs.Path.{is_root};
ghost use Rattle.cg_path_tree.specs.Nodes.{parent_path, HasParent};

use crate::chains::{hash_of, slot_of};
use crate::node::NodeKey;
use crate::path_text::{parent_text, prefix_text, text};
use crate::path_tree::PathTree;
use cg_name::Path;

impl<V: Drop> PathTree<V> {
    // The node at the path of this text, if there is one.
    fn find_text(&self, text: &str) -> Option<NodeKey>
        requires { IsPacked text.now }
        ensures { result ≡ get self.now.keys (names_in text.now) }
    {
        if self.heads.is_empty() {
            return None;
        }
        let hash = hash_of(text);
        let mut at = self.heads[slot_of(self.heads.len(), hash)];
        // No chain has as many nodes as this: each has a key of its own.
        for _ in 0..u32::MAX {
            let Some(node) = self.nodes.get(at.number() as usize) else {
                return None;
            };
            if node.hash == hash && node.path.as_str() == text {
                return Some(at);
            }
            at = node.next;
        }
        None
    }

    /// The node at the path, if there is one. Takes no memory.
    #[inline(always)]
    pub fn find(&self, path: &Path) -> Option<NodeKey>
        ensures { result ≡ get self.now.keys path.now }
    {
        if self.last.is_of(path) {
            return self.last.node;
        }
        self.find_anew(path)
    }

    // The same, by a look-up.
    #[inline(never)]
    fn find_anew(&self, path: &Path) -> Option<NodeKey>
        ensures { result ≡ get self.now.keys path.now }
    {
        self.find_text(text(path))
    }

    /// The node at the path, if there is one, as `find` gives it. The tree remembers what it found for this path, until
    /// another is visited or added: up to then `find`, `find_parent` and what goes through them find it by a comparison.
    /// Takes no memory.
    #[inline(always)]
    pub fn visit(&mut self, path: &Path) -> Option<NodeKey>
        ensures found { result ≡ get self.old.keys path.now }
        ensures same { self.new ≡ self.old }
    {
        if self.last.is_of(path) {
            return self.last.node;
        }
        self.visit_anew(path)
    }

    // The same, by a look-up.
    #[inline(never)]
    fn visit_anew(&mut self, path: &Path) -> Option<NodeKey>
        ensures found { result ≡ get self.old.keys path.now }
        ensures same { self.new ≡ self.old }
    {
        let node = self.find_anew(path);
        let parent = match node {
            Some(key) => self.parent(key),
            // It is asked next: a node is put in.
            None => self.find_parent_anew(path),
        };
        self.remember(path, node, parent);
        node
    }

    /// As `visit`, but where the path's node is the one with the key `near`: that is found by a comparison, as `find_near` finds
    /// it again, and isn't remembered. Any key may be given.
    pub fn visit_near(&mut self, path: &Path, near: NodeKey) -> Option<NodeKey>
        ensures found { result ≡ get self.old.keys path.now }
        ensures same { self.new ≡ self.old }
    {
        if self.is_at(near, path) {
            return Some(near);
        }
        self.visit(path)
    }

    /// As `visit`, and remembered as by that. Where the path's node is the one with the key `near`, it is found by a comparison; any
    /// key may be given.
    #[inline(always)]
    pub fn visit_from(&mut self, path: &Path, near: NodeKey) -> Option<NodeKey>
        ensures found { result ≡ get self.old.keys path.now }
        ensures same { self.new ≡ self.old }
    {
        if self.last.is_of(path) || !self.is_at(near, path) {
            return self.visit(path);
        }
        let parent = self.parent(near);
        self.remember(path, Some(near), parent);
        Some(near)
    }

    /// The key of the node that was visited last, or added; any, where none was, or where it is gone. It is for `visit_from`, to
    /// which any key may be given, so no clause tells of it.
    #[inline(always)]
    pub fn near(&self) -> NodeKey {
        self.last.node.unwrap_or(NodeKey::new(0))
    }

    /// As `find`. Where the path's node is the one with the key `near`, it is found by a comparison; any key may be given.
    #[inline(always)]
    pub fn find_near(&self, path: &Path, near: NodeKey) -> Option<NodeKey>
        ensures { result ≡ get self.now.keys path.now }
    {
        if self.is_at(near, path) {
            return Some(near);
        }
        self.find(path)
    }

    // Whether the key is that of a node, and that stands at the path.
    #[inline(always)]
    fn is_at(&self, key: NodeKey, path: &Path) -> bool
        ensures { IsTrue result → get self.now.keys path.now ≡ Some key }
    {
        match self.nodes.get(key.number() as usize) {
            Some(node) => node.path.is_same(path),
            None => false,
        }
    }

    // Remembers what was found for the path.
    #[inline(always)]
    fn remember(&mut self, path: &Path, node: Option<NodeKey>, parent: Option<NodeKey>)
        requires node { node ≡ get self.old.keys path.now }
        requires root { is_root path.now ≡ true → parent ≡ None }
        requires parent { is_root path.now ≡ false → parent ≡ get self.old.keys (parent_path path.now) }
        ensures { self.new ≡ self.old }
    {
        let alloc = *self.order.allocator();
        // Where too many share the text, the path before stays remembered.
        let _ = self.last.note(alloc, path, node, parent);
    }

    /// The node at the path of the first `depth` names, or of all where there are fewer, if there is one. Takes no memory.
    pub fn find_prefix(&self, path: &Path, depth: u32) -> Option<NodeKey>
        ensures { result ≡ get self.now.keys (take depth path.now) }
    {
        self.find_text(prefix_text(path, depth))
    }

    /// The node of the path one name shorter, if there is one; `None` for the root's. Takes no memory.
    pub fn find_parent(&self, path: &Path) -> Option<NodeKey>
        ensures root { is_root path.now ≡ true → result ≡ None }
        ensures value { is_root path.now ≡ false → result ≡ get self.now.keys (parent_path path.now) }
    {
        if self.last.is_of(path) {
            return self.last.parent;
        }
        self.find_parent_anew(path)
    }

    // The same, by a look-up.
    #[inline(never)]
    fn find_parent_anew(&self, path: &Path) -> Option<NodeKey>
        ensures root { is_root path.now ≡ true → result ≡ None }
        ensures value { is_root path.now ≡ false → result ≡ get self.now.keys (parent_path path.now) }
    {
        if path.is_root() {
            return None;
        }
        let text = parent_text(path);
        // It is most often that of the path before.
        if let Some(near) = self.last.parent {
            if self.is_live_key(near) && self.text_of(near) == text {
                return Some(near);
            }
        }
        self.find_text(text)
    }

    /// The root's node, if there is any node. Takes no memory.
    pub fn root(&self) -> Option<NodeKey>
        ensures { result ≡ get self.now.keys [] }
    {
        // It is the first that is put in, and the last that goes: its key stays the first.
        if let Some(first) = self.order.first() {
            if self.depth(*first) == 0 {
                return Some(*first);
            }
        }
        self.find_text("")
    }

    /// The value of the root's node, if there is any node. Takes no memory.
    #[inline(always)]
    pub fn root_value(&self) -> Option<&V>
        ensures { option_copied result ≡ get self.now.values [] }
    {
        if let Some(first) = self.order.first() {
            let node = &self.nodes[first.number() as usize];
            if node.depth == 0 {
                return Some(&node.value);
            }
        }
        self.root_value_anew()
    }

    // The same, by a look-up.
    #[cold]
    fn root_value_anew(&self) -> Option<&V>
        ensures { option_copied result ≡ get self.now.values [] }
    {
        self.laws();
        let key = self.find_text("")?;
        Some(self.get(key))
    }

    /// The deepest node on the path, and how many names it has, if there is any. Looks at few prefixes, by halving, and
    /// takes no memory.
    pub fn deepest(&self, path: &Path) -> Option<(NodeKey, u32)>
        ensures none { IfNone result ((d : ℕ) → get self.now.keys (take d path.now) ≡ None) }
        ensures within { IfSome result (λ r. r.1 ≤ length path.now) }
        ensures found { IfSome result (λ r. get self.now.keys (take r.1 path.now) ≡ Some r.0) }
        ensures deepest { IfSome result (λ r. (d : ℕ) → r.1 < d → d ≤ length path.now → get self.now.keys (take d path.now) ≡ None) }
    {
        self.laws();
        if let Some(key) = self.find(path) {
            return Some((key, self.depth(key)));
        }
        self.deepest_above(path)
    }

    /// The same for a path that has no node itself.
    pub fn deepest_above(&self, path: &Path) -> Option<(NodeKey, u32)>
        requires absent { get self.now.keys path.now ≡ None }
        ensures none { IfNone result ((d : ℕ) → get self.now.keys (take d path.now) ≡ None) }
        ensures within { IfSome result (λ r. r.1 ≤ length path.now) }
        ensures found { IfSome result (λ r. get self.now.keys (take r.1 path.now) ≡ Some r.0) }
        ensures deepest { IfSome result (λ r. (d : ℕ) → r.1 < d → d ≤ length path.now → get self.now.keys (take d path.now) ≡ None) }
    {
        self.laws();
        // Most often it is the parent's.
        if let Some(key) = self.find_parent(path) {
            return Some((key, self.depth(key)));
        }
        self.deepest_by_halving(path)
    }

    // The same as `deepest`, by halving at once: for a path that has neither a node nor a parent's.
    fn deepest_by_halving(&self, path: &Path) -> Option<(NodeKey, u32)>
        ensures none { IfNone result ((d : ℕ) → get self.now.keys (take d path.now) ≡ None) }
        ensures within { IfSome result (λ r. r.1 ≤ length path.now) }
        ensures found { IfSome result (λ r. get self.now.keys (take r.1 path.now) ≡ Some r.0) }
        ensures deepest { IfSome result (λ r. (d : ℕ) → r.1 < d → d ≤ length path.now → get self.now.keys (take d path.now) ≡ None) }
    {
        self.laws();
        let mut found = self.root()?;
        let mut depth = 0;
        let mut above = path.depth() + 1;
        // There is a node at `depth` names, and none from `above` on.
        while above - depth > 1 {
            let middle = depth + (above - depth) / 2;
            match self.find_prefix(path, middle) {
                Some(key) => {
                    found = key;
                    depth = middle;
                }
                None => {
                    above = middle;
                }
            }
        }
        Some((found, depth))
    }

    /// Whether the path is the root's, or there is a node at the path one name shorter. Takes no memory.
    pub fn has_parent(&self, path: &Path) -> bool
        ensures { IsTrue result ↔ HasParent self.now.keys path.now }
    {
        path.is_root() || self.find_parent(path).is_some()
    }
}
