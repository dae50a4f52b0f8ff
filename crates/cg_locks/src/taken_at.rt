//! Where the marks of a footprint were taken.
use cg_path_tree::NodeKey;

// The nodes at which the marks of a footprint were taken. They are looked at first where it is let go: a path is looked up
// only where its node was never noted, or is another's by now. At most two marks of a footprint have paths, and one of these
// stands right behind the other: so there are two places, which take turns. A footprint of one mark keeps the first alone.
#[derive(Clone, Copy)]
pub(crate) struct TakenAt {
    // That of the mark which comes next, and that of the one behind it.
    next: NodeKey,
    after: NodeKey,
}

impl TakenAt {
    // Nothing is noted.
    pub(crate) fn new() -> TakenAt {
        TakenAt::one(NodeKey::new(0))
    }

    // This node is, of a single mark.
    pub(crate) fn one(node: NodeKey) -> TakenAt {
        TakenAt {
            next: node,
            after: NodeKey::new(0),
        }
    }

    // The node of the first mark.
    pub(crate) fn first(&self) -> NodeKey {
        self.next
    }

    // Notes the node of the mark that stands behind so many others.
    pub(crate) fn note(&mut self, before: usize, node: NodeKey) {
        if before % 2 == 0 {
            self.next = node;
        } else {
            self.after = node;
        }
    }

    // The node of the first mark, then those of the others, one after another.
    pub(crate) fn next(&mut self) -> NodeKey {
        let node = self.next;
        self.next = self.after;
        self.after = node;
        node
    }
}
