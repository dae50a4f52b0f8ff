// What the nodes of a tree's groups hold at a path.
ghost use Rattle.std.specs.Prelude.{◌≡◌, false, option_copied, take, true, None};
ghost use Rattle.cg_maps.specs.FiniteMap.{get};
ghost use Rattle.cg_name.specs.Path.{is_root};
ghost use Rattle.cg_path_tree.specs.Nodes.{parent_path};

use crate::entry::Entry;
use cg_name::Path;
use cg_path_tree::PathTree;

// What is at the path, if there is a node.
#[inline(always)]
pub(crate) fn entry<'a>(nodes: &'a PathTree<Entry>, path: &Path) -> Option<&'a Entry>
    ensures { option_copied result ≡ get nodes.now.values path.now }
{
    nodes.laws();
    Some(nodes.get(nodes.find(path)?))
}

// What is at the path of the first `depth` names, or of all where there are fewer, if there is a node.
pub(crate) fn prefix_entry<'a>(
    nodes: &'a PathTree<Entry>,
    path: &Path,
    depth: u32,
) -> Option<&'a Entry>
    ensures { option_copied result ≡ get nodes.now.values (take depth path.now) }
{
    nodes.laws();
    Some(nodes.get(nodes.find_prefix(path, depth)?))
}

// What is at the path one name shorter, if there is a node; none for the root's.
pub(crate) fn parent_entry<'a>(nodes: &'a PathTree<Entry>, path: &Path) -> Option<&'a Entry>
    ensures root { is_root path.now ≡ true → option_copied result ≡ None }
    ensures value { is_root path.now ≡ false → option_copied result ≡ get nodes.now.values (parent_path path.now) }
{
    nodes.laws();
    Some(nodes.get(nodes.find_parent(path)?))
}
