// The texts by which a tree looks paths up.
ghost use Rattle.std.specs.Prelude.{◌≡◌, ◌≤◌, length, take};
ghost use Rattle.cg_name.specs.Packed.{names_in, packed_text, IsPacked};
ghost use Rattle.cg_path_tree.specs.Nodes.{parent_path};

use cg_name::Path;

// The text of the path.
pub(crate) fn text(path: &Path) -> &str
    ensures value { names_in result.now ≡ path.now }
    ensures packed { IsPacked result.now }
    ensures text { result.now ≡ packed_text path.now }
{
    path.as_str()
}

// The text of the path of the first names.
pub(crate) fn prefix_text(path: &Path, depth: u32) -> &str
    ensures value { names_in result.now ≡ take depth path.now }
    ensures packed { IsPacked result.now }
{
    // Names are UTF-8, and so are zero bytes.
    unsafe { std::str::from_utf8_unchecked(path.prefix_bytes(depth)) }
}

// The text of the path one name shorter; of the root's, its own. Goes over the last name alone.
pub(crate) fn parent_text(path: &Path) -> &str
    ensures value { names_in result.now ≡ parent_path path.now }
    ensures packed { IsPacked result.now }
{
    let bytes = path.as_bytes();
    let start = last_name_start(bytes);
    // Names are UTF-8, and so are zero bytes.
    unsafe { std::str::from_utf8_unchecked(&bytes[..start]) }
}

// Where the last name of a path's text begins, with its zero byte; 0 where there is none.
fn last_name_start(bytes: &[u8]) -> usize
    requires { IsPacked bytes.now }
    ensures within { result ≤ length bytes.now }
    ensures value { names_in (take result bytes.now) ≡ parent_path (names_in bytes.now) }
{
    for i in (0..bytes.len()).rev() {
        if bytes[i] == 0 {
            return i;
        }
    }
    0
}
