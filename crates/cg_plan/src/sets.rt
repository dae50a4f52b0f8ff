//! Where limits are in the way.
use cg_name::Path;
use cg_world::PlainTree;
use std::alloc::{AllocError, Global};
use std::collections::BTreeSet;

/// The groups of `from` below which `to` has groups that `from` has not.
pub(crate) fn growing(
    alloc: Global,
    from: &PlainTree,
    to: &PlainTree,
) -> Result<BTreeSet<Path>, AllocError> {
    let mut growing = BTreeSet::new(alloc);
    for (path, _settings) in to.groups() {
        if from.settings(path).is_none() {
            add_above(alloc, from, path, &mut growing)?;
        }
    }
    Ok(growing)
}

// Adds the groups of `from` above a path, up to one that is there already.
fn add_above(
    alloc: Global,
    from: &PlainTree,
    path: &Path,
    growing: &mut BTreeSet<Path>,
) -> Result<(), AllocError> {
    for depth in (0..path.depth()).rev() {
        let above = path.prefix(alloc, depth)?;
        if from.settings(&above).is_none() {
            continue;
        }
        if growing.contains(&above) {
            return Ok(());
        }
        growing.insert(above)?;
    }
    Ok(())
}
