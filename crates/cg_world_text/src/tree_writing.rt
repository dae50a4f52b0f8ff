//! The text of a tree as a world's, written straight from its groups and processes.
ghost use Rattle.std.specs.Prelude.{◌≡◌, ◌<◌, ◌++◌, [], List, ℕ, IfOk, OnOk, OnErr, false, true, length, take};
ghost use Rattle.std.specs.List.{list_all};
ghost use Rattle.cg_maps.specs.FiniteMap.{entries};
ghost use Rattle.cg_world_text.specs.ToCome.{listed_lines};
ghost use Rattle.cg_world_text.specs.World.{settings_fit_one, world_text, written_version};

use crate::fitting::{cpus_fit, settings_fit};
use crate::version::Version;
use crate::writing::{WriteWorld, append_end, append_group, append_head, append_process};
use cg_name::or_truncate;
use cg_tree::{Listed, Placed, Tree};
use std::alloc::{AllocError, Global};
use std::marker::Model;

impl WriteWorld for Tree {
    fn write(&self, out: &mut Vec<u8>) -> Result<(), AllocError>
        ensures ok { OnOk result (out.new.items ≡ out.old.items ++ world_text self.now.tree) }
        ensures err { OnErr result (out.new.items ≡ out.old.items) }
    {
        let start = out.len();
        let written = append_tree(self, out);
        or_truncate(written, start, out)
    }
}

// Appends the tree's text. An error leaves what stood in `out` at its front.
fn append_tree(tree: &Tree, out: &mut Vec<u8>) -> Result<(), AllocError>
    ensures ok { OnOk result (out.new.items ≡ out.old.items ++ world_text tree.now.tree) }
    ensures kept { OnErr result (take (length out.old.items) out.new.items ≡ out.old.items) }
{
    let mut lines = TreeLines::new(*out.allocator(), tree)?;
    'lines: while lines.append_next(out)? {}
    Ok(())
}

/// The lines of a tree's text that are still to come: its value is what they say. Whoever takes them one by one need not hold
/// the text whole.
#[derive(Drop)]
pub struct TreeLines<'a> {
    tree: &'a Tree,
    version: Version,
    groups: Listed<'a>,
    places: Placed<'a>,
    coming: Coming,
}

// Which line comes next.
#[derive(Drop)]
enum Coming {
    // The first three.
    Head,
    // That of the next group, else of the next process, else the last.
    Lists,
    // None.
    Nothing,
}

impl<'a> Model for TreeLines<'a> {
    ghost use Rattle.std.specs.Prelude.{List, ℕ};
    ghost use Rattle.cg_world_text.specs.ToCome.{lines_to_come};

    ghost Value = { List ℕ };

    ghost view = { λ l. lines_to_come l.coming l.version l.tree.now.tree l.groups l.places };
}

impl<'a> TreeLines<'a> {
    /// All lines of the tree's text, which is in version 1 where it can be: the groups in the order of their paths, the processes
    /// by ascending PID. An error is want of memory.
    pub fn new(alloc: Global, tree: &'a Tree) -> Result<TreeLines<'a>, AllocError>
        ensures { IfOk result (λ lines. lines ≡ world_text tree.now.tree) }
    {
        let groups = tree.present_groups(alloc)?;
        Ok(TreeLines {
            tree,
            version: version_of_tree(tree, &groups),
            groups,
            places: tree.places(),
            coming: Coming::Head,
        })
    }

    /// Appends the next line, or the first three. False where none is to come. An error, where there is no memory, leaves `out` as
    /// it was, and nothing is told of the lines then.
    pub fn append_next(&mut self, out: &mut Vec<u8>) -> Result<bool, AllocError>
        ensures line { OnOk result ((line : List ℕ) × (out.new.items ≡ out.old.items ++ line) × (self.old ≡ line ++ self.new)) }
        ensures none { IfOk result (λ more. more ≡ false → self.old ≡ []) }
        ensures fewer { IfOk result (λ more. more ≡ true → length self.new < length self.old) }
        ensures err { OnErr result (out.new.items ≡ out.old.items) }
    {
        let start = out.len();
        let written = self.append_some(out);
        or_truncate(written, start, out)
    }

    // The same, where an error leaves what stood there at the front.
    fn append_some(&mut self, out: &mut Vec<u8>) -> Result<bool, AllocError>
        ensures line { OnOk result ((line : List ℕ) × (out.new.items ≡ out.old.items ++ line) × (self.old ≡ line ++ self.new)) }
        ensures none { IfOk result (λ more. more ≡ false → self.old ≡ []) }
        ensures fewer { IfOk result (λ more. more ≡ true → length self.new < length self.old) }
        ensures kept { OnErr result (take (length out.old.items) out.new.items ≡ out.old.items) }
    {
        match self.coming {
            Coming::Head => {
                append_head(
                    self.version,
                    &self.tree.controllers(),
                    &self.tree.online(),
                    out,
                )?;
                self.coming = Coming::Lists;
                Ok(true)
            }
            Coming::Lists => {
                if !append_listed(self.version, &mut self.groups, &mut self.places, out)? {
                    append_end(out)?;
                    self.coming = Coming::Nothing;
                }
                Ok(true)
            }
            Coming::Nothing => Ok(false),
        }
    }
}

// Appends the line of the next group, or of the next process where none is left. False where neither is. An error leaves what
// stood in `out` at its front.
fn append_listed(
    version: Version,
    groups: &mut Listed<'_>,
    places: &mut Placed<'_>,
    out: &mut Vec<u8>,
) -> Result<bool, AllocError>
    ensures line { OnOk result ((line : List ℕ) × (out.new.items ≡ out.old.items ++ line) × (listed_lines version groups.old places.old ≡ line ++ listed_lines version groups.new places.new)) }
    ensures none { IfOk result (λ more. more ≡ false → (groups.old ≡ []) × (places.old ≡ []) × (out.new.items ≡ out.old.items)) }
    ensures fewer { IfOk result (λ more. more ≡ true → length (listed_lines version groups.new places.new) < length (listed_lines version groups.old places.old)) }
    ensures kept { OnErr result (take (length out.old.items) out.new.items ≡ out.old.items) }
{
    if let Some((path, settings)) = groups.next() {
        append_group(version, &path, settings, out)?;
        return Ok(true);
    }
    if let Some((pid, path)) = places.next() {
        append_process(pid, &path, out)?;
        return Ok(true);
    }
    Ok(false)
}

// The version in which the text is written: 1 where it can be.
fn version_of_tree(tree: &Tree, groups: &Listed<'_>) -> Version
    requires { groups.now ≡ entries tree.now.tree.groups }
    ensures { result ≡ written_version tree.now.tree }
{
    if cpus_fit(&tree.online()) && groups_fit(groups) {
        Version::One
    } else {
        Version::Two
    }
}

// Whether the groups' settings fit version 1.
fn groups_fit(groups: &Listed<'_>) -> bool
    ensures { result ≡ list_all (λ e. settings_fit_one e.1) groups.now }
{
    for (_path, settings) in groups.iter() {
        if !settings_fit(settings) {
            return false;
        }
    }
    true
}
