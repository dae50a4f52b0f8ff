//! Footprints: the marks under which one command runs.
ghost use Rattle.std.specs.Prelude.{◌≡◌, ◌∷◌, ◌++◌, [], IfOk, IfSome, OnOk, length, map, option_copied};
ghost use Rattle.cg_command.specs.Meaning.{command_of};
ghost use Rattle.cg_locks.specs.Counts.{counts_at, limited_depths, prefixes, AreDescending};
ghost use Rattle.cg_locks.specs.Marks.{times};
ghost use Rattle.cg_locks.specs.Meaning.{counts_of, mark_of};
ghost use Rattle.cg_locks.specs.Together.{counts_above, HaveDepths};
ghost use Rattle.cg_model.specs.Footprint as model;
ghost use Rattle.cg_model.specs.Footprint.{changed, counts, footprint, is_limited, old_place};
ghost use Rattle.cg_model.specs.Tree.{place_of};

use crate::mark::Mark;
use crate::taken_at::TakenAt;
use cg_command::Command;
use cg_name::Path;
use cg_path_tree::NodeKey;
use cg_text::Limit;
use cg_tree::{Ancestor, Ancestors, Tree};
use smallvec::SmallVec;
use std::alloc::{AllocError, Global};
use std::marker::Model;
use std::slice::from_ref;

/// The marks of one command, in the order of its definition. Most commands have one, which is kept without an allocation
/// but its path's. Those on numbers of descendants have no paths of their own: their groups are above the path of the first.
#[derive(Drop)]
pub struct Footprint {
    kept: Kept,
}

// One stands with each command that a transaction can take back, so that a run goes over as many of these bytes as it has
// accepted commands.
const _: () = prove!(size_of::<Footprint>() == 32);

// Most footprints are of one mark, and these are made, moved and dropped with each command: what the others have besides lies
// in memory of its own. The nodes at which the marks were taken tell nothing but where to look first. That of one mark stands
// where the number of the variant leaves room.
#[derive(Drop)]
enum Kept {
    One(NodeKey, Mark),
    // Those of a migration: of a process that is in no group, and of one that leaves its group.
    Two(Box<Several<2>>),
    Three(Box<Several<3>>),
    Counted(Box<WithCounts>),
}

// So many marks, none on a number of descendants.
#[derive(Drop)]
struct Several<const N: usize> {
    taken_at: TakenAt,
    marks: [Mark; N],
}

// A mark of a subtree to be changed, with those on the numbers of descendants of groups above it.
#[derive(Drop)]
struct WithCounts {
    // The node at which the mark was taken.
    node: NodeKey,
    mark: Mark,
    // How many names the paths of these groups have, the deepest first.
    depths: SmallVec<u32, 4>,
}

/// Marks on the numbers of descendants of groups above a path.
#[derive(Clone, Copy)]
pub struct Counted<'a> {
    /// The path.
    pub path: &'a Path,
    /// How many names the paths of these groups have, the deepest first.
    pub depths: &'a [u32],
}

impl Model for Footprint {
    ghost use Rattle.std.specs.Prelude.{List};
    ghost use Rattle.std.specs.Coded.{coded_list};
    ghost use Rattle.cg_locks.specs.Marks.{mark_code};
    ghost use Rattle.cg_locks.specs.Together.{marks_of, HasDepths};
    ghost use Rattle.cg_model.specs.Footprint as model;

    ghost Value = { List model.Mark };

    ghost coded = { coded_list mark_code };

    ghost view = { λ f. marks_of f.kept };

    ghost invariant = { λ f. HasDepths f.kept };
}

impl Footprint {
    /// The marks of the command on this tree; an error where there is no memory for them.
    #[tactic(auto, unfolding(cg_model::specs::Footprint::footprint))]
    pub fn of(alloc: Global, command: &Command, tree: &Tree) -> Result<Footprint, AllocError>
        ensures { IfOk result (λ f. f ≡ footprint (command_of command.now) tree.now.tree) }
    {
        match command {
            Command::Create { path } => with_counts(alloc, path, tree),
            Command::Remove { path } => with_counts(alloc, path, tree),
            Command::Migrate { pid, path } => of_migration(alloc, pid.number, path, tree),
            Command::Subtree { path, .. } => of_change(alloc, path),
            Command::Freeze { path, .. } => of_change(alloc, path),
            Command::LowCpus { path, .. } => of_change(alloc, path),
            Command::WideCpus { path, .. } => of_change(alloc, path),
            Command::Show { path, .. } => Ok(Footprint::one(Mark::Read(path.copy(alloc)?))),
            Command::Online { .. } => Ok(Footprint::one(Mark::Changed(Path::root(alloc)))),
            Command::MaxDescendants { path, .. } => of_change(alloc, path),
            Command::MaxDepth { path, .. } => of_change(alloc, path),
        }
    }

    /// The marks: those that are no marks on numbers of descendants, and these, if there are any. Takes no memory.
    pub fn parts(&self) -> (&[Mark], Option<Counted<'_>>)
        ensures marks { map mark_of result.0.now ++ counts_of result.1 ≡ self.now }
        ensures descending { IfSome result.1 (λ c. AreDescending (length c.path.now) c.depths.now) }
    {
        match &self.kept {
            Kept::One(_, mark) => (from_ref(mark), None),
            Kept::Two(several) => (&several.marks, None),
            Kept::Three(several) => (&several.marks, None),
            Kept::Counted(more) => (from_ref(&more.mark), more.counted()),
        }
    }

    /// The path of the group whose subtree these mark to be changed, if they mark one: that mark stands first. Takes no
    /// memory.
    pub fn changed(&self) -> Option<&Path>
        ensures { option_copied result ≡ changed self.now }
    {
        match &self.kept {
            Kept::One(_, mark) => mark.changed(),
            Kept::Two(several) => several.marks[0].changed(),
            Kept::Three(several) => several.marks[0].changed(),
            Kept::Counted(more) => more.mark.changed(),
        }
    }

    // Its mark, where it is one alone that is on no number of descendants, as most are, and the node at which that was taken.
    #[inline(always)]
    pub(crate) fn single(&self) -> Option<(NodeKey, &Mark)>
        ensures { IfSome result (λ single. self.now ≡ mark_of single.1.now ∷ []) }
    {
        match &self.kept {
            Kept::One(node, mark) => Some((*node, mark)),
            Kept::Two(_) | Kept::Three(_) | Kept::Counted(_) => None,
        }
    }

    // The nodes at which its marks were taken.
    pub(crate) fn taken_at(&self) -> TakenAt {
        match &self.kept {
            Kept::One(node, _) => TakenAt::one(*node),
            Kept::Two(several) => several.taken_at,
            Kept::Three(several) => several.taken_at,
            Kept::Counted(more) => TakenAt::one(more.node),
        }
    }

    // Notes the nodes at which its marks were taken. It stays the same footprint.
    pub(crate) fn note(&mut self, taken_at: TakenAt)
        ensures { self.new ≡ self.old }
    {
        match &mut self.kept {
            Kept::One(node, _) => *node = taken_at.first(),
            Kept::Two(several) => several.taken_at = taken_at,
            Kept::Three(several) => several.taken_at = taken_at,
            Kept::Counted(more) => more.node = taken_at.first(),
        }
    }

    // That with this mark alone.
    fn one(mark: Mark) -> Footprint
        ensures { result ≡ mark_of mark ∷ [] }
    {
        Footprint {
            kept: Kept::One(NodeKey::new(0), mark),
        }
    }
}

impl<const N: usize> Several<N> {
    // These, where nothing is noted.
    fn new(alloc: Global, marks: [Mark; N]) -> Result<Box<Several<N>>, AllocError>
        ensures { IfOk result (λ several. several.value.marks ≡ marks.entry) }
    {
        let taken_at = TakenAt::new();
        Ok(Box::new(alloc, Several { taken_at, marks })?)
    }
}

impl WithCounts {
    // Those on numbers of descendants.
    fn counted(&self) -> Option<Counted<'_>>
        requires { HaveDepths self.now.mark self.now.depths.items }
        ensures counts { counts_of result ≡ counts_above self.now.mark self.now.depths.items }
        ensures descending { IfSome result (λ c. AreDescending (length c.path.now) c.depths.now) }
    {
        let Mark::Changed(path) = &self.mark else {
            return None;
        };
        let depths = self.depths.as_slice();
        Some(Counted { path, depths })
    }
}

// How often the mark stands among these.
pub(crate) fn times_in(marks: &[Mark], mark: &Mark) -> usize
    ensures { result ≡ times (mark_of mark.now) (map mark_of marks.now) }
{
    marks.iter().filter(|own| mark.is_same(own)).count()
}

// That of a command which changes the subtree of a group.
fn of_change(alloc: Global, path: &Path) -> Result<Footprint, AllocError>
    ensures { IfOk result (λ f. f ≡ model.X path.now ∷ []) }
{
    Ok(Footprint::one(Mark::Changed(path.copy(alloc)?)))
}

// That of a command which makes a group or takes one away: it changes the number of descendants of each group above.
#[inline(always)]
fn with_counts(alloc: Global, path: &Path, tree: &Tree) -> Result<Footprint, AllocError>
    ensures { IfOk result (λ f. f ≡ model.X path.now ∷ counts tree.now.tree path.now) }
{
    if !tree.may_limit() {
        return of_change(alloc, path);
    }
    let depths = limited_above(alloc, path, tree)?;
    let mark = Mark::Changed(path.copy(alloc)?);
    if depths.is_empty() {
        return Ok(Footprint::one(mark));
    }
    let node = NodeKey::new(0);
    let more = Box::new(alloc, WithCounts { node, mark, depths })?;
    Ok(Footprint {
        kept: Kept::Counted(more),
    })
}

// How many names the paths of those groups above have that are limited in the number of their descendants, the deepest
// first.
fn limited_above(alloc: Global, path: &Path, tree: &Tree) -> Result<SmallVec<u32, 4>, AllocError>
    ensures counts { IfOk result (λ depths. counts_at (prefixes path.now depths.items) ≡ counts tree.now.tree path.now) }
    ensures descending { IfOk result (λ depths. AreDescending (length path.now) depths.items) }
{
    let mut depths = SmallVec::with_capacity(alloc, path.depth() as usize)?;
    push_limited(&mut depths, tree.above(path))?;
    Ok(depths)
}

// Adds those of these groups.
fn push_limited(depths: &mut SmallVec<u32, 4>, above: Ancestors<'_>) -> Result<(), AllocError>
    ensures { OnOk result (depths.new.items ≡ depths.old.items ++ limited_depths above.entry) }
{
    for group in above {
        if is_limited(&group) {
            depths.push(group.depth())?;
        }
    }
    Ok(())
}

// That of a command which moves a process: the group that it is in stays as well.
fn of_migration(alloc: Global, pid: u32, path: &Path, tree: &Tree) -> Result<Footprint, AllocError>
    ensures { IfOk result (λ f. f ≡ model.Pid pid ∷ model.N path.now ∷ old_place (place_of tree.now.tree pid)) }
{
    let process = Mark::Process(pid);
    let group = Mark::Stays(path.copy(alloc)?);
    let kept = match tree.location(alloc, pid)? {
        Some(place) => Kept::Three(Several::new(alloc, [process, group, Mark::Stays(place)])?),
        None => Kept::Two(Several::new(alloc, [process, group])?),
    };
    Ok(Footprint { kept })
}

// Whether the group is there, and its descendants are limited in number.
fn is_limited(group: &Ancestor) -> bool
    ensures { result ≡ is_limited group.now.settings }
{
    match group.settings() {
        Some(settings) => match settings.max_descendants() {
            Limit::Max => false,
            Limit::UpTo(_) => true,
        },
        None => false,
    }
}
