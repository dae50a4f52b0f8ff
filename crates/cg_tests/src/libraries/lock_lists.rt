//! Lists of calls from seeds, on which the lock table and a plain list of holdings answer alike.
use crate::libraries::asked::{Asked, command};
use crate::libraries::locks::WORLD;
use crate::libraries::plain_locks::{
    Holding, PlainMark, clash_with, holds, holds_changed, lesser, marks_of, release, take,
};
use crate::opening::tree;
use cg_locks::{Footprint, LockTable};
use cg_name::{FileName, Path, Refusal, TxnNumber};
use cg_tree::Tree;
use std::alloc::{AllocError, Global};

/// Numbers that look like chance, and are the same for the same seed.
#[derive(Clone, Copy)]
pub(crate) struct Generator {
    state: u64,
}

impl Generator {
    // The numbers of a seed.
    pub(crate) fn new(seed: u64) -> Generator {
        Generator {
            state: seed.wrapping_mul(0x9E37_79B9_7F4A_7C15) | 1,
        }
    }

    // The next number: a step of Marsaglia's xorshift, and the product's upper half.
    fn next(&mut self) -> u32 {
        let mut state = self.state;
        state ^= state >> 12;
        state ^= state << 25;
        state ^= state >> 27;
        self.state = state;
        (state.wrapping_mul(0x2545_F491_4F6C_DD1D) >> 32) as u32
    }

    // A number below a count.
    pub(crate) fn below(&mut self, count: usize) -> usize {
        self.next() as usize % count.max(1)
    }

    // One of four transactions.
    fn transaction(&mut self) -> TxnNumber {
        TxnNumber(1 + self.next() % 4)
    }
}

/// How many marks of each kind were taken, how many were asked for in whose way nobody and somebody was, and how many
/// footprints were.
#[derive(Clone, Copy)]
struct Tally {
    taken: [u32; 5],
    free: [u32; 5],
    clashing: [u32; 5],
    nobody: u32,
    somebody: u32,
}

// One more of the kind of the mark.
fn count_one(counts: &mut [u32; 5], mark: &PlainMark) {
    let kind = match mark {
        PlainMark::Changed(_) => 0,
        PlainMark::Read(_) => 1,
        PlainMark::Stays(_) => 2,
        PlainMark::Process(_) => 3,
        PlainMark::Descendants(_) => 4,
    };
    counts[kind] = counts[kind].saturating_add(1);
}

impl Tally {
    // Nothing yet.
    fn new() -> Tally {
        Tally {
            taken: [0; 5],
            free: [0; 5],
            clashing: [0; 5],
            nobody: 0,
            somebody: 0,
        }
    }

    fn count_taken(&mut self, marks: &[PlainMark]) {
        for mark in marks {
            count_one(&mut self.taken, mark);
        }
    }

    fn count_asked(&mut self, mark: &PlainMark, is_clashing: bool) {
        if is_clashing {
            count_one(&mut self.clashing, mark);
        } else {
            count_one(&mut self.free, mark);
        }
    }

    fn count_found(&mut self, found: Option<TxnNumber>) {
        match found {
            Some(_) => self.somebody = self.somebody.saturating_add(1),
            None => self.nobody = self.nobody.saturating_add(1),
        }
    }
}

// Footprints, and the marks of each.
#[derive(Drop)]
struct Marked {
    footprints: Vec<Footprint>,
    marks: Vec<Vec<PlainMark>>,
}

// Both take the marks.
fn take_both<'m>(
    alloc: Global,
    table: &mut LockTable,
    list: &mut Vec<Holding<'m>>,
    transaction: TxnNumber,
    place: usize,
    footprint: &mut Footprint,
    marks: &'m [PlainMark],
) -> Result<bool, AllocError> {
    table.take(alloc, transaction, footprint)?;
    take(list, transaction, place, marks)?;
    Ok(true)
}

// Both say alike whether the transaction holds the marks, and if so, it gives them back to both.
fn release_both(
    table: &mut LockTable,
    list: &mut Vec<Holding>,
    transaction: TxnNumber,
    footprint: &Footprint,
    marks: &[PlainMark],
) -> bool {
    let is_held = table.holds(transaction, footprint);
    if is_held != holds(list, transaction, marks) {
        return false;
    }
    if is_held {
        table.release(transaction, footprint);
        release(list, transaction, marks);
    }
    true
}

// Both say alike whether the transaction of the holding in this place holds the footprint that this came with, and if so, it
// gives that back. Where there are no holdings, nothing is asked.
fn release_some(
    table: &mut LockTable,
    list: &mut Vec<Holding>,
    footprints: &[Footprint],
    marks: &[Vec<PlainMark>],
    at: usize,
) -> bool {
    let Some(holding) = list.get(at).copied() else {
        return list.is_empty();
    };
    let (Some(footprint), Some(marks)) = (footprints.get(holding.place), marks.get(holding.place))
    else {
        return false;
    };
    release_both(
        table,
        list,
        holding.transaction,
        footprint,
        marks.as_slice(),
    )
}

// The least other transaction that holds a mark which clashes with one of these. What is found is counted.
fn clash(
    list: &[Holding],
    transaction: TxnNumber,
    marks: &[PlainMark],
    tally: &mut Tally,
) -> Option<TxnNumber> {
    let mut least = None;
    for mark in marks {
        let found = clash_with(list, transaction, mark);
        tally.count_asked(mark, found.is_some());
        least = lesser(least, found);
    }
    tally.count_found(least);
    least
}

// The path of the last mark, if it has one.
fn last_path(marks: &[PlainMark]) -> Option<&Path> {
    match marks.last()? {
        PlainMark::Changed(path) | PlainMark::Read(path) => Some(path),
        PlainMark::Stays(path) | PlainMark::Descendants(path) => Some(path),
        PlainMark::Process(_) => None,
    }
}

// Both say alike whether the transaction holds the subtree at the path of the last mark, to change it.
fn changed_alike(
    table: &LockTable,
    list: &[Holding],
    transaction: TxnNumber,
    marks: &[PlainMark],
) -> bool {
    match last_path(marks) {
        Some(path) => {
            table.holds_changed(transaction, path) == holds_changed(list, transaction, path)
        }
        None => false,
    }
}

// Both answer a call alike. Of 20 calls, 6 take, 5 give back, 5 ask who is in the way and 4 ask what is held.
fn answers_alike<'m>(
    alloc: Global,
    table: &mut LockTable,
    list: &mut Vec<Holding<'m>>,
    footprints: &mut [Footprint],
    all: &'m [Vec<PlainMark>],
    generator: &mut Generator,
    tally: &mut Tally,
) -> Result<bool, AllocError> {
    let transaction = generator.transaction();
    let place = generator.below(footprints.len());
    let Some(marks) = all.get(place) else {
        return Ok(false);
    };
    let marks = marks.as_slice();
    let footprint = &mut footprints[place];
    match generator.below(20) {
        0..6 => {
            tally.count_taken(marks);
            take_both(alloc, table, list, transaction, place, footprint, marks)
        }
        6..11 => {
            let at = generator.below(list.len());
            Ok(release_some(table, list, footprints, all, at))
        }
        11..16 => {
            // It answers the same, whether it was made ready or not.
            if place % 2 == 0 {
                table.share(alloc, transaction)?;
            }
            let found = table.clash(transaction, footprint);
            Ok(found == clash(list, transaction, marks, tally))
        }
        16 | 17 => Ok(table.holds(transaction, footprint) == holds(list, transaction, marks)),
        _ => Ok(changed_alike(table, list, transaction, marks)),
    }
}

// How many lists there are, and how many calls one has.
const LISTS: u64 = 1000;

const CALLS: usize = 40;

// Both answer each call of a seed's list alike.
fn agrees_on(
    alloc: Global,
    table: &mut LockTable,
    footprints: &mut [Footprint],
    marks: &[Vec<PlainMark>],
    seed: u64,
    tally: &mut Tally,
) -> Result<bool, AllocError> {
    let mut generator = Generator::new(seed);
    let mut list = Vec::new(alloc);
    for _ in 0..CALLS {
        if !answers_alike(
            alloc,
            table,
            &mut list,
            footprints,
            marks,
            &mut generator,
            tally,
        )? {
            return Ok(false);
        }
    }
    Ok(true)
}

// So they do, from a new table on.
fn agrees(
    alloc: Global,
    marked: &mut Marked,
    seed: u64,
    tally: &mut Tally,
) -> Result<bool, AllocError> {
    let mut table = LockTable::new(alloc);
    let Marked { footprints, marks } = marked;
    agrees_on(
        alloc,
        &mut table,
        footprints.as_mut_slice(),
        marks.as_slice(),
        seed,
        tally,
    )
}

// The first seed on whose list they don't.
fn first_wrong_seed(
    alloc: Global,
    marked: &mut Marked,
    tally: &mut Tally,
) -> Result<Option<u64>, AllocError> {
    for seed in 1..=LISTS {
        if !agrees(alloc, marked, seed, tally)? {
            return Ok(Some(seed));
        }
    }
    Ok(None)
}

// Commands whose marks stand at the root, at `/a`, below it, and at a path that sorts between them; and beside these.
static COMMANDS: [(Asked, &str); 16] = [
    (Asked::Create, "/a/b/x"),
    (Asked::Remove, "/a/b"),
    (Asked::Remove, "/a"),
    (Asked::Create, "/p/x"),
    (Asked::MaxDepth, "/a/b"),
    (Asked::MaxDepth, "/p"),
    (Asked::MaxDepth, "/a!"),
    (Asked::Online, "/"),
    (Asked::Show(FileName::Procs), "/"),
    (Asked::Show(FileName::Procs), "/a"),
    (Asked::Show(FileName::Procs), "/a/b"),
    (Asked::Show(FileName::Procs), "/p/x"),
    (Asked::Migrate(10), "/a"),
    (Asked::Migrate(11), "/a/b"),
    (Asked::Migrate(11), "/p"),
    (Asked::Migrate(99), "/a"),
];

// The footprint of the command at the path that a word spells.
fn footprint(alloc: Global, tree: &Tree, asked: Asked, word: &str) -> Result<Footprint, Refusal> {
    let command = command(alloc, asked, word)?;
    Ok(Footprint::of(alloc, &command, tree)?)
}

// Appends those of all commands.
fn fill(alloc: Global, tree: &Tree, marked: &mut Marked) -> Result<(), Refusal> {
    for (asked, word) in &COMMANDS {
        let footprint = footprint(alloc, tree, *asked, word)?;
        marked.marks.push(marks_of(alloc, &footprint)?)?;
        marked.footprints.push(footprint)?;
    }
    Ok(())
}

// Appends those over the tree of the world of the tests of locks.
fn fill_of_world(alloc: Global, marked: &mut Marked) -> Result<(), Refusal> {
    let tree = tree(alloc, WORLD)?;
    fill(alloc, &tree, marked)
}

// The first seed on whose list the two differ.
fn first_wrong(alloc: Global, tally: &mut Tally) -> Result<Option<u64>, Refusal> {
    let mut marked = Marked {
        footprints: Vec::new(alloc),
        marks: Vec::new(alloc),
    };
    fill_of_world(alloc, &mut marked)?;
    Ok(first_wrong_seed(alloc, &mut marked, tally)?)
}

// What is counted comes half as often at least as the shares of the calls and of the footprints let expect. A mark of each
// kind is in four or more of the 16 footprints.

// Of 40,000 calls 6 in 20 take, and 4 in 16 of these a mark of the kind: 3,000.
const TAKEN: u32 = 1500;

// As long as nothing is taken, nobody is in the way. Before the first footprint that is taken stand 5/20 / (6/20) questions
// who is in the way, so 833 in 1,000 lists, but for one in a million, which would stand behind a list's end.
const NOBODY: u32 = 416;

// Of these, 4 in 16 ask for a mark of the kind: 208.
const FREE: u32 = 104;

// Of two calls in a row, which are 39,000 pairs, the first takes and the second asks for another transaction in 6/20 * 5/20 *
// 3/4: 2,193. Of the 256 pairs of footprints more than 64 clash: 31 in which one changes the subtree of the root, 22 in which
// one reads it and the other changes a subtree or has a group stay, and 16 of the first four commands, which all count the
// descendants of the root. So somebody is in the way in 548.
const SOMEBODY: u32 = 274;

// In 6 of the 256 pairs, or more, a mark of the kind that is asked for clashes: those of processes in one pair each for 10
// and 99, and in four for 11. So 51 do.
const CLASHING: u32 = 25;

// Each count is so high, or higher.
fn all_reach(counts: &[u32; 5], least: u32) -> bool {
    for count in counts {
        if *count < least {
            return false;
        }
    }
    true
}

#[test]
fn the_table_answers_as_a_list(rt: HostRuntime) {
    let mut tally = Tally::new();
    assert_eq!(rt; first_wrong(rt.alloc(), &mut tally), Ok(None));
    assert!(rt; all_reach(&tally.taken, TAKEN));
    assert!(rt; all_reach(&tally.free, FREE) && all_reach(&tally.clashing, CLASHING));
    assert!(rt; tally.nobody >= NOBODY && tally.somebody >= SOMEBODY);
}
