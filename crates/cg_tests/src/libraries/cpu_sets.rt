//! Sets of CPU numbers, in a word and shared: each set of a few alone, and with each other one.
use cg_boxed::BoxedCpus;
use cg_cpus::CpuSet;
use cg_name::Refusal;
use std::alloc::Global;

// The last number that a word has, the first that it hasn't, and those at both ends.
const NUMBERS: [u16; 4] = [0, 63, 64, 1023];

// A set by its list, which of the numbers it has, and its word.
type Row = (&'static str, [bool; 4], Option<u64>);

const SETS: [Row; 8] = [
    ("", [false, false, false, false], Some(0)),
    ("0", [true, false, false, false], Some(1)),
    (
        "63",
        [false, true, false, false],
        Some(0x8000_0000_0000_0000),
    ),
    (
        "0,63",
        [true, true, false, false],
        Some(0x8000_0000_0000_0001),
    ),
    ("64", [false, false, true, false], None),
    ("63-64", [false, true, true, false], None),
    ("1023", [false, false, false, true], None),
    ("0,63-64,1023", [true, true, true, true], None),
];

// A set, the CPUs that it narrows, and those that are left.
type Narrowing = (&'static str, &'static str, &'static str);

const NARROWED: [Narrowing; 9] = [
    ("", "0-3", "0-3"),
    ("0-3", "", ""),
    ("2,5", "0-3", "2"),
    ("5", "0-3", "0-3"),
    ("0,63", "63-64", "63"),
    ("0-63", "64,1023", "64,1023"),
    ("1-70", "0,64-71", "64-70"),
    ("64", "0-63", "0-63"),
    ("5,1023", "0-3,512-1023", "1023"),
];

// The set of the row, kept.
fn kept(alloc: Global, row: &Row) -> Result<BoxedCpus, Refusal> {
    Ok(BoxedCpus::new(alloc, CpuSet::read(row.0)?)?)
}

// Whether the word is that of the set, and gives the set.
fn has_word(row: &Row) -> Result<bool, Refusal> {
    let set = CpuSet::read(row.0)?;
    let given = match row.2 {
        Some(word) => CpuSet::from_low(word) == set,
        None => true,
    };
    Ok(given && set.low() == row.2)
}

// Whether the set that is kept has what the row says, and so its copy.
fn holds_of_set(alloc: Global, row: &Row) -> Result<bool, Refusal> {
    let set = kept(alloc, row)?;
    let copy = set.copy(alloc)?;
    for i in 0..NUMBERS.len() {
        if set.contains(NUMBERS[i]) != row.1[i] || copy.contains(NUMBERS[i]) != row.1[i] {
            return Ok(false);
        }
    }
    Ok(set.get() == CpuSet::read(row.0)? && set.is_empty() == row.0.is_empty() && copy == set)
}

// Whether the two sets are equal where they are one.
fn compared(alloc: Global, left: &Row, right: &Row) -> Result<bool, Refusal> {
    let equal = kept(alloc, left)? == kept(alloc, right)?;
    Ok(equal == (left.0 == right.0))
}

// Whether the set narrows the CPUs to those of the row, as a set, as a word where it has one, and kept.
fn narrows(alloc: Global, row: &Narrowing) -> Result<bool, Refusal> {
    let set = CpuSet::read(row.0)?;
    let left = CpuSet::read(row.2)?;
    let mut by_set = CpuSet::read(row.1)?;
    let mut by_word = by_set;
    let mut by_kept = by_set;
    by_set.narrow(&set);
    match set.low() {
        Some(word) => by_word.narrow_low(word),
        None => by_word.narrow(&set),
    }
    BoxedCpus::new(alloc, set)?.narrow(&mut by_kept);
    Ok(by_set == left && by_word == left && by_kept == left)
}

#[test]
fn words_are_those_of_their_sets(rt: HostRuntime) {
    for row in &SETS {
        assert_eq!(rt; has_word(row), Ok(true), "{}", row.0);
    }
}

#[test]
fn kept_sets_have_their_numbers(rt: HostRuntime) {
    for row in &SETS {
        assert_eq!(rt; holds_of_set(rt.alloc(), row), Ok(true), "{}", row.0);
    }
}

#[test]
fn kept_sets_are_compared(rt: HostRuntime) {
    for left in &SETS {
        for right in &SETS {
            assert_eq!(rt;
                compared(rt.alloc(), left, right),
                Ok(true),
                "{} and {}",
                left.0,
                right.0
            );
        }
    }
}

#[test]
fn sets_narrow_cpus(rt: HostRuntime) {
    for row in &NARROWED {
        assert_eq!(rt;
            narrows(rt.alloc(), row),
            Ok(true),
            "{} narrows {}",
            row.0,
            row.1
        );
    }
}
