//! Maps made of entries that come one by one, mostly by ascending keys.
ghost use Rattle.std.specs.Prelude.{◌≡◌, ◌⊎◌, [], IfOk, IfSome, OnErr, OnOk, IsTrue, Some, is_some, length};
ghost use Rattle.std.specs.List.{AllByRecursion};
ghost use Rattle.std.specs.declared.cmp.Ordering.TheVariants.{Less};
ghost use Rattle.std.specs.List.Sorted.{IsStrictlySortedBy};
ghost use Rattle.std.specs.Map.{keys_of};
ghost use Rattle.std.specs.FinMap.{IsAntisymmetric};
ghost use Rattle.cg_maps.specs.FiniteMap.{get, set_at, from_entries};
ghost use Rattle.cg_world.specs.Gathered.{entries_of};

use crate::counts_hints::CountsHints;
use std::alloc::{AllocError, Global};
use std::cell::Cell;
use std::collections::BTreeMap;
use std::iter::FromIterator;
use std::marker::Model;
use std::mem;

// The entries that a node of a map has places for. A row of more shows whether `from_iter` was refused the room for all of it, since
// the room in which it goes on then has places for 8 at most.
const FEW: usize = 15;

/// The entries so far.
#[derive(Drop)]
pub enum Kept<K: Ord + Drop, V: Drop> {
    /// In the order in which they came, each key greater than the one before.
    Run(Vec<(K, V)>),
    /// In a map, since one came whose key was not.
    Map(BTreeMap<K, V>),
}

/// A map that is made of entries that come one by one. As long as they come by ascending keys, they are only kept in a row, and the
/// map is made of them all at once: that takes no search for each, and leaves no half-full node.
#[derive(Drop)]
pub(crate) struct Gathered<K: Ord + Drop, V: Drop> {
    kept: Kept<K, V>,
}

impl<K: Ord + Drop, V: Drop> Model for Gathered<K, V> {
    ghost use Rattle.std.specs.Prelude.{List};
    ghost use Rattle.std.specs.Map.{keys_of};
    ghost use Rattle.std.specs.List.Sorted.{IsStrictlySortedBy};

    ghost Value = { List (K × V) };

    ghost use Rattle.cg_world.specs.Gathered.{entries_of};

    ghost view = { λ g. entries_of g.kept };

    ghost invariant = { λ g. IsStrictlySortedBy K.cmp (keys_of (entries_of g.kept)) };
}

impl<K: Ord + Drop, V: Drop> Gathered<K, V> {
    /// No entry.
    pub(crate) fn new(alloc: Global) -> Gathered<K, V>
        ensures { result ≡ [] }
    {
        Gathered {
            kept: Kept::Run(Vec::new(alloc)),
        }
    }

    /// The entries so far.
    pub(crate) fn kept(&self) -> &Kept<K, V>
        ensures value { entries_of result.now ≡ self.now }
        ensures ascends { IsStrictlySortedBy K.cmp (keys_of self.now) }
    {
        &self.kept
    }

    /// How many entries there are.
    pub(crate) fn len(&self) -> usize
        ensures { result ≡ length self.now }
    {
        match &self.kept {
            Kept::Run(run) => run.len(),
            Kept::Map(map) => map.len(),
        }
    }

    /// The entry with this key, where one is found.
    pub(crate) fn find(&self, key: &K) -> Option<(&K, &V)>
        ensures key { IfSome result (λ e. IsAntisymmetric K.cmp → e.0.now ≡ key.now) }
        ensures value { IfSome result (λ e. IsAntisymmetric K.cmp → get (from_entries K.cmp self.now) key.now ≡ Some e.1.now) }
    {
        match &self.kept {
            Kept::Run(run) => find_in_run(run.as_slice(), key),
            Kept::Map(map) => map.get_key_value(key),
        }
    }

    /// Puts a value at the key, and answers whether there was one. An error, where there is no memory, leaves the entries or none.
    pub(crate) fn insert(&mut self, alloc: Global, key: K, value: V) -> Result<bool, AllocError>
        ensures ok { OnOk result (IsAntisymmetric K.cmp → from_entries K.cmp self.new ≡ set_at (from_entries K.cmp self.old) key (Some value)) }
        ensures had { IfOk result (λ had. IsAntisymmetric K.cmp → had ≡ is_some (get (from_entries K.cmp self.old) key)) }
        ensures err { OnErr result ((self.new ≡ self.old) ⊎ (self.new ≡ [])) }
    {
        if let Kept::Run(run) = &mut self.kept {
            if is_behind(run.as_slice(), &key) {
                run.push((key, value))?;
                return Ok(false);
            }
        }
        let mut map = map_of(
            alloc,
            mem::replace(&mut self.kept, Kept::Run(Vec::new(alloc))),
        )?;
        let former = map.insert(key, value)?;
        self.kept = Kept::Map(map);
        Ok(former.is_some())
    }

    /// The map of what was gathered; an error where there is no memory for it.
    pub(crate) fn finish(self, alloc: Global) -> Result<BTreeMap<K, V>, AllocError>
        ensures { IfOk result (λ map. IsAntisymmetric K.cmp → from_entries K.cmp map.entries ≡ from_entries K.cmp self) }
    {
        let Gathered { kept } = self;
        map_of(alloc, kept)
    }
}

// Whether the key is greater than that of the last entry, where there is one.
fn is_behind<K: Ord, V: Drop>(run: &[(K, V)], key: &K) -> bool
    requires { IsStrictlySortedBy K.cmp (keys_of run.now) }
    ensures { IsTrue result → AllByRecursion (λ k. K.cmp k key.now ≡ Less) (keys_of run.now) }
{
    match run.last() {
        Some((last, _)) => last.cmp(key).is_lt(),
        None => true,
    }
}

// The entry with this key, where one is found among those in a row.
fn find_in_run<'a, K: Ord, V>(run: &'a [(K, V)], key: &K) -> Option<(&'a K, &'a V)>
    requires { IsStrictlySortedBy K.cmp (keys_of run.now) }
    ensures key { IfSome result (λ e. IsAntisymmetric K.cmp → e.0.now ≡ key.now) }
    ensures value { IfSome result (λ e. IsAntisymmetric K.cmp → get (from_entries K.cmp run.now) key.now ≡ Some e.1.now) }
{
    let index = run.binary_search_by(|entry| entry.0.cmp(key)).ok()?;
    let (found, value) = run.get(index)?;
    Some((found, value))
}

// The map of these entries.
fn map_of<K: Ord + Drop, V: Drop>(
    alloc: Global,
    kept: Kept<K, V>,
) -> Result<BTreeMap<K, V>, AllocError>
    requires { IsStrictlySortedBy K.cmp (keys_of (entries_of kept)) }
    ensures { IfOk result (λ map. IsAntisymmetric K.cmp → from_entries K.cmp map.entries ≡ from_entries K.cmp (entries_of kept)) }
{
    match kept {
        Kept::Run(run) => map_of_run(alloc, run),
        Kept::Map(map) => Ok(map),
    }
}

// The map of the entries in a row.
//
// `from_iter` makes it without searches, of full nodes. Where the room for all entries is refused, it goes on in room for a few, and
// tells nobody. But it asks for their number whenever it needs room, and where it has the room for all, that is once. So a second
// time is want of memory too: no growth is refused unheard.
fn map_of_run<K: Ord + Drop, V: Drop>(
    alloc: Global,
    run: Vec<(K, V)>,
) -> Result<BTreeMap<K, V>, AllocError>
    requires { IsStrictlySortedBy K.cmp (keys_of run.items) }
    ensures { IfOk result (λ map. IsAntisymmetric K.cmp → from_entries K.cmp map.entries ≡ from_entries K.cmp run.items) }
{
    if run.len() <= FEW {
        return map_of_few(alloc, run);
    }
    let hints = Cell::new(0);
    let entries = CountsHints {
        items: run.into_iter(),
        hints: &hints,
    };
    let map = BTreeMap::from_iter(alloc, entries)?;
    if hints.get() > 1 {
        return Err(AllocError);
    }
    Ok(map)
}

// The map of a few entries. They go into it from the last to the first, so that each is compared with one key alone.
fn map_of_few<K: Ord + Drop, V: Drop>(
    alloc: Global,
    mut run: Vec<(K, V)>,
) -> Result<BTreeMap<K, V>, AllocError>
    ensures { IfOk result (λ map. IsAntisymmetric K.cmp → from_entries K.cmp map.entries ≡ from_entries K.cmp run.items) }
{
    let mut map = BTreeMap::new(alloc);
    while let Some((key, value)) = run.pop() {
        map.insert(key, value)?;
    }
    Ok(map)
}
