//! The holders of what is in the parts of what is held at a path, but for the least of each part: one list for all parts.
ghost use Rattle.std.specs.Prelude.{◌≡◌, ◌+◌, ◌<◌, ◌≤◌, [], false, ℕ, IfOk, IsTrue, OnErr, T, length, option_map, slice_get};
ghost use Rattle.std.specs.FinMap.Entries.{find, is_sorted, put};
ghost use Rattle.std.specs.Option.{unwrap_or};
ghost use Rattle.std.specs.Ordering.{nat_cmp};
ghost use Rattle.cg_locks.specs.Held.{same_part};
ghost use Rattle.cg_locks.specs.FirstsAndOthers.{others_in, spot_of};
ghost use Rattle.cg_locks.specs.Holders.{all_holders, without, IsHolderList};
ghost use Rattle.cg_locks.specs.declared.held.Part.{Part};

use crate::held::Part;
use std::alloc::AllocError;

// A holder in one part, and how often it holds what is in it.
#[derive(Clone, Copy)]
pub(crate) struct Other {
    pub(crate) part: Part,
    pub(crate) holder: u32,
    pub(crate) times: u32,
}

// Where the first entry of this part stands whose number is no lower than the transaction's, or the end; and how often the
// transaction holds what is in the part.
pub(crate) fn place_in(others: &[Other], part: Part, transaction: u32) -> (usize, u32)
    requires { T (is_sorted nat_cmp (others_in part others.now)) }
    ensures place { result.0 ≡ spot_of part transaction others.now }
    ensures within { result.0 ≤ length others.now }
    ensures count { result.1 ≡ unwrap_or (find nat_cmp transaction (others_in part others.now)) 0 }
{
    for (index, other) in others.iter().enumerate() {
        // This is asked first, since parts take turns, and which one comes next can't be foreseen.
        if other.holder < transaction {
            continue;
        }
        if !part.is(other.part) {
            continue;
        }
        if other.holder == transaction {
            return (index, other.times);
        }
        return (index, 0);
    }
    (others.len(), 0)
}

// The same for a transaction that may come to the part anew: if so, its number is mostly greater than all that are there.
fn place_to_add(others: &[Other], part: Part, transaction: u32) -> (usize, u32)
    requires { T (is_sorted nat_cmp (others_in part others.now)) }
    ensures place { result.0 ≡ spot_of part transaction others.now }
    ensures within { result.0 ≤ length others.now }
    ensures count { result.1 ≡ unwrap_or (find nat_cmp transaction (others_in part others.now)) 0 }
{
    if is_youngest(others, part, transaction) {
        return (others.len(), 0);
    }
    place_in(others, part, transaction)
}

// Whether the transaction's number is greater than each in this part. The last of them has the greatest, and stands near the end.
fn is_youngest(others: &[Other], part: Part, transaction: u32) -> bool
    requires { T (is_sorted nat_cmp (others_in part others.now)) }
    ensures place { IsTrue result → spot_of part transaction others.now ≡ length others.now }
    ensures count { IsTrue result → unwrap_or (find nat_cmp transaction (others_in part others.now)) 0 ≡ 0 }
{
    for i in (0..others.len()).rev() {
        if part.is(others[i].part) {
            return others[i].holder < transaction;
        }
    }
    true
}

// The least holder in this part.
pub(crate) fn least_in(others: &[Other], part: Part) -> Option<u32>
    requires { T (is_sorted nat_cmp (others_in part others.now)) }
    ensures { result ≡ option_map (λ (e : ℕ × ℕ). e.0) (slice_get (others_in part others.now) 0) }
{
    let (place, _) = place_in(others, part, 0);
    if place < others.len() {
        Some(others[place].holder)
    } else {
        None
    }
}

// Writes one more beside the transaction's number in this part, and gives how many stand there then. An error, where there is no
// memory for it, leaves the entries.
pub(crate) fn add_in(
    others: &mut Vec<Other>,
    part: Part,
    transaction: u32,
) -> Result<u32, AllocError>
    requires { IsHolderList (others_in part others.old.items) }
    ensures ok { IfOk result (λ n. others_in part others.new.items ≡ put nat_cmp transaction n (others_in part others.old.items)) }
    ensures count { IfOk result (λ n. n ≡ unwrap_or (find nat_cmp transaction (others_in part others.old.items)) 0 + 1) }
    ensures apart { (r : Part) → same_part r part ≡ false → others_in r others.new.items ≡ others_in r others.old.items }
    ensures err { OnErr result (others.new.items ≡ others.old.items) }
{
    let (place, times) = place_to_add(others, part, transaction);
    let Some(more) = times.checked_add(1) else {
        return Err(AllocError);
    };
    let other = Other {
        part,
        holder: transaction,
        times: more,
    };
    if more > 1 {
        others[place] = other;
    } else {
        others.insert(place, other)?;
    }
    Ok(more)
}

// Writes one less beside the transaction's number in this part, and gives how many stand there then: where that is 0, the entry
// goes.
pub(crate) fn remove_in(others: &mut Vec<Other>, part: Part, transaction: u32) -> u32
    requires sorted { T (is_sorted nat_cmp (others_in part others.old.items)) }
    requires there { 0 < unwrap_or (find nat_cmp transaction (others_in part others.old.items)) 0 }
    ensures left { result + 1 ≡ unwrap_or (find nat_cmp transaction (others_in part others.old.items)) 0 }
    ensures less { 0 < result → others_in part others.new.items ≡ put nat_cmp transaction result (others_in part others.old.items) }
    ensures gone { result ≡ 0 → others_in part others.new.items ≡ without transaction (others_in part others.old.items) }
    ensures apart { (r : Part) → same_part r part ≡ false → others_in r others.new.items ≡ others_in r others.old.items }
{
    let (place, times) = place_in(others, part, transaction);
    let left = times - 1;
    if left > 0 {
        others[place] = Other {
            part,
            holder: transaction,
            times: left,
        };
    } else {
        others.remove(place);
    }
    left
}

// Takes the least holder in this part out, and gives it with how often it holds what is in it; one with 0, where there is none.
pub(crate) fn take_least(others: &mut Vec<Other>, part: Part) -> (u32, u32)
    requires { IsHolderList (others_in part others.old.items) }
    ensures all { all_holders result.0 result.1 (others_in part others.new.items) ≡ others_in part others.old.items }
    ensures alone { result.1 ≡ 0 → others_in part others.new.items ≡ [] }
    ensures apart { (r : Part) → same_part r part ≡ false → others_in r others.new.items ≡ others_in r others.old.items }
{
    if others.is_empty() {
        return (0, 0);
    }
    take_out_least(others, part)
}

// The same, by a look at each: mostly there is none.
#[inline(never)]
fn take_out_least(others: &mut Vec<Other>, part: Part) -> (u32, u32)
    requires { IsHolderList (others_in part others.old.items) }
    ensures all { all_holders result.0 result.1 (others_in part others.new.items) ≡ others_in part others.old.items }
    ensures alone { result.1 ≡ 0 → others_in part others.new.items ≡ [] }
    ensures apart { (r : Part) → same_part r part ≡ false → others_in r others.new.items ≡ others_in r others.old.items }
{
    let (place, _) = place_in(others, part, 0);
    if place >= others.len() {
        return (0, 0);
    }
    let least = others.remove(place);
    (least.holder, least.times)
}
