//! Room for the places of scripts, and the numbers of scripts by places.
ghost use Rattle.std.specs.Prelude.{◌≡◌, ◌≤◌, ◌<◌, ◌+◌, ℕ, cond, get_or, length, vec_len, OnOk};
ghost use Rattle.std.specs.List.{AllByRecursion};
ghost use Rattle.std.specs.Vec.{vec_capacity};
ghost use Rattle.cg_commits.specs.Layout.{end_of};
ghost use Rattle.cg_model.specs.Opens.{among};

use std::alloc::AllocError;

// For how many slots more than those that are due room is made at once.
pub(crate) const AT_ONCE: usize = 256;

// Makes room for so many places and ends more, and for the numbers of so many records. An error, where there is no memory, leaves
// what can be seen as it was. It is a call, seldom made.
#[inline(never)]
pub(crate) fn make_room(
    places: &mut Vec<u32>,
    ends: &mut Vec<usize>,
    numbers: &mut Vec<u32>,
    slots: usize,
    size: usize,
) -> Result<(), AllocError>
    ensures places { places.new.items ≡ places.old.items }
    ensures places_len { vec_len places.new ≡ vec_len places.old }
    ensures places_capacity { vec_capacity places.old ≤ vec_capacity places.new }
    ensures places_room { OnOk result (vec_len places.new + slots ≤ vec_capacity places.new) }
    ensures ends { ends.new.items ≡ ends.old.items }
    ensures ends_len { vec_len ends.new ≡ vec_len ends.old }
    ensures ends_capacity { vec_capacity ends.old ≤ vec_capacity ends.new }
    ensures ends_room { OnOk result (vec_len ends.new + slots ≤ vec_capacity ends.new) }
    ensures numbers { (n : ℕ) → get_or numbers.new.items n 0 ≡ get_or numbers.old.items n 0 }
    ensures numbers_len { vec_len numbers.old ≤ vec_len numbers.new }
    ensures size { OnOk result (size ≤ vec_len numbers.new) }
{
    places.reserve(slots)?;
    ends.reserve(slots)?;
    if numbers.len() < size {
        numbers.resize(size, 0)?;
    }
    Ok(())
}

// Gives this number to each of the places.
pub(crate) fn give_number(numbers: &mut Vec<u32>, places: &[u32], number: u32)
    requires { AllByRecursion (λ n. n < vec_len numbers.old) places.now }
    ensures numbers { (n : ℕ) → get_or numbers.new.items n 0 ≡ cond (among n places.now) number (get_or numbers.old.items n 0) }
    ensures len { vec_len numbers.new ≡ vec_len numbers.old }
{
    for place in places {
        numbers[*place as usize] = number;
    }
}

// Where so many scripts end.
pub(crate) fn end_after(ends: &[usize], count: usize) -> usize
    requires { count ≤ length ends.now }
    ensures { result ≡ end_of ends.now count }
{
    if count == 0 {
        return 0;
    }
    ends[count - 1]
}
