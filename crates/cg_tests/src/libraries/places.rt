//! Processes by group, beside a plain list of them.
use crate::libraries::lock_lists::Generator;
use cg_places::Places;
use std::alloc::{AllocError, Global};

const GROUPS: u32 = 40;

const PROCESSES: u32 = 120;

const MOVES: u32 = 1000;

// The PIDs of a group in a list that is ascending.
fn plain_pids(alloc: Global, plain: &[(u32, u32)], group: u32) -> Result<Vec<u32>, AllocError> {
    let mut pids = Vec::new(alloc);
    for place in plain {
        if place.1 == group {
            pids.push(place.0)?;
        }
    }
    Ok(pids)
}

// Whether the group has the same processes in both.
fn agree_in(
    alloc: Global,
    places: &Places,
    plain: &[(u32, u32)],
    group: u32,
) -> Result<bool, AllocError> {
    let wanted = plain_pids(alloc, plain, group)?;
    let pids = places.pids_in(alloc, group)?;
    Ok(pids.as_slice() == wanted.as_slice() && places.is_empty(group) == wanted.is_empty())
}

// Whether both have the same processes in the same groups.
fn agree(alloc: Global, places: &Places, plain: &[(u32, u32)]) -> Result<bool, AllocError> {
    let all = places.places(alloc)?;
    if all.as_slice() != plain || places.len() != plain.len() {
        return Ok(false);
    }
    for group in 0..GROUPS {
        if !agree_in(alloc, places, plain, group)? {
            return Ok(false);
        }
    }
    Ok(true)
}

// Puts processes into groups, in no order, and into the list.
fn fill(
    places: &mut Places,
    plain: &mut Vec<(u32, u32)>,
    generator: &mut Generator,
) -> Result<(), AllocError> {
    places.make_room(GROUPS)?;
    for number in 0..PROCESSES {
        let pid = (number * 7 + 1) % 127;
        let group = generator.below(GROUPS as usize) as u32;
        places.add(pid, group)?;
        plain.push((pid, group))?;
    }
    plain.sort_unstable_by_key(|place| place.0);
    Ok(())
}

// The first move after which the two differ: in the groups that it left and came to, and each hundredth time in any.
fn first_wrong_move(alloc: Global, seed: u64) -> Result<Option<u32>, AllocError> {
    let mut generator = Generator::new(seed);
    let mut places = Places::new(alloc);
    let mut plain = Vec::new(alloc);
    fill(&mut places, &mut plain, &mut generator)?;
    for step in 0..MOVES {
        let number = generator.below(plain.len());
        // two in three go to one of four groups, so that these grow and others empty
        let groups = if step % 3 == 0 { GROUPS } else { 4 };
        let group = generator.below(groups as usize) as u32;
        let (pid, from) = plain[number];
        places.put(pid, group);
        plain[number].1 = group;
        let alike = places.group_of(pid) == Some(group)
            && agree_in(alloc, &places, plain.as_slice(), from)?
            && agree_in(alloc, &places, plain.as_slice(), group)?
            && (step % 100 > 0 || agree(alloc, &places, plain.as_slice())?);
        if !alike {
            return Ok(Some(step));
        }
    }
    Ok(None)
}

#[test]
fn moved_processes_are_where_a_plain_list_has_them(rt: HostRuntime) {
    assert!(rt; first_wrong_move(rt.alloc(), 1) == Ok(None));
}

// What a process that isn't there is told, and a group that has none.
fn rest_is_empty(alloc: Global) -> Result<bool, AllocError> {
    let mut places = Places::new(alloc);
    places.make_room(3)?;
    places.make_room(2)?;
    places.add(7, 2)?;
    places.put(8, 1);
    let none = places.pids_in(alloc, 1)?;
    Ok(
        places.has(7)
            && !places.has(8)
            && places.group_of(8) == None
            && places.len() == 1
            && places.is_empty(1)
            && !places.is_empty(2)
            && none.is_empty(),
    )
}

#[test]
fn a_process_that_is_not_there_is_not_moved(rt: HostRuntime) {
    assert!(rt; rest_is_empty(rt.alloc()) == Ok(true));
}
