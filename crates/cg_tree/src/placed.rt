//! The processes of a tree with the paths of their groups, one by one.
ghost use Rattle.std.specs.Prelude.{◌≡◌};
ghost use Rattle.std.specs.Iterator.{item_count, YieldsFirstBy};
ghost use Rattle.cg_maps.specs.FiniteMap.{entries, keys};

use crate::groups::Groups;
use cg_name::PathRef;
use std::marker::Model;

/// Processes that are still to come, by ascending PID, each with the path of its group. Takes no memory.
#[derive(Drop)]
pub struct Placed<'a> {
    groups: &'a Groups,
    // Their PIDs.
    rest: &'a [u32],
}

impl<'a> Model for Placed<'a> {
    ghost use Rattle.std.specs.Prelude.{List, ℕ};
    ghost use Rattle.cg_tree.specs.Placed.{placed, AreThere};

    ghost Value = { List (ℕ × List (List ℕ)) };

    ghost view = { λ p. placed p.groups.now.places p.rest.now };

    ghost invariant = { λ p. AreThere p.groups.now.places p.rest.now };
}

impl<'a> Placed<'a> {
    // All processes, whose PIDs these are.
    pub(crate) fn new(groups: &'a Groups, pids: &'a [u32]) -> Placed<'a>
        requires { pids.now ≡ keys groups.now.places }
        ensures { result ≡ entries groups.now.places }
    {
        Placed { groups, rest: pids }
    }
}

impl<'a> Iterator for Placed<'a> {
    type Item = (u32, PathRef<'a>);

    ghost next_gives = { YieldsFirstBy (λ g. g) (λ gs. gs) };

    ghost remaining = { item_count (λ gs. gs) };

    fn next(&mut self) -> Option<(u32, PathRef<'a>)> {
        let (pid, rest) = self.rest.split_first()?;
        self.rest = rest;
        Some((*pid, self.groups.place(*pid)?))
    }
}
