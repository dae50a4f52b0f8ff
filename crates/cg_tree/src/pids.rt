//! The PIDs of a tree, one by one.
ghost use Rattle.std.specs.Prelude.{◌≡◌, List, ℕ};
ghost use Rattle.std.specs.Iterator.{item_count, YieldsFirst};

use std::marker::Model;

/// The PIDs of processes that are still to come, ascending. Takes no memory.
#[derive(Drop)]
pub struct Pids<'a> {
    rest: &'a [u32],
}

impl<'a> Model for Pids<'a> {
    ghost use Rattle.std.specs.Prelude.{List, ℕ};

    ghost Value = { List ℕ };

    ghost view = { λ p. p.rest.now };
}

impl<'a> Pids<'a> {
    // These PIDs.
    pub(crate) fn new(pids: &'a [u32]) -> Pids<'a>
        ensures { result ≡ pids.now }
    {
        Pids { rest: pids }
    }
}

impl<'a> Iterator for Pids<'a> {
    type Item = u32;

    ghost next_gives = { YieldsFirst (λ pids. pids) };

    ghost remaining = { item_count (λ pids. pids) };

    fn next(&mut self) -> Option<u32> {
        let (pid, rest) = self.rest.split_first()?;
        self.rest = rest;
        Some(*pid)
    }
}
