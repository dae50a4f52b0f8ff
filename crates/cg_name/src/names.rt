//! The names of a path, one by one.
ghost use Rattle.std.specs.Prelude.{◌≡◌, List, ℕ};
ghost use Rattle.std.specs.Iterator.{item_count, YieldsFirstRef};
ghost use Rattle.cg_name.specs.Packed.{names_in, IsPacked};

use crate::packed::first_name;
use std::marker::Model;

/// The names of a path that are still to come, from the root down. Takes no memory.
#[derive(Drop)]
pub struct Names<'a> {
    // The text of a path with these names.
    rest: &'a [u8],
}

impl<'a> Model for Names<'a> {
    ghost Value = { List (List ℕ) };

    ghost view = { λ n. names_in n.rest.now };

    ghost invariant = { λ n. IsPacked n.rest.now };
}

impl<'a> Names<'a> {
    // The names in the text of a path.
    pub(crate) fn new(bytes: &'a [u8]) -> Names<'a>
        requires { IsPacked bytes.now }
        ensures { result ≡ names_in bytes.now }
    {
        Names { rest: bytes }
    }
}

impl<'a> Iterator for Names<'a> {
    type Item = &'a str;

    ghost next_gives = { YieldsFirstRef (λ names. names) };

    ghost remaining = { item_count (λ names. names) };

    fn next(&mut self) -> Option<&'a str> {
        let (_, rest) = self.rest.split_first()?;
        let name = first_name(rest);
        self.rest = &rest[name.len()..];
        // A name is UTF-8.
        Some(unsafe { std::str::from_utf8_unchecked(name) })
    }
}
