//! Iterators that count how often the number of their items is asked for.
use std::cell::Cell;

/// An iterator, and the number of times that its `size_hint` was called. That number is behind a reference, so that it can still be
/// read when the iterator is used up.
#[derive(Drop)]
pub(crate) struct CountsHints<'a, I> {
    pub(crate) items: I,
    pub(crate) hints: &'a Cell<u32>,
}

impl<'a, I: Iterator> Iterator for CountsHints<'a, I> {
    type Item = I::Item;

    ghost can_next = { λ s. I.can_next s.items };

    ghost next_gives = { λ s r t. I.next_gives s.items r t.items };

    ghost remaining = { λ s. I.remaining s.items };

    fn next(&mut self) -> Option<I::Item> {
        self.items.next()
    }

    fn size_hint(&self) -> (usize, Option<usize>) {
        self.hints.set(self.hints.get().saturating_add(1));
        self.items.size_hint()
    }
}
