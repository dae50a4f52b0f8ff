//! Where names were found last.
ghost use Rattle.std.specs.Prelude.{◌<◌};

// How many places are kept.
const KEPT: usize = 64;

// For the names that end alike the place among all names at which one of them was found last; any, where none was noted.
#[derive(Drop)]
pub(crate) struct Recent {
    places: [u16; KEPT],
}

impl Recent {
    // Nothing was found yet.
    pub(crate) fn new() -> Recent {
        Recent { places: [0; KEPT] }
    }

    // The place where this name was found last, or any.
    #[inline(always)]
    pub(crate) fn get(&self, name: &[u8]) -> usize {
        usize::from(self.places[kept_at(name)])
    }

    // The name was found at this place. There are never so many names that it isn't noted.
    pub(crate) fn note(&mut self, name: &[u8], place: usize) {
        if let Ok(place) = u16::try_from(place) {
            self.places[kept_at(name)] = place;
        }
    }
}

// Where the place of this name is kept: names that are counted differ at the end.
#[inline(always)]
fn kept_at(name: &[u8]) -> usize
    ensures { result < 64 }
{
    let end = match name {
        [.., tens, ones] => usize::from(*tens) * 10 + usize::from(*ones),
        [only] => usize::from(*only),
        [] => 0,
    };
    end % KEPT
}
