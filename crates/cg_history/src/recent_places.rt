//! Where sessions were found last.
ghost use Rattle.std.specs.Prelude.{◌<◌};

use crate::session::SessionId;

// How many places are kept.
const KEPT: usize = 64;

// For the sessions whose numbers end alike the place among all entries at which one of them was found last; any, where none was
// noted.
#[derive(Drop)]
pub(crate) struct RecentPlaces {
    places: [u16; KEPT],
}

impl RecentPlaces {
    // Nothing was found yet.
    pub(crate) fn new() -> RecentPlaces {
        RecentPlaces { places: [0; KEPT] }
    }

    // The place where this session was found last, or any.
    #[inline(always)]
    pub(crate) fn get(&self, session: SessionId) -> usize {
        usize::from(self.places[kept_at(session)])
    }

    // The session was found at this place, which isn't noted where it is 65,536 or more.
    #[inline(always)]
    pub(crate) fn note(&mut self, session: SessionId, place: usize) {
        if let Ok(place) = u16::try_from(place) {
            self.places[kept_at(session)] = place;
        }
    }
}

// Where the place of this session is kept: by the last six bits of its number.
#[inline(always)]
fn kept_at(session: SessionId) -> usize
    ensures { result < 64 }
{
    session.0 as usize % KEPT
}
