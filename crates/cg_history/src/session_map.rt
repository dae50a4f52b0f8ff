//! Values by sessions.
ghost use Rattle.std.specs.Prelude.{◌≡◌, ◌==◌, ◌∷◌, [], length, map, None, Some, option_copied, option_map, slice_get, true, IfNone, IfSome, OnErr, OnOk};
ghost use Rattle.std.specs.Borrow.{sem};
ghost use Rattle.std.specs.Option.{option_copied_mut};
ghost use Rattle.indexmap.specs.IndexMap.{get_by, keys};
ghost use Rattle.cg_history.specs.SessionMap.{found, oldest, without};

use crate::recent_places::RecentPlaces;
use crate::session::SessionId;
use indexmap::IndexMap;
use std::alloc::{AllocError, Global};
use std::marker::Model;

/// Values by sessions, in the order in which they came.
#[derive(Drop)]
pub struct SessionMap<V> {
    entries: IndexMap<SessionId, V>,
    // Where sessions were found last: that tells nothing but where to look first.
    recent: RecentPlaces,
}

impl<V> Model for SessionMap<V> {
    ghost use Rattle.std.specs.Prelude.{List, ℕ};
    ghost use Rattle.std.specs.Coded.{coded×, coded_ℕ, coded_list};
    ghost use Rattle.cg_history.specs.SessionMap.{by_session, IsOnceEach};

    ghost Value = { List (ℕ × V) };

    ghost coded = { coded_list (coded× coded_ℕ V.code) };

    ghost view = { λ m. by_session m.entries.entries };

    ghost invariant = { λ m. IsOnceEach (by_session m.entries.entries) };
}

impl<V: Drop> SessionMap<V> {
    ghost use Rattle.cg_history.specs.SessionMapLends.{lends_value};

    /// A map with no value.
    pub fn new(alloc: Global) -> SessionMap<V>
        ensures { result ≡ [] }
    {
        SessionMap {
            entries: IndexMap::new(alloc),
            recent: RecentPlaces::new(),
        }
    }

    /// How many sessions have a value.
    pub fn len(&self) -> usize
        ensures { result ≡ length self.now }
    {
        self.entries.len()
    }

    /// The session that came first of those that have a value.
    pub fn oldest(&self) -> Option<SessionId>
        ensures { option_map (λ s. s.0) result ≡ oldest self.now }
    {
        match self.entries.first() {
            Some((session, _)) => Some(*session),
            None => None,
        }
    }

    /// The value of the session that came with so many behind it, from 0; `None` where fewer have one.
    pub fn nth_newest(&self, index: usize) -> Option<&V>
        ensures { option_copied result ≡ slice_get (map (λ x. x.1) self.now) index }
    {
        let count = self.entries.len();
        if count <= index {
            return None;
        }
        match self.entries.get_index(count - 1 - index) {
            Some((_, value)) => Some(value),
            None => None,
        }
    }

    /// The value of the session, if it has one.
    pub fn get(&self, session: SessionId) -> Option<&V>
        ensures { option_copied result ≡ found session.0 self.now }
    {
        match self.entries.get_index(self.recent.get(session)) {
            Some((there, value)) if *there == session => Some(value),
            _ => self.entries.get(&session),
        }
    }

    /// The value of the session, to be written, if it has one.
    pub fn get_mut(&mut self, session: SessionId) -> Option<&mut V>
        ensures* writes_back { sem 𝓛 (lends_value V.row self.entry session.0 result) }
        ensures value { option_copied_mut result ≡ found session.0 self.old }
    {
        let recent = self.recent.get(session);
        if is_at(&self.entries, session, recent) {
            return self.entries.get_index_mut(recent);
        }
        let place = look_up(&self.entries, session)?;
        self.recent.note(session, place);
        self.entries.get_index_mut(place)
    }

    /// Gives a value to the session, which has none. An error, where there is no memory for it, leaves the map as it was.
    pub fn insert(&mut self, session: SessionId, value: V) -> Result<(), AllocError>
        requires { found session.0 self.old ≡ None }
        ensures ok { OnOk result (self.new ≡ (session.0, value) ∷ self.old) }
        ensures err { OnErr result (self.new ≡ self.old) }
    {
        self.entries.insert(session, value)?;
        Ok(())
    }

    /// Takes the value of the session out, if it has one.
    pub fn remove(&mut self, session: SessionId) -> Option<V>
        ensures value { result ≡ found session.0 self.old }
        ensures removed { self.new ≡ without session.0 self.old }
    {
        self.entries.shift_remove(&session)
    }
}

// Whether the session stands at this place among the entries.
#[inline(always)]
fn is_at<V: Drop>(entries: &IndexMap<SessionId, V>, session: SessionId, place: usize) -> bool
    ensures { result ≡ true → slice_get (keys entries.now) place ≡ Some session }
{
    match entries.get_index(place) {
        Some((there, _)) => *there == session,
        None => false,
    }
}

// The place of the session among the entries, if it stands there, found by its hash.
#[inline(never)]
fn look_up<V: Drop>(entries: &IndexMap<SessionId, V>, session: SessionId) -> Option<usize>
    ensures place { IfSome result (λ place. slice_get (keys entries.now) place ≡ Some session) }
    ensures none { IfNone result (get_by (λ s. session.0 == s.0) entries.now ≡ None) }
{
    entries.get_index_of(&session)
}
