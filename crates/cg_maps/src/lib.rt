//! Finite maps and sets for definitions: equal where they answer alike, and computing in proofs.
#![tactic(auto)]

ghost use Rattle.cg_maps.specs.Laws.{EmptyHasNone, EntriesAreHeld, EqualWhereAlike, HeldIsSame, InCommon, LastCounts, OfList, PassingAreRetained, SetIsMembers, SetIsRead, SettingsCommute, SuchThatBelow, WithMember};

/// Two maps that hold the same at every key are equal.
pub fn maps_are_equal_where_they_answer_alike<K: Ord, V: Drop>()
    ensures { EqualWhereAlike K.cmp V }
{}

/// A key holds what it was set to, and every other key what it held.
pub fn what_was_set_is_read<K: Ord, V: Drop>()
    ensures { SetIsRead K.cmp V }
{}

/// The keys that pass keep what they hold, and the others hold nothing.
pub fn keys_that_pass_are_retained<K: Ord, V: Drop>()
    ensures { PassingAreRetained K.cmp V }
{}

/// The entries of a map are what its keys hold, each key once, and they are counted.
pub fn entries_are_what_keys_hold<K: Ord, V: Drop>()
    ensures { EntriesAreHeld K.cmp V }
{}

/// Of two settings of one key the last counts.
pub fn setting_twice_keeps_the_last<K: Ord, V: Drop>()
    ensures { LastCounts K.cmp V }
{}

/// Settings of two keys may change places.
pub fn settings_at_two_keys_commute<K: Ord, V: Drop>()
    ensures { SettingsCommute K.cmp V }
{}

/// A key set to what it holds leaves the map as it was.
pub fn setting_what_is_held_changes_nothing<K: Ord, V: Drop>()
    ensures { HeldIsSame K.cmp V }
{}

/// Sets with the same members are equal, and a set is that of its listed members.
pub fn a_set_is_its_members()
    ensures { SetIsMembers }
{}

/// Which members the sets have that are made of other sets, of lists and of tests.
pub fn sets_have_their_members()
    ensures with_member { WithMember }
    ensures in_common { InCommon }
    ensures of_list { OfList }
    ensures such_that_below { SuchThatBelow }
    ensures is_empty { EmptyHasNone }
{}
