//! The laws of one command and of two, on functions that do nothing. They hold of every tree and need no soundness but
//! where they say so.
#![tactic(auto)]

ghost use Rattle.cg_model_laws.specs.Values.{EffectiveNeedsCpuset, EffectiveOfChild, EffectiveOfRoot, FrozenAbove, NoValues, ParentGroups, PopulatedBelow, ValuesBelowRoot};
ghost use Rattle.cg_model_laws.specs.Laws.{AbsentStays, ChangesAreMarked, ClashesBothWays, Frame, FrameOfCommands, Identity, KeysApart, KeysOfBothApart, Locality, OthersKeep, OwnChecks, PutIsHeld, SoundKept, Swap};

/// Parents, and what is derived from a tree: populated where a process is in the group or below it, frozen where the group or
/// one above it is, and the effective CPUs by those of the parent.
pub fn derived_values_say_what_they_mean()
    ensures parents { ParentGroups }
    ensures below_root { ValuesBelowRoot }
    ensures populated { PopulatedBelow }
    ensures frozen { FrozenAbove }
    ensures effective_root { EffectiveOfRoot }
    ensures effective_child { EffectiveOfChild }
    ensures effective_cpuset { EffectiveNeedsCpuset }
    ensures none { NoValues }
{}

/// A put changes its key alone: it holds the value then, where it can, and the keys that it doesn't touch what they held.
pub fn puts_change_their_key_alone()
    ensures held { PutIsHeld }
    ensures others { OthersKeep }
    ensures absent { AbsentStays }
{}

/// After an accepted command its inverse fits, and undoing gives the tree before.
pub fn accepted_commands_are_undone()
    ensures { Identity }
{}

/// No two keys of one command's inverse touch, so the order of undoing them is immaterial.
pub fn keys_of_an_inverse_are_apart()
    ensures { KeysApart }
{}

/// Commands whose footprints don't clash change keys that don't touch, even where they run in different trees.
pub fn keys_of_commands_that_do_not_clash_are_apart()
    ensures { KeysOfBothApart }
{}

/// An accepted command keeps a tree sound.
pub fn accepted_commands_keep_trees_sound()
    ensures { SoundKept }
{}

/// A command is refused by its own checks alone: never by a lock, a full history or want of memory.
pub fn commands_are_refused_by_their_own_checks()
    ensures { OwnChecks }
{}

/// What its footprint covers decides a command's answer, its changes and its footprint.
pub fn footprints_decide_effects()
    ensures { Locality }
{}

/// An accepted command changes only keys that its marks let it change, and nothing that marks cover that clash with none of
/// its own.
pub fn accepted_commands_change_what_they_mark()
    ensures changes { ChangesAreMarked }
    ensures marks { Frame }
    ensures commands { FrameOfCommands }
{}

/// Neighbours whose footprints don't clash may be swapped.
pub fn commands_that_do_not_clash_commute()
    ensures { Swap }
{}

/// Footprints clash both ways or not at all.
pub fn clashes_are_symmetric()
    ensures { ClashesBothWays }
{}
