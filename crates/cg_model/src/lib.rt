//! The definitions: trees of control groups, what commands do to them, histories of transactions, and the machine. Worked
//! runs stand on functions that do nothing.
#![tactic(auto)]

ghost use Rattle.cg_model.specs.CommandRows.{EffectiveCpus, Enabling, FreezeAndPopulated, Hotplug, Limits, MigrateAndRemove, OwnRefusals};
ghost use Rattle.cg_model.specs.GoingBackRows.{CpusetOffAndBack, DeadEntries, FullAtFour, RemadeGroup, Savepoints};
ghost use Rattle.cg_model.specs.SessionRows.{AbortBesideCommit, AbortsAtTheEnd, CommitOrder, CountsAreLocked, LockedUntilCommit, MigratePinsBothEnds, OnlineLocksAll, ProcessesAreLocked, ReadersAreProtected, ReadersShare, UnseenRemoval};

/// Worked runs of one transaction: what the commands do and refuse.
pub fn worked_runs_of_commands()
    ensures enabling { Enabling }
    ensures effective_cpus { EffectiveCpus }
    ensures freeze_and_populated { FreezeAndPopulated }
    ensures migrate_and_remove { MigrateAndRemove }
    ensures limits { Limits }
    ensures own_refusals { OwnRefusals }
    ensures hotplug { Hotplug }
{}

/// Worked runs of several sessions: locks and orders of commits.
pub fn worked_runs_of_sessions()
    ensures abort_beside_commit { AbortBesideCommit }
    ensures locked_until_commit { LockedUntilCommit }
    ensures migrate_pins_both_ends { MigratePinsBothEnds }
    ensures unseen_removal { UnseenRemoval }
    ensures commit_order { CommitOrder }
    ensures counts_are_locked { CountsAreLocked }
    ensures readers_share { ReadersShare }
    ensures readers_are_protected { ReadersAreProtected }
    ensures processes_are_locked { ProcessesAreLocked }
    ensures online_locks_all { OnlineLocksAll }
    ensures aborts_at_the_end { AbortsAtTheEnd }
{}

/// Worked runs of going back: undo, savepoints, reserved slots, and the entries that stay for it.
pub fn worked_runs_of_going_back()
    ensures cpuset_off_and_back { CpusetOffAndBack }
    ensures savepoints { Savepoints }
    ensures remade_group { RemadeGroup }
    ensures full_at_four { FullAtFour }
    ensures dead_entries { DeadEntries }
{}
