//! The main theorem, of the definitions, on functions that do nothing: of every list of steps of any sessions, interleaved in
//! any way.
#![tactic(auto)]

ghost use Rattle.cg_core_laws.specs.CommittedCommands.{CommitsByCommands, PlacesOfCommands, ScriptsStay};
ghost use Rattle.cg_core_laws.specs.Scripts.{CommittedScripts, CommitTrees, TreesOfScripts};
ghost use Rattle.cg_core_laws.specs.MachineOf.{StepsByHistory};
ghost use Rattle.cg_core_laws.specs.Refusals.{RefusalsLeaveAll};
ghost use Rattle.cg_core_laws.specs.Replayed.{HistoriesAnswerAgain};
ghost use Rattle.cg_core_laws.specs.Restored.{AbortsRestoreTrees};
ghost use Rattle.cg_core_laws.specs.Shown.{TextsAreAscii};
ghost use Rattle.cg_core_laws.specs.Laws.{AnswersAreSteps, BoundKept, BusyExactly, CommitsKept, Draining, Drop, Faithful, Front, GoingBack, KeysOfOthersApart, LettingGo, NewestDrop, OfHistory, OthersUntouched, Roomy, SchedulesEnd, Serial, Sweeping, WholeOfHistory};

/// The tree is the opening tree changed by the surviving commands alone; every inverse fits when its turn comes, in
/// whatever interleaving open transactions are unwound; and the committed transactions in commit order, then each open one
/// in any order, are accepted with their recorded answers and give the tree.
pub fn transactions_are_serial()
    ensures { Serial }
{}

/// A command that nothing later clashes with can be taken out of a run: the others are accepted with the same answers, and
/// lead to the tree with its inverse undone. The newest command of an open transaction is such a one.
pub fn commands_drop_out_of_runs()
    ensures runs { Drop }
    ensures newest { NewestDrop }
{}

/// Any order of the open transactions is reached by pulling them to the front, one after another: at every stage the whole
/// is accepted with the recorded answers, and gives the tree.
pub fn open_transactions_are_pulled_to_the_front()
    ensures { Front }
{}

/// The history is legal, every answer is the one that the history gives, Busy names the least transaction in the way, and
/// the slots that are reserved for going back always suffice.
pub fn the_machine_is_faithful_to_its_history()
    ensures { Faithful }
{}

/// The open transactions, their stacks and the counts are those that the history gives, with the inverse and the footprint
/// that each command had when it was accepted; and the bound is the opening's.
pub fn the_machine_is_that_of_its_history()
    ensures history { OfHistory }
    ensures whole { WholeOfHistory }
    ensures bound { BoundKept }
{}

/// From a history that steps lead to, the answer to the next request is the reply that the history gives, and the machine
/// after it is that of the history with its record, where there is one; steps lead to that history too.
pub fn steps_go_on_by_the_history()
    ensures { StepsByHistory }
{}

/// What a history asked for, asked again of a machine over its opening tree and with its bound, is answered just as it was,
/// and leads to its tree, with the same transactions open: whatever numbers its sessions have then, where these tell them apart.
pub fn histories_answer_again()
    ensures { HistoriesAnswerAgain }
{}

/// Each text that a legal history shows is ASCII.
pub fn texts_are_ascii()
    ensures { TextsAreAscii }
{}

/// The record of a refusal changes nothing: tree, transactions, stacks and locks are those of the history without it.
pub fn refusals_leave_all()
    ensures { RefusalsLeaveAll }
{}

/// Undo, Back, Abort and Commit are never refused where they have something to do, and take off exactly their own items.
pub fn going_back_succeeds_exactly()
    ensures { GoingBack }
{}

/// The tree after an abort is the one before the transaction's begin, where no other session changed it in between.
pub fn aborts_restore_trees()
    ensures { AbortsRestoreTrees }
{}

/// No step changes the stack of another session's transaction.
pub fn other_transactions_stay()
    ensures { OthersUntouched }
{}

/// The tree of the first n commits stays as it is, whatever comes after.
pub fn commits_stay()
    ensures { CommitsKept }
{}

/// There is one script for each commit; in their order they are what was committed, the first n what was through the n-th
/// commit, and an earlier commit's begin a later one's.
pub fn commits_are_scripts()
    ensures { CommittedScripts }
{}

/// The tree after n commits is what the first n scripts give, and at any later time the one that the committed work alone
/// gave when n had committed.
pub fn commit_trees_are_those_of_scripts()
    ensures later { CommitTrees }
    ensures scripts { TreesOfScripts }
{}

/// Each committed script has the places of its commands: the indices, ascending, of the records that asked for them. A script
/// that has committed stays as it is, whatever comes after.
pub fn places_are_those_of_commands()
    ensures places { PlacesOfCommands }
    ensures stay { ScriptsStay }
{}

/// A record is a command of one committed script at most. And the tree of the first k + 1 commits is that of the first k,
/// changed by the commands of the next script, which are accepted in it one after another.
pub fn commits_go_on_by_commands()
    ensures { CommitsByCommands }
{}

/// At the end of a schedule the aborts of what is still open are accepted, nothing is open after them, and the tree is what
/// the committed work alone gives.
pub fn schedules_end_with_nothing_open()
    ensures steps { AnswersAreSteps }
    ensures end { SchedulesEnd }
{}

/// `busy` is answered exactly where another open transaction holds a clashing mark and no earlier refusal applies, and names
/// the least of these.
pub fn busy_names_the_least_in_the_way()
    ensures { BusyExactly }
{}

/// No key of a live command touches a key of another open transaction's live command.
pub fn live_commands_change_keys_apart()
    ensures { KeysOfOthersApart }
{}

/// Every live inverse has room when its turn comes, and the entries that nobody needs may be swept, lower paths first.
pub fn going_back_has_room()
    ensures { Roomy }
{}

/// While a commit drains its stack from the oldest item, the entries that nobody needs may be swept.
pub fn commits_may_sweep()
    ensures { Sweeping }
{}

/// The lock that a transaction holds on a group's subtree tells whether going back may still need the group's entry. An item
/// that is taken off, the newest one at every stage of unwinding or the oldest one while a commit drains its stack, lets go
/// exactly the entry of the group whose subtree its command marked, where no item left on that stack marks it and there is no
/// group; and that entry may be swept.
pub fn a_lock_tells_what_going_back_needs()
    ensures newest { LettingGo }
    ensures oldest { Draining }
{}
