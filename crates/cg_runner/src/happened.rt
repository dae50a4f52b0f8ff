//! What a history has of scripts that were run.
ghost use Rattle.cg_runner.specs.Happened.{CommittedAreWhole, EachHasHappened};

/// Each script's end has happened, by calls of one session that the history has one behind the other.
pub fn each_end_has_happened()
    ensures { EachHasHappened }
{}

/// A script that is told as committed is a whole transaction of the history, whose commit has the number that is told.
pub fn committed_scripts_are_whole()
    ensures { CommittedAreWhole }
{}
