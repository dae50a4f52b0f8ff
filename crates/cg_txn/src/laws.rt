//! The laws of steps back, on functions that do nothing.
ghost use Rattle.cg_txn.specs.Laws.{LastStep, StepTakes};

/// A step back that takes a command takes the newest above the savepoint, which stays.
pub fn a_step_back_takes_the_newest()
    ensures { StepTakes }
{}

/// A step back that takes none leaves what stands below the savepoint, above which no command stands.
pub fn the_last_step_back_reaches_below()
    ensures { LastStep }
{}
