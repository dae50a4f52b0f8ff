//! What logs tell of the machine, on a function that does nothing.
ghost use Rattle.cg_desk.specs.LiveStacks.{CallsTellStacks, NothingToGoBackTo};

/// What stands by the calls of a session that a history has is the stack of its open transaction there, item by item, as commands and
/// named savepoints; and where none is open, nothing stands. So where a log is the history's calls of its session, as `close` compares
/// them, it tells by itself what going back would take off; and where nothing stands by it, a machine with that history answers
/// `NothingToUndo` to an undo in an open transaction, and `NoSavepoint` to each return.
pub fn calls_tell_stacks()
    ensures stacks { CallsTellStacks }
    ensures nothing { NothingToGoBackTo }
{}
