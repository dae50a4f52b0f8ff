//! Laws of commands as words.
ghost use Rattle.cg_command_text.specs.Laws.{OneCommand, SpelledCanBeAsked, WrittenCommandsAreSpelled};

/// Words spell one command at most.
pub fn words_spell_one_command_at_most()
    ensures { OneCommand }
{}

/// A command that words spell can be asked for.
pub fn what_is_spelled_can_be_asked()
    ensures { SpelledCanBeAsked }
{}

/// The words that are written for a command that can be asked for spell it, and fit into a line behind a name of up to 16
/// bytes.
pub fn written_commands_are_spelled()
    ensures { WrittenCommandsAreSpelled }
{}
