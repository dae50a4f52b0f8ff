//! Laws of the texts of interface files, and of lines.
ghost use Rattle.cg_text.specs.Laws.{CpusAreSpelled, FlagIsSpelled, LimitIsItsNumber, LimitIsSpelled, OneCut, OneFile, OneFlag, OneLimit, OneOps, OnePid, OneSaying, OneText, OpsAreApart, OpsAreSpelled, OpsAreTheirSets, PidIsSpelled, WrittenLinesSay};

/// A text spells at most one value of each kind.
pub fn a_text_spells_at_most_one_value()
    ensures flag { OneFlag }
    ensures pid { OnePid }
    ensures limit { OneLimit }
    ensures operations { OneOps }
    ensures file { OneFile }
{}

/// The text of a flag spells it.
pub fn the_text_of_a_flag_spells_it()
    ensures { FlagIsSpelled }
{}

/// The line of a PID from 1 to 4,194,303 spells it.
pub fn the_text_of_a_pid_spells_it()
    ensures { PidIsSpelled }
{}

/// The text of a limit spells it.
pub fn the_text_of_a_limit_spells_it()
    ensures { LimitIsSpelled }
{}

/// The line of CPU numbers up to 1,023 spells them.
pub fn the_text_of_cpus_spells_them()
    ensures { CpusAreSpelled }
{}

/// Limits with one number, or both with none, are one.
pub fn a_limit_is_its_number()
    ensures { LimitIsItsNumber }
{}

/// No controller is both enabled and disabled by operations.
pub fn operations_are_apart()
    ensures { OpsAreApart }
{}

/// Operations that enable and disable the same controllers are one.
pub fn operations_are_their_sets()
    ensures { OpsAreTheirSets }
{}

/// The text of operations spells them.
pub fn the_text_of_operations_spells_them()
    ensures { OpsAreSpelled }
{}

/// A line is cut into words in one way at most.
pub fn a_line_is_cut_in_one_way()
    ensures { OneCut }
{}

/// A line says one thing at most.
pub fn a_line_says_one_thing_at_most()
    ensures { OneSaying }
{}

/// So do lines, one after another.
pub fn lines_say_one_thing_at_most()
    ensures { OneText }
{}

/// Words that are written in lines are what the lines say that the text is cut into.
pub fn written_lines_say_their_words()
    ensures { WrittenLinesSay }
{}
