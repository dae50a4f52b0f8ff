//! Laws of the text format.
ghost use Rattle.cg_cpus.specs.Laws.{CanonicalSpells, OneSet};

/// A text spells at most one set.
pub fn a_text_spells_at_most_one_set()
    ensures { OneSet }
{}

/// The canonical text of a set spells it.
pub fn the_canonical_text_spells_its_set()
    ensures { CanonicalSpells }
{}
