//! What holds of every world text.
ghost use Rattle.cg_world_text.specs.Laws.{OneWorld, WrittenIsSpelled};

/// A text spells one world at most.
pub fn text_spells_one_world()
    ensures { OneWorld }
{}

/// The text that is written for a sound tree that code can hold spells that tree, where it has at most 16 MiB.
pub fn written_is_spelled()
    ensures { WrittenIsSpelled }
{}
