//! The law of differences.
ghost use Rattle.cg_diff.specs.Laws.{NothingWhereSame};

/// Nothing is told exactly where the two trees are the same.
pub fn nothing_is_told_where_trees_are_same()
    ensures { NothingWhereSame }
{}
