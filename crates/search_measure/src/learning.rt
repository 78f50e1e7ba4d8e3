// Rows that are learned.
ghost use Rattle.search_measure.specs.Learning.{LearnedHasSizes, LearnedIsFresh};
ghost use Rattle.search_measure.specs.Agreeing.{HeldAboveGround, LearnNoteHasSizes, LearnNoteIsTrue, SameRowsSameClosures, SameRowsSameFresh, SameRowsSameSizes};

/// A row that is learned from an engine that is exact below its level is fresh.
pub fn learned_is_fresh()
    ensures { LearnedIsFresh }
{}

/// Its sizes are the trail's lengths.
pub fn learned_sizes()
    ensures { LearnedHasSizes }
{}

/// Lists of the same rows have the same closures.
pub fn same_rows_same_closures()
    ensures { SameRowsSameClosures }
{}

/// They have the same fresh rows.
pub fn same_rows_same_fresh()
    ensures { SameRowsSameFresh }
{}

/// They have the same sizes.
pub fn same_rows_same_sizes()
    ensures { SameRowsSameSizes }
{}

/// The note of a row that is learned from an engine that agrees with the derivation is true.
pub fn learn_notes_are_true()
    ensures { LearnNoteIsTrue }
{}

/// The sizes of its row are the trail's lengths.
pub fn learn_notes_have_sizes()
    ensures { LearnNoteHasSizes }
{}

/// Above level 0 the rows that the derivation holds aren't refuted.
pub fn held_above_ground()
    ensures { HeldAboveGround }
{}
