// The rows that a text learns.
ghost use Rattle.search_measure.specs.Recorded.{CountedIsBounded, LaterRowIsLearned, LearnedIsBounded, LinesKeepLearned, NotesLearn, NothingIsLearned, PiecesGoOn, RestartEndsStretch, UncountedLearnNothing};

/// Lines and notes that are added one after another, and stay valid, go on.
pub fn pieces_go_on()
    ensures { PiecesGoOn }
{}

/// Lines that count no learn note learn nothing.
pub fn uncounted_learn_nothing()
    ensures { UncountedLearnNothing }
{}

/// A note learns what it says.
pub fn notes_learn()
    ensures { NotesLearn }
{}

/// At the start nothing is learned.
pub fn nothing_is_learned()
    ensures { NothingIsLearned }
{}

/// Lines that learn nothing keep the learned rows as they are.
pub fn lines_keep_learned()
    ensures { LinesKeepLearned }
{}

/// A row that is later than the last one comes to its stretch.
pub fn later_row_is_learned()
    ensures { LaterRowIsLearned }
{}

/// A restart after 100 rows or more ends a stretch.
pub fn restart_ends_stretch()
    ensures { RestartEndsStretch }
{}

/// At the end the conflicts of the whole text are bounded.
pub fn learned_is_bounded()
    ensures { LearnedIsBounded }
{}

/// So are its learn notes, which the derivation counts.
pub fn counted_is_bounded()
    ensures { CountedIsBounded }
{}
