// What the moves of a search do to where its trail stands.
ghost use Rattle.search_measure.specs.Moves.{AddedIsAhead, ConflictKeepsLater, DecisionIsAhead, IdleIsExact, LearnedIsAhead, QuietIsLevel, RestartsLevel, StartsAhead};

/// Where no row was learned since the last restart, the trail is ahead.
pub fn starts_ahead()
    ensures { StartsAhead }
{}

/// So it is after a restart.
pub fn restarts_level()
    ensures { RestartsLevel }
{}

/// At a conflict a row that is learned at any level below the engine's is later than the last one.
pub fn conflict_keeps_later()
    ensures { ConflictKeepsLater }
{}

/// Where nothing is due, the trail has reached the last row.
pub fn quiet_is_level()
    ensures { QuietIsLevel }
{}

/// A decision leaves it ahead.
pub fn decision_is_ahead()
    ensures { DecisionIsAhead }
{}

/// So does a learned row, with the trail that goes back to its level.
pub fn learned_is_ahead()
    ensures { LearnedIsAhead }
{}

/// So do rows that are added where nothing is due.
pub fn added_is_ahead()
    ensures { AddedIsAhead }
{}

/// An engine where nothing is due is exact at each level.
pub fn idle_is_exact()
    ensures { IdleIsExact }
{}
