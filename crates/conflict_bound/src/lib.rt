//! How many rows a search can learn: a number that falls from each learned row to the next one, and the bound on learn notes that
//! follows. Everything stands in `specs/`; a function here has an empty body, and its contract is a law over it.
#![tactic(auto)]

ghost use Rattle.conflict_bound.specs.Sizes.{DistancesAreBounded, DistancesFall, FreshRowsHaveSizes, FreshSizesRise};
ghost use Rattle.conflict_bound.specs.Conflicts.{BoundedConflictsAreFew, EndsAreApart, StretchesAreShort};
ghost use Rattle.conflict_bound.specs.Counted.{LearnNotesAreCounted, LearnNotesAreFew, TrueNotesLearnFresh};

/// The greater of two lists of sizes is nearer to the last one in dictionary order.
#[tactic(auto, using(crate::proofs::Distances::distances_fall))]
pub fn distances_fall()
    ensures { DistancesFall }
{}

/// Distances are at least 1 and less than 2^n.
#[tactic(auto, using(crate::proofs::Distances::distances_bounded))]
pub fn distances_are_bounded()
    ensures { DistancesAreBounded }
{}

/// A fresh row has sizes.
#[tactic(auto, using(crate::proofs::FreshSizes::fresh_sized))]
pub fn fresh_rows_have_sizes()
    ensures { FreshRowsHaveSizes }
{}

/// The sizes of a fresh row rise, the last one by two.
#[tactic(auto, using(crate::proofs::FreshSizes::fresh_rise))]
pub fn fresh_sizes_rise()
    ensures { FreshSizesRise }
{}

/// A stretch of fresh rows, each later than the one before it, has at most 2^n - 1.
#[tactic(auto, using(crate::proofs::Stretches::stretches_short))]
pub fn stretches_are_short()
    ensures { StretchesAreShort }
{}

/// Where the stretches of fresh rows are as they should be, there are at most 10001 * (2^n - 1) rows.
#[tactic(auto, using(crate::proofs::Stretches::conflicts_few))]
pub fn bounded_conflicts_are_few()
    ensures { BoundedConflictsAreFew }
{}

/// Each ended stretch takes 100 rows or more.
#[tactic(auto, using(crate::proofs::Stretches::ends_apart))]
pub fn ends_are_apart()
    ensures { EndsAreApart }
{}

/// The learned rows of a text with true notes are fresh.
pub fn true_notes_learn_fresh()
    ensures { TrueNotesLearnFresh }
{}

/// They are as many as learn notes are counted.
pub fn learn_notes_are_counted()
    ensures { LearnNotesAreCounted }
{}

/// Where their stretches are as they should be, at most 10001 * (2^n - 1) learn notes are counted.
pub fn learn_notes_are_few()
    ensures { LearnNotesAreFew }
{}
