// What the history of an engine is.
ghost use Rattle.engine_trails.specs.Histories.{HistoriesAreTrails};
ghost use Rattle.engine_trails.specs.Places.{LiteralsStand};

/// The history of an engine is a trail.
#[tactic(auto, using(crate::proofs::Histories::histories_are_trails))]
pub fn histories_are_trails()
    ensures { HistoriesAreTrails }
{}

/// Its literals stand one behind the other, each with its reason.
#[tactic(auto, using(crate::proofs::Entries::literals_stand))]
pub fn literals_stand()
    ensures { LiteralsStand }
{}
