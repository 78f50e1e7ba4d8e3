// What the lines of an analysis make.
ghost use Rattle.conflict_cuts.specs.Lines.{LineTies};

/// A line of these steps makes the next row: that of a cut, the clause of the falsified row, the clause after a resolution.
#[tactic(auto, using(crate::proofs::PolRows::line_ties))]
pub fn line_ties()
    ensures { LineTies }
{}
