// What holds of the two sequences, whatever the trail.
ghost use Rattle.conflict_rows.specs.Ends.{ClausesEnd, CutRowsEnd, OpensAtFalse};
ghost use Rattle.conflict_rows.specs.Tables.{ClausesAreSteps, CutsAreSteps};

/// The cut rows of a falsified row end: in a row that is finished, in a contradiction, or where a number passes the most.
#[tactic(auto, using(crate::proofs::Proved::cut_rows_end))]
pub fn cut_rows_end()
    ensures { CutRowsEnd }
{}

/// The clauses of a falsified row end: in a clause that is finished, or in the empty one.
#[tactic(auto, using(crate::proofs::Proved::clauses_end_so))]
pub fn clauses_end()
    ensures { ClausesEnd }
{}

/// A row becomes open only at level 0 and at levels at which one of its literals becomes false.
#[tactic(auto, using(crate::proofs::Proved::opens_at_false))]
pub fn opens_at_false()
    ensures { OpensAtFalse }
{}

/// What the code of a cut comes to is the step of the sequence.
#[tactic(auto, using(crate::proofs::Tabled::cuts_are_steps))]
pub fn cuts_are_steps()
    ensures { CutsAreSteps }
{}

/// The clauses that the code makes of a falsified row and of a reason are those of the sequence.
#[tactic(auto, using(crate::proofs::Tabled::clauses_are_steps))]
pub fn clauses_are_steps()
    ensures { ClausesAreSteps }
{}
