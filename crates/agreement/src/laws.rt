// What leaves an engine and a derivation in agreement.
ghost use Rattle.agreement.specs.Agreement.{AgreeingHoldSame};
ghost use Rattle.agreement.specs.Kept.{AgreementFollowsDerivations, AgreementFollowsEngines, AgreementGrows, CutsLeaveHeld, DeletionsLeaveHeld, NotesHoldMore, SendsLeaveHeld, StepsLeaveHeld};

/// An engine that agrees with a derivation holds exactly the rows that the derivation holds.
#[tactic(auto, using(crate::proofs::SameRows::same_rows))]
pub fn agreement_tells_rows()
    ensures { AgreeingHoldSame }
{}

/// An engine that moves and holds what it held still agrees.
#[tactic(auto, using(crate::proofs::Growing::engines_followed))]
pub fn agreement_follows_engines()
    ensures { AgreementFollowsEngines }
{}

/// A derivation in which the held rows are left still agrees.
#[tactic(auto, using(crate::proofs::Growing::derivations_followed))]
pub fn agreement_follows_derivations()
    ensures { AgreementFollowsDerivations }
{}

/// The derivation holds more rows, and the engine is given the same: they agree again.
pub fn agreement_grows()
    ensures { AgreementGrows }
{}

/// A `pol` line leaves the held rows.
pub fn steps_leave_held()
    ensures { StepsLeaveHeld }
{}

/// A `del` line of rows that aren't held leaves those that are.
pub fn deletions_leave_held()
    ensures { DeletionsLeaveHeld }
{}

/// The lines of an analysis leave the held rows.
pub fn cuts_leave_held()
    ensures { CutsLeaveHeld }
{}

/// Sending the pending bytes leaves the held rows.
#[tactic(auto, using(crate::proofs::Lines::sends_leave))]
pub fn sends_leave_held()
    ensures { SendsLeaveHeld }
{}

/// A unit, bound, load or learn note holds the rows that it names besides.
#[tactic(auto, using(crate::proofs::Lines::notes_hold))]
pub fn notes_hold_more()
    ensures { NotesHoldMore }
{}
