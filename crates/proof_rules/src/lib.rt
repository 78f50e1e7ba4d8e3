//! The rules of pseudo-Boolean proofs: what each line makes of the live rows, what a state shows, which bytes are a valid
//! proof of a formula, and which rows the notes of a proof hold. Everything stands in `specs/`; a function here has an
//! empty body, and its contract is a law over them.
#![tactic(auto)]

ghost use Rattle.proof_rules.specs.Matchings.{VerifiedBounds};
ghost use Rattle.proof_rules.specs.Texts.{OneVerdict};
ghost use Rattle.proof_rules.specs.Sound.{ProofTextsAreSound, ProofsAreSound};

/// Whatever lines are a valid proof of a formula, its claim is true: no point that satisfies the formula passes the lower
/// bound, and one reaches the upper bound.
#[tactic(auto, using(crate::proofs::Soundness::proofs_sound))]
pub fn proofs_are_sound()
    ensures { ProofsAreSound }
{}

/// The same of all bytes.
#[tactic(auto, using(crate::proofs::Verdicts::texts_sound))]
pub fn proof_texts_are_sound()
    ensures { ProofTextsAreSound }
{}

/// No text has two verdicts: it is valid with one claim, or its first line that is no step is refused for one reason, or it
/// ends early.
#[tactic(auto, using(crate::proofs::Verdicts::one_verdict))]
pub fn verdicts_are_unique()
    ensures { OneVerdict }
{}

/// Whatever bytes are a valid proof of an instance's model with the bounds L and U, every weakly stable matching has at most
/// -L pairs, and one has at least -U.
#[tactic(auto, using(crate::proofs::Matchings::verified_bounds))]
pub fn verified_bounds_are_true()
    ensures { VerifiedBounds }
{}
