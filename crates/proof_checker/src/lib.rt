//! The checker of proofs: whoever wrote the bytes, it accepts them exactly where they are a valid proof of a formula, and
//! otherwise names the first line that is no step, and why. What a valid proof is stands in `proof_rules`.
#![tactic(auto)]

mod checker;
mod claims;
mod fault;
mod judging;
mod phase;
mod refusal;
mod solution;
mod stage;
mod state;
mod steps;

pub use checker::Checker;
pub use refusal::ProofRefusal;
