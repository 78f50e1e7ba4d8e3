//! Pairs that two rules show to be in no weakly stable matching are deleted, each by a line of the proof.
#![tactic(auto)]

mod deletions;
mod known;
mod offered;
mod offers;
mod ranks;
mod reduction;
mod sides;
mod units;
mod visits;
mod waiting;

pub use reduction::reduce;
