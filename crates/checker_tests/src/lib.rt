//! Tests of the checker: proofs that were judged by hand, with ample memory.
#![tactic(auto)]

#[cfg(test)]
mod conclusions;
#[cfg(test)]
mod numbers;
#[cfg(test)]
mod pieces;
#[cfg(test)]
mod places;
#[cfg(test)]
mod pol;
#[cfg(test)]
mod steps;
#[cfg(test)]
mod verdicts;
