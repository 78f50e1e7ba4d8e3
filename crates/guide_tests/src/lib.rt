//! Tests of guides, and of the drafts that recipes give.
#![tactic(auto)]

#[cfg(test)]
mod drafts;
#[cfg(test)]
mod guides;
#[cfg(test)]
mod sequence;
