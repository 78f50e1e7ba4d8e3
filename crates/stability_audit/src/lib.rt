//! Whether a list of pairs is a weakly stable matching of an instance, and the first reason why it isn't.
#![tactic(auto)]

mod auditor;
mod tallies;
mod tally;
mod verdict;

pub use auditor::Auditor;
pub use verdict::Verdict;
