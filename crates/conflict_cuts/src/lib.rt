//! Propagation until nothing is due or a held row is falsified, and what is learned from a falsified row.
#![tactic(auto)]

mod analysis;
mod forgetting;
mod laws;
mod learning;
mod levels;
mod lines;
mod making;
mod visiting;
mod walking;

pub use analysis::analyze;
pub use laws::line_ties;
pub use learning::Learned;
pub use visiting::{Outcome, propagate};
