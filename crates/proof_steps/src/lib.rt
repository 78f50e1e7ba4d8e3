//! The rows of proof steps: what the writer of proofs and their checker both compute to make the row of a line.
#![tactic(auto)]

mod live;
mod pol;
mod refusal;
mod solution;
mod stack;

pub use live::LiveRows;
pub use pol::pol_row;
pub use refusal::StepRefusal;
pub use solution::{improvement_row, objective_value, smaller};
