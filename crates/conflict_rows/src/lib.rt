//! Conflict analysis over trails: cut rows and clauses, as definitions and laws.
#![tactic(auto)]

mod clauses;
mod coefficients;
mod cutting;
mod finished;
mod lasts;
mod laws;
mod marks;
mod reducing;

pub use clauses::{Clause, conflict_clause, reason_clause, resolvent};
pub use coefficients::{coefficient_sum, weight_in};
pub use cutting::{Cut, next_row};
pub use finished::{asserted, least_level, propagates_some};
pub use lasts::has_one_at;
pub use laws::{clauses_are_steps, clauses_end, cut_rows_end, cuts_are_steps, opens_at_false};
pub use marks::{Mark, is_false, is_false_at, is_false_before, is_true_at, level_of};
