//! The text of pseudo-Boolean rows, as files of formulas and of proofs spell them: tokens, numbers, literals, rows.
#![tactic(auto)]

mod numbers;
mod readings;
mod rows;
mod tokens;
mod writing;
mod written;

pub use numbers::{read_id, read_literal, read_number, read_variable};
pub use readings::Reading;
pub use rows::{read_row, read_term};
pub use tokens::next_token;
pub use writing::{push_literal, push_number, push_row, push_term, push_terms};
pub use written::Written;
