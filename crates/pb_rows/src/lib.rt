//! Pseudo-Boolean rows over 0/1 variables, with the operations of cutting planes: addition, multiplication, division with
//! rounding up, saturation and weakening.
#![tactic(auto)]

mod join;
mod normal;
mod row;
mod terms;
#[cfg(test)]
mod tests;
mod weakening;

pub use row::{Row, RowRefusal, TooBig};

/// The most that the coefficients of a row may sum to, and the most that its degree may be.
pub(crate) const MOST: u128 = 1 << 120;
