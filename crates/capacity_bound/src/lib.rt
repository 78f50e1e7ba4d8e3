//! An upper bound on the length of a weakly stable matching: the ceiling, which is a plain count, and the bound row, which
//! says it in a proof and is a sum of rows that are there.
#![tactic(auto)]

mod adding;
mod counts;
mod derive;
mod operands;

pub use counts::ceiling;
pub use derive::derive_bound;
