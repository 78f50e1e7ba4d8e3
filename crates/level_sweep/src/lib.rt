//! The levels at which a row is open, by how its literals stand at each level.
#![tactic(auto)]

mod sweeping;

pub use sweeping::{Stand, Standing, lowest_open};
