//! Literals, tables of values, and what follows by propagation: what every engine that propagates over rows says and calls.
#![tactic(auto)]

mod literals;

pub use literals::{makes_true, opposite, value_for};
