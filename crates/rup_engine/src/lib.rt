//! The closure of rows under propagation: which literals follow from the live rows and given literals, one row at a time, or
//! that the rows are refuted.
#![tactic(auto)]

mod adding;
mod closing;
mod heads;
mod listed;
mod lists;
mod live;
mod one_row;
mod opposite;
#[cfg(test)]
mod plain;
mod progress;
mod queue;
mod store;
mod stronger;
mod sums;
#[cfg(test)]
mod tests;
mod thinning;
mod trail;
mod visit;
mod visiting;

pub use listed::Used;
pub use live::Live;
