//! A largest weakly stable matching of a small instance, by trying every set of its pairs: slow, and plain enough to
//! test the search against.
#![tactic(auto)]

mod largest;
mod members;

pub use largest::largest_stable;
