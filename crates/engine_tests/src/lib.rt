//! Tests of the engine of a search: systems of rows that were worked by hand, and drawn ones against the closures of their decisions.
#![tactic(auto)]

#[cfg(test)]
mod cases;
mod checks;
mod compared;
#[cfg(test)]
mod drawn;
mod driven;
mod reference;
#[cfg(test)]
mod rows;
#[cfg(test)]
mod worked;

pub use compared::Compared;
pub use driven::Driven;
pub use reference::Reference;
