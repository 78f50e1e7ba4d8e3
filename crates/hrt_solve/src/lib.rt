//! Whole jobs over a host whose ports are begun. A model is written, and a proof of what its largest matchings can be; or a
//! proof is judged: whether it is a valid proof of a formula, or of an instance's model, and what it shows.
#![tactic(auto)]

mod bounding;
mod checking;
mod claims;
mod ends;
mod reading;
mod refusal;
mod saving;
mod searching;
mod solving;
mod starting;

pub use bounding::bound;
pub use checking::{check, verify};
pub use ends::{BoundEnd, SolveEnd};
pub use refusal::CheckRefusal;
pub use searching::solve;
pub use solving::quick;
