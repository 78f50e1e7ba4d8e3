//! The trail of an engine as conflict analysis reads it: newest first, with levels and reasons, and by variable.
#![tactic(auto)]

mod laws;
mod marks;

pub use laws::{histories_are_trails, literals_stand};
pub use marks::marks_of;
