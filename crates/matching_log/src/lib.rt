//! Matchings in a proof: a weakly stable matching is logged, and one that is as large as the ceiling is shown to be best.
#![tactic(auto)]

mod closing;
mod logging;

pub use closing::close;
pub use logging::log;
