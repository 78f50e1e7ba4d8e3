//! The kernel of the proof writer: whoever writes a proof goes through it, and it can write nothing invalid. Each call appends
//! exactly its line, and the state moves by that line's meaning. How the live rows are kept is hidden.
#![tactic(auto)]

mod deleted;
mod derivation;
mod held;
mod laws;
mod lines;
mod refusal;
mod rows;
mod start;
mod steps;
#[cfg(test)]
mod tests;

pub use deleted::Deleted;
pub use derivation::Derivation;
pub use laws::{
    cuts_stay_lawful, ends_are_lawful, fresh_rows_are_open, held_rows_are_loaded,
    lawful_pieces_stay_lawful, made_rows_are_short, starts_are_lawful, texts_are_fronts,
};
pub use refusal::PolRefusal;
