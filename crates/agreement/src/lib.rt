//! When the engine of a search and the derivation of its proof hold the same rows: the definition, and laws on what leaves it so, which
//! are functions with empty bodies.
#![tactic(auto)]

mod laws;

pub use laws::{
    agreement_follows_derivations, agreement_follows_engines, agreement_grows,
    agreement_tells_rows, cuts_leave_held, deletions_leave_held, notes_hold_more, sends_leave_held,
    steps_leave_held,
};
