//! The search for a larger weakly stable matching: what is so of it at each moment, that its moves keep it, and its loop. The laws of its
//! moves are functions with empty bodies.
#![tactic(auto)]

mod candidate;
mod conflict;
mod found;
mod improving;
mod laws;
mod learning;
mod limits;
mod loading;
mod looping;
mod moves;
mod opening;
mod quiet;
mod returning;

pub use found::Found;
pub use laws::{
    calm_adds_rows, calm_decides, calm_restarts, conflict_learns, conflict_spends,
    search_comes_to_rest, search_meets_conflict, search_starts, spent_budget_is_small,
};
pub use looping::search;
