//! Rows of pairs that a search holds only from the moment at which a candidate breaks them: which pairs block a candidate, the loading
//! of their rows with one honest note, and laws for those who load, which are functions with empty bodies.
#![tactic(auto)]

mod candidate;
mod laws;
mod loading;
mod posts;
mod table;

pub use candidate::candidate_pairs;
pub use laws::{
    candidates_are_matchings, full_where_none_is_free, lawful_rows_are_lazy, loads_are_lawful,
    notes_keep_first, starts_hold_first,
};
pub use loading::load;
pub use posts::Posts;
