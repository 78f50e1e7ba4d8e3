//! Why a search comes to an end: where its trail stands beside the sizes of the row that it learned last, what its moves do to that, and
//! that each row which it learns is fresh. Everything stands in `specs/`; a function has an empty body, and its contract is a law over it.
#![tactic(auto)]

mod learning;
mod moves;
mod texts;

pub use learning::{
    held_above_ground, learn_notes_are_true, learn_notes_have_sizes, learned_is_fresh,
    learned_sizes, same_rows_same_closures, same_rows_same_fresh, same_rows_same_sizes,
};
pub use moves::{
    added_is_ahead, conflict_keeps_later, decision_is_ahead, idle_is_exact, learned_is_ahead,
    quiet_is_level, restarts_level, starts_ahead,
};
pub use texts::{
    counted_is_bounded, later_row_is_learned, learned_is_bounded, lines_keep_learned, notes_learn,
    nothing_is_learned, pieces_go_on, restart_ends_stretch, uncounted_learn_nothing,
};
