//! The texts of instances and of pairs: every spelling is read, and the canonical one is written.
#![tactic(auto)]

mod declarations;
mod drafted;
mod first_pass;
mod law;
mod numbered;
mod pair_forms;
mod pair_lines;
mod pair_reading;
mod pair_refusals;
mod pair_writing;
mod pieces;
mod reading;
mod refusals;
mod stages;
mod writing;

pub use law::{
    accepted_where_unrefused, pairs_spelling_is_read_back, spelling_is_one_to_one,
    spelling_is_read_back,
};
pub use pair_reading::read_pairs;
pub use pair_refusals::{PairsKind, PairsRefusal};
pub use pair_writing::write_pairs;
pub use reading::read_instance;
pub use refusals::{LimitKind, ReadKind, ReadRefusal};
pub use writing::write_instance;
