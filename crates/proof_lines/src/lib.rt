//! The lines of proofs: what they are, how they are spelled and read, and the notes that the solver writes between them.
#![tactic(auto)]

mod blank;
mod claims;
mod first;
mod items;
mod line;
mod list;
mod note;
mod note_reading;
mod notes;
mod reading;
mod refusal;
mod steps;
mod writing;

pub use blank::is_blank_text;
pub use first::{first_line, is_end_text};
pub use line::{Claim, Line, PolStep};
pub use list::{Ids, List, Lits, PolSteps, Vars};
pub use note::Note;
pub use note_reading::read_note;
pub use notes::push_note;
pub use refusal::{LineKind, LineRefusal};
pub use row_text::Written;
pub use writing::push_line;
