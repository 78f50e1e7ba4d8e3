//! The grammar of the text formats: lines, tokens, the forms of an instance's lines, names and items.
#![tactic(auto)]

mod declared;
mod forms;
mod items;
mod lines;
mod names;
mod tokens;

pub use declared::{declare, number_of};
pub use forms::{Form, form_of, is_header};
pub use items::{Place, are_distinct, are_groups, are_names};
pub use lines::{next_line, without_return};
pub use names::{capacity_of, is_name};
pub use tokens::{Token, next_token};
