//! Guides: what a search asks which variable to decide, and whether it should start again from level 0. Nothing is assumed of
//! what a guide answers.
#![tactic(auto)]

mod activity;
mod guide;
mod in_order;
mod rank;
mod ranked;
mod restarts;
mod scores;
mod spacing;

pub use activity::ByActivity;
pub use guide::Guide;
pub use in_order::InOrder;
pub use rank::ByRank;
pub use scores::decision;
pub use spacing::{luby, luby_follows};
