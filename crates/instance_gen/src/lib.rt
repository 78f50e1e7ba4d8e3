//! Instances made from a recipe: the same recipe always makes the same instance.
#![tactic(auto)]

mod choosers;
mod drawing;
mod draws;
mod lists;
mod naming;
mod recipe;

pub use drawing::generate;
pub use recipe::Recipe;
