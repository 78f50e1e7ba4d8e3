//! The 0/1 model of an instance: its points are exactly the weakly stable matchings.
#![tactic(auto)]

ghost use Rattle.stability_model.specs.Model.{ModelRowsAreShort};

mod buckets;
mod making;
mod model;
mod terms;

pub use model::Model;

/// The model of well-formed lists with at most 100,000 acceptable pairs has well-formed rows over the variables of the pairs,
/// whose coefficients sum to at most 2^60 and whose degrees are at most 2^60.
#[tactic(auto, using(crate::proofs::ShortRows::model_rows_are_short))]
pub fn rows_are_short()
    ensures { ModelRowsAreShort }
{}
