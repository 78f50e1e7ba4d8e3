//! Cases worked by hand: what the definitions of other crates come to on small instances, rows and texts. They stand in
//! `proofs/`, and nothing stands on this crate. The function has an empty body, and its contract is one of the cases.
#![tactic(auto)]

ghost use Rattle.worked_cases.specs.SmallInstances.{RowsWithoutPosts};

/// The rows of the model of two residents and a hospital without posts, which ranks one above the other.
#[tactic(auto, using(crate::proofs::Models::no_posts_rows))]
pub fn rows_without_posts()
    ensures { RowsWithoutPosts }
{}
