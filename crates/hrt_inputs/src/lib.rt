//! What a run reads: instances, pairs, models and proofs from files, or why they are not had.
#![tactic(auto)]

mod formulas;
mod input;
mod judging;
mod law;
mod limit;
mod loading;
mod stop;

pub use formulas::load_formula;
pub use judging::{claim_on_formula, claim_on_instance};
pub use law::taken_where_spelled;
pub use limit::Limit;
pub use loading::{load, load_pairs};
pub use stop::{ModelKind, Stop};
