//! The OPB text of formulas: the formula of a model, a model written in its canonical spelling, and formulas read in any
//! spelling.
#![tactic(auto)]

mod constraint;
mod draft;
mod formula;
mod limits;
mod objective;
mod reading;
mod refusal;
mod spelled;
mod writing;

pub use formula::{Formula, formula_of};
pub use reading::read_opb;
pub use refusal::OpbRefusal;
pub use writing::write_model;
