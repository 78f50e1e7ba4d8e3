// Formulas, and that of a model.
ghost use Rattle.std.specs.Prelude.{◌≡◌, IfOk};
ghost use Rattle.stability_model.specs.Model.{formula, rows};
ghost use Rattle.opb_text.specs.Limits.{IsWithinLimits};

use hrt_base::{NoMemory, Term};
use pb_rows::Row;
use stability_model::Model;
use std::alloc::Global;

/// A pseudo-Boolean formula over the variables 1 to `vars`: the rows are to hold, and the objective is to be as small as it
/// can be.
#[derive(Drop)]
pub struct Formula {
    pub vars: u32,
    pub objective: Vec<Term>,
    pub rows: Vec<Row>,
}

impl std::marker::Model for Formula {
    ghost use Rattle.pb_rows.specs.Formula.{Formula};

    ghost Value = { Formula };

    ghost view = { λ f. record { vars = f.vars; objective = f.objective.items; rows = f.rows.items } };
}

/// The variables, the objective and the rows of a model. It copies each row.
pub fn formula_of(alloc: Global, model: &Model) -> Result<Formula, NoMemory>
    ensures is { IfOk result (λ f. f ≡ formula model.now) }
    ensures within { IfOk result IsWithinLimits }
{
    Ok(Formula {
        vars: model.instance().pairs(),
        objective: model.objective_terms(alloc)?,
        rows: rows_of(alloc, model)?,
    })
}

// The rows of a model.
fn rows_of(alloc: Global, model: &Model) -> Result<Vec<Row>, NoMemory>
    ensures { IfOk result (λ made. made.items ≡ rows model.now) }
{
    let mut made = Vec::new(alloc);
    for k in 0..model.row_count() {
        made.push(model.row(alloc, k + 1)?)?;
    }
    Ok(made)
}
