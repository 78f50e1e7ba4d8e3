// A matching that is as large as the ceiling is shown to be best.
ghost use Rattle.std.specs.Prelude.{◌≡◌, ◌<◌, ◌^◌, IfOk, None, Some};
ghost use Rattle.pb_rows.specs.Formula.{row_of};
ghost use Rattle.derivation.specs.Derived.{StaysValid};
ghost use Rattle.matching_log.specs.Logged.{Closes, ceiling_row, larger_row};

use derivation::Derivation;
use hrt_base::{NoMemory, RowNo};
use proof_lines::PolStep;
use stability_model::Model;
use std::alloc::Global;

/// Adds up the row of the ceiling, and the row that asks for a matching that is larger than one of so many pairs: it makes a row that
/// holds nowhere.
pub fn close(
    alloc: Global,
    model: &Model,
    bound: RowNo,
    larger: RowNo,
    size: u32,
    deriv: &mut Derivation,
) -> Result<RowNo, NoMemory>
    requires same { model.now ≡ deriv.old.lists }
    requires unconcluded { deriv.old.claim ≡ None }
    requires next { deriv.old.state.next < 10 ^ 18 }
    requires bound { row_of bound.0 deriv.old.state.live ≡ Some (ceiling_row deriv.old.lists size) }
    requires larger { row_of larger.0 deriv.old.state.live ≡ Some (larger_row deriv.old.lists size) }
    ensures closed { IfOk result (λ id. Closes size bound larger id deriv.old deriv.new) }
    ensures valid { StaysValid deriv.old deriv.new }
{
    // For what their contracts say: pairs are few, and the live rows are in order.
    let _pairs = model.instance().pairs();
    let _next = deriv.next();
    let steps = [PolStep::Id(bound), PolStep::Id(larger), PolStep::Add];
    let id = deriv.pol_that_fits(alloc, model, &steps)?;
    Ok(id)
}
