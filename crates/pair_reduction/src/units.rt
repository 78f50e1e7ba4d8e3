// The line and the note of a deleted pair.
ghost use Rattle.std.specs.Prelude.{◌≡◌, ◌<◌, ◌-◌, ◌^◌, IfOk, OnErr, OnOk, None, Some, length, slice_set};
ghost use Rattle.pb_rows.specs.Closure.{Implies};
ghost use Rattle.rank_tables.specs.Instance.{pair_count};
ghost use Rattle.rank_tables.specs.Tables.{IsPairNo};
ghost use Rattle.proof_lines.specs.Spelling.{row_no};
ghost use Rattle.proof_rules.specs.States.{live_rows};
ghost use Rattle.derivation.specs.Deletions.{unit_row_no, unit_row};
ghost use Rattle.derivation.specs.Derived.{StaysValid};
ghost use Rattle.pair_reduction.specs.Reduced.{AddsUnit, StopsAtUnit, with_unit};

use derivation::{Deleted, Derivation};
use hrt_base::{Lit, NoMemory, PairNo, Term};
use pb_rows::Row;
use proof_lines::Note;
use stability_model::Model;
use std::alloc::Global;

/// The row that a pair isn't taken.
fn unit_row(alloc: Global, p: PairNo) -> Result<Row, NoMemory>
    ensures { IfOk result (λ row. row ≡ unit_row p.0) }
{
    let terms = [Term {
        coef: 1,
        lit: Lit {
            var: p.0,
            neg: true,
        },
    }];
    Row::from_terms_that_fit(alloc, &terms, 1)
}

/// Deletes a pair whose unit row follows from the live rows.
pub(crate) fn delete(
    alloc: Global,
    model: &Model,
    deriv: &mut Derivation,
    gone: &mut Deleted,
    p: PairNo,
) -> Result<(), NoMemory>
    requires model { model.now ≡ deriv.old.lists }
    requires open { deriv.old.claim ≡ None }
    requires p { IsPairNo model.now p.0 }
    requires absent { unit_row_no gone.old p.0 ≡ None }
    requires pairs { length gone.old ≡ pair_count model.now }
    requires implied { Implies (live_rows deriv.old.state) (unit_row p.0) }
    requires next { deriv.old.state.next < 10 ^ 18 }
    ensures made { OnOk result (deriv.new ≡ with_unit p.0 deriv.old) }
    ensures adds { OnOk result (AddsUnit p.0 deriv.old deriv.new) }
    ensures marked { OnOk result (gone.new ≡ slice_set gone.old (p.0 - 1) (Some (row_no deriv.old.state.next))) }
    ensures early { OnErr result (StopsAtUnit p.0 deriv.old deriv.new) }
    ensures valid { StaysValid deriv.old deriv.new }
{
    // For what their contracts say: there are few pairs, and the live rows are in order.
    let _limits = (model.instance().pairs(), deriv.next());
    let row = unit_row(alloc, p)?;
    let id = deriv.rup(alloc, model, row)?;
    deriv.note(alloc, model, &Note::Unit(id))?;
    gone.mark(p, id);
    Ok(())
}
