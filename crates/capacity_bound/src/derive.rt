// The bound row.
ghost use Rattle.std.specs.Prelude.{◌≡◌, ◌<◌, ◌^◌, IfOk, IfSome, OnErr, OnOk};
ghost use Rattle.pb_rows.specs.Formula.{row_of};
ghost use Rattle.derivation.specs.Deletions.{AreUnitRows};
ghost use Rattle.derivation.specs.Derived.{StaysValid};
ghost use Rattle.derivation.specs.Ready.{IsReady};
ghost use Rattle.capacity_bound.specs.Bound.{AddsBoundLawfully, DerivesBound, StopsEarly, bound_row};

use crate::adding::steps_adding;
use crate::operands::bound_operands;
use derivation::{Deleted, Derivation};
use hrt_base::{NoMemory, RowNo};
use proof_lines::Note;
use rank_tables::Instance;
use stability_model::Model;
use std::alloc::Global;

/// Makes the bound row, that the objective is at least minus the ceiling, by one line, and notes it. `None` says that there
/// is no pair. After want of memory the line may stand without its note.
pub fn derive_bound(
    alloc: Global,
    inst: &Instance,
    model: &Model,
    gone: &Deleted,
    deriv: &mut Derivation,
) -> Result<Option<RowNo>, NoMemory>
    requires model { model.now ≡ inst.now }
    requires derivation { deriv.old.lists ≡ inst.now }
    requires ready { IsReady deriv.old }
    requires next { deriv.old.state.next < 10 ^ 18 }
    requires units { AreUnitRows deriv.old.state.live gone.now }
    ensures bound { IfOk result (λ id. DerivesBound inst.now gone.now id deriv.old deriv.new) }
    ensures row { IfOk result (λ id. IfSome id (λ id. row_of id.0 deriv.new.state.live ≡ Some (bound_row inst.now gone.now))) }
    ensures lawful { IfOk result (λ id. AddsBoundLawfully inst.now gone.now id deriv.old deriv.new) }
    ensures ready { OnOk result (IsReady deriv.new) }
    ensures early { OnErr result (StopsEarly inst.now gone.now deriv.old deriv.new) }
    ensures valid { StaysValid deriv.old deriv.new }
{
    if inst.pairs() == 0 {
        return Ok(None);
    }
    // What it says of the numbers of live rows: they are in order, so each has a spelling.
    let _next = deriv.next();
    let operands = bound_operands(alloc, inst, model, gone)?;
    let steps = steps_adding(alloc, &operands)?;
    let id = deriv.pol_that_fits(alloc, model, &steps)?;
    deriv.note(alloc, model, &Note::Bound(id))?;
    Ok(Some(id))
}
