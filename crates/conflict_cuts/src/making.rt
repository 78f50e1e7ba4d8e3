// Rows that are made.
ghost use Rattle.std.specs.Prelude.{◌≡◌, ◌<◌, ◌^◌, ℕ, Ok, None, IfOk, IsTrue, OnErr};
ghost use Rattle.std.specs.List.{All};
ghost use Rattle.rank_tables.specs.Instance.{pair_count};
ghost use Rattle.row_arena.specs.Held.{is_held, row_at};
ghost use Rattle.proof_rules.specs.Pol.{pol_row};
ghost use Rattle.derivation.specs.Steps.{IsWritable};
ghost use Rattle.derivation.specs.Traces.{IsKnownStep};
ghost use Rattle.agreement.specs.Agreement.{Agree};
ghost use Rattle.conflict_cuts.specs.Laid.{MakesRow};

use derivation::Derivation;
use hrt_base::{NoMemory, RowNo};
use pb_propagate::Engine;
use pb_rows::Row;
use proof_lines::{Line, PolStep};
use row_arena::Place;
use stability_model::Model;
use std::alloc::Global;

/// A row that was made, and its number.
#[derive(Drop)]
pub struct Made {
    pub id: RowNo,
    pub row: Row,
}

/// A copy of a row of the engine.
pub(crate) fn held_row(
    alloc: Global,
    model: &Model,
    engine: &Engine,
    place: Place,
    deriv: &Derivation,
) -> Result<Row, NoMemory>
    requires same { model.now ≡ deriv.now.lists }
    requires agree { Agree engine.now deriv.now }
    requires held { IsTrue (is_held place.0 engine.now.held) }
    ensures { IfOk result (λ row. row ≡ row_at place.0 engine.now.held) }
{
    deriv.row(alloc, model, engine.arena().tag(place))
}

/// Makes a row by a line whose steps leave it.
pub(crate) fn make(
    alloc: Global,
    model: &Model,
    deriv: &mut Derivation,
    steps: &[PolStep],
    row: Row,
) -> Result<Made, NoMemory>
    requires same { model.now ≡ deriv.old.lists }
    requires open { deriv.old.claim ≡ None }
    requires next { deriv.old.state.next < 10 ^ 18 }
    requires writable { IsWritable (Line.Pol steps.now) }
    requires made { pol_row (pair_count deriv.old.lists) deriv.old.state.live steps.now ≡ Ok row }
    ensures made { IfOk result (λ made. (first : ℕ) → All (IsKnownStep deriv.old.held first) steps.now → MakesRow first deriv.old deriv.new made.id made.row) }
    ensures row { IfOk result (λ made. made.row ≡ row) }
    ensures err { OnErr result (deriv.new ≡ deriv.old) }
{
    let copy = row.copy(alloc)?;
    let id = deriv.pol_made(alloc, model, steps, copy)?;
    Ok(Made { id, row })
}
