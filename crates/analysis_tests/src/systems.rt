//! Engines that hold the rows which a derivation holds.
ghost use Rattle.std.specs.Prelude.{◌≡◌, ◌<◌, ◌||◌, ◌==◌, ℕ, [], Some, IfOk, IsFalse, IsTrue, OnOk, length};
ghost use Rattle.std.specs.List.{All};
ghost use Rattle.pb_rows.specs.Formula.{row_of};
ghost use Rattle.pb_rows.specs.Points.{point_of};
ghost use Rattle.pb_rows.specs.Rows.{IsShort};
ghost use Rattle.propagation.specs.Following.{IsOver};
ghost use Rattle.rank_tables.specs.Instance.{pair_count};
ghost use Rattle.stability_model.specs.Model.{all_rows_hold, pair_row_no};
ghost use Rattle.proof_rules.specs.Held.{is_held};
ghost use Rattle.derivation.specs.Steps.{first_derived};
ghost use Rattle.pb_propagate.specs.Entries.{level_of};
ghost use Rattle.agreement.specs.Agreement.{Agree};
ghost use Rattle.analysis_tests.specs.Systems.{HoldsOneMore, IsBelow, IsSystem};

use derivation::Derivation;
use hrt_base::{NoMemory, PairNo, RowNo};
use pb_propagate::Engine;
use pb_rows::Row;
use proof_lines::Note;
use stability_model::Model;
use std::alloc::Global;
use std::test::Fail;

/// An engine of the rows that a new derivation holds: those of residents and hospitals.
pub fn first_engine(alloc: Global, model: &Model, deriv: &Derivation) -> Result<Engine, NoMemory>
    requires first { deriv.now ≡ first_derived model.now }
    requires some { 0 < pair_count model.now }
    ensures agree { IfOk result (λ engine. Agree engine deriv.now) }
    ensures start { IfOk result (λ engine. level_of engine.trail ≡ 0) }
{
    let _rows = model.row_count();
    let mut engine = Engine::new(alloc, model.instance().pairs())?;
    for k in 1..model.pair_row(PairNo(1)) {
        let row = model.row(alloc, k)?;
        engine.add_row(alloc, &row, RowNo(u64::from(k)))?;
    }
    Ok(engine)
}

/// A new derivation, and an engine of the rows that it holds.
pub fn start<'a>(alloc: Global, model: &Model<'a>) -> Result<(Engine, Derivation<'a>), NoMemory>
    requires { 0 < pair_count model.now }
    ensures system { IfOk result (λ both. IsSystem model.now both.0 both.1) }
    ensures below { IfOk result (λ both. IsBelow (pair_row_no model.now 1) both.1) }
    ensures start { IfOk result (λ both. level_of both.0.trail ≡ 0) }
{
    let deriv = Derivation::new(alloc, model)?;
    let engine = first_engine(alloc, model, &deriv)?;
    Ok((engine, deriv))
}

/// Holds a live row besides.
pub fn hold(
    alloc: Global,
    model: &Model,
    engine: &mut Engine,
    deriv: &mut Derivation,
    id: RowNo,
    row: &Row,
) -> Result<(), NoMemory>
    requires system { IsSystem model.now engine.old deriv.old }
    requires live { row_of id.0 deriv.old.state.live ≡ Some row.now }
    requires over { IsOver engine.old.vars row.now }
    requires short { IsShort row.now }
    requires new { IsFalse (is_held deriv.old.held id.0) }
    ensures system { OnOk result (IsSystem model.now engine.new deriv.new) }
    ensures one { OnOk result (HoldsOneMore id.0 deriv.old deriv.new) }
    ensures trail { OnOk result (engine.new.trail ≡ engine.old.trail) }
{
    if deriv.next() > 1_000_000 {
        return Err(NoMemory);
    }
    let _terms = row.terms();
    deriv.note(alloc, model, &Note::Unit(id))?;
    engine.add_row(alloc, row, id)?;
    Ok(())
}

/// Holds the rows of all pairs besides.
pub fn hold_pairs(
    alloc: Global,
    model: &Model,
    engine: &mut Engine,
    deriv: &mut Derivation,
) -> Result<(), NoMemory>
    requires system { IsSystem model.now engine.old deriv.old }
    requires below { IsBelow (pair_row_no model.now 1) deriv.old }
    ensures system { OnOk result (IsSystem model.now engine.new deriv.new) }
    ensures trail { OnOk result (engine.new.trail ≡ engine.old.trail) }
{
    let _rows = model.row_count();
    for p in 1..model.instance().pairs() + 1 {
        let number = model.pair_row(PairNo(p));
        let row = model.row(alloc, number)?;
        hold(alloc, model, engine, deriv, RowNo(u64::from(number)), &row)?;
    }
    Ok(())
}

/// Tells whether each row of a model holds at a point.
pub fn hold_at(alloc: Global, model: &Model, point: &[bool]) -> Result<bool, NoMemory>
    requires { length point.now ≡ pair_count model.now }
    ensures { IfOk result (λ holds. IsTrue holds → IsTrue (all_rows_hold model.now (point_of point.now))) }
{
    for k in 1..model.row_count() + 1 {
        let row = model.row(alloc, k)?;
        if !row.holds(point) {
            return Ok(false);
        }
    }
    Ok(true)
}

/// Logs a solution, and holds the row that asks for a better one.
pub fn log(
    alloc: Global,
    model: &Model,
    engine: &mut Engine,
    deriv: &mut Derivation,
    point: &[bool],
) -> Result<(), NoMemory>
    requires system { IsSystem model.now engine.old deriv.old }
    requires full { length point.now ≡ pair_count model.now }
    requires holds { IsTrue (all_rows_hold model.now (point_of point.now)) }
    ensures system { OnOk result (IsSystem model.now engine.new deriv.new) }
    ensures trail { OnOk result (engine.new.trail ≡ engine.old.trail) }
{
    if deriv.next() > 1_000_000 {
        return Err(NoMemory);
    }
    let _pairs = model.instance().pairs();
    let id = deriv.solution(alloc, model, point)?;
    let row = deriv.row(alloc, model, id)?;
    engine.add_row(alloc, &row, id)?;
    Ok(())
}
