// The engine with which a search starts.
ghost use Rattle.std.specs.Prelude.{◌≡◌, ◌<◌, ◌≤◌, ℕ, List, [], ◌∷◌, ◌++◌, length, IfOk, IsTrue, OnOk, Some};
ghost use Rattle.hrt_base.specs.declared.numbered.RowNo.{RowNo};
ghost use Rattle.proof_rules.specs.Held.{is_held};
ghost use Rattle.derivation.specs.Deletions.{unit_row_no};
ghost use Rattle.rank_tables.specs.Instance.{pair_count};
ghost use Rattle.rank_tables.specs.Numbers.{numbers_to};
ghost use Rattle.stability_model.specs.Model.{pair_row_no};
ghost use Rattle.agreement.specs.Agreement.{Agree};
ghost use Rattle.derivation.specs.Ready.{IsReady};
ghost use Rattle.pb_search.specs.Knowing.{CanSearch, unit_numbers};
ghost use Rattle.pb_search.specs.Opening.{CanHold, HasOneMore, HasRows};

use derivation::{Deleted, Derivation};
use hrt_base::{NoMemory, PairNo, RowNo};
use pb_propagate::Engine;
use stability_model::Model;
use std::alloc::Global;

// Adds a row that the derivation holds.
fn hold(
    alloc: Global,
    model: &Model,
    deriv: &Derivation,
    engine: &mut Engine,
    id: RowNo,
) -> Result<(), NoMemory>
    requires model { model.now ≡ deriv.now.lists }
    requires ready { IsReady deriv.now }
    requires vars { engine.old.vars ≡ pair_count deriv.now.lists }
    requires can { CanHold deriv.now id.0 }
    ensures held { OnOk result (HasOneMore deriv.now id.0 engine.old engine.new) }
    ensures vars { OnOk result (engine.new.vars ≡ engine.old.vars) }
{
    let row = deriv.row(alloc, model, id)?;
    engine.add_row(alloc, &row, id)?;
    Ok(())
}

// An engine of the rows of residents and hospitals.
fn hold_first(alloc: Global, model: &Model, deriv: &Derivation) -> Result<Engine, NoMemory>
    requires model { model.now ≡ deriv.now.lists }
    requires ready { IsReady deriv.now }
    requires some { 0 < pair_count model.now }
    requires held { (n : ℕ) → 1 ≤ n → n ≤ pair_row_no deriv.now.lists 0 → IsTrue (is_held deriv.now.held n) }
    ensures { IfOk result (λ engine. HasRows deriv.now engine (numbers_to (pair_row_no deriv.now.lists 0))) }
{
    // For what its contract says: the rows of a model are short.
    let _rows = model.row_count();
    let mut engine = Engine::new(alloc, model.instance().pairs())?;
    for k in 1..model.pair_row(PairNo(1)) {
        hold(alloc, model, deriv, &mut engine, RowNo(u64::from(k)))?;
    }
    Ok(engine)
}

// Adds the row of a pair, if that is deleted.
fn hold_unit(
    alloc: Global,
    model: &Model,
    gone: &Deleted,
    deriv: &Derivation,
    engine: &mut Engine,
    p: PairNo,
) -> Result<(), NoMemory>
    requires model { model.now ≡ deriv.now.lists }
    requires ready { IsReady deriv.now }
    requires can { (id : RowNo) → unit_row_no gone.now p.0 ≡ Some id → CanHold deriv.now id.0 }
    requires vars { engine.old.vars ≡ pair_count deriv.now.lists }
    ensures held { OnOk result ((numbers : List ℕ) → HasRows deriv.now engine.old numbers → HasRows deriv.now engine.new (numbers ++ unit_numbers (unit_row_no gone.now p.0 ∷ []))) }
    ensures vars { OnOk result (engine.new.vars ≡ engine.old.vars) }
{
    let Some(id) = gone.unit_row(p) else {
        return Ok(());
    };
    hold(alloc, model, deriv, engine, id)?;
    Ok(())
}

// Adds the rows of the deleted pairs.
fn hold_deleted(
    alloc: Global,
    model: &Model,
    gone: &Deleted,
    deriv: &Derivation,
    engine: &mut Engine,
) -> Result<(), NoMemory>
    requires model { model.now ≡ deriv.now.lists }
    requires ready { IsReady deriv.now }
    requires pairs { length gone.now ≡ pair_count deriv.now.lists }
    requires can { (p : ℕ) (id : RowNo) → unit_row_no gone.now p ≡ Some id → CanHold deriv.now id.0 }
    requires vars { engine.old.vars ≡ pair_count deriv.now.lists }
    ensures held { OnOk result ((numbers : List ℕ) → HasRows deriv.now engine.old numbers → HasRows deriv.now engine.new (numbers ++ unit_numbers gone.now)) }
    ensures vars { OnOk result (engine.new.vars ≡ engine.old.vars) }
{
    for p in 1..model.instance().pairs() + 1 {
        hold_unit(alloc, model, gone, deriv, engine, PairNo(p))?;
    }
    Ok(())
}

/// An engine of the rows with which a search starts, its trail empty: those of residents and hospitals, of the deleted pairs, of the ceiling,
/// and the one that asks for a matching that is larger than the first one.
pub(crate) fn open(
    alloc: Global,
    model: &Model,
    gone: &Deleted,
    ceiling: u32,
    bound_row: RowNo,
    first: &[PairNo],
    improve_row: RowNo,
    deriv: &Derivation,
) -> Result<Engine, NoMemory>
    requires model { model.now ≡ deriv.now.lists }
    requires can { CanSearch gone.now ceiling bound_row improve_row first.now deriv.now }
    ensures agree { IfOk result (λ engine. Agree engine deriv.now) }
    ensures start { IfOk result (λ engine. engine.trail ≡ []) }
{
    // For what its contract says: pairs are few.
    let _pairs = model.instance().pairs();
    let mut engine = hold_first(alloc, model, deriv)?;
    hold_deleted(alloc, model, gone, deriv, &mut engine)?;
    hold(alloc, model, deriv, &mut engine, bound_row)?;
    hold(alloc, model, deriv, &mut engine, improve_row)?;
    Ok(engine)
}
