// The logging of a candidate that no pair blocks.
ghost use Rattle.std.specs.Prelude.{◌≡◌, ◌<◌, ◌≤◌, length, All, IfOk, IsTrue, None, OnOk, Some};
ghost use Rattle.pb_rows.specs.Closure.{Falsified};
ghost use Rattle.pb_rows.specs.Terms.{PlainRow};
ghost use Rattle.pb_rows.specs.Formula.{is_numbered, row_of};
ghost use Rattle.rank_tables.specs.Instance.{pair_count};
ghost use Rattle.rank_tables.specs.Stability.{is_weakly_stable};
ghost use Rattle.rank_tables.specs.Tables.{IsPairNo, numbers_of};
ghost use Rattle.stability_model.specs.Model.{IsShortRow};
ghost use Rattle.pb_propagate.specs.Entries.{set_of};
ghost use Rattle.lazy_stability.specs.Candidates.{IsFull, candidate};
ghost use Rattle.matching_log.specs.Logged.{ceiling_row};
ghost use Rattle.pb_search.specs.Improving.{AddsLive, Improves};

use crate::moves::Move;
use crate::returning::return_to_lowest;
use derivation::Derivation;
use hrt_base::{NoMemory, PairNo, RowNo};
use matching_log::{close, log};
use pb_propagate::Engine;
use stability_model::Model;
use std::alloc::Global;

/// The greatest number that the first of two rows can have, since numbers have at most 18 digits.
const MOST: u64 = 999_999_999_999_999_998;

// Adds a live row that is falsified under the trail, and goes back to the lowest level at which it is open.
fn add_live(
    alloc: Global,
    model: &Model,
    deriv: &Derivation,
    engine: &mut Engine,
    id: RowNo,
) -> Result<(), NoMemory>
    requires model { model.now ≡ deriv.now.lists }
    requires vars { engine.old.vars ≡ pair_count deriv.now.lists }
    requires live { IsTrue (is_numbered id.0 deriv.now.state.live) }
    requires short { (row : PlainRow) → row_of id.0 deriv.now.state.live ≡ Some row → IsShortRow (pair_count deriv.now.lists) row }
    requires broken { (row : PlainRow) → row_of id.0 deriv.now.state.live ≡ Some row → Falsified (set_of engine.old.trail) row }
    ensures { OnOk result (AddsLive id deriv.now engine.old engine.new) }
{
    let row = deriv.row(alloc, model, id)?;
    let place = engine.add_row(alloc, &row, id)?;
    // For what its contract says: the engine is in order.
    let _level = engine.level();
    return_to_lowest(engine, &[place]);
    Ok(())
}

/// Logs the candidate of a full engine, which no pair blocks. Where it is as large as the ceiling, the bound is closed; else the row that
/// asks for a larger matching is added, and the engine goes back to the lowest level at which that is open.
pub(crate) fn improve(
    alloc: Global,
    model: &Model,
    ceiling: u32,
    bound_row: RowNo,
    engine: &mut Engine,
    deriv: &mut Derivation,
    pairs: &[PairNo],
) -> Result<Move, NoMemory>
    requires same { model.now ≡ deriv.old.lists }
    requires unconcluded { deriv.old.claim ≡ None }
    requires vars { engine.old.vars ≡ pair_count deriv.old.lists }
    requires full { IsFull engine.old }
    requires candidate { numbers_of pairs.now ≡ candidate deriv.old.lists engine.old }
    requires numbers { All (λ p. IsPairNo deriv.old.lists p.0) pairs.now }
    requires stable { IsTrue (is_weakly_stable deriv.old.lists (numbers_of pairs.now)) }
    requires within { length pairs.now ≤ ceiling }
    requires bound { row_of bound_row.0 deriv.old.state.live ≡ Some (ceiling_row deriv.old.lists ceiling) }
    ensures { IfOk result (Improves ceiling bound_row pairs.now engine.old engine.new deriv.old deriv.new) }
{
    if deriv.next() > MOST {
        return Err(NoMemory);
    }
    // For what its contract says: pairs are few.
    let _pairs = model.instance().pairs();
    let larger = log(alloc, model, pairs, deriv)?;
    let size = pairs.len() as u32;
    if size == ceiling {
        close(alloc, model, bound_row, larger, size, deriv)?;
        return Ok(Move::Best);
    }
    add_live(alloc, model, deriv, engine, larger)?;
    Ok(Move::On)
}
