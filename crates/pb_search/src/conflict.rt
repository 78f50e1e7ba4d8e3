// What follows a conflict.
ghost use Rattle.std.specs.Prelude.{◌≡◌, ◌≤◌, ◌^◌, IfOk, IsTrue, List};
ghost use Rattle.hrt_base.specs.declared.numbered.PairNo.{PairNo};
ghost use Rattle.pb_rows.specs.Closure.{Falsified};
ghost use Rattle.row_arena.specs.Held.{is_held, row_at};
ghost use Rattle.derivation.specs.Derived.{Derived};
ghost use Rattle.pb_propagate.specs.Entries.{set_of};
ghost use Rattle.search_measure.specs.Trails.{IsExactBelow};
ghost use Rattle.pb_search.specs.Loop.{Follows, IsAtConflict, StopsWhereSpent};
ghost use Rattle.pb_search.specs.Searching.{AreJoined};

use crate::learning::{NewRow, learn};
use crate::limits::Limits;
use crate::moves::Move;
use conflict_cuts::{Learned, analyze};
use derivation::{Derivation, cuts_stay_lawful};
use hrt_base::NoMemory;
use pb_propagate::Engine;
use row_arena::Place;
use stability_model::Model;
use std::alloc::Global;

/// At a row that is falsified: ends the search where it is above level 0 and the budget is spent. Else it analyzes the conflict, which ends the
/// search where that makes a row that holds nowhere, and otherwise teaches a row. After want of memory the derivation may have more
/// lines.
pub(crate) fn on_conflict(
    alloc: Global,
    model: &Model,
    limits: &Limits,
    engine: &mut Engine,
    deriv: &mut Derivation,
    conflict: Place,
) -> Result<Move, NoMemory>
    requires same { model.now ≡ deriv.old.lists }
    requires budget { limits.now.budget ≤ 10 ^ 12 }
    requires joined { AreJoined limits.now.budget engine.old deriv.old }
    requires exact { IsExactBelow engine.old }
    requires held { IsTrue (is_held conflict.0 engine.old.held) }
    requires falsified { Falsified (set_of engine.old.trail) (row_at conflict.0 engine.old.held) }
    ensures follows { IfOk result (λ move. (first : Derived) (pairs : List PairNo) → IsAtConflict limits.now pairs first engine.old deriv.old → Follows limits.now pairs first deriv.old engine.new deriv.new move) }
    ensures stops { IfOk result (StopsWhereSpent limits.now engine.old deriv.old deriv.new) }
{
    // For what their contracts say: the lines of an analysis keep the law of a written proof, and the live rows are in order.
    cuts_stay_lawful();
    let _next = deriv.next();
    if engine.level() > 0 && deriv.learned() == limits.budget {
        return Ok(Move::Bounded);
    }
    match analyze(alloc, model, engine, conflict, deriv)? {
        Learned::Root(_) => Ok(Move::Best),
        Learned::Clause {
            id,
            row,
            level,
            asserts,
        } => {
            // For what its contract says: the live rows are in order again.
            let _made = deriv.next();
            let new = NewRow {
                id,
                row,
                level,
                asserts,
            };
            learn(alloc, model, engine, deriv, &new)?;
            Ok(Move::On)
        }
    }
}
