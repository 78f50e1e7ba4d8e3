// The clauses of a falsified row, one resolution after another, down the trail.
ghost use Rattle.std.specs.Prelude.{◌≡◌, ◌<◌, ◌≤◌, ◌+◌, ◌^◌, ℕ, Some, IfOk, IsTrue, OnErr, length, slice_index_or};
ghost use Rattle.pb_rows.specs.Terms.{PlainRow, opposite_lit};
ghost use Rattle.pb_rows.specs.Rows.{add, saturate};
ghost use Rattle.pb_rows.specs.Closure.{Falsified};
ghost use Rattle.pb_rows.specs.Formula.{row_of};
ghost use Rattle.row_arena.specs.Held.{is_held, row_at};
ghost use Rattle.pb_propagate.specs.Entries.{lits_of, set_of};
ghost use Rattle.conflict_rows.specs.ClauseRows.{conflict_clause, reason_clause};
ghost use Rattle.conflict_rows.specs.Trail.{PropagatesLiteral, on};
ghost use Rattle.conflict_rows.specs.Ends.{IsReasonOver};
ghost use Rattle.engine_trails.specs.History.{history, history_to};
ghost use Rattle.conflict_cuts.specs.Laid.{IsNewest, IsSet, Lays, MakesRow};
ghost use Rattle.conflict_cuts.specs.Walks.{HasWalked, IsReasonAt, MakesLast, StandsBefore, StepsTo};

use crate::lines::{conflict_steps, resolve_steps};
use crate::making::{Made, held_row, make};
use conflict_rows::{
    Clause, Mark, conflict_clause, has_one_at, level_of, reason_clause, resolvent, weight_in,
};
use derivation::Derivation;
use hrt_base::{Lit, NoMemory};
use pb_propagate::Engine;
use propagation::opposite;
use row_arena::Place;
use stability_model::Model;
use std::alloc::Global;

/// What the step of a literal comes to: the clause is the last one, or there is more to do.
#[derive(Drop)]
pub enum Step {
    Last(Made),
    More(Made),
}

/// Makes the clause of a falsified row of the engine.
fn first_clause(
    alloc: Global,
    model: &Model,
    engine: &Engine,
    marks: &[Mark],
    conflict: Place,
    deriv: &mut Derivation,
) -> Result<Made, NoMemory>
    requires same { model.now ≡ deriv.old.lists }
    requires set { IsSet engine.now marks.now deriv.old }
    requires next { deriv.old.state.next < 10 ^ 18 }
    requires held { IsTrue (is_held conflict.0 engine.now.held) }
    requires falsified { Falsified (set_of engine.now.trail) (row_at conflict.0 engine.now.held) }
    ensures made { IfOk result (λ made. (first : ℕ) → MakesRow first deriv.old deriv.new made.id made.row) }
    ensures row { IfOk result (λ made. made.row ≡ conflict_clause (history engine.now) (row_at conflict.0 engine.now.held)) }
    ensures err { OnErr result (deriv.new ≡ deriv.old) }
{
    let tag = engine.arena().tag(conflict);
    let held = held_row(alloc, model, engine, conflict, deriv)?;
    let Clause { row, vars, divisor } = conflict_clause(alloc, held, marks)?;
    let steps = conflict_steps(alloc, tag, &vars, divisor)?;
    let made = make(alloc, model, deriv, &steps, row)?;
    Ok(made)
}

/// Resolves a clause with the reason of a literal, at place k of the trail, whose opposite it has.
fn resolve(
    alloc: Global,
    model: &Model,
    engine: &Engine,
    marks: &[Mark],
    made: &Made,
    lit: Lit,
    reason: Place,
    k: u32,
    deriv: &mut Derivation,
) -> Result<Made, NoMemory>
    requires same { model.now ≡ deriv.old.lists }
    requires set { IsSet engine.now marks.now deriv.old }
    requires next { deriv.old.state.next < 10 ^ 18 }
    requires live { row_of made.now.id.0 deriv.old.state.live ≡ Some made.now.row }
    requires reason { IsReasonAt engine.now k lit reason.0 made.now.row }
    ensures made { IfOk result (λ next. (first : ℕ) → first ≤ made.now.id.0 → MakesRow first deriv.old deriv.new next.id next.row) }
    ensures row { IfOk result (λ next. next.row ≡ saturate (add made.now.row (reason_clause (history_to k engine.now) lit (row_at reason.0 engine.now.held)))) }
    ensures err { OnErr result (deriv.new ≡ deriv.old) }
{
    let tag = engine.arena().tag(reason);
    let held = held_row(alloc, model, engine, reason, deriv)?;
    let Clause { row, vars, divisor } = reason_clause(alloc, held, marks, lit, k)?;
    let next = resolvent(alloc, &made.row, &row)?;
    let steps = resolve_steps(alloc, made.id, tag, &vars, divisor)?;
    let next = make(alloc, model, deriv, &steps, next)?;
    Ok(next)
}

/// The step of the literal at place k of the trail: the clause is resolved with its reason where it has the opposite and isn't the last.
fn take_step(
    alloc: Global,
    model: &Model,
    engine: &Engine,
    marks: &[Mark],
    made: Made,
    k: usize,
    deriv: &mut Derivation,
) -> Result<Step, NoMemory>
    requires same { model.now ≡ deriv.old.lists }
    requires set { IsSet engine.now marks.now deriv.old }
    requires next { deriv.old.state.next < 10 ^ 18 }
    requires live { row_of made.id.0 deriv.old.state.live ≡ Some made.row }
    requires k { k < length engine.now.trail }
    requires stands { (c : PlainRow) × StandsBefore engine.now c (k + 1) made.row }
    ensures steps { IfOk result (λ step. (c : PlainRow) → StandsBefore engine.now c (k + 1) made.row → StepsTo engine.now c k deriv.old deriv.new made step) }
    ensures err { OnErr result (deriv.new ≡ deriv.old) }
{
    let lit = engine.trail()[k];
    if weight_in(&made.row, opposite(lit)) == 0 {
        return Ok(Step::More(made));
    }
    if has_one_at(&made.row, marks, level_of(marks, lit.var)) {
        return Ok(Step::Last(made));
    }
    let Some(reason) = engine.reason(lit.var) else {
        unreachable!()
    };
    let next = resolve(
        alloc, model, engine, marks, &made, lit, reason, k as u32, deriv,
    )?;
    Ok(Step::More(next))
}

/// Makes the clauses of a falsified row of the engine, up to the last. It takes time in proportion to the trail times the logarithm of a
/// clause's length, and to the lengths of the clauses and the reasons that it meets.
pub(crate) fn last_clause(
    alloc: Global,
    model: &Model,
    engine: &Engine,
    marks: &[Mark],
    conflict: Place,
    deriv: &mut Derivation,
) -> Result<Made, NoMemory>
    requires same { model.now ≡ deriv.old.lists }
    requires set { IsSet engine.now marks.now deriv.old }
    requires room { deriv.old.state.next + (engine.now.vars + 1) ≤ 10 ^ 18 }
    requires held { IsTrue (is_held conflict.0 engine.now.held) }
    requires falsified { Falsified (set_of engine.now.trail) (row_at conflict.0 engine.now.held) }
    ensures last { IfOk result (MakesLast engine.now (row_at conflict.0 engine.now.held) deriv.old deriv.new) }
    ensures lays { Lays deriv.old deriv.new }
    ensures few { deriv.new.state.next ≤ deriv.old.state.next + (engine.now.vars + 1) }
{
    let mut made = first_clause(alloc, model, engine, marks, conflict, deriv)?;
    let mut k = engine.trail().len();
    while k > 0 {
        k -= 1;
        match take_step(alloc, model, engine, marks, made, k, deriv)? {
            Step::Last(last) => return Ok(last),
            Step::More(next) => made = next,
        }
    }
    Ok(made)
}
