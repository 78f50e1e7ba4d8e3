//! A search by decisions at random: what each conflict teaches is checked and held, until a row holds nowhere.
ghost use Rattle.std.specs.Prelude.{◌≡◌, IfOk, IfSome, IsFalse, IsTrue, OnOk, length};
ghost use Rattle.pb_rows.specs.Formula.{is_numbered};
ghost use Rattle.pb_rows.specs.Terms.{opposite_lit};
ghost use Rattle.pb_rows.specs.Points.{IsCovered};
ghost use Rattle.pb_rows.specs.Closure.{Falsified};
ghost use Rattle.row_arena.specs.Held.{is_held, row_at};
ghost use Rattle.pb_propagate.specs.Entries.{level_of, set_of};
ghost use Rattle.pb_propagate.specs.Engines.{AreKeptBelow, IsIdle};
ghost use Rattle.analysis_tests.specs.Systems.{IsSystem};

use crate::instances::next;
use crate::systems::{hold, hold_at, log};
use conflict_cuts::{Learned, Outcome, analyze, propagate};
use derivation::Derivation;
use hrt_base::{Lit, NoMemory, RowNo, Steps, Term, Value};
use pb_propagate::Engine;
use pb_rows::Row;
use row_arena::Place;
use stability_model::Model;
use std::alloc::Global;
use std::process::Abort;
use std::sync::ledger::Ledger;
use std::test::Fail;

// Whether a variable is free up to a level.
fn is_free_at(engine: &Engine, var: u32, level: u32) -> bool {
    match engine.level_of(var) {
        None => true,
        Some(from) => from > level,
    }
}

// Whether a literal is false up to a level.
fn is_false_at(engine: &Engine, lit: Lit, level: u32) -> bool {
    let is_false = match engine.value(lit.var) {
        Value::Free => false,
        Value::True => lit.neg,
        Value::False => !lit.neg,
    };
    is_false && !is_free_at(engine, lit.var, level)
}

// The sum of the coefficients of a row's literals that aren't false up to a level, minus its degree.
fn slack_at(engine: &Engine, row: &Row, level: u32) -> i128 {
    let mut slack = row.degree().saturating_neg();
    for t in row.terms() {
        if !is_false_at(engine, t.lit, level) {
            slack = slack.saturating_add(t.coef);
        }
    }
    slack
}

// Whether a row propagates the literal of a term up to a level.
fn does_propagate(engine: &Engine, row: &Row, t: Term, level: u32) -> bool {
    is_free_at(engine, t.lit.var, level) && t.coef > slack_at(engine, row, level)
}

// Whether a row is falsified up to a level, or propagates a literal there.
fn is_open_at(engine: &Engine, row: &Row, level: u32) -> bool {
    if slack_at(engine, row, level) < 0 {
        return true;
    }
    for t in row.terms() {
        if does_propagate(engine, row, *t, level) {
            return true;
        }
    }
    false
}

// Whether a row propagates this literal up to a level.
fn does_assert(engine: &Engine, row: &Row, asserts: Lit, level: u32) -> bool {
    for t in row.terms() {
        if t.lit == asserts && does_propagate(engine, row, *t, level) {
            return true;
        }
    }
    false
}

// The row propagates its literal at the level, which is below the engine's, and is open at no lower one.
fn check_clause(rt: &impl Abort, engine: &Engine, row: &Row, level: u32, asserts: Lit) {
    assert!(rt; level < engine.level());
    assert!(rt; does_assert(engine, row, asserts, level));
    for lower in 0..level {
        assert!(rt; !is_open_at(engine, row, lower));
    }
}

// The row with this number can't hold.
fn is_contradiction(
    alloc: Global,
    model: &Model,
    deriv: &Derivation,
    id: RowNo,
) -> Result<bool, NoMemory>
    requires same { model.now ≡ deriv.now.lists }
    requires live { IsTrue (is_numbered id.0 deriv.now.state.live) }
{
    let row = deriv.row(alloc, model, id)?;
    let mut most = 0i128;
    for t in row.terms() {
        most = most.saturating_add(t.coef);
    }
    Ok(most < row.degree())
}

/// Whether a literal is free.
pub fn is_free(engine: &Engine, lit: Lit) -> bool
    ensures untrue { IsTrue result → IsFalse (set_of engine.now.trail lit) }
    ensures unfalse { IsTrue result → IsFalse (set_of engine.now.trail (opposite_lit lit)) }
{
    engine.value(lit.var) == Value::Free
}

// A free literal, chosen by a number.
fn choose(engine: &Engine, state: &mut u32) -> Option<Lit>
    ensures covered { IfSome result (λ l. IsCovered engine.now.vars l.var) }
    ensures untrue { IfSome result (λ l. IsFalse (set_of engine.now.trail l)) }
    ensures unfalse { IfSome result (λ l. IsFalse (set_of engine.now.trail (opposite_lit l))) }
{
    let vars = engine.vars();
    let from = next(state, vars);
    let neg = next(state, 2) == 1;
    for k in 0..vars {
        let var = (from.saturating_add(k))
            .checked_rem(vars)
            .unwrap_or(0)
            .saturating_add(1);
        if var <= vars && is_free(engine, Lit { var, neg }) {
            return Some(Lit { var, neg });
        }
    }
    None
}

/// Opens a level with a free literal.
pub fn decide(engine: &mut Engine, lit: Lit)
    requires idle { IsIdle engine.old }
    requires covered { IsCovered engine.old.vars lit.var }
    requires untrue { IsFalse (set_of engine.old.trail lit) }
    requires unfalse { IsFalse (set_of engine.old.trail (opposite_lit lit)) }
    ensures kept { AreKeptBelow engine.new }
    ensures vars { engine.new.vars ≡ engine.old.vars }
    ensures held { engine.new.held ≡ engine.old.held }
{
    let _due = engine.due();
    engine.decide(lit);
}

// Decides literals, one after another, until a row is falsified or none is free.
fn descend<L: Ledger>(engine: &mut Engine, steps: &mut Steps<L>, state: &mut u32) -> Option<Place>
    requires start { level_of engine.old.trail ≡ 0 }
    ensures held { engine.new.held ≡ engine.old.held }
    ensures vars { engine.new.vars ≡ engine.old.vars }
    ensures conflict { IfSome result (λ place. IsTrue (is_held place.0 engine.new.held)) }
    ensures falsified { IfSome result (λ place. Falsified (set_of engine.new.trail) (row_at place.0 engine.new.held)) }
{
    for _ in 0..1000 {
        if let Outcome::Conflict(place) = propagate(engine, steps) {
            return Some(place);
        }
        let Some(lit) = choose(engine, state) else {
            return None;
        };
        decide(engine, lit);
    }
    None
}

/// Learns from a conflict, checks what is learned, and holds it. Tells whether it holds nowhere.
pub fn learn(
    rt: &impl Abort,
    alloc: Global,
    model: &Model,
    engine: &mut Engine,
    deriv: &mut Derivation,
    conflict: Place,
) -> Result<bool, Fail>
    requires system { IsSystem model.now engine.old deriv.old }
    requires held { IsTrue (is_held conflict.0 engine.old.held) }
    requires falsified { Falsified (set_of engine.old.trail) (row_at conflict.0 engine.old.held) }
    ensures { OnOk result (IsSystem model.now engine.new deriv.new) }
{
    let _next = deriv.next();
    match analyze(alloc, model, engine, conflict, deriv)? {
        Learned::Root(id) => {
            assert!(rt; is_contradiction(alloc, model, deriv, id)?);
            Ok(true)
        }
        Learned::Clause {
            id,
            row,
            level,
            asserts,
        } => {
            check_clause(rt, engine, &row, level, asserts);
            hold(alloc, model, engine, deriv, id, &row)?;
            Ok(false)
        }
    }
}

// Which variables are true, variable v at place v - 1.
fn point_of(alloc: Global, engine: &Engine) -> Result<Vec<bool>, NoMemory>
    ensures { IfOk result (λ point. length point.items ≡ engine.now.vars) }
{
    let vars = engine.vars();
    let mut point = vec![in alloc; false; vars as usize]?;
    for k in 0..vars {
        point[k as usize] = engine.value(k.saturating_add(1)) == Value::True;
    }
    Ok(point)
}

// Logs the point of an engine, at which each row of the model is to hold.
fn improve(
    alloc: Global,
    model: &Model,
    engine: &mut Engine,
    deriv: &mut Derivation,
) -> Result<(), Fail>
    requires { IsSystem model.now engine.old deriv.old }
    ensures { OnOk result (IsSystem model.now engine.new deriv.new) }
{
    let point = point_of(alloc, engine)?;
    if !hold_at(alloc, model, &point)? {
        return Err(Fail::from("each held row holds"));
    }
    log(alloc, model, engine, deriv, &point)?;
    Ok(())
}

/// Searches from level 0 again and again, and logs what it finds, until a row holds nowhere. Tells how many clauses were learned.
pub fn refute<L: Ledger>(
    rt: &impl Abort,
    alloc: Global,
    model: &Model,
    engine: &mut Engine,
    deriv: &mut Derivation,
    steps: &mut Steps<L>,
    number: u32,
) -> Result<u32, Fail>
    requires { IsSystem model.now engine.old deriv.old }
    ensures { OnOk result (IsSystem model.now engine.new deriv.new) }
{
    let mut state = number;
    let mut learned = 0u32;
    for _ in 0..2000 {
        engine.back_to(0);
        let Some(conflict) = descend(engine, steps, &mut state) else {
            improve(alloc, model, engine, deriv)?;
            continue;
        };
        if learn(rt, alloc, model, engine, deriv, conflict)? {
            return Ok(learned);
        }
        learned = learned.saturating_add(1);
    }
    Err(Fail::from("the search doesn't end"))
}
