//! Engines that hold what a derivation holds, candidates of them, and loads at these.
ghost use Rattle.std.specs.Prelude.{◌≡◌, ◌<◌, IfOk, IsTrue, length};
ghost use Rattle.rank_tables.specs.Instance.{pair_count};
ghost use Rattle.derivation.specs.Ready.{IsReady};
ghost use Rattle.derivation.specs.Steps.{first_derived};
ghost use Rattle.pb_rows.specs.Points.{IsCovered};
ghost use Rattle.pb_propagate.specs.Engines.{IsIdle};
ghost use Rattle.agreement.specs.Agreement.{Agree};
ghost use Rattle.agreement.specs.Kept.{HoldsSameRows};
ghost use Rattle.lazy_stability.specs.Laws.{FirstStayHeld};

use derivation::Derivation;
use hrt_base::{Lit, NoMemory, PairNo, RowNo, Steps, Value};
use lazy_stability::{Posts, candidates_are_matchings, full_where_none_is_free, load};
use pb_propagate::{Due, Engine};
use rank_tables::Instance;
use stability_model::Model;
use std::alloc::Global;
use std::sync::ledger::Ledger;

/// An engine of the rows that a new derivation holds: those of residents and hospitals.
pub fn first_engine(alloc: Global, model: &Model, deriv: &Derivation) -> Result<Engine, NoMemory>
    requires first { deriv.now ≡ first_derived model.now }
    requires ready { IsReady deriv.now }
    requires some { 0 < pair_count model.now }
    ensures { IfOk result (λ engine. Agree engine deriv.now) }
{
    let _rows = model.row_count();
    let mut engine = Engine::new(alloc, model.instance().pairs())?;
    for k in 1..model.pair_row(PairNo(1)) {
        let row = model.row(alloc, k)?;
        engine.add_row(alloc, &row, RowNo(u64::from(k)))?;
    }
    Ok(engine)
}

// Visits something that is due, rows while nothing is decided, and tells whether it did.
fn visit<L: Ledger>(engine: &mut Engine, steps: &mut Steps<L>) -> bool
    ensures { HoldsSameRows engine.old engine.new }
{
    match engine.due() {
        None => false,
        Some(Due::Literal(lit)) => {
            let _visit = engine.visit_literal(lit, steps);
            true
        }
        Some(Due::Row(place)) => {
            if engine.level() > 0 {
                return false;
            }
            let _visit = engine.visit_row(place);
            true
        }
    }
}

// Tells whether nothing is due.
fn is_quiet(engine: &Engine) -> bool
    ensures { IsTrue result → IsIdle engine.now }
{
    match engine.due() {
        None => true,
        Some(_) => false,
    }
}

// Visits what is due, and tells whether the engine is quiet then.
fn settle<L: Ledger>(engine: &mut Engine, steps: &mut Steps<L>) -> bool
    ensures same { HoldsSameRows engine.old engine.new }
    ensures quiet { IsTrue result → IsIdle engine.new }
{
    'visits: for _ in 0..1000 {
        if !visit(engine, steps) {
            break;
        }
    }
    is_quiet(engine)
}

// Decides a literal where the engine is quiet and the literal is free.
fn decide(engine: &mut Engine, lit: Lit)
    requires { IsCovered engine.old.vars lit.var }
    ensures { HoldsSameRows engine.old engine.new }
{
    if !is_quiet(engine) {
        return;
    }
    if engine.value(lit.var) != Value::Free {
        return;
    }
    engine.decide(lit);
}

/// Decides each free variable, true where it is wanted, and tells whether the engine is quiet then.
pub fn choose<L: Ledger>(engine: &mut Engine, steps: &mut Steps<L>, wanted: &[u32]) -> bool
    ensures same { HoldsSameRows engine.old engine.new }
    ensures quiet { IsTrue result → IsIdle engine.new }
{
    settle(engine, steps);
    for k in 0..engine.vars() {
        let var = k + 1;
        let neg = !wanted.contains(&var);
        decide(engine, Lit { var, neg });
        settle(engine, steps);
    }
    is_quiet(engine)
}

/// Loads the rows of the pairs that block the candidate of a full engine, as many as there is room for, and answers how many.
pub fn load_broken(
    alloc: Global,
    model: &Model,
    engine: &mut Engine,
    deriv: &mut Derivation,
    out: &mut [PairNo],
) -> Result<usize, NoMemory>
    requires same { model.now ≡ deriv.old.lists }
    requires ready { IsReady deriv.old }
    requires first { FirstStayHeld deriv.old }
    requires agree { Agree engine.old deriv.old }
    requires room { 0 < length out.old }
{
    let inst = model.instance();
    if !is_quiet(engine) {
        return Ok(0);
    }
    if engine.free_count() > 0 {
        return Ok(0);
    }
    let count = Posts::new(alloc, inst)?.broken(inst, engine, out);
    if count == 0 {
        return Ok(0);
    }
    let _level = engine.level();
    let _next = deriv.next();
    full_where_none_is_free();
    candidates_are_matchings();
    load(alloc, model, engine, deriv, &out[..count])?;
    Ok(count)
}
