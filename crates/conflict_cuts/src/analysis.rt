// What is learned from a falsified row.
ghost use Rattle.std.specs.Prelude.{◌≡◌, ◌≤◌, ◌+◌, ◌^◌, IfOk, IsTrue};
ghost use Rattle.pb_rows.specs.Closure.{Falsified};
ghost use Rattle.row_arena.specs.Held.{is_held, row_at};
ghost use Rattle.pb_propagate.specs.Entries.{set_of};
ghost use Rattle.derivation.specs.Ready.{IsReady};
ghost use Rattle.agreement.specs.Agreement.{Agree};
ghost use Rattle.conflict_cuts.specs.Learned.{Analyzes, Learns};

use crate::forgetting::forget_between;
use crate::learning::{Learned, learn};
use crate::walking::last_clause;
use derivation::Derivation;
use engine_trails::marks_of;
use hrt_base::NoMemory;
use pb_propagate::Engine;
use row_arena::Place;
use stability_model::Model;
use std::alloc::Global;

/// The greatest number of a row.
const MOST: u64 = 1_000_000_000_000_000_000;

/// Tells whether so many rows over the variables can be made.
fn has_room(next: u64, vars: u32) -> bool
    ensures { IsTrue result → next + (vars + 1) ≤ 10 ^ 18 }
{
    next <= MOST - (u64::from(vars) + 1)
}

/// Learns from a row of the engine that is falsified: the last of its clauses, or a row that holds nowhere. Each clause is
/// made by one line of the proof, and those that aren't learned are deleted. It takes time in proportion to the trail and to the lengths of
/// the rows that it meets. Want of memory comes also where a row would get a number of 19 digits.
pub fn analyze(
    alloc: Global,
    model: &Model,
    engine: &Engine,
    conflict: Place,
    deriv: &mut Derivation,
) -> Result<Learned, NoMemory>
    requires same { model.now ≡ deriv.old.lists }
    requires ready { IsReady deriv.old }
    requires agree { Agree engine.now deriv.old }
    requires held { IsTrue (is_held conflict.0 engine.now.held) }
    requires falsified { Falsified (set_of engine.now.trail) (row_at conflict.0 engine.now.held) }
    ensures learned { IfOk result (Learns engine.now (row_at conflict.0 engine.now.held) deriv.old deriv.new) }
    ensures lines { Analyzes deriv.old deriv.new }
{
    let first = deriv.next();
    if !has_room(first, engine.vars()) {
        return Err(NoMemory);
    }
    // For what their contracts say: the engine is in order, and there are few pairs.
    let _level = engine.level();
    let _pairs = model.instance().pairs();
    let marks = marks_of(alloc, engine)?;
    let last = last_clause(alloc, model, engine, &marks, conflict, deriv)?;
    forget_between(alloc, deriv, first, last.id.0)?;
    let learned = learn(alloc, engine, &marks, last)?;
    Ok(learned)
}
