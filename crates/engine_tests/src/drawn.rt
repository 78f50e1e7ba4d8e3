// Systems of rows by lot, each decided down to a conflict or to its last variable, against the closures at each level.
ghost use Rattle.std.specs.Prelude.{◌≡◌};

use crate::Compared;
use crate::rows::lit;
use conflict_cuts::Outcome;
use hrt_base::{Term, Value};
use std::alloc::Global;
use std::marker::Brand;
use std::sync::ledger::{Blank, Ledger};
use std::test::Fail;

// A linear congruential generator: a number less than `below`.
fn next(state: &mut u32, below: u32) -> u32 {
    *state = state.wrapping_mul(1_664_525).wrapping_add(1_013_904_223);
    (*state >> 16).checked_rem(below).unwrap_or(0)
}

// A term of either sign, with a coefficient from 0 to 3.
fn some_term(state: &mut u32, var: u32) -> Term {
    let coef = i128::from(next(state, 4));
    Term {
        coef,
        lit: lit(var, next(state, 2) == 1),
    }
}

// A row over four variables.
fn add_some_row<L: Ledger>(
    alloc: Global,
    engine: &mut Compared<L>,
    state: &mut u32,
) -> Result<(), Fail> {
    let terms = [
        some_term(state, 1),
        some_term(state, 2),
        some_term(state, 3),
        some_term(state, 4),
    ];
    engine.add(alloc, &terms, i128::from(next(state, 6)))?;
    Ok(())
}

/// Propagates, and decides free variables by lot, until none is left or a row is falsified. Tells which of both.
fn descend<L: Ledger>(
    alloc: Global,
    engine: &mut Compared<L>,
    state: &mut u32,
) -> Result<Outcome, Fail> {
    let mut outcome = engine.propagate(alloc)?;
    for var in 1..5 {
        if matches!(outcome, Outcome::Conflict(_)) {
            return Ok(outcome);
        }
        if matches!(engine.engine().value(var), Value::Free) {
            outcome = engine.decide(alloc, lit(var, next(state, 2) == 1))?;
        }
    }
    Ok(outcome)
}

/// Draws a system, decides it, goes back, adds a row, and decides it once more. Tells whether the first end was a conflict.
fn decide_some<L: Ledger>(alloc: Global, blank: Blank, state: &mut u32) -> Result<bool, Fail>
    requires name { blank.name ≡ L.name }
    requires parts { blank.parts ≡ L.parts }
    requires one { blank.parts ≡ 1 }
{
    let mut engine = Compared::<L>::new(alloc, blank, 4)?;
    for _ in 0..3 {
        add_some_row(alloc, &mut engine, state)?;
    }
    let outcome = descend(alloc, &mut engine, state)?;
    engine.back_to(next(state, 3));
    add_some_row(alloc, &mut engine, state)?;
    descend(alloc, &mut engine, state)?;
    Ok(matches!(outcome, Outcome::Conflict(_)))
}

#[test]
fn drawn_systems(rt: HostRuntime) -> Result<(), Fail> {
    let alloc = rt.alloc();
    let mut state = 1;
    let mut conflicts: u32 = 0;
    for _ in 0..300 {
        if decide_some::<Brand>(alloc, Blank::new(1), &mut state)? {
            conflicts = conflicts.saturating_add(1);
        }
    }
    assert!(rt; conflicts > 50);
    assert!(rt; conflicts < 250);
    Ok(())
}
