// What a state shows of the objective.
ghost use Rattle.std.specs.Prelude.{◌≡◌, ◌<ℤ◌, ◌↔◌, ◌⊎◌, pos, IsTrue, IfOk, Some};
ghost use Rattle.pb_rows.specs.Closure.{Implies};
ghost use Rattle.opb_text.specs.Limits.{IsWithinLimits};
ghost use Rattle.proof_lines.specs.Spelling.{is_small_bound, is_small_claim};
ghost use Rattle.propagation.specs.Following.{IsOver};
ghost use Rattle.proof_rules.specs.States.{live_rows};
ghost use Rattle.proof_rules.specs.Claims.{HasStronger, IsUnpassed, Shows, ShowsLower, ShowsNone, ShowsUpper};
ghost use Rattle.proof_rules.specs.Sound.{IsSoundState};
ghost use Rattle.proof_checker.specs.Tests.{ReachesUpper};

use crate::state::State;
use hrt_base::NoMemory;
use opb_text::Formula;
use pb_rows::{Row, RowRefusal};
use proof_lines::Claim;
use std::alloc::Global;

/// Tells whether no value below a bound was logged.
fn is_unpassed(least: Option<i128>, lower: i128) -> bool
    ensures { IsTrue result ↔ IsUnpassed least lower }
{
    match least {
        None => true,
        Some(value) => lower <= value,
    }
}

/// Tells whether a value at most a bound was logged, where there is a bound.
fn shows_upper(least: Option<i128>, upper: Option<i128>) -> bool
    ensures { IsTrue result ↔ ReachesUpper least upper }
{
    match (least, upper) {
        (_, None) => true,
        (None, Some(_)) => false,
        (Some(value), Some(bound)) => value <= bound,
    }
}

/// Tells whether a row follows, or is one of the live rows but for a smaller degree.
fn shows_row(alloc: Global, state: &mut State, row: &Row) -> Result<bool, NoMemory>
    requires { IsOver state.old.vars row.now }
    ensures shown { IfOk result (λ shown. IsTrue shown ↔ (Implies (live_rows state.old.state) row.now ⊎ HasStronger state.old.state row.now)) }
    ensures same { state.new ≡ state.old }
{
    if state.has_stronger(row) {
        return Ok(true);
    }
    let implied = state.implies(alloc, row)?;
    Ok(implied)
}

/// Tells whether nothing is logged and the live rows are refuted.
fn shows_none(alloc: Global, state: &mut State) -> Result<bool, NoMemory>
    ensures shown { IfOk result (λ shown. IsTrue shown ↔ ShowsNone state.old.state) }
    ensures same { state.new ≡ state.old }
{
    if state.least().is_some() {
        return Ok(false);
    }
    let refuted = state.is_refuted(alloc)?;
    Ok(refuted)
}

/// Tells whether a state shows a lower bound whose row is too big: one below all values of the objective always, one above
/// them where nothing is logged and the live rows are refuted.
fn shows_far(alloc: Global, state: &mut State, lower: i128) -> Result<bool, NoMemory>
    ensures shown { IfOk result (λ shown. IsTrue shown ↔ ((lower <ℤ pos 0) ⊎ ShowsNone state.old.state)) }
    ensures same { state.new ≡ state.old }
{
    if lower < 0 {
        return Ok(true);
    }
    let shown = shows_none(alloc, state)?;
    Ok(shown)
}

/// Tells whether a state shows a lower bound. A bound whose row is too big is beyond all values of the objective.
fn shows_lower(
    alloc: Global,
    formula: &Formula,
    state: &mut State,
    lower: i128,
) -> Result<bool, NoMemory>
    requires limits { IsWithinLimits formula.now }
    requires vars { state.old.vars ≡ formula.now.vars }
    requires sound { IsSoundState formula.now state.old.state }
    ensures shown { IfOk result (λ shown. IsTrue shown ↔ ShowsLower formula.now state.old.state (Some lower)) }
    ensures same { state.new ≡ state.old }
{
    if !is_unpassed(state.least(), lower) {
        return Ok(false);
    }
    match Row::from_terms(alloc, &formula.objective, lower) {
        Ok(row) => shows_row(alloc, state, &row),
        Err(RowRefusal::TooBig) => shows_far(alloc, state, lower),
        Err(RowRefusal::NoMemory) => Err(NoMemory),
    }
}

/// Tells whether a state shows a lower bound, where there is one.
fn shows_bound(
    alloc: Global,
    formula: &Formula,
    state: &mut State,
    lower: Option<i128>,
) -> Result<bool, NoMemory>
    requires limits { IsWithinLimits formula.now }
    requires small { IsTrue (is_small_bound lower) }
    requires vars { state.old.vars ≡ formula.now.vars }
    requires sound { IsSoundState formula.now state.old.state }
    ensures shown { IfOk result (λ shown. IsTrue shown ↔ ShowsLower formula.now state.old.state lower) }
    ensures same { state.new ≡ state.old }
{
    match lower {
        None => Ok(true),
        Some(lower) => shows_lower(alloc, formula, state, lower),
    }
}

/// Tells whether a state shows two bounds.
fn shows_bounds(
    alloc: Global,
    formula: &Formula,
    state: &mut State,
    lower: Option<i128>,
    upper: Option<i128>,
) -> Result<bool, NoMemory>
    requires limits { IsWithinLimits formula.now }
    requires small { IsTrue (is_small_bound lower) }
    requires vars { state.old.vars ≡ formula.now.vars }
    requires sound { IsSoundState formula.now state.old.state }
    ensures shown { IfOk result (λ shown. IsTrue shown ↔ (ShowsLower formula.now state.old.state lower × ShowsUpper state.old.state upper)) }
    ensures same { state.new ≡ state.old }
{
    if !shows_upper(state.least(), upper) {
        return Ok(false);
    }
    let shown = shows_bound(alloc, formula, state, lower)?;
    Ok(shown)
}

/// Tells whether a state shows a claim.
pub fn shows(
    alloc: Global,
    formula: &Formula,
    state: &mut State,
    claim: Claim,
) -> Result<bool, NoMemory>
    requires limits { IsWithinLimits formula.now }
    requires small { IsTrue (is_small_claim claim) }
    requires vars { state.old.vars ≡ formula.now.vars }
    requires sound { IsSoundState formula.now state.old.state }
    ensures shown { IfOk result (λ shown. IsTrue shown ↔ Shows formula.now state.old.state claim) }
    ensures same { state.new ≡ state.old }
{
    match claim {
        Claim::Bounds { lower, upper } => shows_bounds(alloc, formula, state, lower, upper),
        Claim::Unsat => shows_none(alloc, state),
        Claim::Nothing => Ok(true),
    }
}
