// At which levels of a trail a row propagates a literal.
ghost use Rattle.std.specs.Prelude.{◌≡◌, ◌<◌, ◌≤◌, ◌+◌, ◌^◌, ◌&&◌, not, nat_lt, length, false, IfNone, IfSome};
ghost use Rattle.std.specs.List.{All, list_any};
ghost use Rattle.pb_rows.specs.Terms.{IsPositive, coef_sum, opposite_lit, positive_part};
ghost use Rattle.pb_rows.specs.Points.{IsCovered};
ghost use Rattle.pb_rows.specs.Closure.{nonfalse_share, nonfalse_sum};
ghost use Rattle.propagation.specs.Following.{IsOver};
ghost use Rattle.conflict_rows.specs.Trail.{propagates_some};
ghost use Rattle.conflict_rows.specs.CutRows.{least_below};
ghost use Rattle.conflict_rows.specs.Standing.{IsAsserted};
ghost use Rattle.conflict_rows.specs.Marks.{set_up_to};

use crate::coefficients::coefficient;
use crate::marks::{Mark, is_false_at, is_true_at};
use hrt_base::{Lit, Term};
use pb_rows::Row;

/// The coefficient of a term that isn't false up to a level, or 0.
fn open_share(t: Term, marks: &[Mark], level: u32) -> u128
    requires positive { IsPositive t.coef }
    requires covered { IsCovered (length marks.now) t.lit.var }
    ensures { result ≡ nonfalse_share (set_up_to marks.now level) t }
{
    if is_false_at(marks, t.lit, level) {
        0
    } else {
        coefficient(t)
    }
}

/// The sum of the coefficients of the literals that aren't false up to a level, in time linear in the terms.
fn open_total(terms: &[Term], marks: &[Mark], level: u32) -> u128
    requires positive { All (λ t. IsPositive t.coef) terms.now }
    requires covered { All (λ t. IsCovered (length marks.now) t.lit.var) terms.now }
    requires fits { coef_sum terms.now ≤ 2 ^ 120 }
    ensures value { result ≡ nonfalse_sum (set_up_to marks.now level) terms.now }
    ensures bound { result ≤ 2 ^ 120 }
{
    let mut sum = 0;
    for t in terms {
        sum += open_share(*t, marks, level);
    }
    sum
}

/// Tells whether a term's literal is free up to a level, and its coefficient exceeds the slack, which may be below 0.
fn propagates(t: Term, marks: &[Mark], level: u32, sum: u128, degree: u128) -> bool
    requires positive { IsPositive t.coef }
    requires covered { IsCovered (length marks.now) t.lit.var }
    requires degree { degree ≤ 2 ^ 120 }
    ensures { result ≡ ((not (set_up_to marks.now level t.lit) && not (set_up_to marks.now level (opposite_lit t.lit))) && nat_lt sum (degree + positive_part t.coef)) }
{
    if is_true_at(marks, t.lit, level) || is_false_at(marks, t.lit, level) {
        return false;
    }
    sum < degree + coefficient(t)
}

/// Tells whether one of several terms' literals is free up to a level, with a coefficient that exceeds the slack.
fn propagates_any(terms: &[Term], marks: &[Mark], level: u32, sum: u128, degree: u128) -> bool
    requires positive { All (λ t. IsPositive t.coef) terms.now }
    requires covered { All (λ t. IsCovered (length marks.now) t.lit.var) terms.now }
    requires degree { degree ≤ 2 ^ 120 }
    ensures { result ≡ list_any (λ t. (not (set_up_to marks.now level t.lit) && not (set_up_to marks.now level (opposite_lit t.lit))) && nat_lt sum (degree + positive_part t.coef)) terms.now }
{
    for t in terms {
        if propagates(*t, marks, level, sum, degree) {
            return true;
        }
    }
    false
}

/// Tells whether a row propagates a literal under the trail up to a level. The table has variable v at place v - 1.
pub fn propagates_some(row: &Row, marks: &[Mark], level: u32) -> bool
    requires { IsOver (length marks.now) row.now }
    ensures { result ≡ propagates_some (set_up_to marks.now level) row.now }
{
    let terms = row.terms();
    let sum = open_total(terms, marks, level);
    propagates_any(terms, marks, level, sum, row.degree() as u128)
}

/// The first literal of a row that it propagates under the trail up to a level, if there is one, in time linear in the terms.
pub fn asserted(row: &Row, marks: &[Mark], level: u32) -> Option<Lit>
    requires { IsOver (length marks.now) row.now }
    ensures some { IfSome result (IsAsserted (set_up_to marks.now level) row.now) }
    ensures none { IfNone result (propagates_some (set_up_to marks.now level) row.now ≡ false) }
{
    let terms = row.terms();
    let sum = open_total(terms, marks, level);
    let degree = row.degree() as u128;
    for k in 0..terms.len() {
        if propagates(terms[k], marks, level, sum, degree) {
            return Some(terms[k].lit);
        }
    }
    None
}

/// The least level below another one at which a row propagates a literal. It looks at each level, each time at all terms, so
/// it takes time in proportion to the levels times the terms: one sweep over the terms by rising level is to take its place
/// before a command uses it.
pub fn least_level(row: &Row, marks: &[Mark], newest: u32) -> Option<u32>
    requires { IsOver (length marks.now) row.now }
    ensures { result ≡ least_below (λ k. propagates_some (set_up_to marks.now k) row.now) newest }
{
    for level in 0..newest {
        if propagates_some(row, marks, level) {
            return Some(level);
        }
    }
    None
}
