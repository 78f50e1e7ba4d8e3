// The reason of a literal, weakened for a step.
ghost use Rattle.std.specs.Prelude.{◌≡◌, ◌<◌, ◌≤◌, ◌%◌, ◌^◌, ◌++◌, ◌==◌, ◌&&◌, ◌||◌, not, if◌then◌else◌, IfOk, OnOk, [], ◌∷◌, length, take, pos};
ghost use Rattle.std.specs.List.{All};
ghost use Rattle.pb_rows.specs.Terms.{IsPositive, opposite_lit, positive_part};
ghost use Rattle.pb_rows.specs.Rows.{divide};
ghost use Rattle.pb_rows.specs.Points.{IsCovered};
ghost use Rattle.conflict_rows.specs.Trail.{weight_of};
ghost use Rattle.conflict_rows.specs.Weakening.{vars_where, weakened};
ghost use Rattle.conflict_rows.specs.CutRows.{is_weakened};
ghost use Rattle.conflict_rows.specs.Marks.{set_before, set_now};

use crate::coefficients::coefficient;
use crate::marks::{Mark, is_false, is_false_before};
use hrt_base::{Lit, NoMemory, Term};
use pb_rows::Row;
use std::alloc::Global;

/// Tells whether a coefficient is a multiple.
fn is_multiple(n: u128, a: u128) -> bool
    requires { 0 < a }
    ensures { result ≡ (n % a == 0) }
{
    n % a == 0
}

/// Tells whether the step of a literal, which stands behind k others, weakens a term of its reason.
fn is_weakened(marks: &[Mark], t: Lit, k: u32, a: u128, u: Term) -> bool
    requires positive { IsPositive u.coef }
    requires covered { IsCovered (length marks.now) u.lit.var }
    requires divisor { 0 < a }
    ensures { result ≡ is_weakened (set_now marks.now) (set_before marks.now k) t a u }
{
    if u.lit.var == t.var || is_false_before(marks, u.lit, k) {
        return false;
    }
    is_false(marks, u.lit) || !is_multiple(coefficient(u), a)
}

/// The variables that the step of a literal weakens.
pub fn weakened_vars(
    alloc: Global,
    terms: &[Term],
    marks: &[Mark],
    t: Lit,
    k: u32,
    a: u128,
) -> Result<Vec<u32>, NoMemory>
    requires positive { All (λ u. IsPositive u.coef) terms.now }
    requires covered { All (λ t. IsCovered (length marks.now) t.lit.var) terms.now }
    requires divisor { 0 < a }
    ensures { IfOk result (λ vars. vars.items ≡ vars_where (is_weakened (set_now marks.now) (set_before marks.now k) t a) terms.now) }
{
    let mut vars = Vec::new(alloc);
    for u in terms {
        if is_weakened(marks, t, k, a, *u) {
            vars.push(u.lit.var)?;
        }
    }
    Ok(vars)
}
