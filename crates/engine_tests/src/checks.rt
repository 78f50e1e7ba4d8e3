// What the calls of an engine ask of rows, as tests.
ghost use Rattle.std.specs.Prelude.{◌≤◌, IsTrue};
ghost use Rattle.std.specs.List.{All};
ghost use Rattle.pb_rows.specs.Terms.{coef_sum, positive_part};
ghost use Rattle.pb_rows.specs.Points.{IsCovered};
ghost use Rattle.pb_rows.specs.Rows.{IsShort};
ghost use Rattle.propagation.specs.Following.{IsOver};

use hrt_base::{Lit, Term};
use pb_rows::Row;

/// Tells whether a row's variables are from 1 to `vars`.
pub fn is_over(row: &Row, vars: u32) -> bool
    ensures { IsTrue result → IsOver vars row.now }
{
    row.terms()
        .iter()
        .all(|t| t.lit.var >= 1 && t.lit.var <= vars)
}

/// Tells whether the variables of literals are from 1 to `vars`.
pub fn are_covered(literals: &[Lit], vars: u32) -> bool
    ensures { IsTrue result → All (λ l. IsCovered vars l.var) literals.now }
{
    literals.iter().all(|l| l.var >= 1 && l.var <= vars)
}

/// The size of a term's coefficient.
fn size_of(t: Term) -> u128
    ensures { positive_part t.coef ≤ result }
{
    t.coef.unsigned_abs()
}

/// Tells whether coefficients sum to at most so much.
fn is_light(terms: &[Term], most: u128) -> bool
    ensures { IsTrue result → coef_sum terms.now ≤ most }
{
    let mut left = most;
    for k in 0..terms.len() {
        match left.checked_sub(size_of(terms[k])) {
            None => return false,
            Some(rest) => left = rest,
        }
    }
    true
}

/// Tells whether a row's coefficients sum to at most 2^60, and whether its degree is at most 2^60.
pub fn is_short(row: &Row) -> bool
    ensures { IsTrue result → IsShort row.now }
{
    is_light(row.terms(), 1 << 60) && row.degree() <= 1 << 60
}
