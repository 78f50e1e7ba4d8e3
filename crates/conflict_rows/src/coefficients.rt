// Coefficients of rows.
ghost use Rattle.std.specs.Prelude.{◌≡◌, ◌<◌, ◌≤◌, ◌^◌, ◌∷◌, [], length, pos};
ghost use Rattle.std.specs.List.{All};
ghost use Rattle.pb_rows.specs.Terms.{IsPositive, IsRisingFrom, coef_sum, positive_part};
ghost use Rattle.pb_rows.specs.Rows.{IsWellFormedRow};
ghost use Rattle.conflict_rows.specs.Trail.{weight_of};

use hrt_base::{Lit, Term};
use pb_rows::Row;

/// The coefficient of a term.
pub fn coefficient(t: Term) -> u128
    requires { IsPositive t.coef }
    ensures value { result ≡ positive_part t.coef }
    ensures positive { 0 < result }
    ensures bound { result < 2 ^ 127 }
{
    t.coef as u128
}

/// The sum of the coefficients of terms.
fn total(terms: &[Term]) -> u128
    requires positive { All (λ t. IsPositive t.coef) terms.now }
    requires fits { coef_sum terms.now < 2 ^ 128 }
    ensures { result ≡ coef_sum terms.now }
{
    let mut sum = 0;
    for t in terms {
        sum += coefficient(*t);
    }
    sum
}

/// The sum of a row's coefficients: at most 2^120.
pub fn coefficient_sum(row: &Row) -> u128
    ensures value { result ≡ coef_sum row.now.terms }
    ensures bound { result ≤ 2 ^ 120 }
    ensures normal { IsWellFormedRow row.now }
{
    total(row.terms())
}

/// The coefficient of the term at a place, where that is the literal's, or 0.
fn weight_if_same(t: Term, lit: Lit) -> u128
    requires { IsPositive t.coef }
    ensures { result ≡ weight_of lit (t ∷ []) }
{
    if t.lit == lit { coefficient(t) } else { 0 }
}

/// The coefficient of a literal among terms by rising variable, or 0: found by binary search.
pub fn weight_of(terms: &[Term], lit: Lit) -> u128
    requires rising { IsRisingFrom 0 terms.now }
    ensures { result ≡ weight_of lit terms.now }
{
    let mut low = 0;
    let mut high = terms.len();
    while low < high {
        let middle = low + (high - low) / 2;
        let t = terms[middle];
        if t.lit.var == lit.var {
            return weight_if_same(t, lit);
        }
        if t.lit.var < lit.var {
            low = middle + 1;
        } else {
            high = middle;
        }
    }
    0
}

/// The coefficient of a literal in a row, or 0, in time logarithmic in the terms.
pub fn weight_in(row: &Row, lit: Lit) -> u128
    ensures value { result ≡ weight_of lit row.now.terms }
    ensures bound { result ≤ 2 ^ 120 }
    ensures normal { IsWellFormedRow row.now }
{
    weight_of(row.terms(), lit)
}
