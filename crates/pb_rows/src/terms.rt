// Terms, and lists of them.
ghost use Rattle.std.specs.Prelude.{◌≡◌, ◌<◌, ◌≤◌, ◌*◌, ◌+◌, ◌^◌, length, map};
ghost use Rattle.std.specs.List.{All};
ghost use Rattle.pb_rows.specs.Terms.{IsPositive, capped, coef_sum, divided, opposite_lit, part_over, scaled, weighing, positive_part, weight_over};
ghost use Rattle.pb_rows.specs.Points.{IsCovered, is_true_at, point_of, share, true_sum};
ghost use Rattle.pb_rows.specs.Closure.{literals_of, nonfalse_share, nonfalse_sum};

use hrt_base::{Lit, Term, Value};

/// The coefficient of a term.
pub(crate) fn weight_of(t: Term) -> u128
    requires { IsPositive t.coef }
    ensures value { result ≡ positive_part t.coef }
    ensures positive { 0 < result }
    ensures bound { result < 2 ^ 127 }
{
    t.coef as u128
}

/// A term with a given coefficient.
pub(crate) fn weighing(n: u128, lit: Lit) -> Term
    requires { n < 2 ^ 127 }
    ensures { result ≡ weighing n lit }
{
    Term {
        coef: n as i128,
        lit,
    }
}

/// A term with its coefficient multiplied.
fn scaled_term(t: Term, k: u128) -> Term
    requires positive { IsPositive t.coef }
    requires fits { positive_part t.coef * k < 2 ^ 127 }
    ensures { result ≡ scaled k t }
{
    weighing(weight_of(t) * k, t.lit)
}

/// A term with its coefficient divided and rounded up.
fn divided_term(t: Term, k: u128) -> Term
    requires positive { IsPositive t.coef }
    requires divisor { 0 < k }
    ensures { result ≡ divided k t }
{
    weighing(weight_of(t).div_ceil(k), t.lit)
}

/// A term with its coefficient lowered to a cap.
fn capped_term(t: Term, most: u128) -> Term
    requires { IsPositive t.coef }
    ensures { result ≡ capped most t }
{
    weighing(weight_of(t).min(most), t.lit)
}

/// Multiplies each coefficient.
pub(crate) fn scale(terms: &mut Vec<Term>, k: u128)
    requires positive { All (λ t. IsPositive t.coef) terms.old.items }
    requires fits { All (λ t. positive_part t.coef * k < 2 ^ 127) terms.old.items }
    ensures { terms.new.items ≡ map (scaled k) terms.old.items }
{
    for t in terms.iter_mut() {
        *t = scaled_term(*t, k);
    }
}

/// Divides each coefficient and rounds up.
pub(crate) fn divide(terms: &mut Vec<Term>, k: u128)
    requires positive { All (λ t. IsPositive t.coef) terms.old.items }
    requires divisor { 0 < k }
    ensures { terms.new.items ≡ map (divided k) terms.old.items }
{
    for t in terms.iter_mut() {
        *t = divided_term(*t, k);
    }
}

/// Lowers each coefficient to a cap.
pub(crate) fn cap(terms: &mut Vec<Term>, most: u128)
    requires { All (λ t. IsPositive t.coef) terms.old.items }
    ensures { terms.new.items ≡ map (capped most) terms.old.items }
{
    for t in terms.iter_mut() {
        *t = capped_term(*t, most);
    }
}

/// The sum of the coefficients.
pub(crate) fn total(terms: &[Term]) -> u128
    requires positive { All (λ t. IsPositive t.coef) terms.now }
    requires fits { coef_sum terms.now < 2 ^ 128 }
    ensures { result ≡ coef_sum terms.now }
{
    let mut sum = 0;
    for t in terms {
        sum += weight_of(*t);
    }
    sum
}

/// The coefficient of a term over a variable, or 0.
fn part_over(t: Term, var: u32) -> u128
    requires { IsPositive t.coef }
    ensures { result ≡ part_over var t }
{
    if t.lit.var == var { weight_of(t) } else { 0 }
}

/// The coefficient of a variable, or 0.
pub(crate) fn total_over(terms: &[Term], var: u32) -> u128
    requires positive { All (λ t. IsPositive t.coef) terms.now }
    requires fits { coef_sum terms.now < 2 ^ 128 }
    ensures { result ≡ weight_over var terms.now }
{
    let mut sum = 0;
    for t in terms {
        sum += part_over(*t, var);
    }
    sum
}

/// Tells whether a literal is true at a point.
fn is_true(lit: Lit, point: &[bool]) -> bool
    requires first { 0 < lit.var }
    requires last { lit.var ≤ length point.now }
    ensures { result ≡ is_true_at (point_of point.now) lit }
{
    let value = point[(lit.var - 1) as usize];
    if lit.neg { !value } else { value }
}

/// The coefficient of a term that is true at a point, or 0.
fn share(t: Term, point: &[bool]) -> u128
    requires positive { IsPositive t.coef }
    requires covered { IsCovered (length point.now) t.lit.var }
    ensures { result ≡ share (point_of point.now) t }
{
    if is_true(t.lit, point) {
        weight_of(t)
    } else {
        0
    }
}

/// The sum of the coefficients of the literals that are true at a point.
pub(crate) fn true_total(terms: &[Term], point: &[bool]) -> u128
    requires positive { All (λ t. IsPositive t.coef) terms.now }
    requires covered { All (λ t. IsCovered (length point.now) t.lit.var) terms.now }
    requires fits { coef_sum terms.now < 2 ^ 128 }
    ensures { result ≡ true_sum (point_of point.now) terms.now }
{
    let mut sum = 0;
    for t in terms {
        sum += share(*t, point);
    }
    sum
}

/// Tells whether a literal is false.
fn is_false(lit: Lit, values: &[Value]) -> bool
    requires first { 0 < lit.var }
    requires last { lit.var ≤ length values.now }
    ensures { result ≡ literals_of values.now (opposite_lit lit) }
{
    match values[(lit.var - 1) as usize] {
        Value::Free => false,
        Value::True => lit.neg,
        Value::False => !lit.neg,
    }
}

/// The coefficient of a term that isn't false, or 0.
fn nonfalse_share(t: Term, values: &[Value]) -> u128
    requires positive { IsPositive t.coef }
    requires covered { IsCovered (length values.now) t.lit.var }
    ensures { result ≡ nonfalse_share (literals_of values.now) t }
{
    if is_false(t.lit, values) {
        0
    } else {
        weight_of(t)
    }
}

/// The sum of the coefficients of the literals that aren't false.
pub(crate) fn nonfalse_total(terms: &[Term], values: &[Value]) -> u128
    requires positive { All (λ t. IsPositive t.coef) terms.now }
    requires covered { All (λ t. IsCovered (length values.now) t.lit.var) terms.now }
    requires fits { coef_sum terms.now ≤ 2 ^ 120 }
    ensures value { result ≡ nonfalse_sum (literals_of values.now) terms.now }
    ensures bound { result ≤ 2 ^ 120 }
{
    let mut sum = 0;
    for t in terms {
        sum += nonfalse_share(*t, values);
    }
    sum
}
