// The rows of solutions.
ghost use Rattle.std.specs.Prelude.{[], ◌≡◌, ◌≤◌, ◌<◌, ◌^◌, ◌-ℤ◌, pos, length, IfOk, OnOk};
ghost use Rattle.std.specs.List.{All};
ghost use Rattle.pb_rows.specs.Points.{IsCovered, Point, is_true_at, point_of, signed_share, value_at};
ghost use Rattle.pb_rows.specs.Normal.{sizes};
ghost use Rattle.pb_rows.specs.Rows.{Fits, add};
ghost use Rattle.proof_rules.specs.States.{at_most_row, minus_terms, smaller};

use hrt_base::{Lit, NoMemory, Term};
use pb_rows::{Row, RowRefusal};
use std::alloc::Global;

/// Tells whether a literal is true at a point.
fn is_true(lit: Lit, point: &[bool]) -> bool
    requires first { 0 < lit.var }
    requires last { lit.var ≤ length point.now }
    ensures { result ≡ is_true_at (point_of point.now) lit }
{
    point[(lit.var - 1) as usize] != lit.neg
}

/// What a term adds to the objective's value.
fn share(term: Term, point: &[bool]) -> i128
    requires { IsCovered (length point.now) term.lit.var }
    ensures { result ≡ signed_share (point_of point.now) term }
{
    if is_true(term.lit, point) {
        term.coef
    } else {
        0
    }
}

/// The value of the objective at a point, which has variable v at place v - 1.
pub fn objective_value(objective: &[Term], point: &[bool]) -> i128
    requires small { sizes objective.now ≤ 2 ^ 119 }
    requires covered { All (λ t. IsCovered (length point.now) t.lit.var) objective.now }
    ensures { result ≡ value_at (point_of point.now) objective.now }
{
    let mut value = 0;
    for term in objective {
        value += share(*term, point);
    }
    value
}

/// The terms with the other sign.
fn minus_terms(alloc: Global, terms: &[Term]) -> Result<Vec<Term>, NoMemory>
    requires { sizes terms.now ≤ 2 ^ 119 }
    ensures { IfOk result (λ minus. minus.items ≡ minus_terms terms.now) }
{
    let mut minus = Vec::with_capacity(alloc, terms.len())?;
    for term in terms {
        minus.push(Term {
            coef: -term.coef,
            lit: term.lit,
        })?;
    }
    Ok(minus)
}

/// Makes the row that the objective is at most a value that it has at some point.
fn at_most_row(alloc: Global, objective: &[Term], value: i128) -> Result<Row, NoMemory>
    requires small { sizes objective.now ≤ 2 ^ 119 }
    requires reached { (p : Point) × (value ≡ value_at p objective.now) }
    ensures { IfOk result (λ row. row ≡ at_most_row objective.now value) }
{
    let minus = minus_terms(alloc, objective)?;
    Row::from_terms_that_fit(alloc, &minus, -value)
}

/// Makes the row 0 >= 1.
fn one_more(alloc: Global) -> Result<Row, NoMemory>
    ensures { IfOk result (λ row. row ≡ record { terms = []; degree = 1 }) }
{
    Row::from_terms_that_fit(alloc, &[], 1)
}

/// Adds a row where the sum fits.
fn add_that_fits(row: &mut Row, alloc: Global, other: &Row) -> Result<(), NoMemory>
    requires { Fits (add row.old other.now) }
    ensures { OnOk result (row.new ≡ add row.old other.now) }
{
    match row.add(alloc, other) {
        Ok(()) => Ok(()),
        Err(RowRefusal::NoMemory) => Err(NoMemory),
        Err(RowRefusal::TooBig) => unreachable!(),
    }
}

/// Makes the row that the objective is smaller than a value that it has at some point. It is the row that the objective is
/// at most the value, and the row 0 >= 1 added to it: so no number passes 2^120 on the way.
pub fn improvement_row(alloc: Global, objective: &[Term], value: i128) -> Result<Row, NoMemory>
    requires small { sizes objective.now ≤ 2 ^ 119 }
    requires reached { (p : Point) × (value ≡ value_at p objective.now) }
    ensures { IfOk result (λ row. row ≡ at_most_row objective.now (value -ℤ pos 1)) }
{
    let mut row = at_most_row(alloc, objective, value)?;
    let one = one_more(alloc)?;
    add_that_fits(&mut row, alloc, &one)?;
    Ok(row)
}

/// The smaller one of a value and the least before it, if there was one.
pub fn smaller(least: Option<i128>, value: i128) -> i128
    ensures { result ≡ smaller least value }
{
    match least {
        None => value,
        Some(before) => { if value < before { value } else { before } }
    }
}
