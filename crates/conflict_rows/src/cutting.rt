// One division cut.
ghost use Rattle.std.specs.Prelude.{◌≡◌, ◌<◌, ◌≤◌, ◌^◌, [], ◌∷◌, nat_lt, IfOk, OnOk, OnErr, pos, length};
ghost use Rattle.std.specs.List.{find};
ghost use Rattle.pb_rows.specs.Terms.{coef_sum, opposite_lit};
ghost use Rattle.pb_rows.specs.Rows.{Fits, IsShort, IsWellFormedRow, add, times};
ghost use Rattle.propagation.specs.Following.{IsOver};
ghost use Rattle.conflict_rows.specs.Trail.{weight_of};
ghost use Rattle.conflict_rows.specs.CutRows.{most};
ghost use Rattle.conflict_rows.specs.Marks.{set_before, set_now};
ghost use Rattle.conflict_rows.specs.Steps.{IsReduced};
ghost use Rattle.conflict_rows.specs.Cuts.{CutsTo};

use crate::coefficients::{coefficient_sum, weight_in};
use crate::marks::Mark;
use crate::reducing::weakened_vars;
use hrt_base::{Lit, NoMemory};
use pb_rows::{Row, RowRefusal};
use propagation::opposite;
use std::alloc::Global;

/// The most that the coefficients of a short row sum to, and that its degree is.
const MOST: u128 = 1 << 60;

/// A reduced reason, and the variables by which it was weakened.
#[derive(Drop)]
pub struct Reduced {
    pub vars: Vec<u32>,
    pub row: Row,
}

/// The reason of a literal that stands behind k others, weakened and divided.
pub fn reduce(
    alloc: Global,
    reason: Row,
    marks: &[Mark],
    t: Lit,
    k: u32,
) -> Result<Reduced, NoMemory>
    requires stands { 0 < weight_of t reason.terms }
    requires covered { IsOver (length marks.now) reason }
    ensures { IfOk result (λ reduced. IsReduced (set_now marks.now) (set_before marks.now k) t reason reduced.row reduced.vars.items) }
{
    let mut row = reason;
    let a = weight_in(&row, t);
    let vars = weakened_vars(alloc, row.terms(), marks, t, k, a)?;
    row.weaken_all(alloc, &vars)?;
    row.divide(a as i128);
    Ok(Reduced { vars, row })
}

/// The first of the sum of a row's coefficients and its degree that is above what a short row has.
pub fn passed(row: &Row) -> Option<u128>
    ensures value { result ≡ find (nat_lt most) (coef_sum row.now.terms ∷ row.now.degree ∷ []) }
    ensures normal { IsWellFormedRow row.now }
{
    let sum = coefficient_sum(row);
    if sum > MOST {
        return Some(sum);
    }
    let degree = row.degree() as u128;
    if degree > MOST {
        return Some(degree);
    }
    None
}

/// Multiplies a row by a factor with which it fits.
pub fn multiply(row: &mut Row, k: u128)
    requires positive { 0 < k }
    requires small { k ≤ 2 ^ 120 }
    requires fits { Fits (times k row.old) }
    ensures { row.new ≡ times k row.old }
{
    match row.times(k as i128) {
        Ok(()) => {}
        Err(_) => unreachable!(),
    }
}

/// Adds a row with which the sum fits.
pub fn add(alloc: Global, row: &mut Row, other: &Row) -> Result<(), NoMemory>
    requires { Fits (add row.old other.now) }
    ensures ok { OnOk result (row.new ≡ add row.old other.now) }
{
    match row.add(alloc, other) {
        Ok(()) => Ok(()),
        Err(RowRefusal::NoMemory) => Err(NoMemory),
        Err(RowRefusal::TooBig) => unreachable!(),
    }
}

/// What the step of a literal comes to. The next row comes with the numbers of its line: the variables by which the reason is
/// weakened, rising, the divisor, and the factor. Or a number is above 2^60: the sum of the coefficients or the degree of the
/// multiplied reason, or of the next row, the first of them in this order.
#[derive(Drop)]
pub enum Cut {
    Next {
        row: Row,
        vars: Vec<u32>,
        divisor: u128,
        factor: u128,
    },
    Passed(u128),
}

/// The step of a literal t, which stands behind k others on the trail, and whose opposite stands in the row: its reason is
/// weakened, divided so that t has the coefficient 1, multiplied by the coefficient of the opposite, and added. It takes time
/// linear in the two rows.
pub fn next_row(
    alloc: Global,
    row: &Row,
    reason: Row,
    marks: &[Mark],
    t: Lit,
    k: u32,
) -> Result<Cut, NoMemory>
    requires stands { 0 < weight_of t reason.terms }
    requires meets { 0 < weight_of (opposite_lit t) row.now.terms }
    requires covered { IsOver (length marks.now) reason }
    requires reason_within { IsShort reason }
    requires row_within { IsShort row.now }
    ensures { IfOk result (CutsTo (set_now marks.now) (set_before marks.now k) t reason row.now) }
{
    let divisor = weight_in(&reason, t);
    let factor = weight_in(row, opposite(t));
    let Reduced {
        vars,
        row: mut multiple,
    } = reduce(alloc, reason, marks, t, k)?;
    multiply(&mut multiple, factor);
    if let Some(n) = passed(&multiple) {
        return Ok(Cut::Passed(n));
    }
    let mut next = row.copy(alloc)?;
    add(alloc, &mut next, &multiple)?;
    if let Some(n) = passed(&next) {
        return Ok(Cut::Passed(n));
    }
    Ok(Cut::Next {
        row: next,
        vars,
        divisor,
        factor,
    })
}
