// Rows as clauses.
ghost use Rattle.std.specs.Prelude.{◌≡◌, ◌<◌, ◌≤◌, ◌^◌, ◌==◌, ◌&&◌, not, IfOk, length};
ghost use Rattle.std.specs.List.{All};
ghost use Rattle.std.specs.List.Sorted.{IsNonDecreasing};
ghost use Rattle.pb_rows.specs.Terms.{IsPositive, opposite_lit};
ghost use Rattle.pb_rows.specs.Rows.{IsShort, add, divide, saturate, weaken_all};
ghost use Rattle.pb_rows.specs.Closure.{Falsified};
ghost use Rattle.pb_rows.specs.Points.{IsCovered};
ghost use Rattle.propagation.specs.Following.{IsOver};
ghost use Rattle.conflict_rows.specs.Weakening.{vars_where};
ghost use Rattle.conflict_rows.specs.Trail.{PropagatesLiteral};
ghost use Rattle.conflict_rows.specs.ClauseRows.{as_clause, is_nonfalse, is_other};
ghost use Rattle.conflict_rows.specs.Steps.{IsClauseOf};
ghost use Rattle.conflict_rows.specs.Marks.{set_before, set_now};

use crate::cutting::add;
use crate::marks::{Mark, is_false, is_false_before};
use hrt_base::{Lit, NoMemory, Term};
use pb_rows::Row;
use std::alloc::Global;

/// A clause made of a row, with the numbers of its line: the variables by which the row was weakened, rising, and the degree
/// by which what was left was divided, once it was saturated.
#[derive(Drop)]
pub struct Clause {
    pub row: Row,
    pub vars: Vec<u32>,
    pub divisor: u128,
}

/// The degree of a row.
fn degree_of(row: &Row) -> u128
    ensures value { result ≡ row.now.degree }
    ensures bound { result ≤ 2 ^ 120 }
{
    let _terms = row.terms();
    row.degree() as u128
}

/// Divides a row.
fn divide(row: &mut Row, d: u128)
    requires some { 0 < d }
    requires bound { d ≤ 2 ^ 120 }
    ensures { row.new ≡ divide d row.old }
{
    row.divide(d as i128);
}

/// Saturates a row, divides it by its degree, and tells that.
fn make_clause(row: &mut Row) -> u128
    requires { 0 < row.old.degree }
    ensures row { row.new ≡ as_clause row.old }
    ensures degree { result ≡ row.old.degree }
{
    let degree = degree_of(row);
    row.saturate();
    divide(row, degree);
    degree
}

/// The variables of the literals that aren't false.
fn nonfalse_vars(alloc: Global, terms: &[Term], marks: &[Mark]) -> Result<Vec<u32>, NoMemory>
    requires { All (λ t. IsCovered (length marks.now) t.lit.var) terms.now }
    ensures { IfOk result (λ vars. vars.items ≡ vars_where (is_nonfalse (set_now marks.now)) terms.now) }
{
    let mut vars = Vec::new(alloc);
    for u in terms {
        if !is_false(marks, u.lit) {
            vars.push(u.lit.var)?;
        }
    }
    Ok(vars)
}

/// Tells whether a term is over another variable than a literal, which stands behind k others, and wasn't false before it.
fn is_other(u: Term, marks: &[Mark], t: Lit, k: u32) -> bool
    requires { IsCovered (length marks.now) u.lit.var }
    ensures { result ≡ is_other (set_before marks.now k) t u }
{
    u.lit.var != t.var && !is_false_before(marks, u.lit, k)
}

/// The variables of the other literals of a reason that weren't false before its literal, which stands behind k others.
fn other_vars(
    alloc: Global,
    terms: &[Term],
    marks: &[Mark],
    t: Lit,
    k: u32,
) -> Result<Vec<u32>, NoMemory>
    requires { All (λ t. IsCovered (length marks.now) t.lit.var) terms.now }
    ensures { IfOk result (λ vars. vars.items ≡ vars_where (is_other (set_before marks.now k) t) terms.now) }
{
    let mut vars = Vec::new(alloc);
    for u in terms {
        if is_other(*u, marks, t, k) {
            vars.push(u.lit.var)?;
        }
    }
    Ok(vars)
}

/// Weakens a row by rising variables, saturates it and divides it by its degree.
fn clause_without(alloc: Global, row: Row, vars: Vec<u32>) -> Result<Clause, NoMemory>
    requires rising { IsNonDecreasing vars.items }
    requires some { 0 < (weaken_all vars.items row).degree }
    ensures row { IfOk result (λ clause. clause.row ≡ as_clause (weaken_all vars.items row)) }
    ensures vars { IfOk result (λ clause. clause.vars.items ≡ vars.items) }
    ensures divisor { IfOk result (λ clause. clause.divisor ≡ (weaken_all vars.items row).degree) }
{
    let mut row = row;
    row.weaken_all(alloc, &vars)?;
    let divisor = make_clause(&mut row);
    Ok(Clause { row, vars, divisor })
}

/// The clause of a falsified row: its literals that aren't false are weakened away.
pub fn conflict_clause(alloc: Global, row: Row, marks: &[Mark]) -> Result<Clause, NoMemory>
    requires covered { IsOver (length marks.now) row }
    requires falsified { Falsified (set_now marks.now) row }
    ensures { IfOk result (λ clause. IsClauseOf (is_nonfalse (set_now marks.now)) row clause.row clause.vars.items clause.divisor) }
{
    let vars = nonfalse_vars(alloc, row.terms(), marks)?;
    clause_without(alloc, row, vars)
}

/// The clause of the reason of a literal that stands behind k others on the trail: the other literals of the reason that weren't
/// false before it are weakened away.
pub fn reason_clause(
    alloc: Global,
    reason: Row,
    marks: &[Mark],
    t: Lit,
    k: u32,
) -> Result<Clause, NoMemory>
    requires covered { IsOver (length marks.now) reason }
    requires propagates { PropagatesLiteral (set_before marks.now k) reason t }
    ensures { IfOk result (λ clause. IsClauseOf (is_other (set_before marks.now k) t) reason clause.row clause.vars.items clause.divisor) }
{
    let vars = other_vars(alloc, reason.terms(), marks, t, k)?;
    clause_without(alloc, reason, vars)
}

/// The sum of two short clauses, saturated: the next clause where one has the opposite of a literal of the other.
pub fn resolvent(alloc: Global, clause: &Row, reason: &Row) -> Result<Row, NoMemory>
    requires clause { IsShort clause.now }
    requires reason { IsShort reason.now }
    ensures { IfOk result (λ next. next ≡ saturate (add clause.now reason.now)) }
{
    let _lengths = (clause.terms().len(), reason.terms().len());
    let mut next = clause.copy(alloc)?;
    add(alloc, &mut next, reason)?;
    next.saturate();
    Ok(next)
}
