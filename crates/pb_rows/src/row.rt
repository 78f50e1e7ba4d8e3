// A row and its operations.
#![tactic(auto, using(crate::proofs::Order::positive_at))]

ghost use Rattle.std.specs.Prelude.{◌≡◌, ◌<◌, ◌≤◌, ◌+◌, ◌*◌, ◌^◌, ◌++◌, pos, OnOk, OnErr, IsOk, IfErr, IfOk, ◌↔◌, IsTrue, not, length};
ghost use Rattle.std.specs.List.{All};
ghost use Rattle.std.specs.List.Sorted.{IsNonDecreasing};
ghost use Rattle.pb_rows.specs.Terms.{IsPositive, coef_sum, positive_part};
ghost use Rattle.pb_rows.specs.Points.{IsCovered, point_of};
ghost use Rattle.pb_rows.specs.Normal.{all_sizes, normal_form};
ghost use Rattle.pb_rows.specs.Rows.{AddsValues, Fits, HoldsAfter, HoldsElsewhere, HoldsWhere, HoldsWithBoth, IsWellFormedRow, add, divide, holds, opposite_row, saturate, times, weaken, weaken_all};
ghost use Rattle.pb_rows.specs.Closure.{literals_of, slack};

use crate::MOST;
use crate::join::{join_all, loss, merge};
use crate::normal::{do_sizes_fit, or_zero, turned_total, without_signs};
use crate::terms::{cap, divide, nonfalse_total, scale, total, total_over, true_total};
use crate::weakening::without;
use hrt_base::{NoMemory, Term, Value};
use std::alloc::Global;
use std::marker::Model;
use thiserror::Error;

/// Why a row isn't made.
#[derive(Debug, Drop, Error)]
pub enum RowRefusal {
    #[error("the row is too big")]
    TooBig,
    #[error("no memory")]
    NoMemory,
}

/// The product doesn't fit: its coefficients sum to more than 2^120, or its degree is more.
#[derive(Debug, Drop, Error)]
#[error("the row is too big")]
pub struct TooBig;

/// A pseudo-Boolean row: the coefficients of the true literals sum to at least the degree. Coefficients are positive and sum
/// to at most 2^120, variables rise, and the degree is at most 2^120.
#[derive(Drop)]
pub struct Row {
    terms: Vec<Term>,
    degree: u128,
}

impl Model for Row {
    ghost use Rattle.pb_rows.specs.Terms.{PlainRow};
    ghost use Rattle.pb_rows.specs.Rows.{IsWellFormedRow};

    ghost Value = { PlainRow };

    ghost view = { λ r. record { terms = r.terms.items; degree = r.degree } };

    ghost invariant = { λ r. IsWellFormedRow (record { terms = r.terms.items; degree = r.degree }) };
}

/// The number of a factor.
fn number_of(k: i128) -> u128
    requires { IsPositive k }
    ensures value { result ≡ positive_part k }
    ensures positive { 0 < result }
    ensures bound { result < 2 ^ 127 }
{
    k as u128
}

/// Tells whether a product fits.
fn fits_times(n: u128, k: u128) -> bool
    requires { 0 < k }
    ensures { IsTrue result ↔ (n * k ≤ 2 ^ 120) }
{
    n <= MOST / k
}

/// Tells whether a row can be multiplied.
fn can_multiply(terms: &[Term], degree: u128, k: u128) -> bool
    requires positive { All (λ t. IsPositive t.coef) terms.now }
    requires fits { coef_sum terms.now ≤ 2 ^ 120 }
    requires factor { 0 < k }
    ensures { IsTrue result ↔ ((coef_sum terms.now * k ≤ 2 ^ 120) × (degree * k ≤ 2 ^ 120)) }
{
    fits_times(total(terms), k) && fits_times(degree, k)
}

/// Tells whether the sum of two rows fits.
fn can_add(a: &Row, b: &Row) -> bool
    ensures { IsTrue result ↔ Fits (add a.now b.now) }
{
    let lost = loss(&a.terms, &b.terms);
    let sum = total(&a.terms) + total(&b.terms) - 2 * lost;
    let degree = (a.degree + b.degree).saturating_sub(lost);
    sum <= MOST && degree <= MOST
}

impl Row {
    /// Makes the row of an inequality as it is written. Coefficients may be negative or 0, variables may recur in any
    /// order. It takes time n log n for n terms.
    pub fn from_terms(alloc: Global, terms: &[Term], at_least: i128) -> Result<Row, RowRefusal>
        ensures ok { IfOk result (λ r. r ≡ normal_form terms.now at_least) }
        ensures holds { IfOk result (HoldsWhere terms.now at_least) }
        ensures fits { OnOk result (all_sizes terms.now at_least ≤ 2 ^ 120) }
        ensures too_big { IfErr result (λ e. (e ≡ RowRefusal.TooBig) ↔ (2 ^ 120 < all_sizes terms.now at_least)) }
    {
        if !do_sizes_fit(terms, at_least) {
            return Err(RowRefusal::TooBig);
        }
        match without_signs(alloc, terms) {
            Err(_) => Err(RowRefusal::NoMemory),
            Ok(positive) => match join_all(alloc, positive) {
                Err(_) => Err(RowRefusal::NoMemory),
                Ok(joined) => Ok(Row {
                    terms: joined.terms,
                    degree: or_zero(at_least, turned_total(terms)).saturating_sub(joined.lost),
                }),
            },
        }
    }

    /// Makes the row of an inequality as it is written, whose sizes fit: so it fails for want of memory alone.
    pub fn from_terms_that_fit(
        alloc: Global,
        terms: &[Term],
        at_least: i128,
    ) -> Result<Row, NoMemory>
        requires { all_sizes terms.now at_least ≤ 2 ^ 120 }
        ensures { IfOk result (λ r. r ≡ normal_form terms.now at_least) }
    {
        match Row::from_terms(alloc, terms, at_least) {
            Ok(row) => Ok(row),
            Err(RowRefusal::NoMemory) => Err(NoMemory),
            Err(RowRefusal::TooBig) => unreachable!(),
        }
    }

    /// The terms, by rising variable.
    pub fn terms(&self) -> &[Term]
        ensures terms { result.now ≡ self.now.terms }
        ensures normal { IsWellFormedRow self.now }
    {
        &self.terms
    }

    /// What the coefficients of the true literals must sum to.
    pub fn degree(&self) -> i128
        ensures { result ≡ pos self.now.degree }
    {
        self.degree as i128
    }

    /// Tells whether the row holds at a point, which has variable v at place v - 1.
    pub fn holds(&self, point: &[bool]) -> bool
        requires { All (λ t. IsCovered (length point.now) t.lit.var) self.now.terms }
        ensures value { result ≡ holds (point_of point.now) self.now }
        ensures opposite { HoldsElsewhere self.now (opposite_row self.now) }
    {
        self.degree <= true_total(&self.terms, point)
    }

    /// The sum of the coefficients of the literals that aren't false, less the degree: below 0 the row can't hold any more.
    /// Variable v has its value at place v - 1.
    pub fn slack(&self, values: &[Value]) -> i128
        requires { All (λ t. IsCovered (length values.now) t.lit.var) self.now.terms }
        ensures { result ≡ slack (literals_of values.now) self.now }
    {
        nonfalse_total(&self.terms, values) as i128 - self.degree as i128
    }

    /// Multiplies all numbers by k.
    pub fn times(&mut self, k: i128) -> Result<(), TooBig>
        requires { IsPositive k }
        ensures ok { OnOk result (self.new ≡ times (positive_part k) self.old) }
        ensures err { OnErr result (self.new ≡ self.old) }
        ensures fits { IsOk result ↔ Fits (times (positive_part k) self.old) }
        ensures sound { OnOk result (HoldsAfter self.old self.new) }
    {
        let factor = number_of(k);
        if !can_multiply(&self.terms, self.degree, factor) {
            return Err(TooBig);
        }
        scale(&mut self.terms, factor);
        self.degree *= factor;
        Ok(())
    }

    /// Divides all numbers by k, each rounded up.
    pub fn divide(&mut self, k: i128)
        requires { IsPositive k }
        ensures is { self.new ≡ divide (positive_part k) self.old }
        ensures sound { HoldsAfter self.old self.new }
    {
        let divisor = number_of(k);
        divide(&mut self.terms, divisor);
        self.degree = self.degree.div_ceil(divisor);
    }

    /// Lowers each coefficient to the degree. A row of degree 0 keeps no term.
    pub fn saturate(&mut self)
        ensures is { self.new ≡ saturate self.old }
        ensures sound { HoldsAfter self.old self.new }
    {
        if self.degree == 0 {
            self.terms.clear();
        } else {
            cap(&mut self.terms, self.degree);
        }
    }

    /// Drops the term of a variable, and takes its coefficient from the degree, not below 0. Nothing happens where the
    /// variable doesn't occur.
    pub fn weaken(&mut self, var: u32)
        ensures is { self.new ≡ weaken var self.old }
        ensures sound { HoldsAfter self.old self.new }
    {
        let gone = total_over(&self.terms, var);
        self.terms.retain(|t| t.lit.var != var);
        self.degree = self.degree.saturating_sub(gone);
    }

    /// Weakens by each of some variables that don't fall, in one pass over the terms and the variables.
    pub fn weaken_all(&mut self, alloc: Global, vars: &[u32]) -> Result<(), NoMemory>
        requires { IsNonDecreasing vars.now }
        ensures is { OnOk result (self.new ≡ weaken_all vars.now self.old) }
        ensures sound { OnOk result (HoldsAfter self.old self.new) }
        ensures err { OnErr result (self.new ≡ self.old) }
    {
        match without(alloc, &self.terms, vars) {
            Err(_) => Err(NoMemory),
            Ok(weakened) => {
                self.terms = weakened.terms;
                self.degree = self.degree.saturating_sub(weakened.gone);
                Ok(())
            }
        }
    }

    /// The same row again.
    pub fn copy(&self, alloc: Global) -> Result<Row, NoMemory>
        ensures { IfOk result (λ r. r ≡ self.now) }
    {
        let mut terms = Vec::new(alloc);
        match terms.extend_from_slice(&self.terms) {
            Ok(()) => Ok(Row {
                terms,
                degree: self.degree,
            }),
            Err(_) => Err(NoMemory),
        }
    }

    /// Adds a row, in time linear in the two lengths. That the sum doesn't fit is found before any memory is taken.
    pub fn add(&mut self, alloc: Global, other: &Row) -> Result<(), RowRefusal>
        ensures ok { OnOk result (self.new ≡ add self.old other.now) }
        ensures fits { OnOk result (Fits (add self.old other.now)) }
        ensures sound { OnOk result (HoldsWithBoth self.old other.now self.new) }
        ensures exact { OnOk result (AddsValues self.old other.now self.new) }
        ensures symmetric { OnOk result (self.new ≡ add other.now self.old) }
        ensures err { OnErr result (self.new ≡ self.old) }
        ensures too_big { IfErr result (λ e. (e ≡ RowRefusal.TooBig) ↔ (Fits (add self.old other.now) → ⊥)) }
    {
        if !can_add(self, other) {
            return Err(RowRefusal::TooBig);
        }
        match merge(alloc, &self.terms, &other.terms) {
            Err(_) => Err(RowRefusal::NoMemory),
            Ok(joined) => {
                self.terms = joined.terms;
                self.degree = (self.degree + other.degree).saturating_sub(joined.lost);
                Ok(())
            }
        }
    }
}
