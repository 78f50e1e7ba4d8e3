// Joining terms over one variable.
ghost use Rattle.std.specs.Prelude.{◌≡◌, ◌<◌, ◌≤◌, ◌+◌, ◌^◌, ◌++◌, IfOk, MatchOption, [], ◌∷◌};
ghost use Rattle.pb_rows.specs.Terms.{IsPositive, IsRisingFrom, coef_sum, positive_part};
ghost use Rattle.pb_rows.specs.Joined.{AreFrom, AreUpTo, IsJoinOf, IsSortedCopy, IsSortedFrom, MeetsTo, PutsTo, are_alike, lost_all, lost_between, met, remains};

use crate::terms::{weighing, weight_of};
use hrt_base::{Lit, Term};
use std::alloc::{AllocError, Global};

/// Joined terms, and what they lost.
#[derive(Drop)]
pub(crate) struct Joined {
    pub(crate) terms: Vec<Term>,
    pub(crate) lost: u128,
}

/// Tells whether two terms have one sign.
fn are_alike(t: Term, u: Term) -> bool
    ensures { result ≡ are_alike t u }
{
    t.lit.neg == u.lit.neg
}

/// Appends a term, unless its coefficient is 0.
pub(crate) fn push_rest(terms: &mut Vec<Term>, n: u128, lit: Lit) -> Result<(), AllocError>
    requires { n < 2 ^ 127 }
    ensures { IfOk result (λ _. terms.new.items ≡ terms.old.items ++ remains n lit) }
{
    if n != 0 {
        terms.push(weighing(n, lit))?;
    }
    Ok(())
}

/// What two terms over one variable lose.
fn lost_between(t: Term, u: Term) -> u128
    requires first { IsPositive t.coef }
    requires second { IsPositive u.coef }
    ensures { result ≡ lost_between t u }
{
    if are_alike(t, u) {
        0
    } else {
        weight_of(t).min(weight_of(u))
    }
}

/// Appends what two terms over one variable leave, and gives what they lose.
fn meet(terms: &mut Vec<Term>, t: Term, u: Term) -> Result<u128, AllocError>
    requires first { IsPositive t.coef }
    requires second { IsPositive u.coef }
    requires fits { positive_part t.coef + positive_part u.coef < 2 ^ 127 }
    ensures { IfOk result (MeetsTo t u terms.old.items terms.new.items) }
{
    let x = weight_of(t);
    let y = weight_of(u);
    if are_alike(t, u) {
        terms.push(weighing(x + y, u.lit))?;
    } else {
        push_rest(terms, y.saturating_sub(x), u.lit)?;
        push_rest(terms, x.saturating_sub(y), t.lit)?;
    }
    Ok(lost_between(t, u))
}

/// The first term, and the rest.
pub(crate) fn next<'a>(terms: &'a [Term]) -> Option<(Term, &'a [Term])>
    ensures { MatchOption result (terms.entry.now ≡ []) (λ r. terms.entry.now ≡ r.0 ∷ r.1.now) }
{
    match terms {
        [t, ts @ ..] => Some((*t, ts)),
        [] => None,
    }
}

/// What two rising lists lose where they meet.
pub(crate) fn loss(a: &[Term], b: &[Term]) -> u128
    requires a_rises { IsRisingFrom 0 a.now }
    requires b_rises { IsRisingFrom 0 b.now }
    requires a_fits { coef_sum a.now ≤ 2 ^ 120 }
    requires b_fits { coef_sum b.now ≤ 2 ^ 120 }
    ensures { result ≡ lost_all a.now b.now }
{
    let mut lost = 0;
    let mut left = a;
    let mut right = b;
    while let Some((u, us)) = next(right) {
        match next(left) {
            Some((t, ts)) if t.lit.var < u.lit.var => {
                left = ts;
            }
            Some((t, ts)) if t.lit.var == u.lit.var => {
                lost += lost_between(u, t);
                left = ts;
                right = us;
            }
            _ => {
                right = us;
            }
        }
    }
    lost
}

/// Joins two rising lists.
pub(crate) fn merge(alloc: Global, a: &[Term], b: &[Term]) -> Result<Joined, AllocError>
    requires a_rises { IsRisingFrom 0 a.now }
    requires b_rises { IsRisingFrom 0 b.now }
    requires a_fits { coef_sum a.now ≤ 2 ^ 120 }
    requires b_fits { coef_sum b.now ≤ 2 ^ 120 }
    ensures { IfOk result (IsJoinOf a.now b.now) }
{
    let mut terms = Vec::with_capacity(alloc, a.len() + b.len())?;
    let mut lost = 0;
    let mut left = a;
    let mut right = b;
    while let Some((u, us)) = next(right) {
        match next(left) {
            Some((t, ts)) if t.lit.var < u.lit.var => {
                terms.push(t)?;
                left = ts;
            }
            Some((t, ts)) if t.lit.var == u.lit.var => {
                lost += meet(&mut terms, u, t)?;
                left = ts;
                right = us;
            }
            _ => {
                terms.push(u)?;
                right = us;
            }
        }
    }
    terms.extend_from_slice(left)?;
    Ok(Joined { terms, lost })
}

/// Puts a term at the end of a rising list, or joins it to the last one, and gives what is lost.
fn put_last(terms: &mut Vec<Term>, t: Term) -> Result<u128, AllocError>
    requires rising { IsRisingFrom 0 terms.old.items }
    requires last { AreUpTo t.lit.var terms.old.items }
    requires positive { IsPositive t.coef }
    requires fits { coef_sum terms.old.items + positive_part t.coef ≤ 2 ^ 120 }
    ensures { IfOk result (PutsTo t terms.old.items terms.new.items) }
{
    match terms.pop() {
        None => {
            terms.push(t)?;
            Ok(0)
        }
        Some(u) => {
            if u.lit.var == t.lit.var {
                return meet(terms, t, u);
            }
            terms.push(u)?;
            terms.push(t)?;
            Ok(0)
        }
    }
}

/// Joins terms that come in order.
pub(crate) fn join_sorted(alloc: Global, sorted: &[Term]) -> Result<Joined, AllocError>
    requires sorted { IsSortedFrom 0 sorted.now }
    requires fits { coef_sum sorted.now ≤ 2 ^ 120 }
    ensures { IfOk result (IsJoinOf [] sorted.now) }
{
    let mut terms = Vec::with_capacity(alloc, sorted.len())?;
    let mut lost = 0;
    let mut left = sorted;
    while let Some((t, rest)) = next(left) {
        lost += put_last(&mut terms, t)?;
        left = rest;
    }
    Ok(Joined { terms, lost })
}

/// Sorts terms by their variables.
fn sort(terms: &mut Vec<Term>)
    requires { AreFrom 0 terms.old.items }
    ensures { IsSortedCopy terms.old.items terms.new.items }
{
    terms.sort_unstable_by_key(|t| t.lit.var);
}

/// Joins terms in any order.
pub(crate) fn join_all(alloc: Global, mut terms: Vec<Term>) -> Result<Joined, AllocError>
    requires from { AreFrom 0 terms.items }
    requires fits { coef_sum terms.items ≤ 2 ^ 120 }
    ensures { IfOk result (IsJoinOf [] terms.items) }
{
    sort(&mut terms);
    join_sorted(alloc, &terms)
}
