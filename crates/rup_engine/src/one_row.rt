// What one row propagates.
ghost use Rattle.std.specs.Prelude.{◌≡◌, ◌<◌, ◌≤◌, ◌+◌, ◌^◌, ◌↔◌, Contains, true, false, IsTrue, IsFalse, IfOk, OnOk, OnErr};
ghost use Rattle.std.specs.List.{All};
ghost use Rattle.pb_rows.specs.Terms.{IsPositive, coef_sum, positive_part};
ghost use Rattle.pb_rows.specs.Points.{IsCovered};
ghost use Rattle.pb_rows.specs.Closure.{among, nonfalse_share, nonfalse_sum};
ghost use Rattle.propagation.specs.Following.{Grows, IsOpenTerm, IsSettledAt};
ghost use Rattle.rup_engine.specs.Propagation.{AddsFollowing, IsSteady, TakesTerm};

use crate::trail::Trail;
use hrt_base::{NoMemory, Term};
use propagation::opposite;

/// The coefficient of a term.
pub fn weight_of(t: Term) -> u128
    requires { IsPositive t.coef }
    ensures value { result ≡ positive_part t.coef }
    ensures positive { 0 < result }
    ensures bound { result < 2 ^ 127 }
{
    t.coef as u128
}

/// The coefficient of a term that isn't false, or 0.
fn nonfalse_share(t: Term, trail: &Trail) -> u128
    requires positive { IsPositive t.coef }
    requires covered { IsCovered trail.now.vars t.lit.var }
    ensures { result ≡ nonfalse_share (among trail.now.literals) t }
{
    if trail.is_true(opposite(t.lit)) {
        0
    } else {
        weight_of(t)
    }
}

/// The sum of the coefficients of the literals that aren't false.
pub fn nonfalse_total(terms: &[Term], trail: &Trail) -> u128
    requires positive { All (λ t. IsPositive t.coef) terms.now }
    requires covered { All (λ t. IsCovered trail.now.vars t.lit.var) terms.now }
    requires fits { coef_sum terms.now ≤ 2 ^ 120 }
    ensures { result ≡ nonfalse_sum (among trail.now.literals) terms.now }
{
    let mut sum = 0;
    for t in terms {
        sum += nonfalse_share(*t, trail);
    }
    sum
}

/// Tells whether a term's literal is free and exceeds what the sum leaves.
fn is_open(t: Term, sum: u128, degree: u128, trail: &Trail) -> bool
    requires positive { IsPositive t.coef }
    requires covered { IsCovered trail.now.vars t.lit.var }
    requires degree { degree < 2 ^ 127 }
    ensures open { IsTrue result → IsOpenTerm (among trail.now.literals) sum degree t }
    ensures settled { IsFalse result → IsSettledAt (among trail.now.literals) sum degree t }
{
    sum < degree + weight_of(t) && !trail.is_true(t.lit) && !trail.is_true(opposite(t.lit))
}

/// Makes a term's literal true where it is open.
fn take_term(t: Term, sum: u128, degree: u128, trail: &mut Trail) -> Result<(), NoMemory>
    requires positive { IsPositive t.coef }
    requires covered { IsCovered trail.old.vars t.lit.var }
    requires degree { degree < 2 ^ 127 }
    ensures vars { trail.new.vars ≡ trail.old.vars }
    ensures ok { OnOk result (TakesTerm sum degree t trail.old.literals trail.new.literals) }
    ensures err { OnErr result (trail.new.literals ≡ trail.old.literals) }
{
    if is_open(t, sum, degree, trail) {
        return trail.push(t.lit);
    }
    Ok(())
}

/// Makes each open literal of some of a row's terms true.
pub fn propagate(
    part: &[Term],
    _terms: &[Term],
    sum: u128,
    degree: u128,
    trail: &mut Trail,
) -> Result<(), NoMemory>
    requires within { All (Contains _terms.now) part.now }
    requires positive { All (λ t. IsPositive t.coef) part.now }
    requires covered { All (λ t. IsCovered trail.old.vars t.lit.var) part.now }
    requires degree { degree < 2 ^ 127 }
    ensures vars { trail.new.vars ≡ trail.old.vars }
    ensures grows { Grows trail.old.literals trail.new.literals }
    ensures settled { OnOk result (All (IsSettledAt (among trail.new.literals) sum degree) part.now) }
    ensures sound { OnOk result (AddsFollowing (record { terms = _terms.now; degree = degree }) sum trail.old.literals trail.new.literals false) }
{
    for t in part {
        take_term(*t, sum, degree, trail)?;
    }
    Ok(())
}

/// Tells whether a row is falsified, or makes true what it propagates. The sum is at least that of its literals that aren't
/// false.
pub fn advance(terms: &[Term], sum: u128, degree: u128, trail: &mut Trail) -> Result<bool, NoMemory>
    requires positive { All (λ t. IsPositive t.coef) terms.now }
    requires covered { All (λ t. IsCovered trail.old.vars t.lit.var) terms.now }
    requires degree { degree < 2 ^ 127 }
    ensures vars { trail.new.vars ≡ trail.old.vars }
    ensures grows { Grows trail.old.literals trail.new.literals }
    ensures steady { IfOk result (λ falsified. IsFalse falsified → IsSteady (among trail.new.literals) sum (record { terms = terms.now; degree = degree })) }
    ensures sound { IfOk result (AddsFollowing (record { terms = terms.now; degree = degree }) sum trail.old.literals trail.new.literals) }
{
    if sum < degree {
        return Ok(true);
    }
    propagate(terms, terms, sum, degree, trail)?;
    Ok(false)
}
