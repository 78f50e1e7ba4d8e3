// Terms without signs.
ghost use Rattle.std.specs.Prelude.{◌≡◌, ◌<◌, ◌≤◌, ◌+◌, ◌^◌, ◌++◌, ◌↔◌, ◌+ℤ◌, pos, IfOk, IsTrue};
ghost use Rattle.std.specs.Int.RustNames.{unsigned_abs};
ghost use Rattle.pb_rows.specs.Terms.{opposite_lit, positive_part};
ghost use Rattle.pb_rows.specs.Normal.{all_sizes, sizes};
ghost use Rattle.pb_rows.specs.Joined.{is_negative, signless, signless_all, signless_lit, turned, turned_sum};

use crate::MOST;
use crate::join::push_rest;
use hrt_base::{Lit, Term};
use std::alloc::{AllocError, Global};

/// The size of a coefficient.
fn size_of(t: Term) -> u128
    ensures value { result ≡ unsigned_abs t.coef }
    ensures bound { result ≤ 2 ^ 127 }
{
    t.coef.unsigned_abs()
}

/// Tells whether a coefficient is negative.
fn is_negative(t: Term) -> bool
    ensures { result ≡ is_negative t.coef }
{
    t.coef < 0
}

/// The other literal of the variable.
fn opposite(lit: Lit) -> Lit
    ensures { result ≡ opposite_lit lit }
{
    Lit {
        var: lit.var,
        neg: !lit.neg,
    }
}

/// The literal of a term without its sign.
fn signless_lit(t: Term) -> Lit
    ensures { result ≡ signless_lit t }
{
    if is_negative(t) {
        opposite(t.lit)
    } else {
        t.lit
    }
}

/// What a change of sign adds to the other side.
fn turned(t: Term) -> u128
    ensures { result ≡ turned t }
{
    if is_negative(t) { size_of(t) } else { 0 }
}

/// Tells whether all sizes together are within the most that fits.
pub(crate) fn do_sizes_fit(terms: &[Term], at_least: i128) -> bool
    ensures { IsTrue result ↔ (all_sizes terms.now at_least ≤ 2 ^ 120) }
{
    let mut sum = at_least.unsigned_abs();
    for t in terms {
        if sum > MOST {
            return false;
        }
        sum += size_of(*t);
    }
    sum <= MOST
}

/// Appends a term without its sign, unless its coefficient is 0.
fn push_signless(terms: &mut Vec<Term>, t: Term) -> Result<(), AllocError>
    requires { unsigned_abs t.coef < 2 ^ 127 }
    ensures { IfOk result (λ _. terms.new.items ≡ terms.old.items ++ signless t) }
{
    push_rest(terms, size_of(t), signless_lit(t))
}

/// The terms without signs.
pub(crate) fn without_signs(alloc: Global, terms: &[Term]) -> Result<Vec<Term>, AllocError>
    requires { sizes terms.now ≤ 2 ^ 120 }
    ensures { IfOk result (λ v. v.items ≡ signless_all terms.now) }
{
    let mut positive = Vec::new(alloc);
    for t in terms {
        push_signless(&mut positive, *t)?;
    }
    Ok(positive)
}

/// What all changes of sign add to the other side.
pub(crate) fn turned_total(terms: &[Term]) -> u128
    requires { sizes terms.now ≤ 2 ^ 120 }
    ensures value { result ≡ turned_sum terms.now }
    ensures bound { result ≤ sizes terms.now }
{
    let mut sum = 0;
    for t in terms {
        sum += turned(*t);
    }
    sum
}

/// The sum of a number and what was turned, or 0.
pub(crate) fn or_zero(at_least: i128, turned: u128) -> u128
    requires { unsigned_abs at_least + turned ≤ 2 ^ 120 }
    ensures { result ≡ positive_part (at_least +ℤ pos turned) }
{
    if at_least < 0 {
        turned.saturating_sub(at_least.unsigned_abs())
    } else {
        at_least.unsigned_abs() + turned
    }
}
