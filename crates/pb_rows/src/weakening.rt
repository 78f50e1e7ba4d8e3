// Weakening by many variables in one pass.
ghost use Rattle.std.specs.Prelude.{◌≡◌, ◌≤◌, ◌^◌, [], ◌∷◌, IfOk, MatchOption};
ghost use Rattle.std.specs.List.Sorted.{IsNonDecreasing};
ghost use Rattle.pb_rows.specs.Terms.{IsRisingFrom, coef_sum};
ghost use Rattle.pb_rows.specs.Weakened.{IsWeakened};

use crate::join::next;
use crate::terms::weight_of;
use hrt_base::Term;
use std::alloc::{AllocError, Global};

/// The terms that weakening leaves, and the sum of the coefficients that are gone.
#[derive(Drop)]
pub(crate) struct Weakened {
    pub(crate) terms: Vec<Term>,
    pub(crate) gone: u128,
}

/// The first variable, and the rest.
fn next_variable<'a>(vars: &'a [u32]) -> Option<(u32, &'a [u32])>
    ensures { MatchOption result (vars.entry.now ≡ []) (λ r. vars.entry.now ≡ r.0 ∷ r.1.now) }
{
    match vars {
        [v, vs @ ..] => Some((*v, vs)),
        [] => None,
    }
}

/// Takes the terms over rising variables out of rising terms.
pub(crate) fn without(alloc: Global, terms: &[Term], vars: &[u32]) -> Result<Weakened, AllocError>
    requires rising { IsRisingFrom 0 terms.now }
    requires fits { coef_sum terms.now ≤ 2 ^ 120 }
    requires vars { IsNonDecreasing vars.now }
    ensures { IfOk result (IsWeakened vars.now terms.now) }
{
    let mut kept = Vec::with_capacity(alloc, terms.len())?;
    let mut gone = 0;
    let mut left = terms;
    let mut vars_left = vars;
    while let Some((t, ts)) = next(left) {
        match next_variable(vars_left) {
            Some((v, vs)) if v < t.lit.var => {
                vars_left = vs;
            }
            Some((v, _)) if v == t.lit.var => {
                gone += weight_of(t);
                left = ts;
            }
            _ => {
                kept.push(t)?;
                left = ts;
            }
        }
    }
    Ok(Weakened { terms: kept, gone })
}
