// A matching is logged in a derivation.
ghost use Rattle.std.specs.Prelude.{◌≡◌, ◌<◌, ◌≤◌, ◌^◌, All, IfOk, IsTrue, None, Some, length, replicate, false};
ghost use Rattle.pb_rows.specs.Formula.{row_of};
ghost use Rattle.rank_tables.specs.Stability.{is_weakly_stable};
ghost use Rattle.rank_tables.specs.Tables.{IsPairNo, numbers_of};
ghost use Rattle.derivation.specs.Derived.{StaysValid};
ghost use Rattle.matching_log.specs.Logged.{IsPointOf, Logs, larger_row};

use derivation::Derivation;
use hrt_base::{NoMemory, PairNo, RowNo};
use stability_model::Model;
use std::alloc::Global;

// No variable is true.
fn none_true(alloc: Global, vars: u32) -> Result<Vec<bool>, NoMemory>
    ensures { IfOk result (λ point. point.items ≡ replicate vars false) }
{
    let mut point = Vec::with_capacity(alloc, vars as usize)?;
    for _ in 0..vars {
        point.push(false)?;
    }
    Ok(point)
}

// The variables of these pairs are true.
fn point_of(alloc: Global, vars: u32, pairs: &[PairNo]) -> Result<Vec<bool>, NoMemory>
    requires { All (λ p. (1 ≤ p.0) × (p.0 ≤ vars)) pairs.now }
    ensures full { IfOk result (λ point. length point.items ≡ vars) }
    ensures is { IfOk result (λ point. IsPointOf vars pairs.now point.items) }
{
    let mut point = none_true(alloc, vars)?;
    for p in pairs {
        point[p.0 as usize - 1] = true;
    }
    Ok(point)
}

/// Logs a weakly stable matching.
pub fn log(
    alloc: Global,
    model: &Model,
    pairs: &[PairNo],
    deriv: &mut Derivation,
) -> Result<RowNo, NoMemory>
    requires same { model.now ≡ deriv.old.lists }
    requires unconcluded { deriv.old.claim ≡ None }
    requires next { deriv.old.state.next < 10 ^ 18 }
    requires numbers { All (λ p. IsPairNo deriv.old.lists p.0) pairs.now }
    requires stable { IsTrue (is_weakly_stable deriv.old.lists (numbers_of pairs.now)) }
    ensures logged { IfOk result (λ id. Logs (length pairs.now) id deriv.old deriv.new) }
    ensures larger { IfOk result (λ id. row_of id.0 deriv.new.state.live ≡ Some (larger_row deriv.new.lists (length pairs.now))) }
    ensures valid { StaysValid deriv.old deriv.new }
{
    // For what its contract says: the live rows are in order.
    let _next = deriv.next();
    let point = point_of(alloc, model.instance().pairs(), pairs)?;
    let id = deriv.solution(alloc, model, &point)?;
    Ok(id)
}
