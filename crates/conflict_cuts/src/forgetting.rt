// Rows of an analysis that aren't learned.
ghost use Rattle.std.specs.Prelude.{◌≡◌, ◌<◌, ◌≤◌, ◌+◌, ◌-◌, ◌^◌, ℕ, IfOk, IsFalse, IsTrue, OnErr, OnOk, length};
ghost use Rattle.pb_rows.specs.Formula.{is_numbered};
ghost use Rattle.rank_tables.specs.Numbers.{is_in};
ghost use Rattle.stability_model.specs.Model.{rows};
ghost use Rattle.proof_rules.specs.Held.{is_held, row_numbers};
ghost use Rattle.proof_rules.specs.States.{IsInOrder};
ghost use Rattle.derivation.specs.Ready.{IsReady};
ghost use Rattle.conflict_cuts.specs.Forgetting.{AreBetween, CanForgetBetween, ForgetsBetween};

use derivation::Derivation;
use hrt_base::{NoMemory, RowNo};
use std::alloc::Global;

/// The row numbers from one on up to below another.
fn numbers_between(alloc: Global, first: u64, last: u64) -> Result<Vec<RowNo>, NoMemory>
    requires { first ≤ last }
    ensures { IfOk result (λ ids. AreBetween first last ids.items) }
{
    let mut ids = Vec::new(alloc);
    for n in first..last {
        ids.push(RowNo(n))?;
    }
    Ok(ids)
}

/// Forgets the rows with numbers from one on up to below another. Where there is none, it writes no line.
pub(crate) fn forget_between(
    alloc: Global,
    deriv: &mut Derivation,
    first: u64,
    last: u64,
) -> Result<(), NoMemory>
    requires ready { IsReady deriv.old }
    requires can { CanForgetBetween first last deriv.old }
    requires few { last ≤ first + 100000 }
    requires next { last ≤ 10 ^ 18 }
    ensures forgets { OnOk result (ForgetsBetween first last deriv.old deriv.new) }
    ensures same { OnErr result (deriv.new ≡ deriv.old) }
{
    if last <= first {
        return Ok(());
    }
    // For what its contract says: the live rows are in order.
    let _next = deriv.next();
    let ids = numbers_between(alloc, first, last)?;
    deriv.forget(alloc, &ids)?;
    Ok(())
}
