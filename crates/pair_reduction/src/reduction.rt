// The reduction: lists are visited until none waits, and the offers that were made for it are forgotten.
ghost use Rattle.std.specs.Prelude.{◌≡◌, ◌≤◌, ◌+◌, ◌*◌, ◌^◌, IfOk, OnOk, length};
ghost use Rattle.rank_tables.specs.Instance.{pair_count};
ghost use Rattle.stability_model.specs.Gone.{AreGone};
ghost use Rattle.derivation.specs.Deletions.{AreUnitRows, is_deleted};
ghost use Rattle.derivation.specs.Ready.{IsReady};
ghost use Rattle.pair_reduction.specs.Reduced.{AreInNone, GoesOn, HoldsUnits, KeepsLive, MakesFew};

use crate::deletions::forget;
use crate::known::Known;
use crate::offered::Offers;
use crate::visits::visit;
use derivation::{Deleted, Derivation};
use hrt_base::NoMemory;
use rank_tables::Instance;
use stability_model::Model;
use std::alloc::Global;

/// Deletes exactly the pairs of the least set that is closed under both rules (`gone`), each by a line that makes its unit row and
/// by a note of it. After want of memory the derivation may have more lines.
pub fn reduce(
    alloc: Global,
    inst: &Instance,
    model: &Model,
    deriv: &mut Derivation,
) -> Result<Deleted, NoMemory>
    requires inst { inst.now ≡ deriv.old.lists }
    requires model { model.now ≡ deriv.old.lists }
    requires ready { IsReady deriv.old }
    requires next { deriv.old.state.next + 20001 * pair_count deriv.old.lists ≤ 10 ^ 18 }
    ensures pairs { IfOk result (λ deleted. length deleted ≡ pair_count deriv.old.lists) }
    ensures gone { IfOk result (λ deleted. AreGone deriv.old.lists (is_deleted deleted)) }
    ensures in_none { IfOk result (AreInNone deriv.old.lists) }
    ensures units { IfOk result (AreUnitRows deriv.new.state.live) }
    ensures holds { IfOk result (HoldsUnits deriv.old deriv.new) }
    ensures kept { OnOk result (KeepsLive deriv.old deriv.new) }
    ensures ready { OnOk result (IsReady deriv.new) }
    ensures goes_on { GoesOn deriv.old deriv.new }
    ensures few { MakesFew (pair_count deriv.old.lists) deriv.old deriv.new }
{
    // For what its contract says: the live rows are in order.
    let _start = deriv.next();
    let mut known = Known::new(alloc, inst)?;
    let mut offers = Offers::new(alloc, inst.pairs())?;
    'visits: loop {
        let Some((side, n)) = known.next() else {
            forget(alloc, deriv, &offers.made)?;
            let Known { gone, .. } = known;
            return Ok(gone);
        };
        visit(alloc, model, deriv, &mut known, &mut offers, side, n)?;
    }
}
