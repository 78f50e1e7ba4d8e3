// Pairs that a rule shows are deleted.
ghost use Rattle.std.specs.Prelude.{◌≡◌, ◌≤◌, ◌+◌, ◌<◌, ◌^◌, [], OnErr, OnOk, length, true, false};
ghost use Rattle.rank_tables.specs.Tables.{IsPairNo};
ghost use Rattle.derivation.specs.Deletions.{is_deleted};
ghost use Rattle.derivation.specs.Ready.{IsReady};
ghost use Rattle.pair_reduction.specs.Flags.{is_marked};
ghost use Rattle.pair_reduction.specs.Known.{IsKept, IsOneMore, marks_on};
ghost use Rattle.pair_reduction.specs.Offered.{AreOffers, ReducesBy, offers_left};
ghost use Rattle.pair_reduction.specs.Reduced.{CanForget, CanReduce, Forgets, GoesOn, Reduces};
ghost use Rattle.pair_reduction.specs.Served.{IsServed};
ghost use Rattle.pair_reduction.specs.Sides.{is_free, is_passed, other};

use crate::known::Known;
use crate::offered::Offers;
use crate::offers::make_offers;
use crate::sides::{Side, list_of};
use crate::units::delete;
use derivation::{Deleted, Derivation};
use hrt_base::{NoMemory, PairNo, RowNo};
use stability_model::Model;
use std::alloc::Global;

/// Makes the offers by which a pair, and what its list ranks as low, is deleted by the rule of a side. The rule of the
/// residents' side takes none.
pub(crate) fn serve(
    alloc: Global,
    model: &Model,
    deriv: &mut Derivation,
    known: &Known,
    offers: &mut Offers,
    side: Side,
    p: PairNo,
) -> Result<(), NoMemory>
    requires can { CanReduce model.now deriv.old known.now.gone }
    requires kept { IsKept model.now known.now }
    requires offers { AreOffers model.now deriv.old.state.live offers.old }
    requires p { IsPairNo model.now p.0 }
    requires rule { is_passed side model.now (is_marked (marks_on (other side) known.now)) p.0 ≡ true }
    requires next { deriv.old.state.next + offers_left model.now offers.old ≤ 10 ^ 18 }
    ensures reduces { OnOk result (ReducesBy model.now deriv.old deriv.new known.now.gone known.now.gone offers.old offers.new) }
    ensures served { OnOk result (IsServed side model.now deriv.new.state.live p.0) }
    ensures goes_on { GoesOn deriv.old deriv.new }
    ensures next { deriv.new.state.next ≤ deriv.old.state.next + offers_left model.now offers.old }
{
    match side {
        Side::Resident => Ok(()),
        Side::Hospital => {
            make_offers(alloc, model, deriv, known, offers, p)?;
            Ok(())
        }
    }
}

/// Deletes a pair by the rule of a side: one line and its note.
pub(crate) fn delete_by_rule(
    alloc: Global,
    model: &Model,
    deriv: &mut Derivation,
    gone: &mut Deleted,
    side: Side,
    w: PairNo,
) -> Result<(), NoMemory>
    requires can { CanReduce model.now deriv.old gone.old }
    requires w { IsPairNo model.now w.0 }
    requires absent { is_deleted gone.old w.0 ≡ false }
    requires rule { is_passed side model.now (is_free (other side) model.now (is_deleted gone.old)) w.0 ≡ true }
    requires served { IsServed side model.now deriv.old.state.live w.0 }
    requires next { deriv.old.state.next < 10 ^ 18 }
    ensures reduces { OnOk result (Reduces model.now deriv.old deriv.new gone.old gone.new []) }
    ensures more { OnOk result (IsOneMore gone.old gone.new w.0) }
    ensures goes_on { GoesOn deriv.old deriv.new }
    ensures one { deriv.new.state.next ≤ deriv.old.state.next + 1 }
{
    // For what their contracts say: the list is one of the side's, and the live rows are in order.
    let _list = list_of(model.instance(), side, w);
    let _next = deriv.next();
    delete(alloc, model, deriv, gone, w)?;
    Ok(())
}

/// Forgets rows that were made for a while. Where there is none, it writes no line.
pub(crate) fn forget(alloc: Global, deriv: &mut Derivation, ids: &[RowNo]) -> Result<(), NoMemory>
    requires ready { IsReady deriv.old }
    requires can { CanForget ids.now deriv.old }
    requires few { length ids.now ≤ 100000 }
    requires next { deriv.old.state.next ≤ 10 ^ 18 }
    ensures forgets { OnOk result (Forgets ids.now deriv.old deriv.new) }
    ensures same { OnErr result (deriv.new ≡ deriv.old) }
{
    if ids.is_empty() {
        return Ok(());
    }
    // For what its contract says: the live rows are in order.
    let _last = deriv.next();
    deriv.forget(alloc, ids)?;
    Ok(())
}
