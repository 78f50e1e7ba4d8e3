// Offers: for a resident that has nothing else left than a pair, the row that this pair is taken where its hospital takes one
// that it ranks lower.
ghost use Rattle.std.specs.Prelude.{◌≡◌, ◌+◌, ◌<◌, ◌≤◌, ◌++◌, ◌^◌, IfOk, OnErr, OnOk, length, pos, true};
ghost use Rattle.rank_tables.specs.Instance.{capacity_of, pair_at, rising_pairs_of_hospital};
ghost use Rattle.rank_tables.specs.Tables.{IsPairNo};
ghost use Rattle.stability_model.specs.Gone.{has_only};
ghost use Rattle.proof_lines.specs.Texts.{line_text};
ghost use Rattle.proof_rules.specs.States.{IsInOrder};
ghost use Rattle.derivation.specs.Deletions.{AreUnitRows, is_deleted};
ghost use Rattle.derivation.specs.Derived.{StaysValid};
ghost use Rattle.derivation.specs.Pieces.{TakesLine};
ghost use Rattle.derivation.specs.Ready.{IsReady};
ghost use Rattle.derivation.specs.Steps.{with_new_row};
ghost use Rattle.pair_reduction.specs.Flags.{is_marked};
ghost use Rattle.pair_reduction.specs.Known.{IsKept};
ghost use Rattle.pair_reduction.specs.Offered.{AreOffers, ReducesBy, is_offering, offers_left};
ghost use Rattle.pair_reduction.specs.Offers.{before_steps, offer_row, offer_steps, row_steps, unit_steps};
ghost use Rattle.pair_reduction.specs.Reduced.{CanReduce, GoesOn, HasOffers};
ghost use Rattle.pair_reduction.specs.Sides.{is_passed};

use crate::known::Known;
use crate::offered::Offers;
use crate::sides::Side;
use derivation::{Deleted, Derivation};
use hrt_base::{NoMemory, PairNo, RowNo};
use proof_lines::{Line, PolStep};
use rank_tables::Instance;
use stability_model::Model;
use std::alloc::Global;

/// Adds the posts times the unit row of a pair, if it has one.
fn push_unit(steps: &mut Vec<PolStep>, unit: Option<RowNo>, posts: u32) -> Result<(), NoMemory>
    ensures { OnOk result (steps.new.items ≡ steps.old.items ++ unit_steps posts unit) }
{
    let Some(id) = unit else {
        return Ok(());
    };
    steps.push(PolStep::Id(id))?;
    steps.push(PolStep::Times(i128::from(posts)))?;
    steps.push(PolStep::Add)?;
    Ok(())
}

/// Adds a row of the model.
fn push_row(steps: &mut Vec<PolStep>, number: Option<u32>) -> Result<(), NoMemory>
    ensures { OnOk result (steps.new.items ≡ steps.old.items ++ row_steps number) }
{
    let Some(k) = number else {
        return Ok(());
    };
    steps.push(PolStep::Id(RowNo(u64::from(k))))?;
    steps.push(PolStep::Add)?;
    Ok(())
}

/// Adds the unit row of another pair of the resident of q, as often as there are posts, if it is deleted and ranked at least
/// as high as q.
fn push_before(
    steps: &mut Vec<PolStep>,
    inst: &Instance,
    gone: &Deleted,
    q: PairNo,
    o: PairNo,
) -> Result<(), NoMemory>
    requires q { IsPairNo inst.now q.0 }
    requires o { IsPairNo inst.now o.0 }
    ensures { OnOk result (steps.new.items ≡ steps.old.items ++ before_steps inst.now gone.now q.0 o.0) }
{
    if o.0 == q.0 || inst.rank_by_resident(o) > inst.rank_by_resident(q) {
        return Ok(());
    }
    let posts = inst.capacity(inst.hospital_of(q));
    push_unit(steps, gone.unit_row(o), posts)
}

/// The steps of an offer's line.
fn offer_steps(
    alloc: Global,
    model: &Model,
    gone: &Deleted,
    q: PairNo,
) -> Result<Vec<PolStep>, NoMemory>
    requires { IsPairNo model.now q.0 }
    ensures { IfOk result (λ steps. steps.items ≡ offer_steps model.now gone.now q.0) }
{
    let inst = model.instance();
    let mut steps = Vec::new(alloc);
    steps.push(PolStep::Id(RowNo(u64::from(model.pair_row(q)))))?;
    let pairs = inst.pairs_of_resident(inst.resident_of(q));
    for o in pairs {
        push_before(&mut steps, inst, gone, q, *o)?;
    }
    push_row(&mut steps, model.hospital_row(inst.hospital_of(q)))?;
    Ok(steps)
}

/// Makes the row of an offer.
pub(crate) fn offer(
    alloc: Global,
    model: &Model,
    deriv: &mut Derivation,
    gone: &Deleted,
    q: PairNo,
) -> Result<RowNo, NoMemory>
    requires model { model.now ≡ deriv.old.lists }
    requires ready { IsReady deriv.old }
    requires units { AreUnitRows deriv.old.state.live gone.now }
    requires q { IsPairNo model.now q.0 }
    requires only { has_only model.now (is_deleted gone.now) q.0 ≡ true }
    requires posts { 0 < capacity_of model.now (pair_at model.now q.0).hospital }
    requires few { capacity_of model.now (pair_at model.now q.0).hospital ≤ length (rising_pairs_of_hospital model.now (pair_at model.now q.0).hospital) }
    requires next { deriv.old.state.next < 10 ^ 18 }
    ensures id { IfOk result (λ id. id.0 ≡ deriv.old.state.next) }
    ensures made { OnOk result (deriv.new ≡ with_new_row (offer_row model.now q.0) (line_text (Line.Pol (offer_steps model.now gone.now q.0))) deriv.old) }
    ensures takes { OnOk result (TakesLine (Line.Pol (offer_steps model.now gone.now q.0)) deriv.old deriv.new) }
    ensures err { OnErr result (deriv.new ≡ deriv.old) }
    ensures valid { StaysValid deriv.old deriv.new }
    ensures order { IsInOrder deriv.old.state }
{
    let inst = model.instance();
    let hospital = inst.hospital_of(q);
    // For what their contracts say: these numbers are small, and the live rows are in order.
    let _limits = (inst.pairs(), inst.residents(), inst.capacity(hospital));
    let _numbers = (model.pair_row(q), deriv.next());
    let steps = offer_steps(alloc, model, gone, q)?;
    let id = deriv.pol_that_fits(alloc, model, &steps)?;
    Ok(id)
}

/// Makes the offer of a pair, if it wasn't made.
fn offer_once(
    alloc: Global,
    model: &Model,
    deriv: &mut Derivation,
    gone: &Deleted,
    offers: &mut Offers,
    q: PairNo,
) -> Result<(), NoMemory>
    requires can { CanReduce model.now deriv.old gone.now }
    requires offers { AreOffers model.now deriv.old.state.live offers.old }
    requires q { IsPairNo model.now q.0 }
    requires only { has_only model.now (is_deleted gone.now) q.0 ≡ true }
    requires posts { 0 < capacity_of model.now (pair_at model.now q.0).hospital }
    requires few { capacity_of model.now (pair_at model.now q.0).hospital ≤ length (rising_pairs_of_hospital model.now (pair_at model.now q.0).hospital) }
    requires next { deriv.old.state.next + offers_left model.now offers.old ≤ 10 ^ 18 }
    ensures reduces { OnOk result (ReducesBy model.now deriv.old deriv.new gone.now gone.now offers.old offers.new) }
    ensures offered { OnOk result (is_marked offers.new.offered.items q.0 ≡ true) }
    ensures goes_on { GoesOn deriv.old deriv.new }
    ensures next { deriv.new.state.next ≤ deriv.old.state.next + offers_left model.now offers.old }
{
    if offers.is_offered(q) {
        return Ok(());
    }
    let id = offer(alloc, model, deriv, gone, q)?;
    offers.add(q, id)?;
    Ok(())
}

/// Tells whether a pair is marked and the hospital of p strictly prefers it to p.
fn is_offering(inst: &Instance, known: &Known, p: PairNo, q: PairNo) -> bool
    requires kept { IsKept inst.now known.now }
    requires p { IsPairNo inst.now p.0 }
    requires q { IsPairNo inst.now q.0 }
    ensures { result ≡ is_offering inst.now known.now.only.items p.0 q.0 }
{
    inst.rank_by_hospital(q) < inst.rank_by_hospital(p) && known.is_marked(Side::Resident, q)
}

/// Makes as many offers to the hospital of p as it has posts, of marked pairs that it strictly prefers. Those that were made before
/// count.
pub(crate) fn make_offers(
    alloc: Global,
    model: &Model,
    deriv: &mut Derivation,
    known: &Known,
    offers: &mut Offers,
    p: PairNo,
) -> Result<(), NoMemory>
    requires can { CanReduce model.now deriv.old known.now.gone }
    requires kept { IsKept model.now known.now }
    requires offers { AreOffers model.now deriv.old.state.live offers.old }
    requires p { IsPairNo model.now p.0 }
    requires rule { is_passed Side.Hospital model.now (is_marked known.now.only.items) p.0 ≡ true }
    requires next { deriv.old.state.next + offers_left model.now offers.old ≤ 10 ^ 18 }
    ensures reduces { OnOk result (ReducesBy model.now deriv.old deriv.new known.now.gone known.now.gone offers.old offers.new) }
    ensures offers { OnOk result (HasOffers model.now p.0 deriv.new.state.live) }
    ensures goes_on { GoesOn deriv.old deriv.new }
    ensures next { deriv.new.state.next ≤ deriv.old.state.next + offers_left model.now offers.old }
{
    let inst = model.instance();
    let hospital = inst.hospital_of(p);
    let posts = inst.capacity(hospital);
    let mut found = 0u32;
    let pairs = inst.pairs_of_hospital(hospital);
    for q in pairs {
        if found >= posts {
            return Ok(());
        }
        if is_offering(inst, known, p, *q) {
            offer_once(alloc, model, deriv, &known.gone, offers, *q)?;
            found += 1;
        }
    }
    Ok(())
}
