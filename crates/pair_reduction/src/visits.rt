// Visits of a list: its passed pairs are deleted, and its free pairs are marked.
ghost use Rattle.std.specs.Prelude.{◌≡◌, ◌+◌, ◌++◌, ◌-◌, ◌<◌, ◌≤◌, ◌∷◌, [], ℕ, IfSome, List, OnOk, not, true};
ghost use Rattle.rank_tables.specs.Instance.{pair_count};
ghost use Rattle.rank_tables.specs.Tables.{IsPairNo};
ghost use Rattle.derivation.specs.Deletions.{deleted_count, is_deleted};
ghost use Rattle.pair_reduction.specs.Flags.{is_marked, is_waiting};
ghost use Rattle.pair_reduction.specs.Known.{ArePassed, Gains, IsKept, IsListSettled, Pays, marks_on, waiting_on};
ghost use Rattle.pair_reduction.specs.Offered.{AreOffers, ReducesBy, offers_left};
ghost use Rattle.pair_reduction.specs.Ranks.{AreRisingRanks};
ghost use Rattle.pair_reduction.specs.Reduced.{CanReduce, GoesOn, HasRoom, Reduces};
ghost use Rattle.pair_reduction.specs.Served.{FirstOf, IsDue, IsFirst, IsServed};
ghost use Rattle.pair_reduction.specs.Sides.{is_free, list_count, list_of, other, pairs_on};
ghost use Rattle.pair_reduction.specs.Visits.{TriesDelete, TriesMark};

use crate::deletions::{delete_by_rule, serve};
use crate::known::Known;
use crate::offered::Offers;
use crate::ranks::{are_within, ranks_left, ranks_marked};
use crate::sides::{Side, list_of, other, pairs_on, places, rank_on};
use derivation::{Deleted, Derivation};
use hrt_base::{NoMemory, PairNo};
use rank_tables::Instance;
use stability_model::Model;
use std::alloc::Global;

/// Of the first by rank so far of the pairs to be deleted, if there is one, and a pair w: the first by rank, where w is to be
/// deleted.
fn sooner(
    inst: &Instance,
    known: &Known,
    side: Side,
    marked: &[u32],
    first: Option<PairNo>,
    w: PairNo,
) -> Option<PairNo>
    requires w { IsPairNo inst.now w.0 }
    requires first { IfSome first (λ p. IsPairNo inst.now p.0) }
    requires marked { AreRisingRanks side inst.now (is_marked (marks_on (other side) known.now)) (pairs_on side inst.now (list_of side inst.now w.0)) marked.now }
    ensures { (ps : List ℕ) → FirstOf side inst.now known.now (list_of side inst.now w.0) ps first → FirstOf side inst.now known.now (list_of side inst.now w.0) (ps ++ w.0 ∷ []) result }
{
    let most = places(inst, side, list_of(inst, side, w));
    let rank = rank_on(inst, side, w);
    if known.gone.is_gone(w) {
        return first;
    }
    if !are_within(marked, most, rank - 1) {
        return first;
    }
    let Some(p) = first else {
        return Some(w);
    };
    if rank_on(inst, side, p) <= rank {
        return Some(p);
    }
    Some(w)
}

/// The first by rank of the pairs of a list that are to be deleted.
fn first_due(inst: &Instance, known: &Known, side: Side, ranks: &[u32], n: u32) -> Option<PairNo>
    requires n { n < list_count side inst.now }
    requires ranks { AreRisingRanks side inst.now (is_marked (marks_on (other side) known.now)) (pairs_on side inst.now n) ranks.now }
    ensures { FirstOf side inst.now known.now n (pairs_on side inst.now n) result }
{
    let pairs = pairs_on(inst, side, n);
    let mut first: Option<PairNo> = None;
    for w in pairs {
        first = sooner(inst, known, side, ranks, first, *w);
    }
    first
}

/// Deletes a pair if the marked pairs of its list pass it. Its list on the other side waits then.
fn delete_if_passed(
    alloc: Global,
    model: &Model,
    deriv: &mut Derivation,
    known: &mut Known,
    side: Side,
    ranks: &[u32],
    w: PairNo,
) -> Result<(), NoMemory>
    requires can { CanReduce model.now deriv.old known.old.gone }
    requires kept { IsKept model.now known.old }
    requires w { IsPairNo model.now w.0 }
    requires visited { is_waiting (waiting_on side known.old) (list_of side model.now w.0) ≡ true }
    requires ranks { AreRisingRanks side model.now (is_marked (marks_on (other side) known.old)) (pairs_on side model.now (list_of side model.now w.0)) ranks.now }
    requires served { IsDue side model.now known.old (list_of side model.now w.0) w.0 → IsServed side model.now deriv.old.state.live w.0 }
    requires room { HasRoom 0 model.now deriv.old known.old.gone }
    ensures reduces { OnOk result (Reduces model.now deriv.old deriv.new known.old.gone known.new.gone []) }
    ensures tried { OnOk result (TriesDelete side model.now known.old known.new w.0) }
    ensures goes_on { GoesOn deriv.old deriv.new }
    ensures few { deriv.new.state.next ≤ deriv.old.state.next + (pair_count model.now - deleted_count known.old.gone) }
{
    let inst = model.instance();
    let most = places(inst, side, list_of(inst, side, w));
    let rank = rank_on(inst, side, w);
    if known.gone.is_gone(w) {
        return Ok(());
    }
    if !are_within(ranks, most, rank - 1) {
        return Ok(());
    }
    let across = other(side);
    let list = list_of(inst, across, w);
    known.wait(across, list)?;
    delete_by_rule(alloc, model, deriv, &mut known.gone, side, w)?;
    Ok(())
}

/// Deletes the passed pairs of the list of the first of them.
fn delete_each_passed(
    alloc: Global,
    model: &Model,
    deriv: &mut Derivation,
    known: &mut Known,
    side: Side,
    ranks: &[u32],
    first: PairNo,
) -> Result<(), NoMemory>
    requires can { CanReduce model.now deriv.old known.old.gone }
    requires kept { IsKept model.now known.old }
    requires first { IsFirst side model.now known.old (list_of side model.now first.0) (pairs_on side model.now (list_of side model.now first.0)) first.0 }
    requires visited { is_waiting (waiting_on side known.old) (list_of side model.now first.0) ≡ true }
    requires ranks { AreRisingRanks side model.now (is_marked (marks_on (other side) known.old)) (pairs_on side model.now (list_of side model.now first.0)) ranks.now }
    requires served { IsServed side model.now deriv.old.state.live first.0 }
    requires room { HasRoom 0 model.now deriv.old known.old.gone }
    ensures reduces { OnOk result (Reduces model.now deriv.old deriv.new known.old.gone known.new.gone []) }
    ensures kept { OnOk result (IsKept model.now known.new) }
    ensures rests { OnOk result (waiting_on side known.new ≡ waiting_on side known.old) }
    ensures pays { OnOk result (Pays known.old known.new) }
    ensures passed { OnOk result (ArePassed side model.now known.new (list_of side model.now first.0)) }
    ensures goes_on { GoesOn deriv.old deriv.new }
    ensures few { deriv.new.state.next ≤ deriv.old.state.next + (pair_count model.now - deleted_count known.old.gone) }
{
    let inst = model.instance();
    let pairs = pairs_on(inst, side, list_of(inst, side, first));
    for w in pairs {
        delete_if_passed(alloc, model, deriv, known, side, ranks, *w)?;
    }
    Ok(())
}

/// Deletes the passed pairs of a list, by offers that are made once for all of them, if they weren't made before.
fn delete_all_passed(
    alloc: Global,
    model: &Model,
    deriv: &mut Derivation,
    known: &mut Known,
    offers: &mut Offers,
    side: Side,
    n: u32,
) -> Result<(), NoMemory>
    requires can { CanReduce model.now deriv.old known.old.gone }
    requires kept { IsKept model.now known.old }
    requires offers { AreOffers model.now deriv.old.state.live offers.old }
    requires n { n < list_count side model.now }
    requires waits { is_waiting (waiting_on side known.old) n ≡ true }
    requires room { HasRoom (offers_left model.now offers.old) model.now deriv.old known.old.gone }
    ensures reduces { OnOk result (ReducesBy model.now deriv.old deriv.new known.old.gone known.new.gone offers.old offers.new) }
    ensures kept { OnOk result (IsKept model.now known.new) }
    ensures waits { OnOk result (is_waiting (waiting_on side known.new) n ≡ true) }
    ensures pays { OnOk result (Pays known.old known.new) }
    ensures passed { OnOk result (ArePassed side model.now known.new n) }
    ensures goes_on { GoesOn deriv.old deriv.new }
    ensures few { deriv.new.state.next ≤ deriv.old.state.next + (pair_count model.now - deleted_count known.old.gone) + offers_left model.now offers.old }
{
    let inst = model.instance();
    let ranks = ranks_marked(alloc, inst, side, n, known.marks(other(side)))?;
    let Some(first) = first_due(inst, known, side, &ranks, n) else {
        return Ok(());
    };
    serve(alloc, model, deriv, known, offers, side, first)?;
    delete_each_passed(alloc, model, deriv, known, side, &ranks, first)?;
    Ok(())
}

/// Tells whether a pair is free, by the ranks of its list's pairs that aren't gone.
fn is_free(inst: &Instance, side: Side, gone: &Deleted, ranks: &[u32], p: PairNo) -> bool
    requires p { IsPairNo inst.now p.0 }
    requires ranks { AreRisingRanks side inst.now (λ q. not (is_deleted gone.now q)) (pairs_on side inst.now (list_of side inst.now p.0)) ranks.now }
    ensures { result ≡ is_free side inst.now (is_deleted gone.now) p.0 }
{
    let most = places(inst, side, list_of(inst, side, p));
    let rank = rank_on(inst, side, p);
    if gone.is_gone(p) {
        return !are_within(ranks, most, rank);
    }
    !are_within(ranks, most + 1, rank)
}

/// Marks a pair if it is free. Its list on the other side waits then.
fn mark_if_free(
    inst: &Instance,
    known: &mut Known,
    side: Side,
    ranks: &[u32],
    p: PairNo,
) -> Result<(), NoMemory>
    requires kept { IsKept inst.now known.old }
    requires p { IsPairNo inst.now p.0 }
    requires ranks { AreRisingRanks side inst.now (λ q. not (is_deleted known.old.gone q)) (pairs_on side inst.now (list_of side inst.now p.0)) ranks.now }
    ensures { OnOk result (TriesMark side inst.now known.old known.new p.0) }
{
    if known.is_marked(side, p) {
        return Ok(());
    }
    if !is_free(inst, side, &known.gone, ranks, p) {
        return Ok(());
    }
    known.mark(inst, side, p)?;
    Ok(())
}

/// Marks the free pairs of a list.
fn mark_all_free(
    alloc: Global,
    inst: &Instance,
    known: &mut Known,
    side: Side,
    n: u32,
) -> Result<(), NoMemory>
    requires kept { IsKept inst.now known.old }
    requires n { n < list_count side inst.now }
    requires waits { is_waiting (waiting_on side known.old) n ≡ true }
    requires passed { ArePassed side inst.now known.old n }
    ensures gone { OnOk result (known.new.gone ≡ known.old.gone) }
    ensures kept { OnOk result (IsKept inst.now known.new) }
    ensures waits { OnOk result (is_waiting (waiting_on side known.new) n ≡ true) }
    ensures pays { OnOk result (Pays known.old known.new) }
    ensures settled { OnOk result (IsListSettled side inst.now known.new n) }
{
    let ranks = ranks_left(alloc, inst, side, n, &known.gone)?;
    let pairs = pairs_on(inst, side, n);
    for p in pairs {
        mark_if_free(inst, known, side, &ranks, *p)?;
    }
    Ok(())
}

/// Visits a list that waits: deletes its passed pairs and marks its free ones. It waits no more.
pub(crate) fn visit(
    alloc: Global,
    model: &Model,
    deriv: &mut Derivation,
    known: &mut Known,
    offers: &mut Offers,
    side: Side,
    n: u32,
) -> Result<(), NoMemory>
    requires can { CanReduce model.now deriv.old known.old.gone }
    requires kept { IsKept model.now known.old }
    requires offers { AreOffers model.now deriv.old.state.live offers.old }
    requires n { n < list_count side model.now }
    requires waits { is_waiting (waiting_on side known.old) n ≡ true }
    requires room { HasRoom (offers_left model.now offers.old) model.now deriv.old known.old.gone }
    ensures reduces { OnOk result (ReducesBy model.now deriv.old deriv.new known.old.gone known.new.gone offers.old offers.new) }
    ensures kept { OnOk result (IsKept model.now known.new) }
    ensures gains { OnOk result (Gains known.old known.new) }
    ensures goes_on { GoesOn deriv.old deriv.new }
    ensures few { deriv.new.state.next ≤ deriv.old.state.next + (pair_count model.now - deleted_count known.old.gone) + offers_left model.now offers.old }
{
    delete_all_passed(alloc, model, deriv, known, offers, side, n)?;
    mark_all_free(alloc, model.instance(), known, side, n)?;
    known.settle(side, n);
    Ok(())
}
