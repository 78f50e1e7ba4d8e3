// What a solve does.
ghost use Rattle.std.specs.Prelude.{◌≡◌, ◌<◌, ◌≤◌, ◌^◌, IfOk, IsErrOf, OnErr, length};
ghost use Rattle.hrt_base.specs.Calls.{Rose};
ghost use Rattle.hrt_solve.specs.Claimed.{AreParts};
ghost use Rattle.hrt_solve.specs.Searched.{IsSolveEnd, IsSolveProof, IsSolveText, IsSolved};
ghost use Rattle.hrt_solve.specs.Started.{IsStarted};
ghost use Rattle.hrt_solve.specs.Writing.{StopsWriting};

use crate::SolveEnd;
use crate::claims::{conclude, solve_claim};
use crate::saving::save_both;
use crate::starting::{Started, conclude_first, start};
use derivation::Derivation;
use hrt_base::{Begun, Host, NoMemory, PairNo, Port, Steps, WriteEnd};
use pb_search::{Found, search};
use rank_tables::Instance;
use stability_model::Model;
use std::alloc::Global;
use std::marker::Brand;
use std::sync::ledger::{Blank, Ledger};

// The pairs that were found, and whether they are best.
fn parts(found: Found) -> (Vec<PairNo>, bool)
    ensures { AreParts found result.0.items result.1 }
{
    match found {
        Found::Best(pairs) => (pairs, true),
        Found::Bounded(pairs) => (pairs, false),
    }
}

// Searches for a matching that is larger than the first one, which is shorter than the ceiling, and ends the proof with what was found.
fn search_on<L: Ledger>(
    alloc: Global,
    model: &Model,
    started: Started,
    budget: u64,
    blank: Blank,
    deriv: &mut Derivation,
) -> Result<SolveEnd, NoMemory>
    requires name { blank.name ≡ L.name }
    requires parts { blank.parts ≡ L.parts }
    requires one { blank.parts ≡ 1 }
    requires budget { budget ≤ 10 ^ 12 }
    requires started { IsStarted model.now started deriv.old }
    requires shorter { started.size < started.gauged.end.ceiling }
    ensures said { IfOk result (λ end. IsSolveEnd model.now budget end) }
    ensures proof { IfOk result (λ end. IsSolveProof model.now budget end.ceiling (length end.pairs.items) end.conflicts end.best deriv.new.pending) }
{
    let Started {
        gauged,
        pairs: first,
        size,
        larger,
    } = started;
    let ceiling = gauged.end.ceiling;
    let Some(bound) = gauged.row else {
        unreachable!()
    };
    let mut steps = Steps::<L>::open(blank);
    let found = search(
        alloc,
        model.instance(),
        model,
        &gauged.gone,
        ceiling,
        bound,
        &first,
        larger,
        deriv,
        budget,
        &mut steps,
    )?;
    let (pairs, best) = parts(found);
    let conflicts = deriv.learned();
    let found_size = pairs.len() as u32;
    conclude(alloc, model, solve_claim(best, ceiling, found_size), deriv)?;
    Ok(SolveEnd {
        deleted: gauged.end.deleted,
        ceiling,
        first: size,
        conflicts,
        pairs,
        best,
    })
}

// Ends the proof with the first matching where that is as large as the ceiling, and else searches on.
fn finish(
    alloc: Global,
    model: &Model,
    started: Started,
    budget: u64,
    deriv: &mut Derivation,
) -> Result<SolveEnd, NoMemory>
    requires budget { budget ≤ 10 ^ 12 }
    requires started { IsStarted model.now started deriv.old }
    ensures said { IfOk result (λ end. IsSolveEnd model.now budget end) }
    ensures proof { IfOk result (λ end. IsSolveProof model.now budget end.ceiling (length end.pairs.items) end.conflicts end.best deriv.new.pending) }
{
    if started.size == started.gauged.end.ceiling {
        let end = conclude_first(alloc, model, started, deriv)?;
        return Ok(end);
    }
    let end = search_on::<Brand>(alloc, model, started, budget, Blank::new(1), deriv)?;
    Ok(end)
}

// A proof of a matching that is best or was found within the budget, which was not sent yet.
fn solve_proof<'a>(
    alloc: Global,
    model: &Model<'a>,
    budget: u64,
) -> Result<(Derivation<'a>, SolveEnd), NoMemory>
    requires { budget ≤ 10 ^ 12 }
    ensures said { IfOk result (λ made. IsSolveEnd model.now budget made.1) }
    ensures proof { IfOk result (λ made. IsSolveProof model.now budget made.1.ceiling (length made.1.pairs.items) made.1.conflicts made.1.best made.0.pending) }
{
    let mut deriv = Derivation::new(alloc, model)?;
    let started = start(alloc, model, &mut deriv)?;
    let end = finish(alloc, model, started, budget, &mut deriv)?;
    Ok((deriv, end))
}

/// Writes the instance's model on `Port::Model`, and then a proof on `Port::Proof` of a weakly stable matching that no other
/// is larger than, or, where as many rows were learned as the budget allows, of the largest that was found and of the ceiling. Both are
/// sealed. No search is entered where the first matching is as large as the ceiling. After `Failed` and after `NoMemory` a front of this
/// was written.
pub fn solve<H: Host>(
    alloc: Global,
    inst: &Instance,
    host: &mut H,
    budget: u64,
) -> Result<SolveEnd, WriteEnd>
    requires budget { budget ≤ 10 ^ 12 }
    requires model { (H.world host.old).begun Port.Model ≡ Begun.Writing }
    requires proof { (H.world host.old).begun Port.Proof ≡ Begun.Writing }
    ensures solved { IfOk result (λ end. IsSolved H.told inst.now budget end (H.world host.old) (H.world host.new)) }
    ensures part { OnErr result (StopsWriting H.told (IsSolveText inst.now budget) inst.now (H.world host.old) (H.world host.new)) }
    ensures failed { IsErrOf result WriteEnd.Failed → Rose (H.world host.old).write_faults (H.world host.new).write_faults }
{
    let model = Model::of(alloc, inst)?;
    let (deriv, end) = solve_proof(alloc, &model, budget)?;
    let mut deriv = deriv;
    save_both(alloc, &model, &mut deriv, host)?;
    Ok(end)
}
