// The upper bound: pairs are deleted, and the ceiling of those that are left is derived.
ghost use Rattle.std.specs.Prelude.{◌≡◌, ◌<◌, ◌≤◌, ◌^◌, [], IfOk, IsErrOf, OnErr, OnOk, None};
ghost use Rattle.hrt_base.specs.Calls.{Rose};
ghost use Rattle.rank_tables.specs.Instance.{pair_count};
ghost use Rattle.rank_tables.specs.WellFormed.{most_pairs};
ghost use Rattle.derivation.specs.Derived.{StandsFor};
ghost use Rattle.derivation.specs.Ready.{IsReady};
ghost use Rattle.derivation.specs.Steps.{first_derived};
ghost use Rattle.hrt_solve.specs.Gauged.{AreNumbersOf, IsGauged, IsMost, bound_claim};
ghost use Rattle.hrt_solve.specs.Lawful.{IsLawfulWith};
ghost use Rattle.hrt_solve.specs.Started.{HoldsBeside, bound_numbers};
ghost use Rattle.hrt_solve.specs.Writing.{IsBoundText, IsBounded, IsProof, StopsWriting};

use crate::BoundEnd;
use crate::claims::conclude;
use crate::saving::save_both;
use capacity_bound::{ceiling, derive_bound};
use derivation::{Deleted, Derivation};
use hrt_base::{Begun, Host, NoMemory, Port, RowNo, WriteEnd};
use pair_reduction::reduce;
use proof_lines::Claim;
use rank_tables::Instance;
use stability_model::Model;
use std::alloc::Global;

/// What was found before a matching is looked for.
#[derive(Drop)]
pub(crate) struct Gauged {
    /// The deleted pairs, with their rows.
    pub gone: Deleted,
    pub end: BoundEnd,
    /// The row that says that no matching is larger than the ceiling; none where there is no pair.
    pub row: Option<RowNo>,
}

/// Deletes pairs and derives the bound, in a new derivation.
pub(crate) fn gauge(
    alloc: Global,
    inst: &Instance,
    model: &Model,
    deriv: &mut Derivation,
) -> Result<Gauged, NoMemory>
    requires model { model.now ≡ inst.now }
    requires first { deriv.old ≡ first_derived inst.now }
    requires ready { IsReady deriv.old }
    requires stands { StandsFor [] deriv.old }
    ensures numbers { IfOk result (λ gauged. AreNumbersOf inst.now gauged.end.deleted gauged.end.ceiling) }
    ensures most { IfOk result (λ gauged. IsMost inst.now gauged.end.ceiling) }
    ensures few { IfOk result (λ gauged. gauged.end.ceiling ≤ pair_count inst.now) }
    ensures small { IfOk result (λ gauged. gauged.end.ceiling ≤ most_pairs) }
    ensures gauged { IfOk result (λ gauged. IsGauged inst.now gauged.end.ceiling gauged.row deriv.new) }
    ensures lawful { IfOk result (λ gauged. IsLawfulWith inst.now gauged.row deriv.new) }
    ensures holds { IfOk result (λ gauged. HoldsBeside gauged.gone (bound_numbers gauged.row) deriv.new) }
    ensures least { OnOk result (deriv.new.state.least ≡ None) }
    ensures next { OnOk result (deriv.new.state.next < 10 ^ 17) }
{
    // For what their contracts say: pairs and rows are few, and the live rows are in order.
    let _pairs = inst.pairs();
    let _rows = model.row_count();
    let gone = reduce(alloc, inst, model, deriv)?;
    let _next = deriv.next();
    let row = derive_bound(alloc, inst, model, &gone, deriv)?;
    let end = BoundEnd {
        deleted: gone.count(),
        ceiling: ceiling(inst, &gone),
    };
    Ok(Gauged { gone, end, row })
}

// That no matching is larger than the ceiling.
fn bound_claim(ceiling: u32) -> Claim
    ensures { result ≡ bound_claim ceiling }
{
    Claim::Bounds {
        lower: Some(-i128::from(ceiling)),
        upper: None,
    }
}

// A proof of the bound, which was not sent yet.
fn bound_proof<'a>(alloc: Global, model: &Model<'a>) -> Result<(Derivation<'a>, BoundEnd), NoMemory>
    ensures numbers { IfOk result (λ made. AreNumbersOf model.now made.1.deleted made.1.ceiling) }
    ensures most { IfOk result (λ made. IsMost model.now made.1.ceiling) }
    ensures proof { IfOk result (λ made. IsProof model.now made.0.pending (bound_claim made.1.ceiling) 0) }
{
    let mut deriv = Derivation::new(alloc, model)?;
    let gauged = gauge(alloc, model.instance(), model, &mut deriv)?;
    conclude(alloc, model, bound_claim(gauged.end.ceiling), &mut deriv)?;
    Ok((deriv, gauged.end))
}

/// Writes the instance's model on `Port::Model`, and then a proof on `Port::Proof` that no weakly stable matching has more
/// pairs than the ceiling. Both are sealed. After `Failed` and after `NoMemory` a front of this was written.
pub fn bound<H: Host>(alloc: Global, inst: &Instance, host: &mut H) -> Result<BoundEnd, WriteEnd>
    requires model { (H.world host.old).begun Port.Model ≡ Begun.Writing }
    requires proof { (H.world host.old).begun Port.Proof ≡ Begun.Writing }
    ensures bounded { IfOk result (λ end. IsBounded H.told inst.now end (H.world host.old) (H.world host.new)) }
    ensures part { OnErr result (StopsWriting H.told (IsBoundText inst.now) inst.now (H.world host.old) (H.world host.new)) }
    ensures failed { IsErrOf result WriteEnd.Failed → Rose (H.world host.old).write_faults (H.world host.new).write_faults }
{
    let model = Model::of(alloc, inst)?;
    let (deriv, end) = bound_proof(alloc, &model)?;
    let mut deriv = deriv;
    save_both(alloc, &model, &mut deriv, host)?;
    Ok(end)
}
