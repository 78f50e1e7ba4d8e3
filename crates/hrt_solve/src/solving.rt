// What a solve does without a search.
ghost use Rattle.std.specs.Prelude.{◌≡◌, IfOk, IsErrOf, OnErr, length};
ghost use Rattle.hrt_base.specs.Calls.{Rose};
ghost use Rattle.hrt_solve.specs.Gauged.{found_claim};
ghost use Rattle.hrt_solve.specs.Writing.{IsProof, IsQuickEnd, IsQuickText, IsSolvedQuickly, StopsWriting};

use crate::SolveEnd;
use crate::saving::save_both;
use crate::starting::{conclude_first, start};
use derivation::Derivation;
use hrt_base::{Begun, Host, NoMemory, Port, WriteEnd};
use rank_tables::Instance;
use stability_model::Model;
use std::alloc::Global;

// A proof of the bound and of the first matching, which was not sent yet.
fn quick_proof<'a>(alloc: Global, model: &Model<'a>) -> Result<(Derivation<'a>, SolveEnd), NoMemory>
    ensures said { IfOk result (λ made. IsQuickEnd model.now made.1) }
    ensures proof { IfOk result (λ made. IsProof model.now made.0.pending (found_claim made.1.ceiling (length made.1.pairs.items)) made.1.conflicts) }
{
    let mut deriv = Derivation::new(alloc, model)?;
    let started = start(alloc, model, &mut deriv)?;
    let end = conclude_first(alloc, model, started, &mut deriv)?;
    Ok((deriv, end))
}

/// Writes the instance's model on `Port::Model`, and then a proof on `Port::Proof` that no weakly stable matching has more
/// pairs than the ceiling and one has as many as the first matching. Both are sealed. After `Failed` and after `NoMemory` a
/// front of this was written.
pub fn quick<H: Host>(alloc: Global, inst: &Instance, host: &mut H) -> Result<SolveEnd, WriteEnd>
    requires model { (H.world host.old).begun Port.Model ≡ Begun.Writing }
    requires proof { (H.world host.old).begun Port.Proof ≡ Begun.Writing }
    ensures solved { IfOk result (λ end. IsSolvedQuickly H.told inst.now end (H.world host.old) (H.world host.new)) }
    ensures part { OnErr result (StopsWriting H.told (IsQuickText inst.now) inst.now (H.world host.old) (H.world host.new)) }
    ensures failed { IsErrOf result WriteEnd.Failed → Rose (H.world host.old).write_faults (H.world host.new).write_faults }
{
    let model = Model::of(alloc, inst)?;
    let (deriv, end) = quick_proof(alloc, &model)?;
    let mut deriv = deriv;
    save_both(alloc, &model, &mut deriv, host)?;
    Ok(end)
}
