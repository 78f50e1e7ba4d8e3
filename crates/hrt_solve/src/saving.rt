// A model and a proof of it, written and sealed.
ghost use Rattle.std.specs.Prelude.{◌≡◌, IsErrOf, OnErr, OnOk};
ghost use Rattle.hrt_base.specs.Calls.{Rose, SentFront};
ghost use Rattle.opb_text.specs.Spelling.{model_text};
ghost use Rattle.hrt_solve.specs.Writing.{SentBoth, SentInPart, SentWhole};

use derivation::Derivation;
use hrt_base::{Begun, Host, Port, WriteEnd};
use opb_text::write_model;
use stability_model::Model;
use std::alloc::Global;

// Writes the model and seals it.
fn save_model<H: Host>(alloc: Global, model: &Model, host: &mut H) -> Result<(), WriteEnd>
    requires { (H.world host.old).begun Port.Model ≡ Begun.Writing }
    ensures sent { OnOk result (SentWhole H.told Port.Model (model_text model.now) (H.world host.old) (H.world host.new)) }
    ensures part { OnErr result (SentFront H.told Port.Model (model_text model.now) (H.world host.old) (H.world host.new)) }
    ensures failed { IsErrOf result WriteEnd.Failed → Rose (H.world host.old).write_faults (H.world host.new).write_faults }
{
    write_model(alloc, model, host)?;
    host.seal(Port::Model)?;
    Ok(())
}

// Writes the proof and seals it.
#[tactic(auto, using(hrt_base::proofs::Fronts::part_front))]
fn save_proof<H: Host>(deriv: &mut Derivation, host: &mut H) -> Result<(), WriteEnd>
    requires { (H.world host.old).begun Port.Proof ≡ Begun.Writing }
    ensures sent { OnOk result (SentWhole H.told Port.Proof deriv.old.pending (H.world host.old) (H.world host.new)) }
    ensures part { OnErr result (SentFront H.told Port.Proof deriv.old.pending (H.world host.old) (H.world host.new)) }
    ensures failed { IsErrOf result WriteEnd.Failed → Rose (H.world host.old).write_faults (H.world host.new).write_faults }
{
    deriv.send(host)?;
    host.seal(Port::Proof)?;
    Ok(())
}

/// Writes the model and seals it, and then what is pending of the proof.
#[tactic(auto, using(crate::proofs::Sending::sent_both, crate::proofs::Sending::front_behind))]
pub(crate) fn save_both<H: Host>(
    alloc: Global,
    model: &Model,
    deriv: &mut Derivation,
    host: &mut H,
) -> Result<(), WriteEnd>
    requires model { (H.world host.old).begun Port.Model ≡ Begun.Writing }
    requires proof { (H.world host.old).begun Port.Proof ≡ Begun.Writing }
    ensures sent { OnOk result (SentBoth H.told model.now deriv.old.pending (H.world host.old) (H.world host.new)) }
    ensures part { OnErr result (SentInPart H.told model.now deriv.old.pending (H.world host.old) (H.world host.new)) }
    ensures failed { IsErrOf result WriteEnd.Failed → Rose (H.world host.old).write_faults (H.world host.new).write_faults }
{
    save_model(alloc, model, host)?;
    save_proof(deriv, host)?;
    Ok(())
}
