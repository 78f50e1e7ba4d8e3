// Proofs from files.
ghost use Rattle.std.specs.Prelude.{◌≡◌, IfErr, IfOk, IsTrue};
ghost use Rattle.opb_text.specs.Limits.{IsWithinLimits};
ghost use Rattle.stability_model.specs.Model.{formula};
ghost use Rattle.proof_lines.specs.Spelling.{is_small_claim};
ghost use Rattle.proof_rules.specs.Texts.{Accepted};
ghost use Rattle.hrt_inputs.specs.Inputs.{BeginsAtMost, IsAt, KeepsPorts};
ghost use Rattle.hrt_inputs.specs.Proofs.{IsProofJudged, StopsProof};

use crate::Stop;
use hrt_base::{Begun, Host, Port};
use hrt_solve::{check, verify};
use opb_text::Formula;
use proof_lines::Claim;
use rank_tables::Instance;
use std::alloc::Global;

/// The claim of the proof of the instance's model in a file.
#[tactic(auto, using(crate::proofs::KeptPorts::not_read_keeps, crate::proofs::KeptPorts::judged_keeps, crate::proofs::KeptPorts::stopped_keeps))]
pub fn claim_on_instance<H: Host>(
    alloc: Global,
    host: &mut H,
    name: &str,
    inst: &Instance,
) -> Result<Claim, Stop>
    requires { (H.world host.old).begun Port.Proof ≡ Begun.Idle }
    ensures judged { IfOk result (λ claim. IsProofJudged H.told name.now (formula inst.now) (Accepted claim) (H.world host.old) (H.world host.new)) }
    ensures small { IfOk result (λ claim. IsTrue (is_small_claim claim)) }
    ensures stopped { IfErr result (λ stop. StopsProof H.told name.now (formula inst.now) stop (H.world host.old) (H.world host.new)) }
    ensures begun { BeginsAtMost Port.Proof (H.world host.old) (H.world host.new) }
    ensures others { KeepsPorts H.told (IsAt Port.Proof) (H.world host.old) (H.world host.new) }
{
    host.begin_read(Port::Proof, name)?;
    Ok(verify(alloc, inst, host)?)
}

/// The claim of the proof of the formula in a file.
#[tactic(auto, using(crate::proofs::KeptPorts::not_read_keeps, crate::proofs::KeptPorts::judged_keeps, crate::proofs::KeptPorts::stopped_keeps))]
pub fn claim_on_formula<H: Host>(
    alloc: Global,
    host: &mut H,
    name: &str,
    formula: Formula,
) -> Result<Claim, Stop>
    requires idle { (H.world host.old).begun Port.Proof ≡ Begun.Idle }
    requires within { IsWithinLimits formula }
    ensures judged { IfOk result (λ claim. IsProofJudged H.told name.now formula (Accepted claim) (H.world host.old) (H.world host.new)) }
    ensures small { IfOk result (λ claim. IsTrue (is_small_claim claim)) }
    ensures stopped { IfErr result (λ stop. StopsProof H.told name.now formula stop (H.world host.old) (H.world host.new)) }
    ensures begun { BeginsAtMost Port.Proof (H.world host.old) (H.world host.new) }
    ensures others { KeepsPorts H.told (IsAt Port.Proof) (H.world host.old) (H.world host.new) }
{
    host.begin_read(Port::Proof, name)?;
    Ok(check(alloc, formula, host)?)
}
