// The command that checks a proof against an instance.
ghost use Rattle.std.specs.Prelude.{◌≡◌, Some, IfErr, IfOk, IsTrue};
ghost use Rattle.hrt_base.specs.Calls.{AtStart};
ghost use Rattle.proof_lines.specs.Spelling.{is_small_claim};
ghost use Rattle.hrt_cli.specs.Answers.{IsAnswer, Serves};
ghost use Rattle.hrt_cli.specs.Requests.{verify};
ghost use Rattle.hrt_cli.specs.Outcomes.{verified};

use crate::claims::verify_report;
use crate::{Answer, Ended, Status, explain};
use hrt_base::Host;
use hrt_inputs::{claim_on_instance, load};
use proof_lines::Claim;
use std::alloc::Global;

/// Reads the instance and then the proof, and tells what a valid proof says of weakly stable matchings.
pub fn verify<H: Host>(
    alloc: Global,
    host: &mut H,
    instance: &str,
    proof: &str,
) -> Result<Answer, Ended>
    requires { AtStart H.told (H.world host.old) }
    ensures { Serves H.told (Some (verify instance.now proof.now)) result (H.world host.old) (H.world host.new) }
{
    let inst = match load(alloc, host, instance) {
        Ok(inst) => inst,
        Err(stop) => return explain(alloc, stop),
    };
    match claim_on_instance(alloc, host, proof, &inst) {
        Ok(claim) => verified(alloc, claim),
        Err(stop) => explain(alloc, stop),
    }
}

// The answer for the claim of a valid proof.
fn verified(alloc: Global, claim: Claim) -> Result<Answer, Ended>
    requires { IsTrue (is_small_claim claim) }
    ensures answered { IfOk result (λ answer. IsAnswer (verified claim) answer) }
    ensures ended { IfErr result (λ e. e ≡ Ended.NoMemory) }
{
    Ok(Answer {
        status: Status::Done,
        report: verify_report(alloc, claim)?,
    })
}
