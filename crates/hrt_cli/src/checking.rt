// The command that checks a proof against a model.
ghost use Rattle.std.specs.Prelude.{◌≡◌, Some, IfErr, IfOk};
ghost use Rattle.hrt_base.specs.Calls.{AtStart};
ghost use Rattle.hrt_cli.specs.Answers.{IsAnswer, Serves};
ghost use Rattle.hrt_cli.specs.Requests.{check};
ghost use Rattle.hrt_cli.specs.Outcomes.{checked};

use crate::claims::check_report;
use crate::{Answer, Ended, Status, explain};
use hrt_base::Host;
use hrt_inputs::{claim_on_formula, load_formula};
use proof_lines::Claim;
use std::alloc::Global;

/// Reads the model and then the proof, and tells what a valid proof says of the points that satisfy the model.
pub fn check<H: Host>(
    alloc: Global,
    host: &mut H,
    model: &str,
    proof: &str,
) -> Result<Answer, Ended>
    requires { AtStart H.told (H.world host.old) }
    ensures { Serves H.told (Some (check model.now proof.now)) result (H.world host.old) (H.world host.new) }
{
    let formula = match load_formula(alloc, host, model) {
        Ok(formula) => formula,
        Err(stop) => return explain(alloc, stop),
    };
    match claim_on_formula(alloc, host, proof, formula) {
        Ok(claim) => checked(alloc, claim),
        Err(stop) => explain(alloc, stop),
    }
}

// The answer for the claim of a valid proof.
fn checked(alloc: Global, claim: Claim) -> Result<Answer, Ended>
    ensures answered { IfOk result (λ answer. IsAnswer (checked claim) answer) }
    ensures ended { IfErr result (λ e. e ≡ Ended.NoMemory) }
{
    Ok(Answer {
        status: Status::Done,
        report: check_report(alloc, claim)?,
    })
}
