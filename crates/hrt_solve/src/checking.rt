// Whether the proof on its port is valid.
ghost use Rattle.std.specs.Prelude.{◌≡◌, IfErr, IfOk, IsTrue};
ghost use Rattle.opb_text.specs.Limits.{IsWithinLimits};
ghost use Rattle.stability_model.specs.Model.{formula};
ghost use Rattle.proof_lines.specs.Spelling.{is_small_claim};
ghost use Rattle.proof_rules.specs.Matchings.{SaysOfMatchings};
ghost use Rattle.proof_rules.specs.Sound.{IsTrueClaim};
ghost use Rattle.proof_rules.specs.Texts.{Accepted};
ghost use Rattle.hrt_solve.specs.Judged.{IsJudged, StopsCheck};

use crate::CheckRefusal;
use crate::reading::feed_proof;
use hrt_base::{Begun, Host, Port};
use opb_text::{Formula, formula_of};
use proof_checker::Checker;
use proof_lines::Claim;
use rank_tables::Instance;
use stability_model::Model;
use std::alloc::Global;

/// Reads the proof to its end and checks it against the formula. The claim of an accepted proof is true (`sound`).
pub fn check<H: Host>(alloc: Global, formula: Formula, host: &mut H) -> Result<Claim, CheckRefusal>
    requires begun { (H.world host.old).begun Port.Proof ≡ Begun.Reading }
    requires within { IsWithinLimits formula }
    ensures accepted { IfOk result (λ claim. IsJudged H.told formula (Accepted claim) (H.world host.old) (H.world host.new)) }
    ensures stopped { IfErr result (λ refusal. StopsCheck H.told formula refusal (H.world host.old) (H.world host.new)) }
    ensures sound { IfOk result (IsTrueClaim formula) }
    ensures small { IfOk result (λ claim. IsTrue (is_small_claim claim)) }
{
    let mut checker = Checker::new(alloc, formula)?;
    feed_proof(alloc, host, &mut checker)?;
    Ok(checker.finish(alloc)?)
}

/// Reads the proof to its end and checks it against the instance's model. Of an accepted proof with the bounds L and U every
/// weakly stable matching has at most -L pairs, and one has at least -U (`sound`).
pub fn verify<H: Host>(alloc: Global, inst: &Instance, host: &mut H) -> Result<Claim, CheckRefusal>
    requires { (H.world host.old).begun Port.Proof ≡ Begun.Reading }
    ensures accepted { IfOk result (λ claim. IsJudged H.told (formula inst.now) (Accepted claim) (H.world host.old) (H.world host.new)) }
    ensures stopped { IfErr result (λ refusal. StopsCheck H.told (formula inst.now) refusal (H.world host.old) (H.world host.new)) }
    ensures sound { IfOk result (SaysOfMatchings inst.now) }
    ensures small { IfOk result (λ claim. IsTrue (is_small_claim claim)) }
{
    let model = Model::of(alloc, inst)?;
    let formula = formula_of(alloc, &model)?;
    check(alloc, formula, host)
}
