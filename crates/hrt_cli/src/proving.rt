// The commands that write a model and a proof of it.
ghost use Rattle.std.specs.Prelude.{◌≡◌, ◌≤◌, ◌^◌, IfErr, IfOk, IsErrOf, IsTrue, List, OnErr, OnOk, Some, if◌then◌else◌, ℕ};
ghost use Rattle.hrt_base.specs.Calls.{AtStart, Rose};
ghost use Rattle.rank_tables.specs.Instance.{pair_count};
ghost use Rattle.rank_tables.specs.Stability.{is_weakly_stable};
ghost use Rattle.rank_tables.specs.Tables.{numbers_of};
ghost use Rattle.rank_tables.specs.WellFormed.{most_pairs};
ghost use Rattle.hrt_solve.specs.Gauged.{AreNumbersOf, bound_claim};
ghost use Rattle.hrt_solve.specs.Searched.{IsSolveEnd, IsSolveText};
ghost use Rattle.hrt_solve.specs.Writing.{IsBoundText, IsProof, IsQuickEnd, IsQuickText};
ghost use Rattle.hrt_inputs.specs.Inputs.{KeepsPorts};
ghost use Rattle.hrt_cli.specs.Answers.{IsAnswer, Serves};
ghost use Rattle.hrt_cli.specs.Ports.{BeginsWriting, IsModelOrProof};
ghost use Rattle.hrt_cli.specs.Reports.{finding_of};
ghost use Rattle.hrt_cli.specs.Requests.{bound, quick, solve};
ghost use Rattle.hrt_cli.specs.Outcomes.{IsProofOf, bounded, first_claim, solved};
ghost use Rattle.hrt_cli.specs.Writing.{AreBegun, SavesBoth, SavesInPart, WritesNothing};

use crate::matches::{bound_report, match_report};
use crate::{Answer, Budget, Ended, Status, explain};
use hrt_base::{Begun, Host, Port, WriteEnd};
use hrt_inputs::load;
use hrt_solve::{BoundEnd, SolveEnd};
use rank_tables::Instance;
use std::alloc::Global;

/// Reads the instance and writes its model, and a proof that no weakly stable matching is larger than the ceiling.
pub fn bound<H: Host>(
    alloc: Global,
    host: &mut H,
    instance: &str,
    model: &str,
    proof: &str,
) -> Result<Answer, Ended>
    requires { AtStart H.told (H.world host.old) }
    ensures { Serves H.told (Some (bound instance.now model.now proof.now)) result (H.world host.old) (H.world host.new) }
{
    let inst = match load(alloc, host, instance) {
        Ok(inst) => inst,
        Err(stop) => return explain(alloc, stop),
    };
    match save_bound(alloc, host, model, proof, &inst) {
        Ok(end) => bounded(alloc, &inst, end),
        Err(end) => Err(Ended::from(end)),
    }
}

/// Reads the instance and writes its model, and a proof of the matching that a search finds.
pub fn solve<H: Host>(
    alloc: Global,
    host: &mut H,
    instance: &str,
    model: &str,
    proof: &str,
    budget: Budget,
) -> Result<Answer, Ended>
    requires { AtStart H.told (H.world host.old) }
    ensures { Serves H.told (Some (solve instance.now model.now proof.now budget.conflicts)) result (H.world host.old) (H.world host.new) }
{
    let inst = match load(alloc, host, instance) {
        Ok(inst) => inst,
        Err(stop) => return explain(alloc, stop),
    };
    match save_solve(alloc, host, model, proof, &inst, budget.conflicts) {
        Ok(end) => solved(alloc, &inst, &end),
        Err(end) => Err(Ended::from(end)),
    }
}

/// Reads the instance and writes its model, and a proof of the ceiling and of the first matching.
pub fn quick<H: Host>(
    alloc: Global,
    host: &mut H,
    instance: &str,
    model: &str,
    proof: &str,
) -> Result<Answer, Ended>
    requires { AtStart H.told (H.world host.old) }
    ensures { Serves H.told (Some (quick instance.now model.now proof.now)) result (H.world host.old) (H.world host.new) }
{
    let inst = match load(alloc, host, instance) {
        Ok(inst) => inst,
        Err(stop) => return explain(alloc, stop),
    };
    match save_match(alloc, host, model, proof, &inst) {
        Ok(end) => solved(alloc, &inst, &end),
        Err(end) => Err(Ended::from(end)),
    }
}

// Begins the files of the model and of the proof.
#[tactic(auto, using(crate::proofs::BegunOutputs::are_begun, crate::proofs::BegunOutputs::none_begun, crate::proofs::BegunOutputs::one_begun, crate::proofs::BegunPorts::none_begins, crate::proofs::BegunPorts::one_begins, crate::proofs::BegunPorts::two_begin, crate::proofs::OtherPorts::not_written_keeps, crate::proofs::OtherPorts::one_begun_keeps, crate::proofs::OtherPorts::two_begun_keep))]
fn begin<H: Host>(host: &mut H, model: &str, proof: &str) -> Result<(), WriteEnd>
    requires model { (H.world host.old).begun Port.Model ≡ Begun.Idle }
    requires proof { (H.world host.old).begun Port.Proof ≡ Begun.Idle }
    ensures ports { BeginsWriting IsModelOrProof (H.world host.old) (H.world host.new) }
    ensures others { KeepsPorts H.told IsModelOrProof (H.world host.old) (H.world host.new) }
    ensures begun { OnOk result (AreBegun H.told model.now proof.now (H.world host.old) (H.world host.new)) }
    ensures part { OnErr result (WritesNothing H.told (H.world host.old) (H.world host.new)) }
    ensures failed { IsErrOf result WriteEnd.Failed → Rose (H.world host.old).write_faults (H.world host.new).write_faults }
{
    host.begin_write(Port::Model, model)?;
    host.begin_write(Port::Proof, proof)?;
    Ok(())
}

// Writes the model of the instance, and a proof of its bound.
fn save_bound<H: Host>(
    alloc: Global,
    host: &mut H,
    model: &str,
    proof: &str,
    inst: &Instance,
) -> Result<BoundEnd, WriteEnd>
    requires model { (H.world host.old).begun Port.Model ≡ Begun.Idle }
    requires proof { (H.world host.old).begun Port.Proof ≡ Begun.Idle }
    ensures ports { BeginsWriting IsModelOrProof (H.world host.old) (H.world host.new) }
    ensures others { KeepsPorts H.told IsModelOrProof (H.world host.old) (H.world host.new) }
    ensures numbers { IfOk result (λ end. AreNumbersOf inst.now end.deleted end.ceiling) }
    ensures saved { IfOk result (λ end. SavesBoth H.told (λ text. IsProof inst.now text (bound_claim end.ceiling) 0) inst.now model.now proof.now (H.world host.old) (H.world host.new)) }
    ensures part { OnErr result (SavesInPart H.told (IsBoundText inst.now) inst.now model.now proof.now (H.world host.old) (H.world host.new)) }
    ensures failed { IsErrOf result WriteEnd.Failed → Rose (H.world host.old).write_faults (H.world host.new).write_faults }
{
    begin(host, model, proof)?;
    Ok(hrt_solve::bound(alloc, inst, host)?)
}

// Writes the model of the instance, and a proof of its bound and of the first matching.
fn save_match<H: Host>(
    alloc: Global,
    host: &mut H,
    model: &str,
    proof: &str,
    inst: &Instance,
) -> Result<SolveEnd, WriteEnd>
    requires model { (H.world host.old).begun Port.Model ≡ Begun.Idle }
    requires proof { (H.world host.old).begun Port.Proof ≡ Begun.Idle }
    ensures ports { BeginsWriting IsModelOrProof (H.world host.old) (H.world host.new) }
    ensures others { KeepsPorts H.told IsModelOrProof (H.world host.old) (H.world host.new) }
    ensures said { IfOk result (λ end. IsQuickEnd inst.now end) }
    ensures saved { IfOk result (λ end. SavesBoth H.told (λ text. IsProof inst.now text (first_claim inst.now end.ceiling) 0) inst.now model.now proof.now (H.world host.old) (H.world host.new)) }
    ensures part { OnErr result (SavesInPart H.told (IsQuickText inst.now) inst.now model.now proof.now (H.world host.old) (H.world host.new)) }
    ensures failed { IsErrOf result WriteEnd.Failed → Rose (H.world host.old).write_faults (H.world host.new).write_faults }
{
    begin(host, model, proof)?;
    Ok(hrt_solve::quick(alloc, inst, host)?)
}

// Writes the model of the instance, and a proof of the matching that a search finds.
fn save_solve<H: Host>(
    alloc: Global,
    host: &mut H,
    model: &str,
    proof: &str,
    inst: &Instance,
    budget: u64,
) -> Result<SolveEnd, WriteEnd>
    requires budget { budget ≤ 10 ^ 12 }
    requires model { (H.world host.old).begun Port.Model ≡ Begun.Idle }
    requires proof { (H.world host.old).begun Port.Proof ≡ Begun.Idle }
    ensures ports { BeginsWriting IsModelOrProof (H.world host.old) (H.world host.new) }
    ensures others { KeepsPorts H.told IsModelOrProof (H.world host.old) (H.world host.new) }
    ensures said { IfOk result (λ end. IsSolveEnd inst.now budget end) }
    ensures saved { IfOk result (λ end. SavesBoth H.told (IsProofOf inst.now budget end) inst.now model.now proof.now (H.world host.old) (H.world host.new)) }
    ensures part { OnErr result (SavesInPart H.told (IsSolveText inst.now budget) inst.now model.now proof.now (H.world host.old) (H.world host.new)) }
    ensures failed { IsErrOf result WriteEnd.Failed → Rose (H.world host.old).write_faults (H.world host.new).write_faults }
{
    begin(host, model, proof)?;
    Ok(hrt_solve::solve(alloc, inst, host, budget)?)
}

// The answer for a bound.
fn bounded(alloc: Global, inst: &Instance, end: BoundEnd) -> Result<Answer, Ended>
    ensures answered { IfOk result (λ answer. (text : List ℕ) → IsAnswer (bounded inst.now end.deleted end.ceiling text) answer) }
    ensures ended { IfErr result (λ e. e ≡ Ended.NoMemory) }
{
    Ok(Answer {
        status: Status::Done,
        report: bound_report(alloc, inst, end)?,
    })
}

// The answer for a matching.
fn solved(alloc: Global, inst: &Instance, end: &SolveEnd) -> Result<Answer, Ended>
    requires few { pair_count inst.now ≤ most_pairs }
    requires stable { IsTrue (is_weakly_stable inst.now (numbers_of end.now.pairs.items)) }
    ensures answered { IfOk result (λ answer. (text : List ℕ) → IsAnswer (solved inst.now (finding_of end.now) end.now.best text) answer) }
    ensures ended { IfErr result (λ e. e ≡ Ended.NoMemory) }
{
    Ok(Answer {
        status: status_of(end),
        report: match_report(alloc, inst, end)?,
    })
}

fn status_of(end: &SolveEnd) -> Status
    ensures { result ≡ (if end.now.best then Status.Done else Status.Bounded) }
{
    if end.best {
        Status::Done
    } else {
        Status::Bounded
    }
}
