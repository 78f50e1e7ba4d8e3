// The command that writes the model.
ghost use Rattle.std.specs.Prelude.{◌≡◌, [], ◌∷◌, Some, IfOk, IfErr, OnOk, OnErr, IsErrOf};
ghost use Rattle.hrt_base.specs.Calls.{AtStart, Rose};
ghost use Rattle.opb_text.specs.Spelling.{model_text};
ghost use Rattle.hrt_inputs.specs.Inputs.{IsAt, KeepsPorts};
ghost use Rattle.hrt_cli.specs.Answers.{IsAnswer, Serves};
ghost use Rattle.hrt_cli.specs.Ports.{BeginsWriting};
ghost use Rattle.hrt_cli.specs.Reports.{model_report};
ghost use Rattle.hrt_cli.specs.Requests.{model};
ghost use Rattle.hrt_cli.specs.Outcomes.{modeled};
ghost use Rattle.hrt_cli.specs.Outputs.{output};
ghost use Rattle.hrt_cli.specs.Writing.{EndsWriting, WritesAll, WritesInPart};

use crate::{Answer, Ended, Report, Status, explain};
use hrt_base::{Begun, Host, NoMemory, Port, WriteEnd};
use hrt_inputs::load;
use opb_text::write_model;
use rank_tables::Instance;
use stability_model::Model;
use std::alloc::Global;

/// Reads the instance and writes its model.
pub fn model<H: Host>(
    alloc: Global,
    host: &mut H,
    instance: &str,
    file: &str,
) -> Result<Answer, Ended>
    requires { AtStart H.told (H.world host.old) }
    ensures { Serves H.told (Some (model instance.now file.now)) result (H.world host.old) (H.world host.new) }
{
    match load(alloc, host, instance) {
        Ok(inst) => modeled(alloc, host, file, &inst),
        Err(stop) => explain(alloc, stop),
    }
}

// Writes the model of the instance.
#[tactic(auto, using(crate::proofs::BegunOutputs::nothing_done, crate::proofs::BegunPorts::begins_none, hrt_inputs::proofs::KeptPorts::keeps_all))]
fn modeled<H: Host>(
    alloc: Global,
    host: &mut H,
    file: &str,
    inst: &Instance,
) -> Result<Answer, Ended>
    requires { (H.world host.old).begun Port.Model ≡ Begun.Idle }
    ensures ports { BeginsWriting (IsAt Port.Model) (H.world host.old) (H.world host.new) }
    ensures others { KeepsPorts H.told (IsAt Port.Model) (H.world host.old) (H.world host.new) }
    ensures saved { OnOk result (WritesAll H.told (output Port.Model file.now (model_text inst.now) ∷ []) (H.world host.old) (H.world host.new)) }
    ensures answered { IfOk result (λ answer. IsAnswer (modeled inst.now) answer) }
    ensures ended { IfErr result (λ ended. EndsWriting H.told (output Port.Model file.now (model_text inst.now) ∷ []) ended (H.world host.old) (H.world host.new)) }
{
    let model = Model::of(alloc, inst)?;
    let report = model_report(alloc, &model)?;
    match save_model(alloc, host, file, &model) {
        Ok(()) => Ok(Answer {
            status: Status::Done,
            report,
        }),
        Err(WriteEnd::Failed) => Err(Ended::WriteFault),
        Err(WriteEnd::NoMemory) => Err(Ended::NoMemory),
    }
}

fn model_report(alloc: Global, model: &Model) -> Result<Report, NoMemory>
    ensures { IfOk result (λ report. report ≡ model_report model.now) }
{
    let mut report = Report::new(alloc);
    report.push_count("variables", model.instance().pairs())?;
    report.push_count("rows", model.row_count())?;
    Ok(report)
}

// Writes the model under the name and seals it.
#[tactic(auto, using(crate::proofs::BegunOutputs::none_begun, crate::proofs::BegunOutputs::model_saved, crate::proofs::BegunPorts::none_begins, crate::proofs::BegunPorts::model_front_begins, crate::proofs::BegunPorts::model_unsealed_begins, crate::proofs::BegunPorts::model_sealed_begins, crate::proofs::OtherPorts::not_written_keeps, crate::proofs::OtherPorts::begun_front_keeps, crate::proofs::OtherPorts::begun_unsealed_keeps, crate::proofs::OtherPorts::begun_sealed_keeps))]
fn save_model<H: Host>(
    alloc: Global,
    host: &mut H,
    file: &str,
    model: &Model,
) -> Result<(), WriteEnd>
    requires { (H.world host.old).begun Port.Model ≡ Begun.Idle }
    ensures ports { BeginsWriting (IsAt Port.Model) (H.world host.old) (H.world host.new) }
    ensures others { KeepsPorts H.told (IsAt Port.Model) (H.world host.old) (H.world host.new) }
    ensures saved { OnOk result (WritesAll H.told (output Port.Model file.now (model_text model.now) ∷ []) (H.world host.old) (H.world host.new)) }
    ensures part { OnErr result (WritesInPart H.told (output Port.Model file.now (model_text model.now) ∷ []) (H.world host.old) (H.world host.new)) }
    ensures failed { IsErrOf result WriteEnd.Failed → Rose (H.world host.old).write_faults (H.world host.new).write_faults }
{
    host.begin_write(Port::Model, file)?;
    write_model(alloc, model, host)?;
    host.seal(Port::Model)?;
    Ok(())
}
