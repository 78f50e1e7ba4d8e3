// What a run answers.
ghost use Rattle.std.specs.Prelude.{◌≡◌, IfOk, IfErr};
ghost use Rattle.hrt_cli.specs.Answers.{EndsFor, Explains};
ghost use Rattle.hrt_cli.specs.Reports.{limit_line, name_of};

use crate::refusals::{
    instance_refusal_report, model_refusal_report, pairs_refusal_report, proof_refusal_report,
};
use crate::{Ended, Report, Status};
use hrt_base::NoMemory;
use hrt_inputs::{Limit, Stop};
use itoa::Buffer;
use std::alloc::Global;

/// A status with its report.
#[derive(Drop)]
pub struct Answer {
    pub status: Status,
    pub report: Report,
}

/// The answer that tells why there was a stop.
pub fn explain(alloc: Global, stop: Stop) -> Result<Answer, Ended>
    ensures told { IfOk result (Explains stop) }
    ensures ended { IfErr result (EndsFor stop) }
{
    match stop {
        Stop::Refused { kind, line } => Ok(Answer {
            status: Status::InstanceRefused,
            report: instance_refusal_report(alloc, kind, line)?,
        }),
        Stop::Exceeded(limit) => Ok(Answer {
            status: Status::LimitExceeded,
            report: limit_report(alloc, limit)?,
        }),
        Stop::PairsRefused { kind, line } => Ok(Answer {
            status: Status::PairsRefused,
            report: pairs_refusal_report(alloc, kind, line)?,
        }),
        Stop::ModelRefused { kind, line } => Ok(Answer {
            status: Status::ProofRefused,
            report: model_refusal_report(alloc, kind, line)?,
        }),
        Stop::ProofRefused(refusal) => Ok(Answer {
            status: Status::ProofRefused,
            report: proof_refusal_report(alloc, refusal)?,
        }),
        Stop::ReadFault => Err(Ended::ReadFault),
        Stop::NoMemory => Err(Ended::NoMemory),
    }
}

// The report on a limit that was passed.
fn limit_report(alloc: Global, limit: Limit) -> Result<Report, NoMemory>
    ensures { IfOk result (λ report. report ≡ limit_line limit) }
{
    let mut report = Report::new(alloc);
    let mut buffer = Buffer::new();
    report.push(b"limit ")?;
    report.push_value(limit_name(limit), buffer.format(limit.most()))?;
    Ok(report)
}

// The word for a limit.
fn limit_name(limit: Limit) -> &'static str
    ensures { result.now ≡ name_of limit }
{
    match limit {
        Limit::Residents => "residents",
        Limit::Hospitals => "hospitals",
        Limit::Pairs => "pairs",
        Limit::Terms => "terms",
        Limit::InstanceBytes => "instance-bytes",
        Limit::PairsBytes => "pairs-bytes",
        Limit::ModelBytes => "model-bytes",
        Limit::Variables => "variables",
        Limit::Rows => "rows",
        Limit::ProofBytes => "proof-bytes",
    }
}
