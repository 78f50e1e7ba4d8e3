// The command that says whether pairs are weakly stable.
ghost use Rattle.std.specs.Prelude.{◌≡◌, ◌≤◌, length, Some, IfOk, IfErr, All, IsTrue};
ghost use Rattle.hrt_base.specs.Calls.{AtStart};
ghost use Rattle.rank_tables.specs.Numbers.{is_distinct};
ghost use Rattle.rank_tables.specs.Instance.{pair_count};
ghost use Rattle.rank_tables.specs.Tables.{numbers_of, IsPairNo};
ghost use Rattle.rank_tables.specs.WellFormed.{most_pairs};
ghost use Rattle.hrt_cli.specs.Answers.{IsAnswer, Serves};
ghost use Rattle.hrt_cli.specs.Reports.{audit_report, NamesDeclared};
ghost use Rattle.hrt_cli.specs.Requests.{audit};
ghost use Rattle.hrt_cli.specs.Statuses.{audit_status};
ghost use Rattle.hrt_cli.specs.Outcomes.{audited};

use crate::{Answer, Ended, Report, Status, explain};
use hrt_base::{Host, NoMemory, PairNo};
use hrt_inputs::{load, load_pairs};
use rank_tables::Instance;
use stability_audit::{Auditor, Verdict};
use std::alloc::Global;

/// Reads the instance and then the pairs, and audits them.
pub fn audit<H: Host>(
    alloc: Global,
    host: &mut H,
    instance: &str,
    pairs: &str,
) -> Result<Answer, Ended>
    requires { AtStart H.told (H.world host.old) }
    ensures { Serves H.told (Some (audit instance.now pairs.now)) result (H.world host.old) (H.world host.new) }
{
    let inst = match load(alloc, host, instance) {
        Ok(inst) => inst,
        Err(stop) => return explain(alloc, stop),
    };
    match load_pairs(alloc, host, pairs, &inst) {
        Ok(pairs) => audited(alloc, &inst, &pairs),
        Err(stop) => explain(alloc, stop),
    }
}

// The answer for distinct pairs of the instance.
fn audited(alloc: Global, inst: &Instance, pairs: &[PairNo]) -> Result<Answer, Ended>
    requires few { pair_count inst.now ≤ most_pairs }
    requires in_range { All (λ p. IsPairNo inst.now p.0) pairs.now }
    requires distinct { IsTrue (is_distinct (numbers_of pairs.now)) }
    ensures answered { IfOk result (λ answer. IsAnswer (audited inst.now (numbers_of pairs.now)) answer) }
    ensures ended { IfErr result (λ e. e ≡ Ended.NoMemory) }
{
    let mut auditor = Auditor::new(alloc, inst)?;
    let verdict = auditor.audit(inst, pairs);
    Ok(Answer {
        status: status_of(verdict),
        report: audit_report(alloc, inst, pairs, verdict)?,
    })
}

fn status_of(verdict: Verdict) -> Status
    ensures { result ≡ audit_status verdict }
{
    match verdict {
        Verdict::Stable => Status::Done,
        Verdict::ResidentTwice(_) | Verdict::OverCapacity(_) | Verdict::Blocked(_) => {
            Status::AuditNo
        }
    }
}

fn audit_report(
    alloc: Global,
    inst: &Instance,
    pairs: &[PairNo],
    verdict: Verdict,
) -> Result<Report, NoMemory>
    requires few { length pairs.now ≤ most_pairs }
    requires named { NamesDeclared inst.now verdict }
    ensures { IfOk result (λ report. report ≡ audit_report inst.now (numbers_of pairs.now) verdict) }
{
    let mut report = Report::new(alloc);
    match verdict {
        Verdict::Stable => report.push_stable(pairs.len() as u32)?,
        Verdict::ResidentTwice(resident) => {
            report.push_name("resident-twice ", inst.resident_name(resident))?
        }
        Verdict::OverCapacity(hospital) => {
            report.push_name("over-capacity ", inst.hospital_name(hospital))?
        }
        Verdict::Blocked(pair) => report.push_blocked(inst, pair)?,
    }
    Ok(report)
}
