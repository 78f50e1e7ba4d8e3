// Reports on bounds and on matchings.
ghost use Rattle.std.specs.Prelude.{◌≡◌, ◌++◌, ◌≤◌, All, IfOk, IsTrue, OnOk, flat_map};
ghost use Rattle.rank_tables.specs.Instance.{pair_count};
ghost use Rattle.rank_tables.specs.Stability.{is_weakly_stable};
ghost use Rattle.rank_tables.specs.Tables.{numbers_of, IsPairNo};
ghost use Rattle.rank_tables.specs.WellFormed.{most_pairs};
ghost use Rattle.hrt_cli.specs.Reports.{bound_lines, bound_report, finding_of, found_lines, last_line, match_report, pair_line};

use crate::Report;
use hrt_base::{NoMemory, PairNo};
use hrt_solve::{BoundEnd, SolveEnd};
use itoa::Buffer;
use rank_tables::Instance;
use std::alloc::Global;

/// The report on a bound.
pub fn bound_report(alloc: Global, inst: &Instance, end: BoundEnd) -> Result<Report, NoMemory>
    ensures { IfOk result (λ report. report ≡ bound_report inst.now end.deleted end.ceiling) }
{
    let mut report = Report::new(alloc);
    push_bound(&mut report, inst, end.deleted, end.ceiling)?;
    report.push_count("at most", end.ceiling)?;
    Ok(report)
}

/// The report on a matching.
pub fn match_report(alloc: Global, inst: &Instance, end: &SolveEnd) -> Result<Report, NoMemory>
    requires few { pair_count inst.now ≤ most_pairs }
    requires stable { IsTrue (is_weakly_stable inst.now (numbers_of end.now.pairs.items)) }
    ensures { IfOk result (λ report. report ≡ match_report inst.now (finding_of end.now) end.now.best) }
{
    let mut report = Report::new(alloc);
    push_bound(&mut report, inst, end.deleted, end.ceiling)?;
    push_found(&mut report, inst, end)?;
    push_last(&mut report, end)?;
    Ok(report)
}

// Adds the lines on what was found before a matching was looked for.
fn push_bound(
    report: &mut Report,
    inst: &Instance,
    deleted: u32,
    ceiling: u32,
) -> Result<(), NoMemory>
    ensures { OnOk result (report.new ≡ report.old ++ bound_lines inst.now deleted ceiling) }
{
    report.push_instance(inst)?;
    report.push_count("deleted", deleted)?;
    report.push_count("ceiling", ceiling)
}

// Adds the lines on the matching.
fn push_found(report: &mut Report, inst: &Instance, end: &SolveEnd) -> Result<(), NoMemory>
    requires few { pair_count inst.now ≤ most_pairs }
    requires stable { IsTrue (is_weakly_stable inst.now (numbers_of end.now.pairs.items)) }
    ensures { OnOk result (report.new ≡ report.old ++ found_lines inst.now (finding_of end.now)) }
{
    let mut buffer = Buffer::new();
    report.push_count("first", end.first)?;
    report.push_value("conflicts", buffer.format(end.conflicts))?;
    push_pairs(report, inst, &end.pairs)?;
    report.push_count("size", end.pairs.len() as u32)
}

// Adds the line that says that no other matching is larger, or how large one is at most.
fn push_last(report: &mut Report, end: &SolveEnd) -> Result<(), NoMemory>
    ensures { OnOk result (report.new ≡ report.old ++ last_line end.now.best end.now.ceiling) }
{
    if end.best {
        report.push_line("best")
    } else {
        report.push_count("at most", end.ceiling)
    }
}

fn push_pairs(report: &mut Report, inst: &Instance, pairs: &[PairNo]) -> Result<(), NoMemory>
    requires { All (λ p. IsPairNo inst.now p.0) pairs.now }
    ensures { OnOk result (report.new ≡ report.old ++ flat_map (pair_line inst.now) (numbers_of pairs.now)) }
{
    for pair in pairs {
        report.push_pair(inst, *pair)?;
    }
    Ok(())
}
