// Reports on the claims of valid proofs.
ghost use Rattle.std.specs.Prelude.{◌≡◌, ◌++◌, codes, IfOk, IsTrue, neg_ℤ, option_map};
ghost use Rattle.proof_lines.specs.Spelling.{is_small_bound, is_small_claim};
ghost use Rattle.hrt_cli.specs.Reports.{check_report, line, points_report, sizes_report, verify_report};

use crate::Report;
use hrt_base::NoMemory;
use proof_lines::Claim;
use std::alloc::Global;

/// What a proof of an instance's model says of weakly stable matchings.
pub fn verify_report(alloc: Global, claim: Claim) -> Result<Report, NoMemory>
    requires { IsTrue (is_small_claim claim) }
    ensures { IfOk result (λ report. report ≡ verify_report claim) }
{
    match claim {
        Claim::Bounds { lower, upper } => sizes_report(alloc, opposite(lower), opposite(upper)),
        Claim::Unsat => outcome_report(alloc, "unsatisfiable"),
        Claim::Nothing => sizes_report(alloc, None, None),
    }
}

/// What a proof of a model says of the points that satisfy it.
pub fn check_report(alloc: Global, claim: Claim) -> Result<Report, NoMemory>
    ensures { IfOk result (λ report. report ≡ check_report claim) }
{
    match claim {
        Claim::Bounds { lower, upper } => points_report(alloc, lower, upper),
        Claim::Unsat => outcome_report(alloc, "unsatisfiable"),
        Claim::Nothing => outcome_report(alloc, "no conclusion"),
    }
}

// The objective is minus the number of pairs.
fn opposite(bound: Option<i128>) -> Option<i128>
    requires { IsTrue (is_small_bound bound) }
    ensures { result ≡ option_map neg_ℤ bound }
{
    match bound {
        None => None,
        Some(bound) => Some(-bound),
    }
}

fn sizes_report(alloc: Global, bound: Option<i128>, found: Option<i128>) -> Result<Report, NoMemory>
    ensures { IfOk result (λ report. report ≡ sizes_report bound found) }
{
    let mut report = Report::new(alloc);
    report.push_line("accepted")?;
    report.push_number("bound", bound, "none")?;
    report.push_number("found", found, "none")?;
    Ok(report)
}

fn points_report(
    alloc: Global,
    lower: Option<i128>,
    upper: Option<i128>,
) -> Result<Report, NoMemory>
    ensures { IfOk result (λ report. report ≡ points_report lower upper) }
{
    let mut report = Report::new(alloc);
    report.push_line("accepted")?;
    report.push_number("lower", lower, "-INF")?;
    report.push_number("upper", upper, "INF")?;
    Ok(report)
}

fn outcome_report(alloc: Global, outcome: &str) -> Result<Report, NoMemory>
    ensures { IfOk result (λ report. report ≡ line (codes "accepted") ++ line outcome.now) }
{
    let mut report = Report::new(alloc);
    report.push_line("accepted")?;
    report.push_line(outcome)?;
    Ok(report)
}
