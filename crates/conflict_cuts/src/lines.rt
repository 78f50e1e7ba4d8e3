// The steps of the lines.
ghost use Rattle.std.specs.Prelude.{◌≡◌, ◌≤◌, ◌^◌, ◌++◌, pos, IfOk, OnOk};
ghost use Rattle.conflict_cuts.specs.Lines.{conflict_steps, resolve_steps, weakenings};

use hrt_base::{NoMemory, RowNo};
use proof_lines::PolStep;
use std::alloc::Global;

/// The top row is weakened by each variable.
fn push_weakenings(steps: &mut Vec<PolStep>, vars: &[u32]) -> Result<(), NoMemory>
    ensures { OnOk result (steps.new.items ≡ steps.old.items ++ weakenings vars.now) }
{
    for v in vars {
        steps.push(PolStep::Weaken(*v))?;
    }
    Ok(())
}

/// The top row is divided.
fn divide_by(divisor: u128) -> PolStep
    requires { divisor ≤ 2 ^ 120 }
    ensures { result ≡ PolStep.Divide (pos divisor) }
{
    PolStep::Divide(divisor as i128)
}

/// The steps of the falsified row's clause.
pub(crate) fn conflict_steps(
    alloc: Global,
    row: RowNo,
    vars: &[u32],
    divisor: u128,
) -> Result<Vec<PolStep>, NoMemory>
    requires { divisor ≤ 2 ^ 120 }
    ensures { IfOk result (λ steps. steps.items ≡ conflict_steps row vars.now divisor) }
{
    let mut steps = Vec::new(alloc);
    steps.push(PolStep::Id(row))?;
    push_weakenings(&mut steps, vars)?;
    steps.push(PolStep::Saturate)?;
    steps.push(divide_by(divisor))?;
    Ok(steps)
}

/// The steps of a resolution.
pub(crate) fn resolve_steps(
    alloc: Global,
    row: RowNo,
    reason: RowNo,
    vars: &[u32],
    divisor: u128,
) -> Result<Vec<PolStep>, NoMemory>
    requires { divisor ≤ 2 ^ 120 }
    ensures { IfOk result (λ steps. steps.items ≡ resolve_steps row reason vars.now divisor) }
{
    let mut steps = Vec::new(alloc);
    steps.push(PolStep::Id(row))?;
    steps.push(PolStep::Id(reason))?;
    push_weakenings(&mut steps, vars)?;
    steps.push(PolStep::Saturate)?;
    steps.push(divide_by(divisor))?;
    steps.push(PolStep::Add)?;
    steps.push(PolStep::Saturate)?;
    Ok(steps)
}
