// The steps that add rows.
ghost use Rattle.std.specs.Prelude.{◌<◌, IfOk, OnOk, length};
ghost use Rattle.capacity_bound.specs.Steps.{AddsRows, PutsSum};

use hrt_base::NoMemory;
use proof_lines::PolStep;
use std::alloc::Global;

// Appends the steps that add up the rows that the operands name: each half for itself, and then the two sums. Most sums are
// short then, and the time of all grows little faster than the terms.
fn push_sum(steps: &mut Vec<PolStep>, operands: &[PolStep]) -> Result<(), NoMemory>
    requires { 0 < length operands.now }
    ensures { OnOk result (PutsSum operands.now steps.old.items steps.new.items) }
{
    if operands.len() == 1 {
        steps.push(operands[0])?;
        return Ok(());
    }
    let (first, second) = operands.split_at(operands.len().div_ceil(2));
    push_sum(steps, first)?;
    push_sum(steps, second)?;
    steps.push(PolStep::Add)?;
    Ok(())
}

/// The steps that add the rows that the operands name.
pub(crate) fn steps_adding(alloc: Global, operands: &[PolStep]) -> Result<Vec<PolStep>, NoMemory>
    requires { 0 < length operands.now }
    ensures { IfOk result (λ steps. AddsRows operands.now steps.items) }
{
    let mut steps = Vec::new(alloc);
    push_sum(&mut steps, operands)?;
    Ok(steps)
}
