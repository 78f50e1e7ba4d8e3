// The rows of `pol` lines.
ghost use Rattle.std.specs.Prelude.{◌≡◌, IfErr, IfOk, IsTrue, OnOk, Ok, []};
ghost use Rattle.std.specs.List.{All, list_all};
ghost use Rattle.pb_rows.specs.Terms.{IsPositive, positive_part};
ghost use Rattle.pb_rows.specs.Rows.{divide, literal_row, saturate, times, weaken};
ghost use Rattle.pb_rows.specs.Formula.{row_of};
ghost use Rattle.proof_lines.specs.Spelling.{is_small_step};
ghost use Rattle.proof_rules.specs.Refusals.{and_then};
ghost use Rattle.proof_rules.specs.Pol.{add_top, on_top, only_row, pol_row, push_live, push_made, run_step, run_steps};
ghost use Rattle.proof_steps.specs.Steps.{HasFactor, Refuses, push_axiom, weaken_top};

use crate::stack::Stack;
use crate::{LiveRows, StepRefusal};
use hrt_base::{Lit, NoMemory, RowNo, Term};
use pb_rows::{Row, RowRefusal};
use proof_lines::PolStep;
use std::alloc::Global;

/// The greatest number that may be written.
const MOST: i128 = 1 << 120;

/// Makes the row that a literal is at least 0.
fn literal_row(alloc: Global, lit: Lit) -> Result<Row, NoMemory>
    ensures { IfOk result (λ row. row ≡ literal_row lit) }
{
    Row::from_terms_that_fit(alloc, &[Term { coef: 1, lit }], 0)
}

/// Pushes a copy of a live row.
fn push_live<R: LiveRows>(
    alloc: Global,
    live: &R,
    id: RowNo,
    stack: &mut Stack,
) -> Result<(), StepRefusal>
    ensures ok { OnOk result (push_live id.0 (row_of id.0 (R.rows live.now)) stack.old ≡ Ok stack.new) }
    ensures refused { IfErr result (Refuses (push_live id.0 (row_of id.0 (R.rows live.now)) stack.old)) }
{
    match live.row_of(id) {
        None => Err(StepRefusal::BadId(id.0)),
        Some(row) => {
            let copy = row.copy(alloc)?;
            stack.push(copy)?;
            Ok(())
        }
    }
}

/// Pushes the row that a literal is at least 0.
fn push_axiom(alloc: Global, vars: u32, lit: Lit, stack: &mut Stack) -> Result<(), StepRefusal>
    ensures ok { OnOk result (push_axiom vars lit stack.old ≡ Ok stack.new) }
    ensures refused { IfErr result (Refuses (push_axiom vars lit stack.old)) }
{
    if lit.var > vars {
        return Err(StepRefusal::BadVariable(lit.var));
    }
    let row = literal_row(alloc, lit)?;
    stack.push(row)?;
    Ok(())
}

/// Puts a row on the stack that was made of the rows that stood on it.
fn push_made(stack: &mut Stack, row: Row) -> Result<(), NoMemory>
    ensures { OnOk result (push_made row stack.old ≡ Ok stack.new) }
{
    // Its contract says that the row is in normal form.
    let _terms = row.terms();
    stack.push(row)
}

/// Adds the two upper rows.
fn add_top(alloc: Global, stack: &mut Stack) -> Result<(), StepRefusal>
    ensures ok { OnOk result (add_top stack.old ≡ Ok stack.new) }
    ensures refused { IfErr result (Refuses (add_top stack.old)) }
{
    let Some(upper) = stack.pop()? else {
        return Err(StepRefusal::StackShape);
    };
    let Some(mut row) = stack.pop()? else {
        return Err(StepRefusal::StackShape);
    };
    match row.add(alloc, &upper) {
        Err(RowRefusal::TooBig) => Err(StepRefusal::TooBig),
        Err(RowRefusal::NoMemory) => Err(StepRefusal::NoMemory),
        Ok(()) => {
            push_made(stack, row)?;
            Ok(())
        }
    }
}

/// Multiplies the upper row.
fn multiply_top(k: i128, stack: &mut Stack) -> Result<(), StepRefusal>
    requires { IsPositive k }
    ensures ok { OnOk result (on_top (times (positive_part k)) stack.old ≡ Ok stack.new) }
    ensures refused { IfErr result (Refuses (on_top (times (positive_part k)) stack.old)) }
{
    let Some(mut row) = stack.pop()? else {
        return Err(StepRefusal::StackShape);
    };
    match row.times(k) {
        Err(_) => Err(StepRefusal::TooBig),
        Ok(()) => {
            push_made(stack, row)?;
            Ok(())
        }
    }
}

/// Divides the upper row.
fn divide_top(k: i128, stack: &mut Stack) -> Result<(), StepRefusal>
    requires { IsPositive k }
    ensures ok { OnOk result (on_top (divide (positive_part k)) stack.old ≡ Ok stack.new) }
    ensures refused { IfErr result (Refuses (on_top (divide (positive_part k)) stack.old)) }
{
    let Some(mut row) = stack.pop()? else {
        return Err(StepRefusal::StackShape);
    };
    row.divide(k);
    push_made(stack, row)?;
    Ok(())
}

/// Saturates the upper row.
fn saturate_top(stack: &mut Stack) -> Result<(), StepRefusal>
    ensures ok { OnOk result (on_top saturate stack.old ≡ Ok stack.new) }
    ensures refused { IfErr result (Refuses (on_top saturate stack.old)) }
{
    let Some(mut row) = stack.pop()? else {
        return Err(StepRefusal::StackShape);
    };
    row.saturate();
    push_made(stack, row)?;
    Ok(())
}

/// Weakens the upper row by a variable.
fn weaken_top(vars: u32, var: u32, stack: &mut Stack) -> Result<(), StepRefusal>
    ensures ok { OnOk result (weaken_top vars var stack.old ≡ Ok stack.new) }
    ensures refused { IfErr result (Refuses (weaken_top vars var stack.old)) }
{
    if var > vars {
        return Err(StepRefusal::BadVariable(var));
    }
    if !stack.weaken(var)? {
        return Err(StepRefusal::StackShape);
    }
    Ok(())
}

/// Runs a step.
fn run_step<R: LiveRows>(
    alloc: Global,
    vars: u32,
    live: &R,
    step: PolStep,
    stack: &mut Stack,
) -> Result<(), StepRefusal>
    requires { HasFactor step }
    ensures ok { OnOk result (run_step vars (R.rows live.now) step stack.old ≡ Ok stack.new) }
    ensures refused { IfErr result (Refuses (run_step vars (R.rows live.now) step stack.old)) }
{
    match step {
        PolStep::Id(id) => push_live(alloc, live, id, stack),
        PolStep::Axiom(lit) => push_axiom(alloc, vars, lit, stack),
        PolStep::Add => add_top(alloc, stack),
        PolStep::Times(k) => multiply_top(k, stack),
        PolStep::Divide(k) => divide_top(k, stack),
        PolStep::Saturate => saturate_top(stack),
        PolStep::Weaken(var) => weaken_top(vars, var, stack),
    }
}

/// Runs all steps on an empty stack.
fn run_steps<R: LiveRows>(
    alloc: Global,
    vars: u32,
    live: &R,
    steps: &[PolStep],
) -> Result<Stack, StepRefusal>
    requires { All HasFactor steps.now }
    ensures ok { IfOk result (λ stack. run_steps vars (R.rows live.now) steps.now [] ≡ Ok stack) }
    ensures refused { IfErr result (Refuses (run_steps vars (R.rows live.now) steps.now [])) }
{
    let mut stack = Stack::new(alloc);
    for step in steps {
        run_step(alloc, vars, live, *step, &mut stack)?;
    }
    Ok(stack)
}

/// The only row of a stack.
fn only_row(mut stack: Stack) -> Result<Row, StepRefusal>
    ensures ok { IfOk result (λ row. only_row stack ≡ Ok row) }
    ensures refused { IfErr result (Refuses (only_row stack)) }
{
    let Some(row) = stack.pop()? else {
        return Err(StepRefusal::StackShape);
    };
    if stack.pop()?.is_some() {
        return Err(StepRefusal::StackShape);
    }
    Ok(row)
}

/// Tells whether no number that is written in the step is too big.
fn is_small_step(step: &PolStep) -> bool
    requires { HasFactor step.now }
    ensures { result ≡ is_small_step step.now }
{
    match step {
        PolStep::Times(k) | PolStep::Divide(k) => *k <= MOST,
        _ => true,
    }
}

/// Tells whether no number that is written in the steps is too big.
fn are_small_steps(steps: &[PolStep]) -> bool
    requires { All HasFactor steps.now }
    ensures { result ≡ list_all is_small_step steps.now }
{
    for step in steps {
        if !is_small_step(step) {
            return false;
        }
    }
    true
}

/// The row that the steps leave on the stack.
fn row_left<R: LiveRows>(
    alloc: Global,
    vars: u32,
    live: &R,
    steps: &[PolStep],
) -> Result<Row, StepRefusal>
    requires { All HasFactor steps.now }
    ensures ok { IfOk result (λ row. and_then (run_steps vars (R.rows live.now) steps.now []) only_row ≡ Ok row) }
    ensures refused { IfErr result (Refuses (and_then (run_steps vars (R.rows live.now) steps.now []) only_row)) }
{
    match run_steps(alloc, vars, live, steps) {
        Err(why) => Err(why),
        Ok(stack) => only_row(stack),
    }
}

/// Makes the row of a `pol` line, of the formula's variables 1 to `vars` and of the live rows. Factors are at least 1.
pub fn pol_row<R: LiveRows>(
    alloc: Global,
    vars: u32,
    live: &R,
    steps: &[PolStep],
) -> Result<Row, StepRefusal>
    requires { All HasFactor steps.now }
    ensures ok { IfOk result (λ row. pol_row vars (R.rows live.now) steps.now ≡ Ok row) }
    ensures refused { IfErr result (Refuses (pol_row vars (R.rows live.now) steps.now)) }
{
    if !are_small_steps(steps) {
        return Err(StepRefusal::TooBig);
    }
    row_left(alloc, vars, live, steps)
}
