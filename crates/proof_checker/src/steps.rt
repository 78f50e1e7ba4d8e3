// The steps of a proof: each changes the state, or is refused.
ghost use Rattle.std.specs.Prelude.{◌≡◌, ◌<◌, ◌^◌, IsTrue, IfErr, IfOk, OnOk, Ok};
ghost use Rattle.std.specs.List.{list_all};
ghost use Rattle.row_text.specs.Rows.{is_small_row};
ghost use Rattle.proof_lines.specs.declared.line.Line.TheVariants.{Del, Pol, Rup};
ghost use Rattle.proof_lines.specs.Texts.{is_spellable_step, is_spellable_term};
ghost use Rattle.proof_rules.specs.States.{rup_row};
ghost use Rattle.proof_rules.specs.Valid.{Proving};
ghost use Rattle.proof_checker.specs.Faults.{Answers, Halts};
ghost use Rattle.proof_checker.specs.Kept.{Steps};
ghost use Rattle.proof_checker.specs.Tests.{known_terms};

use crate::fault::Fault;
use crate::state::State;
use hrt_base::{RowNo, Term};
use opb_text::Formula;
use pb_rows::{Row, RowRefusal};
use proof_lines::{PolStep, Written};
use std::alloc::Global;

/// Makes the row live that steps leave on the stack.
pub fn derive(
    alloc: Global,
    formula: &Formula,
    state: &mut State,
    steps: &[PolStep],
) -> Result<(), Fault>
    requires vars { state.old.vars ≡ formula.now.vars }
    requires next { state.old.state.next < 2 ^ 63 }
    requires made { IsTrue (list_all is_spellable_step steps.now) }
    ensures ok { OnOk result (Steps formula.now (Pol steps.now) state.old state.new) }
    ensures refused { IfErr result (Halts formula.now (Proving state.old.state) (Pol steps.now)) }
{
    let row = state.row_of_steps(alloc, formula.vars, steps)?;
    state.add(alloc, row)?;
    Ok(())
}

/// Looks for a term whose variable the formula doesn't have.
fn check_terms(vars: u32, terms: &[Term]) -> Result<(), Fault>
    ensures ok { OnOk result (known_terms vars terms.now ≡ Ok tt) }
    ensures refused { IfErr result (Answers (known_terms vars terms.now)) }
{
    for term in terms {
        if term.lit.var > vars {
            return Err(Fault::BadVariable(term.lit.var));
        }
    }
    Ok(())
}

/// Makes a row as it is written.
fn rup_row(alloc: Global, vars: u32, written: &Written) -> Result<Row, Fault>
    requires { IsTrue (is_small_row written.now) }
    ensures ok { IfOk result (λ row. rup_row vars written.now ≡ Ok row) }
    ensures refused { IfErr result (Answers (rup_row vars written.now)) }
{
    check_terms(vars, &written.terms)?;
    match Row::from_terms(alloc, &written.terms, written.at_least) {
        Ok(row) => Ok(row),
        Err(RowRefusal::TooBig) => Err(Fault::TooBig),
        Err(RowRefusal::NoMemory) => Err(Fault::NoMemory),
    }
}

/// Makes a row live that follows from the live rows by propagation.
pub fn imply(
    alloc: Global,
    formula: &Formula,
    state: &mut State,
    written: &Written,
) -> Result<(), Fault>
    requires vars { state.old.vars ≡ formula.now.vars }
    requires next { state.old.state.next < 2 ^ 63 }
    requires made { IsTrue (list_all is_spellable_term written.now.terms) }
    requires small { IsTrue (is_small_row written.now) }
    ensures ok { OnOk result (Steps formula.now (Rup written.now) state.old state.new) }
    ensures refused { IfErr result (Halts formula.now (Proving state.old.state) (Rup written.now)) }
{
    let row = rup_row(alloc, formula.vars, written)?;
    if !state.implies(alloc, &row)? {
        return Err(Fault::NotImplied);
    }
    state.add(alloc, row)?;
    Ok(())
}

/// Deletes rows, from left to right, up to the first number that isn't live.
pub fn delete(
    alloc: Global,
    formula: &Formula,
    state: &mut State,
    ids: &[RowNo],
) -> Result<(), Fault>
    ensures ok { OnOk result (Steps formula.now (Del ids.now) state.old state.new) }
    ensures refused { IfErr result (Halts formula.now (Proving state.old.state) (Del ids.now)) }
{
    state.delete(alloc, ids)?;
    Ok(())
}
