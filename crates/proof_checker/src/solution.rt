// Solutions: the points that their literals name, and whether the formula's rows hold there.
ghost use Rattle.std.specs.Prelude.{◌≡◌, ◌<◌, ◌≤◌, ◌^◌, IsTrue, IfErr, IfOk, OnOk, Ok, Some, None, Contains, false, length, map, replicate};
ghost use Rattle.std.specs.List.{All, list_all};
ghost use Rattle.pb_rows.specs.Points.{IsCovered, point_of};
ghost use Rattle.opb_text.specs.Limits.{IsWithinLimits};
ghost use Rattle.proof_lines.specs.declared.line.Line.TheVariants.{Soli};
ghost use Rattle.proof_lines.specs.Texts.{is_spellable_literal};
ghost use Rattle.proof_rules.specs.States.{is_full};
ghost use Rattle.proof_rules.specs.Valid.{Proving};
ghost use Rattle.proof_checker.specs.Faults.{Answers, Halts, IsNotFullWhere};
ghost use Rattle.proof_checker.specs.Kept.{Steps};
ghost use Rattle.proof_checker.specs.Tests.{AreNamed, IsNamedPoint, holding_rows, known_literals};

use crate::fault::Fault;
use crate::state::State;
use hrt_base::{Lit, NoMemory};
use opb_text::Formula;
use pb_rows::Row;
use proof_steps::{improvement_row, objective_value};
use std::alloc::Global;

/// Looks for a literal whose variable the formula doesn't have.
fn check_literals(vars: u32, literals: &[Lit]) -> Result<(), Fault>
    ensures ok { OnOk result (known_literals vars literals.now ≡ Ok tt) }
    ensures refused { IfErr result (Answers (known_literals vars literals.now)) }
{
    for lit in literals {
        if lit.var > vars {
            return Err(Fault::BadVariable(lit.var));
        }
    }
    Ok(())
}

/// No value for any of so many variables.
fn no_values(alloc: Global, vars: u32) -> Result<Vec<Option<bool>>, NoMemory>
    ensures { IfOk result (λ values. values.items ≡ replicate vars None) }
{
    let mut values = Vec::with_capacity(alloc, vars as usize)?;
    for _ in 0..vars {
        values.push(None)?;
    }
    Ok(values)
}

/// The values that literals give, of which no two name one variable. Variable v stands at place v - 1.
fn named_values(alloc: Global, vars: u32, literals: &[Lit]) -> Result<Vec<Option<bool>>, Fault>
    requires { All (λ l. IsCovered vars l.var) literals.now }
    ensures ok { IfOk result (λ values. AreNamed vars literals.now values.items) }
    ensures refused { IfErr result (IsNotFullWhere (is_full vars literals.now ≡ false)) }
{
    let mut values = no_values(alloc, vars)?;
    for lit in literals {
        let place = (lit.var - 1) as usize;
        if values[place].is_some() {
            return Err(Fault::NotFull);
        }
        values[place] = Some(!lit.neg);
    }
    Ok(values)
}

/// The point of values, if there are all.
fn full_point(alloc: Global, values: &[Option<bool>]) -> Result<Vec<bool>, Fault>
    ensures ok { IfOk result (λ point. map Some point.items ≡ values.now) }
    ensures refused { IfErr result (IsNotFullWhere (Contains values.now None)) }
{
    let mut point = Vec::with_capacity(alloc, values.len())?;
    for value in values {
        match value {
            None => return Err(Fault::NotFull),
            Some(value) => point.push(*value)?,
        }
    }
    Ok(point)
}

/// The point that literals name, if they name each variable once.
fn named_point(alloc: Global, vars: u32, literals: &[Lit]) -> Result<Vec<bool>, Fault>
    requires { All (λ l. IsCovered vars l.var) literals.now }
    ensures ok { IfOk result (λ point. IsNamedPoint vars literals.now point.items) }
    ensures refused { IfErr result (IsNotFullWhere (is_full vars literals.now ≡ false)) }
{
    let values = named_values(alloc, vars, literals)?;
    let point = full_point(alloc, &values)?;
    Ok(point)
}

/// Looks for a row that doesn't hold at a point.
fn check_rows(rows: &[Row], point: &[bool]) -> Result<(), Fault>
    requires { All (λ row. All (λ t. IsCovered (length point.now) t.lit.var) row.terms) rows.now }
    ensures ok { OnOk result (holding_rows (point_of point.now) rows.now ≡ Ok tt) }
    ensures refused { IfErr result (Answers (holding_rows (point_of point.now) rows.now)) }
{
    let mut number: u64 = 0;
    for row in rows {
        number += 1;
        if !row.holds(point) {
            return Err(Fault::NotASolution(number));
        }
    }
    Ok(())
}

/// Logs a solution: a full point at which every row of the formula holds. The row that asks for a better one becomes live.
pub fn log(
    alloc: Global,
    formula: &Formula,
    state: &mut State,
    literals: &[Lit],
) -> Result<(), Fault>
    requires limits { IsWithinLimits formula.now }
    requires vars { state.old.vars ≡ formula.now.vars }
    requires next { state.old.state.next < 2 ^ 63 }
    requires made { IsTrue (list_all is_spellable_literal literals.now) }
    ensures ok { OnOk result (Steps formula.now (Soli literals.now) state.old state.new) }
    ensures refused { IfErr result (Halts formula.now (Proving state.old.state) (Soli literals.now)) }
{
    check_literals(formula.vars, literals)?;
    let point = named_point(alloc, formula.vars, literals)?;
    check_rows(&formula.rows, &point)?;
    let value = objective_value(&formula.objective, &point);
    let row = improvement_row(alloc, &formula.objective, value)?;
    state.log(alloc, value, row)?;
    Ok(())
}
