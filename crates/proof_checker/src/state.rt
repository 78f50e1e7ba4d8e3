// The state of a proof.
ghost use Rattle.std.specs.Prelude.{◌≡◌, ◌+◌, ◌<◌, ◌≤◌, ◌^◌, ◌↔◌, IsTrue, IfOk, IfErr, OnOk, Ok, length};
ghost use Rattle.std.specs.List.{All, list_all};
ghost use Rattle.pb_rows.specs.Terms.{IsRisingFrom};
ghost use Rattle.pb_rows.specs.Closure.{Implies, Refuted, none};
ghost use Rattle.pb_rows.specs.Formula.{numbered_from};
ghost use Rattle.opb_text.specs.Limits.{IsWithinLimits, most_rows};
ghost use Rattle.propagation.specs.Following.{IsOver};
ghost use Rattle.proof_lines.specs.Texts.{is_spellable_step};
ghost use Rattle.proof_rules.specs.Pol.{pol_row};
ghost use Rattle.proof_rules.specs.States.{deleted, first_state, live_rows};
ghost use Rattle.proof_rules.specs.Claims.{HasStronger};
ghost use Rattle.proof_rules.specs.Sound.{HasNormalRows};
ghost use Rattle.proof_checker.specs.Faults.{Answers};
ghost use Rattle.proof_checker.specs.Kept.{StaysKept, with_new_row, with_rows, with_solution};

use crate::fault::Fault;
use hrt_base::{NoMemory, RowNo};
use opb_text::Formula;
use pb_rows::Row;
use proof_lines::PolStep;
use proof_steps::{LiveRows, pol_row, smaller};
use rup_engine::Live;
use std::alloc::Global;
use std::marker::Model;

/// The live rows, the number of the next one, and the least value logged, if any is.
#[derive(Drop)]
pub struct State {
    live: Live,
    next: u64,
    least: Option<i128>,
}

impl Model for State {
    ghost use Rattle.proof_checker.specs.Kept.{IsKeptOver, Kept};

    ghost Value = { Kept };

    ghost view = { λ s. record { vars = s.live.vars; state = record { live = s.live.rows; next = s.next; least = s.least } } };

    ghost invariant = { λ s. IsKeptOver s.live.vars (record { live = s.live.rows; next = s.next; least = s.least }) };
}

/// The rows of a formula, numbered from 1.
fn first_rows(alloc: Global, vars: u32, rows: &[Row]) -> Result<Live, NoMemory>
    requires over { All (IsOver vars) rows.now }
    requires few { length rows.now ≤ most_rows }
    ensures live { IfOk result (λ live. live ≡ record { vars = vars; rows = numbered_from 1 rows.now }) }
    ensures normal { OnOk result (All (λ row. IsRisingFrom 0 row.terms) rows.now) }
{
    let mut live = Live::new(alloc, vars)?;
    let mut next = 1;
    for row in rows {
        // Its contract says that the row is in normal form.
        let _terms = row.terms();
        let copy = row.copy(alloc)?;
        live.add(alloc, RowNo(next), copy)?;
        next += 1;
    }
    Ok(live)
}

/// Removes rows, from left to right, up to the first number that isn't live.
fn remove_all(alloc: Global, live: &mut Live, ids: &[RowNo]) -> Result<(), Fault>
    ensures vars { live.new.vars ≡ live.old.vars }
    ensures ok { OnOk result (deleted ids.now live.old.rows ≡ Ok live.new.rows) }
    ensures refused { IfErr result (Answers (deleted ids.now live.old.rows)) }
    ensures kept { StaysKept live.old.vars live.old.rows live.new.rows }
{
    for id in ids {
        if !live.remove(alloc, *id)? {
            return Err(Fault::BadId(id.0));
        }
    }
    Ok(())
}

impl State {
    /// The state in which a proof of a formula begins.
    pub fn new(alloc: Global, formula: &Formula) -> Result<State, NoMemory>
        requires { IsWithinLimits formula.now }
        ensures is { IfOk result (λ s. s ≡ record { vars = formula.now.vars; state = first_state formula.now }) }
        ensures normal { OnOk result (HasNormalRows formula.now) }
    {
        let live = first_rows(alloc, formula.vars, &formula.rows)?;
        Ok(State {
            live,
            next: formula.rows.len() as u64 + 1,
            least: None,
        })
    }

    /// The least value logged.
    pub fn least(&self) -> Option<i128>
        ensures { result ≡ self.now.state.least }
    {
        self.least
    }

    /// Makes the row that steps leave on the stack.
    pub fn row_of_steps(&self, alloc: Global, vars: u32, steps: &[PolStep]) -> Result<Row, Fault>
        requires vars { self.now.vars ≡ vars }
        requires made { IsTrue (list_all is_spellable_step steps.now) }
        ensures ok { IfOk result (λ row. pol_row vars self.now.state.live steps.now ≡ Ok row) }
        ensures over { IfOk result (IsOver vars) }
        ensures refused { IfErr result (Answers (pol_row vars self.now.state.live steps.now)) }
    {
        let _live = &self.live;
        match pol_row(alloc, vars, self, steps) {
            Ok(row) => Ok(row),
            Err(refusal) => Err(Fault::of_steps(refusal)),
        }
    }

    /// Makes a row live.
    pub fn add(&mut self, alloc: Global, row: Row) -> Result<(), NoMemory>
        requires over { IsOver self.old.vars row }
        requires next { self.old.state.next < 2 ^ 63 }
        ensures { OnOk result (self.new ≡ with_new_row row self.old) }
    {
        self.live.add(alloc, RowNo(self.next), row)?;
        self.next += 1;
        Ok(())
    }

    /// Logs the value of a solution, and makes the row live that asks for a better one.
    pub fn log(&mut self, alloc: Global, value: i128, row: Row) -> Result<(), NoMemory>
        requires over { IsOver self.old.vars row }
        requires next { self.old.state.next < 2 ^ 63 }
        ensures { OnOk result (self.new ≡ with_solution value row self.old) }
    {
        self.add(alloc, row)?;
        self.least = Some(smaller(self.least, value));
        Ok(())
    }

    /// Deletes rows, from left to right, up to the first number that isn't live.
    pub fn delete(&mut self, alloc: Global, ids: &[RowNo]) -> Result<(), Fault>
        ensures ok { OnOk result (deleted ids.now self.old.state.live ≡ Ok self.new.state.live) }
        ensures is { OnOk result (self.new ≡ with_rows self.new.state.live self.old) }
        ensures refused { IfErr result (Answers (deleted ids.now self.old.state.live)) }
    {
        remove_all(alloc, &mut self.live, ids)
    }

    /// Tells whether a row follows from the live rows by propagation.
    pub fn implies(&mut self, alloc: Global, row: &Row) -> Result<bool, NoMemory>
        requires { IsOver self.old.vars row.now }
        ensures is { IfOk result (λ implied. IsTrue implied ↔ Implies (live_rows self.old.state) row.now) }
        ensures same { self.new ≡ self.old }
    {
        let used = self.live.refutes(alloc, row)?;
        Ok(used.is_some())
    }

    /// Tells whether the live rows are refuted.
    pub fn is_refuted(&mut self, alloc: Global) -> Result<bool, NoMemory>
        ensures is { IfOk result (λ refuted. IsTrue refuted ↔ Refuted (live_rows self.old.state) none) }
        ensures same { self.new ≡ self.old }
    {
        let mut closed = Vec::new(alloc);
        self.live.closure(alloc, &[], &mut closed)
    }

    /// Tells whether a live row has the terms of this one, and at least its degree.
    pub fn has_stronger(&self, row: &Row) -> bool
        ensures { IsTrue result ↔ HasStronger self.now.state row.now }
    {
        self.live.has_stronger(row)
    }
}

impl LiveRows for State {
    ghost rows = { λ s. s.state.live };

    fn row_of(&self, id: RowNo) -> Option<&Row> {
        self.live.get(id)
    }
}
