// A stack of rows, with weakenings that wait.
ghost use Rattle.std.specs.Prelude.{◌≡◌, [], ◌∷◌, IfOk, MatchOption, OnOk, reverse};
ghost use Rattle.pb_rows.specs.Rows.{weaken_all};
ghost use Rattle.proof_steps.specs.Waiting.{WeakensTop, weakened};

use hrt_base::NoMemory;
use pb_rows::Row;
use std::alloc::Global;
use std::marker::Model;

/// A stack of rows, seen as a list with the top one first. A weakening of the top row waits until another step needs that row, so
/// a run of them takes one pass over its terms.
#[derive(Drop)]
pub(crate) struct Stack {
    alloc: Global,
    rows: Vec<Row>,
    waiting: Vec<u32>,
}

impl Model for Stack {
    ghost use Rattle.std.specs.Prelude.{List, reverse};
    ghost use Rattle.pb_rows.specs.Terms.{PlainRow};
    ghost use Rattle.proof_steps.specs.Waiting.{weakened};

    ghost Value = { List PlainRow };

    ghost view = { λ s. weakened s.waiting.items (reverse s.rows.items) };
}

/// Weakens a row by variables in any order.
fn weaken_by(alloc: Global, row: &mut Row, vars: &mut Vec<u32>) -> Result<(), NoMemory>
    ensures { OnOk result (row.new ≡ weaken_all vars.old.items row.old) }
{
    if vars.len() == 1 {
        row.weaken(vars[0]);
        return Ok(());
    }
    vars.sort_unstable();
    row.weaken_all(alloc, vars)?;
    Ok(())
}

/// Weakens the last row by variables in any order.
fn weaken_last(alloc: Global, rows: &mut Vec<Row>, vars: &mut Vec<u32>) -> Result<(), NoMemory>
    ensures { OnOk result (reverse rows.new.items ≡ weakened vars.old.items (reverse rows.old.items)) }
{
    let Some(mut row) = rows.pop() else {
        return Ok(());
    };
    weaken_by(alloc, &mut row, vars)?;
    rows.push(row)?;
    Ok(())
}

/// Weakens the last row by the variables that wait, which wait no longer.
fn settle(alloc: Global, rows: &mut Vec<Row>, waiting: &mut Vec<u32>) -> Result<(), NoMemory>
    ensures rows { OnOk result (reverse rows.new.items ≡ weakened waiting.old.items (reverse rows.old.items)) }
    ensures none { OnOk result (waiting.new.items ≡ []) }
{
    if waiting.is_empty() {
        return Ok(());
    }
    weaken_last(alloc, rows, waiting)?;
    waiting.clear();
    Ok(())
}

impl Stack {
    /// No row.
    pub(crate) fn new(alloc: Global) -> Stack
        ensures { result ≡ [] }
    {
        Stack {
            alloc,
            rows: Vec::new(alloc),
            waiting: Vec::new(alloc),
        }
    }

    /// Puts a row on top.
    pub(crate) fn push(&mut self, row: Row) -> Result<(), NoMemory>
        ensures { OnOk result (self.new ≡ row ∷ self.old) }
    {
        settle(self.alloc, &mut self.rows, &mut self.waiting)?;
        self.rows.push(row)?;
        Ok(())
    }

    /// Takes the top row off.
    pub(crate) fn pop(&mut self) -> Result<Option<Row>, NoMemory>
        ensures { IfOk result (λ top. MatchOption top (self.old ≡ []) (λ row. self.old ≡ row ∷ self.new)) }
    {
        settle(self.alloc, &mut self.rows, &mut self.waiting)?;
        Ok(self.rows.pop())
    }

    /// Weakens the top row by a variable, and tells whether there is one.
    pub(crate) fn weaken(&mut self, var: u32) -> Result<bool, NoMemory>
        ensures { IfOk result (λ some. WeakensTop var some self.old self.new) }
    {
        let Some(row) = self.rows.last() else {
            return Ok(false);
        };
        // Its contract says that the row is in normal form.
        let _terms = row.terms();
        self.waiting.push(var)?;
        Ok(true)
    }
}
