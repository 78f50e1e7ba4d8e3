// What the lines so far say.
ghost use Rattle.std.specs.Prelude.{◌≡◌, [], None, option_map, IfErr, OnOk};
ghost use Rattle.row_text.specs.Rows.{read_row};
ghost use Rattle.row_text.specs.Tokens.{tokens};
ghost use Rattle.opb_text.specs.Drafts.{drafted, refusal_behind, with_statement};
ghost use Rattle.opb_text.specs.Refusal.{IsRefusedBy};
ghost use Rattle.opb_text.specs.Statements.{constraint, minimize, read_objective, read_statement};

use crate::constraint::{normal_row, written_row};
use crate::limits::{MOST_ROWS, MOST_VARIABLES, greatest_variable};
use crate::objective::read_objective;
use crate::{Formula, OpbRefusal};
use hrt_base::Term;
use pb_rows::Row;
use row_text::next_token;
use std::alloc::Global;
use std::marker::Model;

/// The formula that the lines so far say, and whether any of them says something.
#[derive(Drop)]
pub struct Draft {
    vars: u32,
    objective: Vec<Term>,
    rows: Vec<Row>,
    begun: bool,
}

impl Model for Draft {
    ghost use Rattle.opb_text.specs.Drafts.{Drafted};

    ghost Value = { Drafted };

    ghost view = { λ d. record {
      formula = record { vars = d.vars; objective = d.objective.items; rows = d.rows.items };
      begun = d.begun;
    } };
}

impl Draft {
    /// Before the first line.
    pub fn new(alloc: Global) -> Draft
        ensures { result ≡ drafted [] }
    {
        Draft {
            vars: 0,
            objective: Vec::new(alloc),
            rows: Vec::new(alloc),
            begun: false,
        }
    }

    /// The formula that all lines say.
    pub fn into_formula(self) -> Formula
        ensures { result ≡ self.formula }
    {
        Formula {
            vars: self.vars,
            objective: self.objective,
            rows: self.rows,
        }
    }

    /// Takes what line `number` says.
    pub fn add_line(&mut self, alloc: Global, line: &[u8], number: u32) -> Result<(), OpbRefusal>
        ensures fine { OnOk result (refusal_behind number self.old (read_statement (tokens line.now)) ≡ None) }
        ensures taken { OnOk result (self.new ≡ with_statement self.old (read_statement (tokens line.now))) }
        ensures refused { IfErr result (IsRefusedBy (refusal_behind number self.old (read_statement (tokens line.now)))) }
    {
        let Some((first, rest)) = next_token(line) else {
            return Ok(());
        };
        if first.first() == Some(&b'*') {
            return Ok(());
        }
        if first == b"min:".as_slice() {
            return self.add_objective(alloc, rest, number);
        }
        self.add_row(alloc, line, number)
    }

    // Takes the terms behind `min:`.
    fn add_objective(&mut self, alloc: Global, line: &[u8], number: u32) -> Result<(), OpbRefusal>
        ensures fine { OnOk result (refusal_behind number self.old (option_map minimize (read_objective (tokens line.now))) ≡ None) }
        ensures taken { OnOk result (self.new ≡ with_statement self.old (option_map minimize (read_objective (tokens line.now)))) }
        ensures refused { IfErr result (IsRefusedBy (refusal_behind number self.old (option_map minimize (read_objective (tokens line.now))))) }
    {
        if self.begun {
            return Err(OpbRefusal::Syntax(number));
        }
        let terms = read_objective(alloc, line, number)?;
        self.vars = self.vars.max(greatest_variable(&terms));
        self.objective = terms;
        self.begun = true;
        Ok(())
    }

    // Takes a row.
    fn add_row(&mut self, alloc: Global, line: &[u8], number: u32) -> Result<(), OpbRefusal>
        ensures fine { OnOk result (refusal_behind number self.old (option_map constraint (read_row (tokens line.now))) ≡ None) }
        ensures taken { OnOk result (self.new ≡ with_statement self.old (option_map constraint (read_row (tokens line.now)))) }
        ensures refused { IfErr result (IsRefusedBy (refusal_behind number self.old (option_map constraint (read_row (tokens line.now))))) }
    {
        let written = written_row(alloc, line, number)?;
        let row = normal_row(alloc, &written, number)?;
        let greatest = greatest_variable(&written.terms);
        if greatest > MOST_VARIABLES {
            return Err(OpbRefusal::TooManyVariables(number));
        }
        if self.rows.len() >= MOST_ROWS {
            return Err(OpbRefusal::TooManyRows(number));
        }
        self.rows.push(row)?;
        self.vars = self.vars.max(greatest);
        self.begun = true;
        Ok(())
    }
}
