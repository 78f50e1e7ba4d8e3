// An engine beside the closures of its decisions.
ghost use Rattle.std.specs.Prelude.{◌≡◌};

use crate::driven::Driven;
use crate::reference::Reference;
use conflict_cuts::Outcome;
use hrt_base::{Lit, Steps, Term};
use pb_propagate::{Engine, Visit};
use pb_rows::Row;
use row_arena::Place;
use std::alloc::Global;
use std::sync::ledger::{Blank, Ledger};
use std::test::Fail;

/// Tells whether a variable is true or false at a level or below it.
fn stands_at(engine: &Engine, var: u32, level: u64) -> bool {
    match engine.level_of(var) {
        Some(from) => u64::from(from) <= level,
        None => false,
    }
}

/// The true literals up to a level, or only the decided ones.
fn true_literals(
    alloc: Global,
    engine: &Engine,
    level: u64,
    decided: bool,
) -> Result<Vec<Lit>, Fail> {
    let mut out = Vec::new(alloc);
    for lit in engine.trail() {
        let is_asked = !decided || engine.reason(lit.var).is_none();
        if is_asked && stands_at(engine, lit.var, level) {
            out.push(*lit)?;
        }
    }
    Ok(out)
}

/// Tells whether two lists without repetition have the same literals.
fn are_same(some: &[Lit], others: &[Lit]) -> bool {
    some.len() == others.len() && some.iter().all(|l| others.contains(l))
}

/// Tells whether the trail up to a level is the closure of the decisions up to it.
fn is_exact_at(
    alloc: Global,
    engine: &Engine,
    reference: &mut Reference,
    level: u64,
) -> Result<bool, Fail> {
    let decisions = true_literals(alloc, engine, level, true)?;
    let Some(closure) = reference.closure(alloc, &decisions)? else {
        return Ok(false);
    };
    let literals = true_literals(alloc, engine, level, false)?;
    Ok(are_same(&closure, &literals))
}

/// Tells whether the trail is the closure at each of so many levels.
fn is_exact_below(
    alloc: Global,
    engine: &Engine,
    reference: &mut Reference,
    levels: u64,
) -> Result<bool, Fail> {
    for level in 0..levels {
        if !is_exact_at(alloc, engine, reference, level)? {
            return Ok(false);
        }
    }
    Ok(true)
}

/// Tells whether the rows and all decisions are refuted.
fn is_refuted(alloc: Global, engine: &Engine, reference: &mut Reference) -> Result<bool, Fail> {
    let decisions = true_literals(alloc, engine, u64::from(engine.level()), true)?;
    Ok(reference.closure(alloc, &decisions)?.is_none())
}

/// An engine and the same rows, of which the closures are known otherwise.
#[derive(Drop)]
pub struct Compared<L: Ledger> {
    driven: Driven,
    reference: Reference,
    steps: Steps<L>,
    rows: u64,
}

impl<L: Ledger> Compared<L> {
    /// No rows, over the variables 1 to `vars`.
    pub fn new(alloc: Global, blank: Blank, vars: u32) -> Result<Compared<L>, Fail>
        requires name { blank.name ≡ L.name }
        requires parts { blank.parts ≡ L.parts }
        requires one { blank.parts ≡ 1 }
    {
        Ok(Compared {
            driven: Driven::new(alloc, vars)?,
            reference: Reference::new(alloc, vars)?,
            steps: Steps::open(blank),
            rows: 0,
        })
    }

    /// These rows, given by their terms and right sides, over the variables 1 to `vars`. It fails where they are refuted without
    /// decisions.
    pub fn of(
        alloc: Global,
        blank: Blank,
        vars: u32,
        rows: &[(&[Term], i128)],
    ) -> Result<Compared<L>, Fail>
        requires name { blank.name ≡ L.name }
        requires parts { blank.parts ≡ L.parts }
        requires one { blank.parts ≡ 1 }
    {
        let mut engine = Compared::<L>::new(alloc, blank, vars)?;
        for row in rows {
            engine.add(alloc, row.0, row.1)?;
        }
        match engine.propagate(alloc)? {
            Outcome::Quiet => Ok(engine),
            Outcome::Conflict(_) => Err("the rows are refuted".into()),
        }
    }

    /// Adds the row of some terms, and goes back to the lowest level at which it is open.
    pub fn add(&mut self, alloc: Global, terms: &[Term], at_least: i128) -> Result<Place, Fail> {
        let row = Row::from_terms(alloc, terms, at_least)?;
        self.add_row(alloc, &row)
    }

    /// Adds a row, and goes back to the lowest level at which it is open.
    pub fn add_row(&mut self, alloc: Global, row: &Row) -> Result<Place, Fail> {
        self.rows = self.rows.checked_add(1).ok_or("no more rows")?;
        self.reference.add(alloc, row, self.rows)?;
        self.driven.add(alloc, row, self.rows)
    }

    /// Decides a free literal while nothing is due, and propagates.
    pub fn decide(&mut self, alloc: Global, lit: Lit) -> Result<Outcome, Fail> {
        if !self.driven.decide(lit) {
            return Err("the literal can't be decided".into());
        }
        self.propagate(alloc)
    }

    /// Propagates, and fails where the answer or the trail at a level aren't as the closures say.
    pub fn propagate(&mut self, alloc: Global) -> Result<Outcome, Fail> {
        let outcome = self.driven.propagate(&mut self.steps);
        let engine = self.driven.engine();
        let below = u64::from(engine.level());
        let refuted = is_refuted(alloc, engine, &mut self.reference)?;
        let levels = if refuted { below } else { below + 1 };
        if !is_exact_below(alloc, engine, &mut self.reference, levels)? {
            return Err("the trail isn't the closure".into());
        }
        if refuted != matches!(outcome, Outcome::Conflict(_)) {
            return Err("the answer isn't that of the closure".into());
        }
        Ok(outcome)
    }

    /// Visits one thing that is due, or tells none.
    pub fn visit(&mut self) -> Option<Visit> {
        self.driven.visit(&mut self.steps)
    }

    /// Makes the literals above a level free again.
    pub fn back_to(&mut self, level: u32) {
        self.driven.back_to(level);
    }

    /// The engine.
    pub fn engine(&self) -> &Engine {
        self.driven.engine()
    }
}
