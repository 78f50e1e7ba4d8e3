// An engine that is driven by tests.
ghost use Rattle.std.specs.Prelude.{◌≡◌, [], IfOk, IfSome, IsTrue, OnErr};
ghost use Rattle.pb_rows.specs.Rows.{IsShort};
ghost use Rattle.propagation.specs.Following.{IsOver};
ghost use Rattle.row_arena.specs.Held.{is_held};
ghost use Rattle.pb_propagate.specs.Engines.{AreKeptBelow};

use crate::checks::{is_over, is_short};
use conflict_cuts::{Outcome, propagate};
use hrt_base::{Lit, NoMemory, RowNo, Steps, Value};
use pb_propagate::{Due, Engine, Visit};
use pb_rows::Row;
use row_arena::Place;
use std::alloc::Global;
use std::marker::Model;
use std::sync::ledger::Ledger;
use std::test::Fail;

/// Adds a row, where an engine takes it, and goes back to the lowest level at which it is open.
fn add_and_go_back(
    engine: &mut Engine,
    alloc: Global,
    row: &Row,
    tag: RowNo,
) -> Result<Option<Place>, NoMemory>
    requires { AreKeptBelow engine.old }
    ensures { AreKeptBelow engine.new }
{
    if !is_over(row, engine.vars()) {
        return Ok(None);
    }
    if !is_short(row) {
        return Ok(None);
    }
    let place = engine.add_row(alloc, row, tag)?;
    match engine.lowest_open_level(place) {
        Some(level) => engine.back_to(level),
        None => {}
    }
    Ok(Some(place))
}

/// Decides a literal, where nothing is due and the literal is free, and tells whether it did.
fn decide(engine: &mut Engine, lit: Lit) -> bool
    requires { AreKeptBelow engine.old }
    ensures { AreKeptBelow engine.new }
{
    match engine.due() {
        Some(_) => return false,
        None => {}
    }
    if lit.var < 1 || lit.var > engine.vars() {
        return false;
    }
    match engine.value(lit.var) {
        Value::Free => {
            engine.decide(lit);
            true
        }
        _ => false,
    }
}

/// Visits what is due.
fn visit<L: Ledger>(engine: &mut Engine, steps: &mut Steps<L>) -> Option<Visit>
    requires { AreKeptBelow engine.old }
    ensures { AreKeptBelow engine.new }
{
    match engine.due() {
        None => None,
        Some(Due::Row(place)) => Some(engine.visit_row(place)),
        Some(Due::Literal(lit)) => Some(engine.visit_literal(lit, steps)),
    }
}

/// An engine of which no held row is open below its level.
#[derive(Drop)]
pub struct Driven {
    engine: Engine,
}

impl Model for Driven {
    ghost use Rattle.pb_propagate.specs.Engines.{AreKeptBelow, EngineState};

    ghost Value = { EngineState };

    ghost view = { λ d. d.engine };

    ghost invariant = { λ d. AreKeptBelow d.engine };
}

impl Driven {
    /// No rows, over the variables 1 to `vars`.
    pub fn new(alloc: Global, vars: u32) -> Result<Driven, NoMemory> {
        Ok(Driven {
            engine: Engine::new(alloc, vars)?,
        })
    }

    /// Adds a row and goes back to the lowest level at which it is open.
    pub fn add(&mut self, alloc: Global, row: &Row, tag: u64) -> Result<Place, Fail> {
        match add_and_go_back(&mut self.engine, alloc, row, RowNo(tag))? {
            Some(place) => Ok(place),
            None => Err("an engine doesn't take the row".into()),
        }
    }

    /// Decides a literal, where nothing is due and the literal is free, and tells whether it did.
    pub fn decide(&mut self, lit: Lit) -> bool {
        decide(&mut self.engine, lit)
    }

    /// Visits what is due until nothing is or a visited row is falsified.
    pub fn propagate<L: Ledger>(&mut self, steps: &mut Steps<L>) -> Outcome {
        propagate(&mut self.engine, steps)
    }

    /// Visits one thing that is due, or tells none.
    pub fn visit<L: Ledger>(&mut self, steps: &mut Steps<L>) -> Option<Visit> {
        visit(&mut self.engine, steps)
    }

    /// Makes the literals above a level free again.
    pub fn back_to(&mut self, level: u32) {
        self.engine.back_to(level);
    }

    /// The engine.
    pub fn engine(&self) -> &Engine {
        &self.engine
    }
}
