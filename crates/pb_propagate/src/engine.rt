// The engine.
ghost use Rattle.std.specs.Prelude.{◌≡◌, ◌==◌, ◌≤◌, ◌<◌, ◌+◌, [], ◌∷◌, ◌++◌, IsTrue, IsFalse, IfNone, IfOk, IfSome, OnErr, if◌then◌else◌, filter, length, nat_lt, not, slice_index_or, None};
ghost use Rattle.pb_rows.specs.Terms.{opposite_lit};
ghost use Rattle.pb_rows.specs.Points.{IsCovered};
ghost use Rattle.pb_rows.specs.Rows.{IsShort};
ghost use Rattle.propagation.specs.Following.{IsOver};
ghost use Rattle.row_arena.specs.Held.{is_held, row_at};
ghost use Rattle.pb_propagate.specs.Entries.{is_reason_in, level_in, level_of, lits_of, reason_in, set_of, up_to, value_in};
ghost use Rattle.pb_propagate.specs.Engines.{AreKept, IsIdle, IsKeptBelow, IsLowestOpen, is_due_literal, is_due_row};
ghost use Rattle.pb_propagate.specs.Moments.{IsInOrder, IsSound};
ghost use Rattle.pb_propagate.specs.Parts.{AreDistinct};
ghost use Rattle.pb_propagate.specs.Tables.{number_of};
ghost use Rattle.pb_propagate.specs.Visits.{IsDue, VisitsLiteral, VisitsRow};

use crate::scanning::scan;
use crate::serving::{lowest_open, serve};
use crate::standing::sweep;
use crate::trail::Trail;
use crate::visit::{Due, Visit};
use hrt_base::{Lit, NoMemory, RowNo, Steps, Value};
use level_sweep::Standing;
use pb_rows::Row;
use row_arena::{Arena, Place};
use std::alloc::Global;
use std::cell::RefCell;
use std::marker::Model;
use std::sync::ledger::Ledger;

/// Tells whether a place stands at a place of a list.
fn stands_at(places: &[Place], k: usize, place: Place) -> bool
    requires { k < length places.now }
    ensures { result ≡ ((slice_index_or places.now k place).0 == place.0) }
{
    places[k].0 == place.0
}

/// Takes a place from a list in which none stands twice. It looks at the last one alone where that is the place.
fn take_off(places: &mut Vec<Place>, place: Place)
    requires { AreDistinct places.old.items }
    ensures { places.new.items ≡ filter (λ p. not (place.0 == p.0)) places.old.items }
{
    let count = places.len();
    if count > 0 && stands_at(places, count - 1, place) {
        places.truncate(count - 1);
        return;
    }
    places.retain(|p| place.0 != p.0);
}

/// Held rows, a trail of literals that were decided or that those rows propagated, and what is still to be visited. It is seen as the
/// number of variables, the held rows, the trail, and the due rows and literals.
#[derive(Drop)]
pub struct Engine {
    arena: Arena,
    places: Vec<Place>,
    trail: Trail,
    due_rows: Vec<Place>,
    room: RefCell<Vec<Standing>>,
}

impl Model for Engine {
    ghost use Rattle.std.specs.Prelude.{map};
    ghost use Rattle.pb_propagate.specs.Engines.{EngineState};
    ghost use Rattle.pb_propagate.specs.Parts.{IsEngine, shown};

    ghost Value = { EngineState };

    ghost view = { λ e. shown e.arena e.trail e.due_rows.items };

    ghost invariant = { λ e. IsEngine e.arena e.trail e.places.items e.due_rows.items };
}

impl Engine {
    /// No rows, and nothing true, over the variables 1 to `vars`.
    #[tactic(auto, using(crate::proofs::DueRows::distinct_none))]
    pub fn new(alloc: Global, vars: u32) -> Result<Engine, NoMemory>
        ensures { IfOk result (λ e. e ≡ record { vars = vars; held = []; trail = []; due_rows = []; due_literals = [] }) }
    {
        Ok(Engine {
            arena: Arena::new(alloc, vars)?,
            places: Vec::new(alloc),
            trail: Trail::new(alloc, vars)?,
            due_rows: Vec::new(alloc),
            room: RefCell::new(Vec::new(alloc)),
        })
    }

    /// Adds a row behind all others, which is due then. The caller is to go back to its lowest open level before it visits anything.
    pub fn add_row(&mut self, alloc: Global, row: &Row, tag: RowNo) -> Result<Place, NoMemory>
        requires covered { IsOver self.old.vars row.now }
        requires short { IsShort row.now }
        ensures ok { IfOk result (λ place. self.new ≡ record self.old { held = self.old.held ++ record { place = place.0; row = row.now; tag = tag.0 } ∷ []; due_rows = self.old.due_rows ++ place.0 ∷ [] }) }
        ensures fresh { IfOk result (λ place. IsFalse (is_held place.0 self.old.held)) }
        ensures err { OnErr result (self.new ≡ self.old) }
    {
        self.places.reserve(1)?;
        self.due_rows.reserve(1)?;
        let room = self.room.get_mut();
        room.clear();
        room.reserve(row.terms().len())?;
        let place = self.arena.push(alloc, row, tag)?;
        self.places.push_reserved(place);
        self.due_rows.push_reserved(place);
        Ok(place)
    }

    /// The number of variables.
    pub fn vars(&self) -> u32
        ensures { result ≡ self.now.vars }
    {
        self.trail.vars()
    }

    /// The least level at which a row is open, or none.
    pub fn lowest_open_level(&self, place: Place) -> Option<u32>
        requires { IsTrue (is_held place.0 self.now.held) }
        ensures { IsLowestOpen self.now (row_at place.0 self.now.held) result }
    {
        let Ok(mut room) = self.room.try_borrow_mut() else {
            return lowest_open(&self.arena, place, &self.trail);
        };
        if room.capacity() < self.arena.len(place) {
            return lowest_open(&self.arena, place, &self.trail);
        }
        sweep(&self.arena, place, &self.trail, &mut room)
    }

    /// Opens a level with a free literal, while nothing is due.
    pub fn decide(&mut self, lit: Lit)
        requires idle { IsIdle self.old }
        requires covered { IsCovered self.old.vars lit.var }
        requires untrue { IsFalse (set_of self.old.trail lit) }
        requires unfalse { IsFalse (set_of self.old.trail (opposite_lit lit)) }
        ensures { self.new ≡ record self.old { trail = self.old.trail ++ record { lit = lit; reason = None } ∷ []; due_literals = opposite_lit lit ∷ [] } }
    {
        self.trail.decide(lit);
    }

    /// Something that is due, or none where nothing is. Then no held row is open at any level.
    pub fn due(&self) -> Option<Due>
        ensures due { IfSome result (IsDue self.now) }
        ensures none { IfNone result (IsIdle self.now) }
        ensures kept { IfNone result (AreKept self.now) }
        ensures order { IsInOrder self.now }
    {
        let literals = self.trail.due();
        match self.due_rows.last() {
            Some(place) => Some(Due::Row(*place)),
            None => match literals.last() {
                Some(lit) => Some(Due::Literal(*lit)),
                None => None,
            },
        }
    }

    /// Looks at a due row that is open at no level below the engine's: tells whether it is falsified, and otherwise makes true what it
    /// propagates. It takes no memory.
    pub fn visit_row(&mut self, place: Place) -> Visit
        requires due { IsTrue (is_due_row place.0 self.old) }
        requires kept { IsKeptBelow self.old (row_at place.0 self.old.held) }
        ensures does { VisitsRow self.old self.new place.0 result }
        ensures sound { IsSound self.new }
    {
        if serve(&self.arena, place, &mut self.trail) {
            return Visit::Falsified(place);
        }
        take_off(&mut self.due_rows, place);
        Visit::Done
    }

    /// Looks at the rows that watch a due literal: tells one that is falsified, and otherwise makes true what they propagate. It takes no
    /// memory.
    pub fn visit_literal<L: Ledger>(&mut self, lit: Lit, steps: &mut Steps<L>) -> Visit
        requires { IsTrue (is_due_literal lit self.old) }
        ensures does { VisitsLiteral self.old self.new lit result }
        ensures sound { IsSound self.new }
    {
        match scan(
            &self.arena,
            &self.places,
            &self.due_rows,
            &mut self.trail,
            lit,
            steps,
        ) {
            Some(place) => Visit::Falsified(place),
            None => {
                self.trail.settle(lit);
                Visit::Done
            }
        }
    }

    /// Makes the literals above a level free again. It leaves the held rows and the due rows.
    pub fn back_to(&mut self, level: u32)
        ensures { self.new ≡ record self.old { trail = up_to level self.old.trail; due_literals = (if nat_lt level (level_of self.old.trail) then [] else self.old.due_literals) } }
    {
        self.trail.back_to(level);
    }

    /// The value of a variable.
    pub fn value(&self, var: u32) -> Value
        ensures { result ≡ value_in self.now.trail var }
    {
        self.trail.value(var)
    }

    /// The level: how many literals are decided.
    pub fn level(&self) -> u32
        ensures value { result ≡ level_of self.now.trail }
        ensures order { IsInOrder self.now }
    {
        self.trail.level()
    }

    /// The level at which a variable became true or false, or none where it is free.
    pub fn level_of(&self, var: u32) -> Option<u32>
        ensures { result ≡ level_in self.now.trail var }
    {
        self.trail.level_of(var)
    }

    /// How many variables are free.
    pub fn free_count(&self) -> u32
        ensures { result + length self.now.trail ≡ self.now.vars }
    {
        self.trail.vars() - self.trail.literals().len() as u32
    }

    /// The true literals, oldest first.
    pub fn trail(&self) -> &[Lit]
        ensures value { result.now ≡ lits_of self.now.trail }
        ensures order { IsInOrder self.now }
    {
        self.trail.literals()
    }

    /// The row that propagated a variable's literal, or none where it was decided or the variable is free.
    pub fn reason(&self, var: u32) -> Option<Place>
        ensures { number_of result ≡ reason_in self.now.trail var }
    {
        self.trail.reason(var)
    }

    /// Tells whether a row propagated a literal that is true.
    pub fn is_reason(&self, place: Place) -> bool
        ensures { result ≡ is_reason_in self.now.trail place.0 }
    {
        self.trail.is_reason(place)
    }

    /// The held rows.
    pub fn arena(&self) -> &Arena
        ensures { result.now ≡ record { vars = self.now.vars; held = self.now.held } }
    {
        &self.arena
    }
}
