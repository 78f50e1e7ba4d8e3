// The rows.
ghost use Rattle.std.specs.Prelude.{◌≡◌, ◌<◌, ◌≤◌, ◌^◌, [], ◌∷◌, ◌++◌, pos, IsTrue, IsFalse, IfOk, OnErr, length, slice_index_or};
ghost use Rattle.pb_rows.specs.Rows.{IsShort};
ghost use Rattle.propagation.specs.Following.{IsOver};
ghost use Rattle.row_arena.specs.Held.{AreHeld, IsKept, is_held, row_at, tag_at};

use hrt_base::{NoMemory, RowNo, Term};
use pb_rows::Row;
use std::alloc::Global;
use std::marker::Model;

/// Where a row stands.
#[derive(Clone, Copy, Debug, PartialEq, Eq)]
pub struct Place(pub usize);

/// A row as it is kept, and the number that it goes by.
#[derive(Drop)]
pub struct Stored {
    pub terms: Vec<Term>,
    pub degree: u128,
    pub tag: RowNo,
}

/// The degree of a row as an unsigned number.
fn degree_of(row: &Row) -> u128
    ensures { result ≡ row.now.degree }
{
    let degree = row.degree();
    degree as u128
}

/// A degree as a signed number.
fn signed(degree: u128) -> i128
    requires { degree ≤ 2 ^ 60 }
    ensures { result ≡ pos degree }
{
    degree as i128
}

/// Rows over so many variables, each at its place. It is seen as the number of variables and the rows, oldest first.
#[derive(Drop)]
pub struct Arena {
    vars: u32,
    rows: Vec<Stored>,
}

impl Model for Arena {
    ghost use Rattle.std.specs.Prelude.{◌<◌, ◌^◌};
    ghost use Rattle.row_arena.specs.Held.{AreHeld, HeldRows};
    ghost use Rattle.row_arena.specs.Stored.{placed_from};

    ghost Value = { HeldRows };

    ghost view = { λ a. record { vars = a.vars; held = placed_from 0 a.rows.items } };

    ghost invariant = { λ a. AreHeld a.vars (placed_from 0 a.rows.items) };
}

impl Arena {
    /// No row.
    pub fn new(alloc: Global, vars: u32) -> Result<Arena, NoMemory>
        ensures { IfOk result (λ arena. arena ≡ record { vars = vars; held = [] }) }
    {
        Ok(Arena {
            vars,
            rows: Vec::new(alloc),
        })
    }

    /// Adds a copy of a row behind all others, at a place where no row stands.
    pub fn push(&mut self, alloc: Global, row: &Row, tag: RowNo) -> Result<Place, NoMemory>
        requires covered { IsOver self.old.vars row.now }
        requires short { IsShort row.now }
        ensures ok { IfOk result (λ place. self.new ≡ record self.old { held = self.old.held ++ record { place = place.0; row = row.now; tag = tag.0 } ∷ [] }) }
        ensures fresh { IfOk result (λ place. IsFalse (is_held place.0 self.old.held)) }
        ensures kept { AreHeld self.new.vars self.new.held }
        ensures err { OnErr result (self.new ≡ self.old) }
    {
        let place = Place(self.rows.len());
        let terms = Vec::from_slice(alloc, row.terms())?;
        let degree = degree_of(row);
        self.rows.push(Stored { terms, degree, tag })?;
        Ok(place)
    }

    /// How many terms a row has.
    pub fn len(&self, place: Place) -> usize
        requires { IsTrue (is_held place.0 self.now.held) }
        ensures value { result ≡ length (row_at place.0 self.now.held).terms }
        ensures kept { IsKept self.now.vars (row_at place.0 self.now.held) }
    {
        self.rows[place.0].terms.len()
    }

    /// A term of a row.
    pub fn term(&self, place: Place, k: usize) -> Term
        requires held { IsTrue (is_held place.0 self.now.held) }
        requires term { k < length (row_at place.0 self.now.held).terms }
        ensures { result ≡ slice_index_or (row_at place.0 self.now.held).terms k result }
    {
        self.rows[place.0].terms[k]
    }

    /// The degree of a row.
    pub fn degree(&self, place: Place) -> i128
        requires { IsTrue (is_held place.0 self.now.held) }
        ensures { result ≡ pos (row_at place.0 self.now.held).degree }
    {
        signed(self.rows[place.0].degree)
    }

    /// The number that a row goes by.
    pub fn tag(&self, place: Place) -> RowNo
        requires { IsTrue (is_held place.0 self.now.held) }
        ensures { result.0 ≡ tag_at place.0 self.now.held }
    {
        self.rows[place.0].tag
    }
}
