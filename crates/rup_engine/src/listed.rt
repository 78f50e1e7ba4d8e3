// Rows that are listed with their literals.
ghost use Rattle.std.specs.Prelude.{◌≡◌, ◌≤◌, ◌↔◌, Contains, [], ◌∷◌, ◌++◌, IsTrue, IsFalse, IsSome, IfOk, IfSome, OnOk, OnErr};
ghost use Rattle.std.specs.List.{All, IsDistinct};
ghost use Rattle.std.specs.Option.{option_copied};
ghost use Rattle.pb_rows.specs.Terms.{PlainRow};
ghost use Rattle.pb_rows.specs.Points.{IsCovered};
ghost use Rattle.pb_rows.specs.Closure.{Implies, IsClosure, Refuted, among, is_same_lit};
ghost use Rattle.pb_rows.specs.Formula.{is_numbered, row_of, rows_of, without};
ghost use Rattle.propagation.specs.Following.{IsOver};
ghost use Rattle.rup_engine.specs.Live.{AreLive, named};

use crate::adding::{add_row, find, remove_row, row_at};
use crate::closing::{close, contradicts};
use crate::heads::slot_of;
use crate::opposite::Opposite;
use crate::progress::{Progress, undo};
use crate::store::Store;
use crate::stronger::any_as_strong;
use hrt_base::{Lit, NoMemory, RowNo};
use pb_rows::Row;
use std::alloc::Global;
use std::marker::Model;

/// The rows that an answer rests on, in the order of their use. A number may stand several times.
#[derive(Drop)]
pub struct Used {
    pub rows: Vec<RowNo>,
}

/// Rows by their numbers, each listed with its literals. It is seen as the number of variables and the numbered rows, oldest first.
#[derive(Drop)]
pub struct Listed {
    store: Store,
    progress: Progress,
}

impl Model for Listed {
    ghost use Rattle.rup_engine.specs.Live.{LiveRows};

    ghost Value = { LiveRows };

    ghost use Rattle.rup_engine.specs.Adding.{IsIdle};
    ghost use Rattle.rup_engine.specs.Slots.{entries_of};

    ghost view = { λ l. record { vars = l.progress.trail.vars; rows = entries_of l.store.slots.items } };

    ghost invariant = { λ l. IsIdle l.store l.progress };
}

impl Listed {
    /// No rows, over the variables 1 to `vars`.
    pub fn new(alloc: Global, vars: u32) -> Result<Listed, NoMemory>
        ensures { IfOk result (λ l. l ≡ record { vars = vars; rows = [] }) }
    {
        Ok(Listed {
            store: Store::new(alloc, vars)?,
            progress: Progress::new(alloc, vars)?,
        })
    }

    /// Adds a row under a number that no live row has. It takes time for each term, and nothing for other rows.
    pub fn add(&mut self, alloc: Global, id: RowNo, row: Row) -> Result<(), NoMemory>
        requires fresh { IsFalse (is_numbered id.0 self.old.rows) }
        requires covered { IsOver self.old.vars row }
        ensures ok { OnOk result (self.new ≡ record self.old { rows = self.old.rows ++ record { number = id.0; row = row } ∷ [] }) }
        ensures err { OnErr result (self.new ≡ self.old) }
    {
        let slot = slot_of(alloc, id, row)?;
        match add_row(&mut self.store, &mut self.progress, slot) {
            Ok(()) => Ok(()),
            Err(e) => Err(e),
        }
    }

    /// The row of a number, or none where it isn't live.
    pub fn get(&self, id: RowNo) -> Option<&Row>
        ensures { option_copied result ≡ row_of id.0 self.now.rows }
    {
        match find(&self.store, id) {
            None => None,
            Some(place) => row_at(&self.store.slots, place, id),
        }
    }

    /// Tells whether a row has the terms of this one, and at least its degree.
    pub fn has_stronger(&self, row: &Row) -> bool
        ensures { IsTrue result ↔ ((other : PlainRow) × Contains (rows_of self.now.rows) other × (other.terms ≡ row.now.terms) × (row.now.degree ≤ other.degree)) }
    {
        any_as_strong(&self.store.slots, row)
    }

    /// Removes the row of a number, and tells whether there was one.
    pub fn remove(&mut self, _alloc: Global, id: RowNo) -> Result<bool, NoMemory>
        ensures ok { IfOk result (λ removed. removed ≡ is_numbered id.0 self.old.rows) }
        ensures rows { OnOk result (self.new ≡ record self.old { rows = without id.0 self.old.rows }) }
        ensures err { OnErr result (self.new ≡ self.old) }
    {
        let Some(place) = find(&self.store, id) else {
            return Ok(false);
        };
        remove_row(&mut self.store, &mut self.progress, place, id);
        Ok(true)
    }

    /// Tells whether the rows and the given literals are refuted. Where they aren't, `out` is their closure, each literal once
    /// and in no particular order, and what it held before is gone. Else `out` stays.
    pub fn closure(
        &mut self,
        alloc: Global,
        given: &[Lit],
        out: &mut Vec<Lit>,
    ) -> Result<bool, NoMemory>
        requires { All (λ l. IsCovered self.old.vars l.var) given.now }
        ensures refuted { IfOk result (λ refuted. IsTrue refuted ↔ Refuted (rows_of self.old.rows) (among given.now)) }
        ensures closed { IfOk result (λ refuted. IsFalse refuted → IsClosure (rows_of self.old.rows) (among given.now) (among out.new.items)) }
        ensures once { IfOk result (λ refuted. IsFalse refuted → IsDistinct is_same_lit out.new.items) }
        ensures unwritten { IfOk result (λ refuted. IsTrue refuted → out.new.items ≡ out.old.items) }
        ensures err { OnErr result (out.new.items ≡ out.old.items) }
        ensures live { self.new ≡ self.old }
    {
        let answer = close(alloc, &self.store, &mut self.progress, given, out);
        undo(&self.store, &mut self.progress, 0);
        answer
    }

    /// Tells whether a row follows by propagation: whether the live rows and the row's opposite are refuted. Where they are,
    /// the rows that are named, with the opposite, are refuted too.
    pub fn refutes(&mut self, alloc: Global, row: &Row) -> Result<Option<Used>, NoMemory>
        requires { IsOver self.old.vars row.now }
        ensures implied { IfOk result (λ used. IsSome used ↔ Implies (rows_of self.old.rows) row.now) }
        ensures used { IfOk result (λ used. IfSome used (λ u. Implies (named self.old.rows u.rows.items) row.now)) }
        ensures numbers { IfOk result (λ used. IfSome used (λ u. AreLive self.old.rows u.rows.items)) }
        ensures live { self.new ≡ self.old }
    {
        let opposite = Opposite::of(alloc, row)?;
        let mut rows = Vec::new(alloc);
        let answer = contradicts(&self.store, &opposite, &mut self.progress, &mut rows);
        undo(&self.store, &mut self.progress, 0);
        if answer? {
            return Ok(Some(Used { rows }));
        }
        Ok(None)
    }
}
