// The trail: the true literals, their levels and reasons, and the literals that became false and are due.
ghost use Rattle.std.specs.Prelude.{◌≡◌, ◌≤◌, ◌<◌, ◌+◌, [], ◌∷◌, ◌++◌, Some, None, IfOk, IfSome, IsFalse, if◌then◌else◌, length, nat_lt, is_none, not, take, vec_len, vec_capacity};
ghost use Rattle.std.specs.List.{All, list_any};
ghost use Rattle.std.specs.Option.{option_map};
ghost use Rattle.hrt_base.specs.declared.literal.Value.TheVariants.{Free};
ghost use Rattle.pb_rows.specs.Terms.{opposite_lit};
ghost use Rattle.pb_rows.specs.Points.{IsCovered};
ghost use Rattle.pb_rows.specs.Closure.{is_same_lit, makes_true};
ghost use Rattle.propagation.specs.Tables.{IsTable, value_for};
ghost use Rattle.pb_propagate.specs.Entries.{is_reason_in, is_row, level_in, level_of, lits_of, reason_in, set_of, up_to, value_in};
ghost use Rattle.pb_propagate.specs.Engines.{without_lit};
ghost use Rattle.pb_propagate.specs.Tables.{IsTrail, mark_of, number_of};
ghost use Rattle.pb_propagate.specs.Serving.{IsTrueFrom};

use hrt_base::{Lit, NoMemory, Value};
use propagation::{makes_true, opposite, value_for};
use row_arena::Place;
use std::alloc::Global;
use std::marker::Model;

/// The level and the reason of a variable's literal. Where the variable is free, they are those of an earlier moment.
#[derive(Clone, Copy)]
pub struct Mark {
    pub level: u32,
    pub reason: Option<Place>,
}

/// Tells whether two literals differ.
fn is_other(a: Lit, b: Lit) -> bool
    ensures { result ≡ not (is_same_lit b a) }
{
    a.var != b.var || a.neg != b.neg
}

/// Makes the last literals free again, down to so many.
fn shorten(values: &mut Vec<Value>, literals: &mut Vec<Lit>, count: usize)
    requires table { IsTable values.old.items literals.old.items }
    requires within { count ≤ length literals.old.items }
    ensures table { IsTable values.new.items literals.new.items }
    ensures front { literals.new.items ≡ take count literals.old.items }
    ensures values { length values.new.items ≡ length values.old.items }
    ensures capacity { vec_capacity literals.new ≡ vec_capacity literals.old }
{
    while literals.len() > count {
        let Some(lit) = literals.pop() else {
            unreachable!()
        };
        values[(lit.var - 1) as usize] = Value::Free;
    }
}

/// Tells whether the row at a place is the reason in the mark of a literal's variable.
fn is_marked(marks: &[Mark], lit: Lit, place: Place) -> bool
    requires { IsCovered (length marks.now) lit.var }
    ensures { result ≡ is_row place.0 (number_of (mark_of marks.now lit).reason) }
{
    match marks[(lit.var - 1) as usize].reason {
        None => false,
        Some(other) => place.0 == other.0,
    }
}

/// Tells whether the row at a place is the reason of one of the literals.
fn any_marked(marks: &[Mark], literals: &[Lit], place: Place) -> bool
    requires { All (λ l. IsCovered (length marks.now) l.var) literals.now }
    ensures { result ≡ list_any (λ l. is_row place.0 (number_of (mark_of marks.now l).reason)) literals.now }
{
    for lit in literals {
        if is_marked(marks, *lit, place) {
            return true;
        }
    }
    false
}

/// Notes where a level begins, where there is no reason.
fn open_level(starts: &mut Vec<usize>, at: usize, reason: Option<Place>)
    requires { vec_len starts.old < vec_capacity starts.old }
    ensures items { starts.new.items ≡ starts.old.items ++ (if is_none (number_of reason) then at ∷ [] else []) }
    ensures capacity { vec_capacity starts.old ≤ vec_capacity starts.new }
{
    if reason.is_some() {
        return;
    }
    starts.push_reserved(at);
}

/// True literals with their levels and reasons, and the due ones among those that became false at the last level. It is seen as the
/// number of variables, the entries and the due literals, each oldest first.
#[derive(Drop)]
pub struct Trail {
    values: Vec<Value>,
    marks: Vec<Mark>,
    literals: Vec<Lit>,
    starts: Vec<usize>,
    due: Vec<Lit>,
}

impl Model for Trail {
    ghost use Rattle.std.specs.Prelude.{length};
    ghost use Rattle.pb_propagate.specs.Tables.{TrailState, entries_of};
    ghost use Rattle.pb_propagate.specs.Rooms.{AreTables};

    ghost Value = { TrailState };

    ghost view = { λ t. record { vars = length t.values.items; entries = entries_of t.marks.items t.literals.items; due = t.due.items } };

    ghost invariant = { λ t. AreTables t.values.items t.marks.items t.literals t.starts t.due };
}

impl Trail {
    /// No literal of so many variables.
    pub fn new(alloc: Global, vars: u32) -> Result<Trail, NoMemory>
        ensures { IfOk result (λ t. t ≡ record { vars = vars; entries = []; due = [] }) }
    {
        let count = vars as usize;
        let blank = Mark {
            level: 0,
            reason: None,
        };
        Ok(Trail {
            values: vec![in alloc; Value::Free; count]?,
            marks: vec![in alloc; blank; count]?,
            literals: Vec::with_capacity(alloc, count)?,
            starts: Vec::with_capacity(alloc, count)?,
            due: Vec::with_capacity(alloc, count)?,
        })
    }

    /// The number of variables.
    pub fn vars(&self) -> u32
        ensures { result ≡ self.now.vars }
    {
        self.values.len() as u32
    }

    /// The value of a variable.
    pub fn value(&self, var: u32) -> Value
        ensures { result ≡ value_in self.now.entries var }
    {
        if var == 0 || var as usize > self.values.len() {
            return Value::Free;
        }
        self.values[(var - 1) as usize]
    }

    /// Tells whether a literal is true.
    pub fn is_true(&self, lit: Lit) -> bool
        requires { IsCovered self.now.vars lit.var }
        ensures { result ≡ set_of self.now.entries lit }
    {
        makes_true(self.values[(lit.var - 1) as usize], lit.neg)
    }

    /// The level at which a literal became true, or none where it isn't true.
    pub fn true_level(&self, lit: Lit) -> Option<u32>
        requires { IsCovered self.now.vars lit.var }
        ensures from { IsTrueFrom self.now.entries lit result }
        ensures alone { IfSome result (λ _. IsFalse (set_of self.now.entries (opposite_lit lit))) }
    {
        if self.is_true(lit) {
            Some(self.marks[(lit.var - 1) as usize].level)
        } else {
            None
        }
    }

    /// The level at the end.
    pub fn level(&self) -> u32
        ensures value { result ≡ level_of self.now.entries }
        ensures order { IsTrail self.now }
    {
        self.starts.len() as u32
    }

    /// The level of a variable's literal, or none where the variable is free.
    pub fn level_of(&self, var: u32) -> Option<u32>
        ensures { result ≡ level_in self.now.entries var }
    {
        match self.value(var) {
            Value::Free => None,
            _ => Some(self.marks[(var - 1) as usize].level),
        }
    }

    /// The place of the row that propagated a variable's literal, or none where it was decided or the variable is free.
    pub fn reason(&self, var: u32) -> Option<Place>
        ensures { number_of result ≡ reason_in self.now.entries var }
    {
        match self.value(var) {
            Value::Free => None,
            _ => self.marks[(var - 1) as usize].reason,
        }
    }

    /// Tells whether the row at a place is the reason of a true literal.
    pub fn is_reason(&self, place: Place) -> bool
        ensures { result ≡ is_reason_in self.now.entries place.0 }
    {
        any_marked(&self.marks, &self.literals, place)
    }

    /// The true literals.
    pub fn literals(&self) -> &[Lit]
        ensures value { result.now ≡ lits_of self.now.entries }
        ensures order { IsTrail self.now }
    {
        &self.literals
    }

    /// The due literals.
    pub fn due(&self) -> &[Lit]
        ensures value { result.now ≡ self.now.due }
        ensures order { IsTrail self.now }
    {
        &self.due
    }

    /// Puts a literal behind the others, and its opposite behind the due ones. Without a reason it opens a level.
    fn put(&mut self, lit: Lit, reason: Option<Place>)
        requires covered { IsCovered self.old.vars lit.var }
        requires untrue { IsFalse (set_of self.old.entries lit) }
        requires unfalse { IsFalse (set_of self.old.entries (opposite_lit lit)) }
        requires idle { number_of reason ≡ None → self.old.due ≡ [] }
        ensures is { self.new ≡ record self.old { entries = self.old.entries ++ record { lit = lit; reason = number_of reason } ∷ []; due = self.old.due ++ opposite_lit lit ∷ [] } }
        ensures order { IsTrail self.new }
    {
        open_level(&mut self.starts, self.literals.len(), reason);
        let level = self.starts.len() as u32;
        self.literals.push_reserved(lit);
        self.due.push_reserved(opposite(lit));
        let place = (lit.var - 1) as usize;
        self.values[place] = value_for(lit.neg);
        self.marks[place] = Mark { level, reason };
    }

    /// Makes a literal true that a row propagates.
    pub fn imply(&mut self, lit: Lit, reason: Place)
        requires covered { IsCovered self.old.vars lit.var }
        requires untrue { IsFalse (set_of self.old.entries lit) }
        requires unfalse { IsFalse (set_of self.old.entries (opposite_lit lit)) }
        ensures is { self.new ≡ record self.old { entries = self.old.entries ++ record { lit = lit; reason = Some reason.0 } ∷ []; due = self.old.due ++ opposite_lit lit ∷ [] } }
        ensures order { IsTrail self.new }
    {
        self.put(lit, Some(reason));
    }

    /// Opens a level with a literal, while nothing is due.
    pub fn decide(&mut self, lit: Lit)
        requires covered { IsCovered self.old.vars lit.var }
        requires untrue { IsFalse (set_of self.old.entries lit) }
        requires unfalse { IsFalse (set_of self.old.entries (opposite_lit lit)) }
        requires idle { self.old.due ≡ [] }
        ensures { self.new ≡ record self.old { entries = self.old.entries ++ record { lit = lit; reason = None } ∷ []; due = opposite_lit lit ∷ [] } }
    {
        self.put(lit, None);
    }

    /// Takes a literal from the due ones.
    pub fn settle(&mut self, lit: Lit)
        ensures is { self.new ≡ record self.old { due = without_lit lit self.old.due } }
        ensures order { IsTrail self.new }
    {
        self.due.retain(|l| is_other(*l, lit));
    }

    /// Makes the literals above a level free again. Below the end nothing is due then.
    pub fn back_to(&mut self, level: u32)
        ensures { self.new ≡ record self.old { entries = up_to level self.old.entries; due = (if nat_lt level (level_of self.old.entries) then [] else self.old.due) } }
    {
        if level as usize >= self.starts.len() {
            return;
        }
        let count = self.starts[level as usize];
        shorten(&mut self.values, &mut self.literals, count);
        self.starts.truncate(level as usize);
        self.due.clear();
    }
}
