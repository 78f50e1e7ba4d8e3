// One row under a trail: whether it is open, and what it propagates.
ghost use Rattle.std.specs.Prelude.{◌≡◌, ◌≤◌, ◌<◌, ◌+◌, ◌^◌, ◌++◌, ◌∷◌, [], IsTrue, IsFalse, length, not, ◌&&◌};
ghost use Rattle.std.specs.List.{All};
ghost use Rattle.pb_rows.specs.Terms.{IsPositive, opposite_lit, positive_part};
ghost use Rattle.pb_rows.specs.Points.{IsCovered};
ghost use Rattle.pb_rows.specs.Closure.{nonfalse_share, nonfalse_sum};
ghost use Rattle.row_arena.specs.Held.{is_held, row_at};
ghost use Rattle.pb_propagate.specs.Entries.{set_of, up_to};
ghost use Rattle.pb_propagate.specs.Serving.{IsLowestFrom, IsNearer, IsNextAmong, OpenIs, Serves, TakesTerm};

use crate::trail::Trail;
use hrt_base::{Lit, Term};
use propagation::opposite;
use row_arena::{Arena, Place};

/// The coefficient of a term.
pub fn weight_of(t: Term) -> u128
    requires { IsPositive t.coef }
    ensures value { result ≡ positive_part t.coef }
    ensures positive { 0 < result }
    ensures bound { result < 2 ^ 127 }
{
    t.coef as u128
}

/// The degree of a row.
pub fn degree_of(arena: &Arena, place: Place) -> u128
    requires { IsTrue (is_held place.0 arena.now.held) }
    ensures { result ≡ (row_at place.0 arena.now.held).degree }
{
    let degree = arena.degree(place);
    degree as u128
}

/// Tells whether a literal is true up to a level.
fn is_true_at(trail: &Trail, lit: Lit, level: u32) -> bool
    requires { IsCovered trail.now.vars lit.var }
    ensures { result ≡ set_of (up_to level trail.now.entries) lit }
{
    match trail.true_level(lit) {
        None => false,
        Some(from) => from <= level,
    }
}

/// The coefficient of a term that isn't false up to a level, or 0.
fn nonfalse_share(t: Term, level: u32, trail: &Trail) -> u128
    requires positive { IsPositive t.coef }
    requires covered { IsCovered trail.now.vars t.lit.var }
    ensures { result ≡ nonfalse_share (set_of (up_to level trail.now.entries)) t }
{
    if is_true_at(trail, opposite(t.lit), level) {
        0
    } else {
        weight_of(t)
    }
}

/// The sum of the coefficients of a row's literals that aren't false up to a level.
fn nonfalse_total(arena: &Arena, place: Place, level: u32, trail: &Trail) -> u128
    requires held { IsTrue (is_held place.0 arena.now.held) }
    requires vars { arena.now.vars ≡ trail.now.vars }
    ensures value { result ≡ nonfalse_sum (set_of (up_to level trail.now.entries)) (row_at place.0 arena.now.held).terms }
    ensures bound { result ≤ 2 ^ 60 }
{
    let mut sum = 0;
    for k in 0..arena.len(place) {
        sum += nonfalse_share(arena.term(place, k), level, trail);
    }
    sum
}

/// Tells whether a term's literal is free up to a level.
fn is_free_at(t: Term, level: u32, trail: &Trail) -> bool
    requires { IsCovered trail.now.vars t.lit.var }
    ensures { result ≡ (not (set_of (up_to level trail.now.entries) t.lit) && not (set_of (up_to level trail.now.entries) (opposite_lit t.lit))) }
{
    !is_true_at(trail, t.lit, level) && !is_true_at(trail, opposite(t.lit), level)
}

/// Tells whether a row is open at a level.
fn is_open_at(arena: &Arena, place: Place, level: u32, trail: &Trail) -> bool
    requires held { IsTrue (is_held place.0 arena.now.held) }
    requires vars { arena.now.vars ≡ trail.now.vars }
    ensures { OpenIs (set_of (up_to level trail.now.entries)) (row_at place.0 arena.now.held) result }
{
    let degree = degree_of(arena, place);
    let sum = nonfalse_total(arena, place, level, trail);
    if sum < degree {
        return true;
    }
    for k in 0..arena.len(place) {
        let t = arena.term(place, k);
        if sum < degree + weight_of(t) && is_free_at(t, level, trail) {
            return true;
        }
    }
    false
}

/// The next level above one at which a literal of a row became false, or none.
fn next_level(arena: &Arena, place: Place, level: u32, trail: &Trail) -> Option<u32>
    requires held { IsTrue (is_held place.0 arena.now.held) }
    requires vars { arena.now.vars ≡ trail.now.vars }
    ensures { IsNextAmong trail.now.entries (row_at place.0 arena.now.held).terms level result }
{
    let mut next = None;
    for k in 0..arena.len(place) {
        let from = trail.true_level(opposite(arena.term(place, k).lit));
        next = nearer(level, next, from);
    }
    next
}

/// Of two levels the lower one that is above a level.
fn nearer(level: u32, next: Option<u32>, from: Option<u32>) -> Option<u32>
    ensures { IsNearer level next from result }
{
    match from {
        None => next,
        Some(n) => {
            if n <= level {
                return next;
            }
            match next {
                None => Some(n),
                Some(m) => Some(n.min(m)),
            }
        }
    }
}

/// The least level at which a row is open, or none.
pub fn lowest_open(arena: &Arena, place: Place, trail: &Trail) -> Option<u32>
    requires held { IsTrue (is_held place.0 arena.now.held) }
    requires vars { arena.now.vars ≡ trail.now.vars }
    ensures { IsLowestFrom trail.now.entries (row_at place.0 arena.now.held) 0 result }
{
    let mut level = 0;
    loop {
        if is_open_at(arena, place, level, trail) {
            return Some(level);
        }
        match next_level(arena, place, level, trail) {
            None => return None,
            Some(next) => level = next,
        }
    }
}

/// Makes a term's literal true where it is free and its coefficient exceeds what the sum leaves.
fn take_term(t: Term, sum: u128, degree: u128, place: Place, trail: &mut Trail)
    requires positive { IsPositive t.coef }
    requires covered { IsCovered trail.old.vars t.lit.var }
    requires degree { degree ≤ 2 ^ 60 }
    requires sum { sum ≤ 2 ^ 60 }
    ensures { TakesTerm sum degree place.0 t trail.old trail.new }
{
    if sum < degree + weight_of(t) && !trail.is_true(t.lit) && !trail.is_true(opposite(t.lit)) {
        trail.imply(t.lit, place);
    }
}

/// Tells whether a row is falsified, and otherwise makes true what it propagates.
pub fn serve(arena: &Arena, place: Place, trail: &mut Trail) -> bool
    requires held { IsTrue (is_held place.0 arena.now.held) }
    requires vars { arena.now.vars ≡ trail.old.vars }
    ensures { Serves arena.now.held place.0 trail.old trail.new result }
{
    let degree = degree_of(arena, place);
    let sum = nonfalse_total(arena, place, trail.level(), trail);
    if sum < degree {
        return true;
    }
    for k in 0..arena.len(place) {
        take_term(arena.term(place, k), sum, degree, place, trail);
    }
    false
}
