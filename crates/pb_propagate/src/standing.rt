// How the literals of a row stand at each level.
ghost use Rattle.std.specs.Prelude.{◌≡◌, ◌≤◌, IsTrue, length, vec_capacity};
ghost use Rattle.pb_rows.specs.Terms.{IsPositive};
ghost use Rattle.pb_rows.specs.Points.{IsCovered};
ghost use Rattle.pb_rows.specs.Rows.{IsShort};
ghost use Rattle.row_arena.specs.Held.{is_held, row_at};
ghost use Rattle.level_sweep.specs.Rows.{StandFor, StandsFor};
ghost use Rattle.pb_propagate.specs.Entries.{set_of, up_to};
ghost use Rattle.pb_propagate.specs.Serving.{IsLowestFrom};
ghost use Rattle.pb_propagate.specs.Standing.{StandsAs};

use crate::serving::{degree_of, weight_of};
use crate::trail::Trail;
use hrt_base::{Lit, Term};
use level_sweep::{Stand, Standing};
use propagation::opposite;
use row_arena::{Arena, Place};

/// How a literal stands.
fn stand_of(trail: &Trail, lit: Lit) -> Stand
    requires { IsCovered trail.now.vars lit.var }
    ensures { StandsAs trail.now.entries lit result }
{
    match trail.true_level(lit) {
        Some(from) => Stand::True(from),
        None => match trail.true_level(opposite(lit)) {
            Some(from) => Stand::False(from),
            None => Stand::Free,
        },
    }
}

/// The coefficient of a term, and how its literal stands.
fn standing_of(trail: &Trail, t: Term) -> Standing
    requires positive { IsPositive t.coef }
    requires covered { IsCovered trail.now.vars t.lit.var }
    ensures { StandsFor (λ k. set_of (up_to k trail.now.entries)) t result }
{
    Standing {
        weight: weight_of(t),
        stand: stand_of(trail, t.lit),
    }
}

/// Lists how the literals of a row stand, where the list has room for them.
fn list_stands(arena: &Arena, place: Place, trail: &Trail, stands: &mut Vec<Standing>)
    requires held { IsTrue (is_held place.0 arena.now.held) }
    requires vars { arena.now.vars ≡ trail.now.vars }
    requires room { length (row_at place.0 arena.now.held).terms ≤ vec_capacity stands.old }
    ensures stand { StandFor (λ k. set_of (up_to k trail.now.entries)) (row_at place.0 arena.now.held).terms stands.new.items }
    ensures short { IsShort (row_at place.0 arena.now.held) }
{
    stands.clear();
    for k in 0..arena.len(place) {
        stands.push_reserved(standing_of(trail, arena.term(place, k)));
    }
}

/// The least level at which a row is open, or none, by a sweep over its literals, where a list has room for them.
pub fn sweep(arena: &Arena, place: Place, trail: &Trail, stands: &mut Vec<Standing>) -> Option<u32>
    requires held { IsTrue (is_held place.0 arena.now.held) }
    requires vars { arena.now.vars ≡ trail.now.vars }
    requires room { length (row_at place.0 arena.now.held).terms ≤ vec_capacity stands.old }
    ensures { IsLowestFrom trail.now.entries (row_at place.0 arena.now.held) 0 result }
{
    list_stands(arena, place, trail, stands);
    let degree = degree_of(arena, place);
    level_sweep::lowest_open(stands, degree)
}
