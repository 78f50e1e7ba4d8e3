// The lowest level at which a row is open.
ghost use Rattle.std.specs.Prelude.{◌≡◌, IfOk, length};
ghost use Rattle.std.specs.List.{All};
ghost use Rattle.pb_rows.specs.Terms.{IsPositive, positive_part};
ghost use Rattle.pb_rows.specs.Points.{IsCovered};
ghost use Rattle.propagation.specs.Following.{IsOver};
ghost use Rattle.conflict_rows.specs.Marks.{set_up_to};
ghost use Rattle.level_sweep.specs.Rows.{IsLowestUnder, StandFor, StandsFor};
ghost use Rattle.conflict_cuts.specs.Levels.{StandsAs};

use conflict_rows::{Mark, is_false, level_of};
use hrt_base::{Lit, NoMemory, Term};
use level_sweep::{Stand, Standing, lowest_open};
use pb_rows::Row;
use propagation::opposite;
use std::alloc::Global;

/// How a literal stands: it is free at every level, or true or false from a level on.
fn stand_of(lit: Lit, marks: &[Mark]) -> Stand
    requires { IsCovered (length marks.now) lit.var }
    ensures { StandsAs (set_up_to marks.now) lit result }
{
    if is_false(marks, lit) {
        return Stand::False(level_of(marks, lit.var));
    }
    if is_false(marks, opposite(lit)) {
        return Stand::True(level_of(marks, lit.var));
    }
    Stand::Free
}

/// How the literal of a term stands, and its coefficient.
fn standing_of(t: Term, marks: &[Mark]) -> Standing
    requires positive { IsPositive t.coef }
    requires covered { IsCovered (length marks.now) t.lit.var }
    ensures { StandsFor (set_up_to marks.now) t result }
{
    Standing {
        weight: t.coef as u128,
        stand: stand_of(t.lit, marks),
    }
}

/// How the literals of terms stand.
fn standings_of(alloc: Global, terms: &[Term], marks: &[Mark]) -> Result<Vec<Standing>, NoMemory>
    requires positive { All (λ t. IsPositive t.coef) terms.now }
    requires covered { All (λ t. IsCovered (length marks.now) t.lit.var) terms.now }
    ensures { IfOk result (λ stands. StandFor (set_up_to marks.now) terms.now stands.items) }
{
    let mut stands = Vec::new(alloc);
    for t in terms {
        stands.push(standing_of(*t, marks))?;
    }
    Ok(stands)
}

/// The least level of a trail up to which a row is open, or none, in one sweep over its literals. The table has variable v at place v - 1.
pub(crate) fn lowest_level(
    alloc: Global,
    row: &Row,
    marks: &[Mark],
) -> Result<Option<u32>, NoMemory>
    requires { IsOver (length marks.now) row.now }
    ensures { IfOk result (IsLowestUnder (set_up_to marks.now) row.now) }
{
    let mut stands = standings_of(alloc, row.terms(), marks)?;
    let degree = row.degree() as u128;
    Ok(lowest_open(&mut stands, degree))
}
