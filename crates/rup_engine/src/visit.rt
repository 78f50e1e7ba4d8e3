// Visits of rows, and the list of those that were used.
ghost use Rattle.std.specs.Prelude.{◌≡◌, ◌≤◌, ◌+◌, ◌^◌, IsFalse, IfOk};
ghost use Rattle.std.specs.List.{All};
ghost use Rattle.pb_rows.specs.Points.{IsCovered};
ghost use Rattle.pb_rows.specs.Closure.{among};
ghost use Rattle.propagation.specs.Following.{Grows, IsOver};
ghost use Rattle.rup_engine.specs.Live.{UsesRow};
ghost use Rattle.rup_engine.specs.Propagation.{AddsFollowing, IsSteady};
ghost use Rattle.rup_engine.specs.Slots.{IsShort};

use crate::one_row::{advance, propagate};
use crate::store::Slot;
use crate::trail::Trail;
use hrt_base::{NoMemory, RowNo};
use pb_rows::Row;

/// The degree of a row.
pub fn degree_of(row: &Row) -> u128
    ensures { result ≡ row.now.degree }
{
    let degree = row.degree();
    degree as u128
}

/// Tells whether a row is falsified, or makes true what it propagates. The sum is at least that of its literals that aren't
/// false.
fn look(slot: &Slot, sum: u128, trail: &mut Trail) -> Result<bool, NoMemory>
    requires over { IsOver trail.old.vars slot.now.row }
    requires short { IsShort slot.now.heads.items slot.now.rest slot.now.bound slot.now.row }
    ensures vars { trail.new.vars ≡ trail.old.vars }
    ensures grows { Grows trail.old.literals trail.new.literals }
    ensures steady { IfOk result (λ falsified. IsFalse falsified → IsSteady (among trail.new.literals) sum slot.now.row) }
    ensures sound { IfOk result (AddsFollowing slot.now.row sum trail.old.literals trail.new.literals) }
{
    if slot.bound <= sum {
        return Ok(false);
    }
    let degree = degree_of(&slot.row);
    let terms = slot.row.terms();
    if slot.rest <= sum {
        propagate(&slot.heads, terms, sum, degree, trail)?;
        return Ok(false);
    }
    let falsified = advance(terms, sum, degree, trail)?;
    Ok(falsified)
}

/// Looks at a row, and notes its number where it is falsified or makes a literal true. The sum is at least that of its literals
/// that aren't false.
pub fn visit(
    slot: &Slot,
    sum: u128,
    trail: &mut Trail,
    used: &mut Vec<RowNo>,
) -> Result<bool, NoMemory>
    requires over { IsOver trail.old.vars slot.now.row }
    requires short { IsShort slot.now.heads.items slot.now.rest slot.now.bound slot.now.row }
    ensures vars { trail.new.vars ≡ trail.old.vars }
    ensures grows { Grows trail.old.literals trail.new.literals }
    ensures steady { IfOk result (λ falsified. IsFalse falsified → IsSteady (among trail.new.literals) sum slot.now.row) }
    ensures uses { IfOk result (UsesRow slot.now.number.0 slot.now.row sum trail.old.literals trail.new.literals used.old.items used.new.items) }
{
    let before = trail.len();
    let falsified = look(slot, sum, trail)?;
    if falsified || trail.len() > before {
        used.push(slot.number)?;
    }
    Ok(falsified)
}
