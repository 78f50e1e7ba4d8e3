// Visits of slots.
ghost use Rattle.std.specs.Prelude.{◌≡◌, ◌≤◌, ◌<◌, ◌+◌, ◌^◌, ℕ, IsFalse, IfOk, [], length, slice_index_or};
ghost use Rattle.std.specs.List.{All};
ghost use Rattle.pb_rows.specs.Closure.{among, nonfalse_sum};
ghost use Rattle.rup_engine.specs.Live.{UsesRows};
ghost use Rattle.propagation.specs.Following.{Grows};
ghost use Rattle.rup_engine.specs.Slots.{AreSlots, IsSteadySlot, entries_of, slot_at};
ghost use Rattle.rup_engine.specs.Store.{AreEnough, AreSteadyBut, slots_of};

use crate::store::{Occurrence, Slot};
use crate::trail::Trail;
use crate::visit::visit;
use hrt_base::{NoMemory, RowNo};

/// Visits the row of a slot, if it has one, and tells whether it is falsified.
fn visit_slot(
    slots: &[Option<Slot>],
    place: usize,
    sums: &[u128],
    trail: &mut Trail,
    used: &mut Vec<RowNo>,
) -> Result<bool, NoMemory>
    requires place { place < length slots.now }
    requires slots { AreSlots trail.old.vars slots.now }
    requires enough { AreEnough slots.now sums.now trail.old.literals }
    ensures vars { trail.new.vars ≡ trail.old.vars }
    ensures grows { Grows trail.old.literals trail.new.literals }
    ensures steady { IfOk result (λ falsified. IsFalse falsified → IsSteadySlot (among trail.new.literals) (slice_index_or sums.now place 0) (slot_at slots.now place)) }
    ensures uses { IfOk result (UsesRows (entries_of slots.now) trail.old.literals trail.new.literals used.old.items used.new.items) }
{
    match &slots[place] {
        None => Ok(false),
        Some(slot) => visit(slot, sums[place], trail, used),
    }
}

/// Visits the rows of some slots, and tells whether one is falsified.
pub fn visit_places(
    slots: &[Option<Slot>],
    places: &[usize],
    sums: &[u128],
    trail: &mut Trail,
    used: &mut Vec<RowNo>,
) -> Result<bool, NoMemory>
    requires places { All (λ k. k < length slots.now) places.now }
    requires slots { AreSlots trail.old.vars slots.now }
    requires enough { AreEnough slots.now sums.now trail.old.literals }
    requires others { AreSteadyBut (among trail.old.literals) slots.now sums.now places.now }
    ensures vars { trail.new.vars ≡ trail.old.vars }
    ensures grows { Grows trail.old.literals trail.new.literals }
    ensures steady { IfOk result (λ falsified. IsFalse falsified → AreSteadyBut (among trail.new.literals) slots.now sums.now []) }
    ensures uses { IfOk result (UsesRows (entries_of slots.now) trail.old.literals trail.new.literals used.old.items used.new.items) }
{
    for place in places {
        if visit_slot(slots, *place, sums, trail, used)? {
            return Ok(true);
        }
    }
    Ok(false)
}

/// Visits the rows of occurrences, and tells whether one is falsified.
pub fn visit_occurrences(
    slots: &[Option<Slot>],
    occurrences: &[Occurrence],
    sums: &[u128],
    trail: &mut Trail,
    used: &mut Vec<RowNo>,
) -> Result<bool, NoMemory>
    requires places { All (λ o. o.slot < length slots.now) occurrences.now }
    requires slots { AreSlots trail.old.vars slots.now }
    requires enough { AreEnough slots.now sums.now trail.old.literals }
    requires others { AreSteadyBut (among trail.old.literals) slots.now sums.now (slots_of occurrences.now) }
    ensures vars { trail.new.vars ≡ trail.old.vars }
    ensures grows { Grows trail.old.literals trail.new.literals }
    ensures steady { IfOk result (λ falsified. IsFalse falsified → AreSteadyBut (among trail.new.literals) slots.now sums.now []) }
    ensures uses { IfOk result (UsesRows (entries_of slots.now) trail.old.literals trail.new.literals used.old.items used.new.items) }
{
    for occurrence in occurrences {
        if visit_slot(slots, occurrence.slot, sums, trail, used)? {
            return Ok(true);
        }
    }
    Ok(false)
}
