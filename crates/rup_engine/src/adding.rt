// Rows that come and go.
ghost use Rattle.std.specs.Prelude.{◌≡◌, ◌≤◌, ◌<◌, ◌+◌, ◌^◌, [], ◌∷◌, ◌++◌, ℕ, ◌↔◌, Some, None, IsTrue, IsFalse, IfNone, IfOk, IfSome, OnOk, OnErr, length, slice_set};
ghost use Rattle.std.specs.List.{All};
ghost use Rattle.std.specs.Option.{option_copied};
ghost use Rattle.pb_rows.specs.Terms.{coef_sum};
ghost use Rattle.pb_rows.specs.Closure.{none};
ghost use Rattle.pb_rows.specs.Formula.{is_numbered, row_of, without};
ghost use Rattle.propagation.specs.Following.{IsOver};
ghost use Rattle.rup_engine.specs.Propagation.{IsSteady};
ghost use Rattle.rup_engine.specs.Slots.{HasNumber, IsShort, entries_of, entry_of, slot_at};
ghost use Rattle.rup_engine.specs.Adding.{IsListedAt, IsReady, NotesAtMost};
ghost use Rattle.rup_engine.specs.Store.{AreAdded, AreNamed, is_one_of, list_at, place_of};

use crate::lists::enter;
use crate::one_row::nonfalse_total;
use crate::opposite::total;
use crate::progress::Progress;
use crate::store::{Slot, Store};
use crate::thinning::forget;
use hrt_base::{NoMemory, RowNo};
use pb_rows::Row;

/// The slot of a number. It takes the same time however many rows are live.
pub fn find(store: &Store, id: RowNo) -> Option<usize>
    requires { AreNamed store.now.slots.items store.now.numbers }
    ensures place { IfSome result (λ k. k < length store.now.slots.items) }
    ensures some { IfSome result (λ k. HasNumber id.0 (slot_at store.now.slots.items k)) }
    ensures none { IfNone result (IsFalse (is_numbered id.0 (entries_of store.now.slots.items))) }
{
    store.numbers.get(&id.0).copied()
}

/// The row of a slot.
pub fn row_at(slots: &[Option<Slot>], place: usize, _id: RowNo) -> Option<&Row>
    requires place { place < length slots.now }
    requires has { HasNumber _id.0 (slot_at slots.now place) }
    requires only { (j : ℕ) → HasNumber _id.0 (slot_at slots.now j) → j ≡ place }
    ensures { option_copied result ≡ row_of _id.0 (entries_of slots.now) }
{
    match &slots[place] {
        None => None,
        Some(slot) => Some(&slot.row),
    }
}

/// Tells whether a row may propagate, or is falsified, while no literal is true.
fn is_tight(slot: &Slot) -> bool
    requires { IsShort slot.now.heads.items slot.now.rest slot.now.bound slot.now.row }
    ensures { IsFalse result → IsSteady none (coef_sum slot.now.row.terms) slot.now.row }
{
    let terms = slot.row.terms();
    let sum = total(terms);
    if sum < slot.bound {
        return true;
    }
    false
}

/// Notes a row that is to be looked at first.
fn note_tight(tight: &mut Vec<usize>, place: usize, slot: &Slot) -> Result<(), NoMemory>
    requires { IsShort slot.now.heads.items slot.now.rest slot.now.bound slot.now.row }
    ensures here { OnOk result (IsFalse (is_one_of place tight.new.items) → IsSteady none (coef_sum slot.now.row.terms) slot.now.row) }
    ensures grows { NotesAtMost place tight.old.items tight.new.items }
    ensures err { OnErr result (tight.new.items ≡ tight.old.items) }
{
    if is_tight(slot) {
        tight.push(place)?;
    }
    Ok(())
}

/// Makes an empty slot at the end, and answers its place.
fn open_slot(store: &mut Store, progress: &mut Progress) -> Result<usize, NoMemory>
    requires { IsReady progress.old.trail.vars store.old progress.old.sums.items progress.old.trail.literals }
    ensures ready { IsReady progress.old.trail.vars store.new progress.new.sums.items progress.old.trail.literals }
    ensures trail { progress.new.trail ≡ progress.old.trail }
    ensures done { progress.new.done ≡ progress.old.done }
    ensures entries { entries_of store.new.slots.items ≡ entries_of store.old.slots.items }
    ensures place { IfOk result (λ k. k + 1 ≡ length store.new.slots.items) }
    ensures empty { IfOk result (λ k. slot_at store.new.slots.items k ≡ None) }
    ensures bare { IfOk result (λ k. (p : ℕ) → All (λ o. o.slot < k) (list_at store.new.lists.items p)) }
{
    progress.sums.push(0)?;
    let place = store.slots.len();
    store.slots.push(None)?;
    Ok(place)
}

/// Lists the row of a slot. Where memory is wanting, some of its occurrences may stay.
fn list_row(store: &mut Store, place: usize, slot: &Slot) -> Result<(), NoMemory>
    requires places { All (λ t. place_of t.lit < length store.old.lists.items) slot.now.row.terms }
    requires short { IsShort slot.now.heads.items slot.now.rest slot.now.bound slot.now.row }
    ensures slots { store.new.slots.items ≡ store.old.slots.items }
    ensures numbers { store.new.numbers ≡ store.old.numbers }
    ensures ok { OnOk result (IsListedAt place slot.now.row store.old.lists.items store.new.lists.items store.new.tight.items) }
    ensures grows { NotesAtMost place store.old.tight.items store.new.tight.items }
    ensures err { OnErr result (AreAdded place store.old.lists.items store.new.lists.items) }
    ensures stale { store.new.stale ≡ store.old.stale }
    ensures tight { OnErr result (store.new.tight.items ≡ store.old.tight.items) }
{
    enter(&mut store.lists, place, slot.row.terms())?;
    note_tight(&mut store.tight, place, slot)?;
    Ok(())
}

/// Puts a row into the last slot, which is empty.
fn fill_slot(
    store: &mut Store,
    progress: &mut Progress,
    place: usize,
    slot: Slot,
) -> Result<(), NoMemory>
    requires ready { IsReady progress.old.trail.vars store.old progress.old.sums.items progress.old.trail.literals }
    requires place { place + 1 ≡ length store.old.slots.items }
    requires empty { slot_at store.old.slots.items place ≡ None }
    requires bare { (p : ℕ) → All (λ o. o.slot < place) (list_at store.old.lists.items p) }
    requires fresh { IsFalse (is_numbered slot.number.0 (entries_of store.old.slots.items)) }
    requires over { IsOver progress.old.trail.vars slot.row }
    requires short { IsShort slot.heads.items slot.rest slot.bound slot.row }
    ensures ready { IsReady progress.old.trail.vars store.new progress.new.sums.items progress.old.trail.literals }
    ensures trail { progress.new.trail ≡ progress.old.trail }
    ensures done { progress.new.done ≡ progress.old.done }
    ensures ok { OnOk result (entries_of store.new.slots.items ≡ entries_of store.old.slots.items ++ entry_of slot ∷ []) }
    ensures err { OnErr result (entries_of store.new.slots.items ≡ entries_of store.old.slots.items) }
{
    let number = slot.number.0;
    store.numbers.insert(number, place)?;
    match list_row(store, place, &slot) {
        Ok(()) => {}
        Err(e) => {
            store.numbers.remove(&number);
            return Err(e);
        }
    }
    let terms = slot.row.terms();
    progress.sums[place] = nonfalse_total(terms, &progress.trail);
    store.slots[place] = Some(slot);
    Ok(())
}

/// Adds a row.
pub fn add_row(store: &mut Store, progress: &mut Progress, slot: Slot) -> Result<(), NoMemory>
    requires ready { IsReady progress.old.trail.vars store.old progress.old.sums.items progress.old.trail.literals }
    requires fresh { IsFalse (is_numbered slot.number.0 (entries_of store.old.slots.items)) }
    requires over { IsOver progress.old.trail.vars slot.row }
    requires short { IsShort slot.heads.items slot.rest slot.bound slot.row }
    ensures ready { IsReady progress.old.trail.vars store.new progress.new.sums.items progress.old.trail.literals }
    ensures trail { progress.new.trail ≡ progress.old.trail }
    ensures done { progress.new.done ≡ progress.old.done }
    ensures ok { OnOk result (entries_of store.new.slots.items ≡ entries_of store.old.slots.items ++ entry_of slot ∷ []) }
    ensures err { OnErr result (entries_of store.new.slots.items ≡ entries_of store.old.slots.items) }
{
    let place = open_slot(store, progress)?;
    match fill_slot(store, progress, place, slot) {
        Ok(()) => Ok(()),
        Err(e) => Err(e),
    }
}

/// Removes the row of a slot, which has the number. It takes time for each term, and on the whole for no other row.
pub fn remove_row(store: &mut Store, progress: &mut Progress, place: usize, id: RowNo)
    requires ready { IsReady progress.old.trail.vars store.old progress.old.sums.items progress.old.trail.literals }
    requires place { place < length store.old.slots.items }
    requires has { HasNumber id.0 (slot_at store.old.slots.items place) }
    ensures ready { IsReady progress.old.trail.vars store.new progress.new.sums.items progress.old.trail.literals }
    ensures trail { progress.new.trail ≡ progress.old.trail }
    ensures done { progress.new.done ≡ progress.old.done }
    ensures entries { entries_of store.new.slots.items ≡ without id.0 (entries_of store.old.slots.items) }
{
    let Some(slot) = store.slots[place].take() else {
        return;
    };
    store.numbers.remove(&id.0);
    progress.sums[place] = 0;
    forget(store, slot.row.terms());
}
