// Rows that wait, each at its place.
ghost use Rattle.std.specs.Prelude.{◌≡◌, ◌≤◌, ◌<◌, ◌+◌, [], ◌∷◌, ◌++◌, ℕ, None, IsFalse, IfNone, IfOk, IfSome, OnOk, OnErr, length};
ghost use Rattle.std.specs.Option.{option_copied};
ghost use Rattle.pb_rows.specs.Formula.{is_numbered, row_of, without};
ghost use Rattle.propagation.specs.Following.{IsOver};
ghost use Rattle.rup_engine.specs.Queue.{AreApart, HasNumber, IsQueue, waiting_entries, entry_of, place_at};

use crate::listed::Listed;
use hrt_base::{NoMemory, RowNo};
use pb_rows::Row;
use std::alloc::Global;
use std::collections::HashMap;

/// A row that waits, and its number.
#[derive(Drop)]
pub struct Entry {
    pub number: RowNo,
    pub row: Row,
}

/// Rows by place, oldest first, and the place of each number. The places before the front are empty.
#[derive(Drop)]
pub struct Queue {
    pub places: Vec<Option<Entry>>,
    pub numbers: HashMap<u64, usize>,
    pub front: usize,
}

impl Queue {
    ghost use Rattle.std.specs.Prelude.{◌≡◌, [], ℕ};
    ghost use Rattle.rup_engine.specs.Queue.{IsQueue, waiting_entries};

    /// No row.
    pub fn new(alloc: Global) -> Queue
        ensures queue { (vars : ℕ) → IsQueue vars result }
        ensures empty { waiting_entries result.places.items ≡ [] }
    {
        Queue {
            places: Vec::new(alloc),
            numbers: HashMap::new(alloc),
            front: 0,
        }
    }
}

/// The place of a number.
pub fn find(queue: &Queue, _listed: &Listed, id: RowNo) -> Option<usize>
    requires { IsQueue _listed.now.vars queue.now }
    ensures place { IfSome result (λ k. k < length queue.now.places.items) }
    ensures some { IfSome result (λ k. HasNumber id.0 (place_at queue.now.places.items k)) }
    ensures none { IfNone result (IsFalse (is_numbered id.0 (waiting_entries queue.now.places.items))) }
{
    queue.numbers.get(&id.0).copied()
}

/// The row at a place.
pub fn row_at(places: &[Option<Entry>], place: usize, _id: RowNo) -> Option<&Row>
    requires place { place < length places.now }
    requires has { HasNumber _id.0 (place_at places.now place) }
    requires only { (j : ℕ) → HasNumber _id.0 (place_at places.now j) → j ≡ place }
    ensures { option_copied result ≡ row_of _id.0 (waiting_entries places.now) }
{
    match &places[place] {
        None => None,
        Some(entry) => Some(&entry.row),
    }
}

/// Makes an empty place at the end.
fn open(queue: &mut Queue, _listed: &Listed) -> Result<usize, NoMemory>
    requires { IsQueue _listed.now.vars queue.old }
    ensures queue { IsQueue _listed.now.vars queue.new }
    ensures entries { waiting_entries queue.new.places.items ≡ waiting_entries queue.old.places.items }
    ensures place { IfOk result (λ k. k + 1 ≡ length queue.new.places.items) }
    ensures empty { IfOk result (λ k. place_at queue.new.places.items k ≡ None) }
    ensures front { IfOk result (λ k. queue.new.front ≤ k) }
{
    let place = queue.places.len();
    queue.places.push(None)?;
    Ok(place)
}

/// Puts a row at the last place, which is empty.
fn fill(queue: &mut Queue, _listed: &Listed, place: usize, entry: Entry) -> Result<(), NoMemory>
    requires queue { IsQueue _listed.now.vars queue.old }
    requires place { place + 1 ≡ length queue.old.places.items }
    requires empty { place_at queue.old.places.items place ≡ None }
    requires front { queue.old.front ≤ place }
    requires fresh { IsFalse (is_numbered entry.number.0 (waiting_entries queue.old.places.items)) }
    requires over { IsOver _listed.now.vars entry.row }
    ensures queue { IsQueue _listed.now.vars queue.new }
    ensures ok { OnOk result (waiting_entries queue.new.places.items ≡ waiting_entries queue.old.places.items ++ entry_of entry ∷ []) }
    ensures err { OnErr result (waiting_entries queue.new.places.items ≡ waiting_entries queue.old.places.items) }
{
    let number = entry.number.0;
    queue.numbers.insert(number, place)?;
    queue.places[place] = Some(entry);
    Ok(())
}

/// Lets a row wait.
pub fn push(queue: &mut Queue, _listed: &Listed, entry: Entry) -> Result<(), NoMemory>
    requires queue { IsQueue _listed.now.vars queue.old }
    requires fresh { IsFalse (is_numbered entry.number.0 (waiting_entries queue.old.places.items)) }
    requires over { IsOver _listed.now.vars entry.row }
    ensures queue { IsQueue _listed.now.vars queue.new }
    ensures ok { OnOk result (waiting_entries queue.new.places.items ≡ waiting_entries queue.old.places.items ++ entry_of entry ∷ []) }
    ensures err { OnErr result (waiting_entries queue.new.places.items ≡ waiting_entries queue.old.places.items) }
{
    let place = open(queue, _listed)?;
    match fill(queue, _listed, place, entry) {
        Ok(()) => Ok(()),
        Err(e) => Err(e),
    }
}

/// Drops the row at a place, which has the number.
pub fn drop_at(queue: &mut Queue, _listed: &Listed, place: usize, id: RowNo)
    requires queue { IsQueue _listed.now.vars queue.old }
    requires place { place < length queue.old.places.items }
    requires has { HasNumber id.0 (place_at queue.old.places.items place) }
    ensures queue { IsQueue _listed.now.vars queue.new }
    ensures entries { waiting_entries queue.new.places.items ≡ without id.0 (waiting_entries queue.old.places.items) }
    ensures count { length queue.new.places.items ≡ length queue.old.places.items }
    ensures front { queue.new.front ≡ queue.old.front }
    ensures empty { place_at queue.new.places.items place ≡ None }
{
    queue.places[place] = None;
    queue.numbers.remove(&id.0);
}

/// Lists the row at the front, if one is there.
fn list_front(alloc: Global, listed: &mut Listed, queue: &mut Queue) -> Result<(), NoMemory>
    requires queue { IsQueue listed.old.vars queue.old }
    requires apart { AreApart listed.old.rows (waiting_entries queue.old.places.items) }
    requires more { queue.old.front < length queue.old.places.items }
    ensures queue { IsQueue listed.new.vars queue.new }
    ensures apart { AreApart listed.new.rows (waiting_entries queue.new.places.items) }
    ensures vars { listed.new.vars ≡ listed.old.vars }
    ensures rows { listed.new.rows ++ waiting_entries queue.new.places.items ≡ listed.old.rows ++ waiting_entries queue.old.places.items }
    ensures next { OnOk result (queue.new.front ≡ queue.old.front + 1) }
    ensures count { length queue.new.places.items ≡ length queue.old.places.items }
{
    let place = queue.front;
    let Some(entry) = &queue.places[place] else {
        queue.front = place + 1;
        return Ok(());
    };
    let number = entry.number;
    let row = entry.row.copy(alloc)?;
    listed.add(alloc, number, row)?;
    drop_at(queue, listed, place, number);
    queue.front = place + 1;
    Ok(())
}

/// Lists all rows that wait, oldest first. After want of memory those that aren't listed still wait.
pub fn list_all(alloc: Global, listed: &mut Listed, queue: &mut Queue) -> Result<(), NoMemory>
    requires queue { IsQueue listed.old.vars queue.old }
    requires apart { AreApart listed.old.rows (waiting_entries queue.old.places.items) }
    ensures queue { IsQueue listed.new.vars queue.new }
    ensures apart { AreApart listed.new.rows (waiting_entries queue.new.places.items) }
    ensures vars { listed.new.vars ≡ listed.old.vars }
    ensures rows { listed.new.rows ++ waiting_entries queue.new.places.items ≡ listed.old.rows ++ waiting_entries queue.old.places.items }
    ensures none { OnOk result (waiting_entries queue.new.places.items ≡ []) }
{
    while queue.front < queue.places.len() {
        list_front(alloc, listed, queue)?;
    }
    *queue = Queue::new(alloc);
    Ok(())
}
