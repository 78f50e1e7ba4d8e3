// Who chose whom.
ghost use Rattle.std.specs.Prelude.{◌≡◌, ◌<◌, ◌≤◌, ◌==◌, ◌++◌, ◌∷◌, ℕ, [], IfOk, OnOk, if◌then◌else◌, length};
ghost use Rattle.std.specs.List.{concat};
ghost use Rattle.rank_tables.specs.Building.{row_at};
ghost use Rattle.rank_tables.specs.Numbers.{is_in};
ghost use Rattle.instance_gen.specs.Drafts.{choosers};
ghost use Rattle.instance_gen.specs.Rows.{HasRows, ends_with, with_chooser};

use hrt_base::NoMemory;
use rank_tables::{DraftResident, Groups};
use std::alloc::Global;

/// For each hospital the residents that chose it, by rising number.
pub fn choosers_of(
    alloc: Global,
    hospitals: u32,
    residents: &[DraftResident],
) -> Result<Vec<Vec<u32>>, NoMemory>
    requires { length residents.now ≤ 20000 }
    ensures { IfOk result (λ rows. HasRows rows.items hospitals (choosers residents.now)) }
{
    let mut rows = empty_rows(alloc, hospitals)?;
    for (number, resident) in residents.iter().enumerate() {
        add_choices(&mut rows, number as u32, &resident.groups)?;
    }
    Ok(rows)
}

// So many empty rows.
fn empty_rows(alloc: Global, count: u32) -> Result<Vec<Vec<u32>>, NoMemory>
    ensures { IfOk result (λ rows. HasRows rows.items count (λ _. [])) }
{
    let mut rows = Vec::new(alloc);
    for _i in 0..count {
        rows.push(Vec::new(alloc))?;
    }
    Ok(rows)
}

// Adds a resident to the row of each hospital that it chose.
fn add_choices(rows: &mut Vec<Vec<u32>>, number: u32, groups: &Groups) -> Result<(), NoMemory>
    ensures many { length rows.new.items ≡ length rows.old.items }
    ensures each { OnOk result ((h : ℕ) → h < length rows.old.items → row_at rows.new.items h ≡ with_chooser number (is_in h (concat groups.now)) (row_at rows.old.items h)) }
{
    for k in 0..groups.count() {
        for hospital in groups.group(k) {
            add_chooser(rows, *hospital, number)?;
        }
    }
    Ok(())
}

// Adds a resident to the row of a hospital, where it isn't the last one there.
fn add_chooser(rows: &mut Vec<Vec<u32>>, hospital: u32, number: u32) -> Result<(), NoMemory>
    ensures many { length rows.new.items ≡ length rows.old.items }
    ensures each { OnOk result ((h : ℕ) → h < length rows.old.items → row_at rows.new.items h ≡ with_chooser number (h == hospital) (row_at rows.old.items h)) }
{
    let place = hospital as usize;
    if place < rows.len() && !ends_with(&rows[place], number) {
        push_at(rows, place, number)?;
    }
    Ok(())
}

// Adds a number to the row at a place.
fn push_at(rows: &mut Vec<Vec<u32>>, place: usize, number: u32) -> Result<(), NoMemory>
    requires { place < length rows.old.items }
    ensures many { length rows.new.items ≡ length rows.old.items }
    ensures pushed { OnOk result ((r : ℕ) → row_at rows.new.items r ≡ (if r == place then row_at rows.old.items r ++ number ∷ [] else row_at rows.old.items r)) }
{
    rows[place].push(number)?;
    Ok(())
}

// Whether a number is the last one.
fn ends_with(row: &[u32], number: u32) -> bool
    ensures { result ≡ ends_with number row.now }
{
    match row {
        [.., last] => *last == number,
        [] => false,
    }
}
