// The numbers of each resident's and each hospital's pairs, in the order of its list.
ghost use Rattle.std.specs.Prelude.{◌≡◌, ◌<◌, ◌≤◌, ◌^◌, ◌==◌, ◌-◌, ℕ, nat_lt, length, map, filter, All, IsTrue, IfOk, OnOk, slice_index};
ghost use Rattle.std.specs.List.{concat, list_all};
ghost use Rattle.rank_tables.specs.Numbers.{below, numbers_to};
ghost use Rattle.rank_tables.specs.WellFormed.{is_list, most_residents};
ghost use Rattle.rank_tables.specs.Tables.{numbers_of};
ghost use Rattle.rank_tables.specs.Building.{row_at, rows_of, numbers_with, marks_with, numbered, marked, hospital_groups};

use crate::entry::PairEntry;
use crate::marks::{Mark, clear, ranked, stamp};
use crate::rows::{empty_rows, push_at};
use crate::{DraftHospital, Groups};
use hrt_base::PairNo;
use std::alloc::{AllocError, Global};

// The numbers of each resident's pairs.
pub fn by_resident(
    alloc: Global,
    entries: &[PairEntry],
    residents: usize,
) -> Result<Vec<Vec<PairNo>>, AllocError>
    requires few { length entries.now < 2 ^ 32 - 1 }
    requires declared { All (λ entry. entry.resident < residents) entries.now }
    ensures count { IfOk result (λ rows. length rows.items ≡ residents) }
    ensures each { IfOk result (λ rows. (r : ℕ) → numbers_of (row_at rows.items r) ≡ numbers_with (map (λ entry. entry.resident) entries.now) r) }
{
    let mut rows = empty_rows(alloc, residents)?;
    for (i, entry) in entries.iter().enumerate() {
        push_at(&mut rows, entry.resident as usize, PairNo(i as u32 + 1))?;
    }
    Ok(rows)
}

// The residents of each hospital's pairs, each with the number of the pair.
pub fn by_hospital(
    alloc: Global,
    entries: &[PairEntry],
    hospitals: usize,
) -> Result<Vec<Vec<Mark>>, AllocError>
    requires few { length entries.now < 2 ^ 32 - 1 }
    requires declared { All (λ entry. entry.hospital < hospitals) entries.now }
    ensures count { IfOk result (λ rows. length rows.items ≡ hospitals) }
    ensures each { IfOk result (λ rows. (h : ℕ) → row_at rows.items h
        ≡ marks_with (map (λ entry. entry.resident) entries.now) (map (λ entry. entry.hospital) entries.now) h) }
{
    let mut rows = empty_rows(alloc, hospitals)?;
    for (i, entry) in entries.iter().enumerate() {
        let mark = Mark {
            number: entry.resident,
            value: i as u32 + 1,
        };
        push_at(&mut rows, entry.hospital as usize, mark)?;
    }
    Ok(rows)
}

// The numbers of each hospital's pairs in the order of its list, by the marks of its pairs.
pub fn as_listed(
    alloc: Global,
    hospitals: &[DraftHospital],
    residents: usize,
    pairs: &[Vec<Mark>],
) -> Result<Vec<Vec<PairNo>>, AllocError>
    requires few_residents { residents ≤ most_residents }
    requires lists { IsTrue (list_all (λ hospital. is_list residents hospital.groups) hospitals.now) }
    requires count { length pairs.now ≡ length hospitals.now }
    requires numbers { (h : ℕ) → All (λ m. m.number < residents) (row_at pairs.now h) }
    ensures { IfOk result (λ rows. map numbers_of (rows_of rows.items)
        ≡ map (λ h. numbered (hospital_groups hospitals.now h) (row_at pairs.now h)) (below (length hospitals.now))) }
{
    let mut rows = Vec::new(alloc);
    let mut numbers = vec![in alloc; 0u32; residents]?;
    for (h, hospital) in hospitals.iter().enumerate() {
        let row = list_hospital(alloc, &mut numbers, &hospital.groups, &pairs[h])?;
        rows.push(row)?;
    }
    Ok(rows)
}

// The numbers of one hospital's pairs. The table of numbers is all 0, and is so again afterwards.
fn list_hospital(
    alloc: Global,
    numbers: &mut [u32],
    groups: &Groups,
    pairs: &[Mark],
) -> Result<Vec<PairNo>, AllocError>
    requires few_residents { length numbers.old ≤ most_residents }
    requires list { IsTrue (is_list (length numbers.old) groups.now) }
    requires marks { All (λ m. m.number < length numbers.old) pairs.now }
    requires zero { (i : ℕ) → slice_index numbers.old i ≡ 0 }
    ensures ok { IfOk result (λ row. numbers_of row.items ≡ numbered groups.now pairs.now) }
    ensures zero { OnOk result ((i : ℕ) → slice_index numbers.new i ≡ 0) }
{
    let list = ranked(alloc, groups)?;
    stamp(numbers, pairs);
    let row = listed(alloc, &list, numbers)?;
    clear(numbers, pairs);
    Ok(row)
}

// The pairs that a table numbers, in the order of a list.
fn listed(alloc: Global, list: &[Mark], numbers: &[u32]) -> Result<Vec<PairNo>, AllocError>
    requires { All (λ m. m.number < length numbers.now) list.now }
    ensures { IfOk result (λ row. numbers_of row.items ≡ filter (nat_lt 0) (map (λ m. slice_index numbers.now m.number) list.now)) }
{
    let mut row = Vec::new(alloc);
    for m in list {
        let number = numbers[m.number as usize];
        if number > 0 {
            row.push(PairNo(number))?;
        }
    }
    Ok(row)
}
