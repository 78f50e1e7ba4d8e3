// The acceptable pairs, by resident: the hospitals' lists are turned round once, and each resident's list is then walked
// beside a table of the ranks that hospitals give the resident.
ghost use Rattle.std.specs.Prelude.{◌≡◌, ◌≢◌, ◌+◌, ◌<◌, ◌≤◌, ◌++◌, [], ◌∷◌, ℕ, length, flat_map, All, IsTrue, IfOk, IfErr, OnOk, slice_index};
ghost use Rattle.std.specs.List.{list_all};
ghost use Rattle.rank_tables.specs.Numbers.{below};
ghost use Rattle.rank_tables.specs.WellFormed.{is_list, most_residents, most_hospitals, most_pairs};
ghost use Rattle.rank_tables.specs.Building.{row_at, naming, namings_of, found, answered, resident_groups};

use crate::entry::PairEntry;
use crate::marks::{Mark, clear, ranked, stamp};
use crate::rows::{empty_rows, push_at};
use crate::{BuildRefusal, DraftHospital, DraftResident, Groups};
use std::alloc::{AllocError, Global};

const MOST_PAIRS: usize = 100_000;

// The hospitals that name each resident, each with the rank that it gives it.
pub fn namings(
    alloc: Global,
    hospitals: &[DraftHospital],
    residents: usize,
) -> Result<Vec<Vec<Mark>>, AllocError>
    requires few_hospitals { length hospitals.now ≤ most_hospitals }
    requires few_residents { residents ≤ most_residents }
    requires lists { IsTrue (list_all (λ hospital. is_list residents hospital.groups) hospitals.now) }
    ensures count { IfOk result (λ rows. length rows.items ≡ residents) }
    ensures each { IfOk result (λ rows. (r : ℕ) → row_at rows.items r ≡ namings_of hospitals.now (length hospitals.now) r) }
{
    let mut rows = empty_rows(alloc, residents)?;
    for (h, hospital) in hospitals.iter().enumerate() {
        let list = ranked(alloc, &hospital.groups)?;
        add_namings(&mut rows, h as u32, &list)?;
    }
    Ok(rows)
}

// Adds a hospital to the rows of the residents in its list.
fn add_namings(rows: &mut Vec<Vec<Mark>>, hospital: u32, list: &[Mark]) -> Result<(), AllocError>
    requires { All (λ m. m.number < length rows.old.items) list.now }
    ensures count { length rows.new.items ≡ length rows.old.items }
    ensures each { OnOk result ((r : ℕ) → row_at rows.new.items r ≡ row_at rows.old.items r ++ naming hospital r list.now) }
{
    for m in list {
        let mark = Mark {
            number: hospital,
            value: m.value,
        };
        push_at(rows, m.number as usize, mark)?;
    }
    Ok(())
}

// The pairs of all residents, in the order of their numbers.
pub fn pair_entries(
    alloc: Global,
    residents: &[DraftResident],
    hospitals: usize,
    named_by: &[Vec<Mark>],
) -> Result<Vec<PairEntry>, BuildRefusal>
    requires few_residents { length residents.now ≤ most_residents }
    requires few_hospitals { hospitals ≤ most_hospitals }
    requires lists { IsTrue (list_all (λ resident. is_list hospitals resident.groups) residents.now) }
    requires count { length named_by.now ≡ length residents.now }
    requires numbers { (r : ℕ) → All (λ m. m.number < hospitals) (row_at named_by.now r) }
    ensures ok { IfOk result (λ entries. entries.items
        ≡ flat_map (λ r. answered r (resident_groups residents.now r) (row_at named_by.now r)) (below (length residents.now))) }
    ensures few { IfOk result (λ entries. length entries.items ≤ most_pairs) }
    ensures too_many { IfErr result (λ refusal. refusal ≡ BuildRefusal.TooManyPairs → most_pairs
        < length (flat_map (λ r. answered r (resident_groups residents.now r) (row_at named_by.now r)) (below (length residents.now)))) }
    ensures no_terms { IfErr result (λ refusal. refusal ≢ BuildRefusal.TooManyTerms) }
{
    let mut entries = Vec::new(alloc);
    let mut ranks = vec![in alloc; 0u32; hospitals]?;
    for (r, resident) in residents.iter().enumerate() {
        add_resident(
            alloc,
            &mut entries,
            &mut ranks,
            r as u32,
            &resident.groups,
            &named_by[r],
        )?;
    }
    Ok(entries)
}

// Adds the pairs of one resident. The table of ranks is all 0, and is so again afterwards.
fn add_resident(
    alloc: Global,
    entries: &mut Vec<PairEntry>,
    ranks: &mut [u32],
    resident: u32,
    groups: &Groups,
    namings: &[Mark],
) -> Result<(), BuildRefusal>
    requires few_hospitals { length ranks.old ≤ most_hospitals }
    requires few { length entries.old.items ≤ most_pairs }
    requires list { IsTrue (is_list (length ranks.old) groups.now) }
    requires numbers { All (λ m. m.number < length ranks.old) namings.now }
    requires zero { (i : ℕ) → slice_index ranks.old i ≡ 0 }
    ensures ok { OnOk result (entries.new.items ≡ entries.old.items ++ answered resident groups.now namings.now) }
    ensures few { OnOk result (length entries.new.items ≤ most_pairs) }
    ensures zero { OnOk result ((i : ℕ) → slice_index ranks.new i ≡ 0) }
    ensures too_many { IfErr result (λ refusal. refusal ≡ BuildRefusal.TooManyPairs → most_pairs
        < length entries.old.items + length (answered resident groups.now namings.now)) }
    ensures no_terms { IfErr result (λ refusal. refusal ≢ BuildRefusal.TooManyTerms) }
{
    let list = ranked(alloc, groups)?;
    stamp(ranks, namings);
    add_pairs(entries, resident, &list, ranks)?;
    clear(ranks, namings);
    Ok(())
}

// Adds a pair for each of the list that ranks the resident.
fn add_pairs(
    entries: &mut Vec<PairEntry>,
    resident: u32,
    list: &[Mark],
    ranks: &[u32],
) -> Result<(), BuildRefusal>
    requires few { length entries.old.items ≤ most_pairs }
    requires numbers { All (λ m. m.number < length ranks.now) list.now }
    ensures ok { OnOk result (entries.new.items ≡ entries.old.items ++ found resident list.now ranks.now) }
    ensures few { OnOk result (length entries.new.items ≤ most_pairs) }
    ensures too_many { IfErr result (λ refusal. refusal ≡ BuildRefusal.TooManyPairs → most_pairs
        < length entries.old.items + length (found resident list.now ranks.now)) }
    ensures no_terms { IfErr result (λ refusal. refusal ≢ BuildRefusal.TooManyTerms) }
{
    for m in list {
        let rank = ranks[m.number as usize];
        if rank > 0 {
            let entry = PairEntry {
                resident,
                hospital: m.number,
                resident_rank: m.value,
                hospital_rank: rank,
            };
            add_pair(entries, entry)?;
        }
    }
    Ok(())
}

// Adds a pair, unless there are as many as there may be.
fn add_pair(entries: &mut Vec<PairEntry>, entry: PairEntry) -> Result<(), BuildRefusal>
    requires { length entries.old.items ≤ most_pairs }
    ensures ok { OnOk result (entries.new.items ≡ entries.old.items ++ entry ∷ []) }
    ensures few { OnOk result (length entries.new.items ≤ most_pairs) }
    ensures too_many { IfErr result (λ refusal. refusal ≡ BuildRefusal.TooManyPairs → length entries.old.items ≡ most_pairs) }
    ensures no_terms { IfErr result (λ refusal. refusal ≢ BuildRefusal.TooManyTerms) }
{
    if entries.len() == MOST_PAIRS {
        return Err(BuildRefusal::TooManyPairs);
    }
    entries.push(entry)?;
    Ok(())
}
