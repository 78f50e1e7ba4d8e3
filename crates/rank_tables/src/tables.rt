// The tables of an instance, made from its lists.
ghost use Rattle.std.specs.Prelude.{◌≡◌, ◌≢◌, ◌<◌, ◌≤◌, map, length, IfOk, IfErr};
ghost use Rattle.rank_tables.specs.Numbers.{numbers_to};
ghost use Rattle.rank_tables.specs.Instance.{Lists, pair_count};
ghost use Rattle.rank_tables.specs.WellFormed.{IsWellFormed, most_pairs};
ghost use Rattle.rank_tables.specs.Tables.{AreTables, entry_of};
ghost use Rattle.rank_tables.specs.Building.{rows_of, both};

use crate::entry::PairEntry;
use crate::listing::{as_listed, by_hospital, by_resident};
use crate::pairing::{namings, pair_entries};
use crate::unanswered::{named_hospitals, silent_residents};
use crate::{BuildRefusal, DraftHospital, DraftResident};
use hrt_base::PairNo;
use std::alloc::{AllocError, Global};

/// What an instance keeps beside its lists: each pair by its number, the pairs of each resident and of each hospital in
/// the order of its list, and the count of namings that aren't answered.
#[derive(Debug, Drop)]
pub struct Tables {
    pub entries: Vec<PairEntry>,
    pub by_resident: Vec<Vec<PairNo>>,
    pub by_hospital: Vec<Vec<PairNo>>,
    pub unanswered: u32,
}

// The tables of these lists.
pub fn tables_of(
    alloc: Global,
    residents: &[DraftResident],
    hospitals: &[DraftHospital],
) -> Result<Tables, BuildRefusal>
    requires { IsWellFormed (both residents.now hospitals.now) }
    ensures ok { IfOk result (λ t. AreTables (both residents.now hospitals.now) t.entries.items (rows_of t.by_resident.items) (rows_of t.by_hospital.items) t.unanswered) }
    ensures too_many { IfErr result (λ refusal. refusal ≡ BuildRefusal.TooManyPairs → most_pairs < pair_count (both residents.now hospitals.now)) }
    ensures no_terms { IfErr result (λ refusal. refusal ≢ BuildRefusal.TooManyTerms) }
{
    let entries = entries_of(alloc, residents, hospitals)?;
    let tables = with_rows(alloc, residents, hospitals, entries)?;
    Ok(tables)
}

// The pairs of these lists by their numbers.
fn entries_of(
    alloc: Global,
    residents: &[DraftResident],
    hospitals: &[DraftHospital],
) -> Result<Vec<PairEntry>, BuildRefusal>
    requires { IsWellFormed (both residents.now hospitals.now) }
    ensures ok { IfOk result (λ entries. entries.items
        ≡ map (entry_of (both residents.now hospitals.now)) (numbers_to (pair_count (both residents.now hospitals.now)))) }
    ensures few { IfOk result (λ entries. length entries.items ≤ most_pairs) }
    ensures too_many { IfErr result (λ refusal. refusal ≡ BuildRefusal.TooManyPairs → most_pairs < pair_count (both residents.now hospitals.now)) }
    ensures no_terms { IfErr result (λ refusal. refusal ≢ BuildRefusal.TooManyTerms) }
{
    let named_by = namings(alloc, hospitals, residents.len())?;
    pair_entries(alloc, residents, hospitals.len(), &named_by)
}

// The tables of these lists, by their pairs.
fn with_rows(
    alloc: Global,
    residents: &[DraftResident],
    hospitals: &[DraftHospital],
    entries: Vec<PairEntry>,
) -> Result<Tables, AllocError>
    requires well_formed { IsWellFormed (both residents.now hospitals.now) }
    requires pairs { entries.items ≡ map (entry_of (both residents.now hospitals.now)) (numbers_to (pair_count (both residents.now hospitals.now))) }
    requires few { length entries.items ≤ most_pairs }
    ensures { IfOk result (λ t. AreTables (both residents.now hospitals.now) t.entries.items (rows_of t.by_resident.items) (rows_of t.by_hospital.items) t.unanswered) }
{
    let rows = by_resident(alloc, &entries, residents.len())?;
    let marks = by_hospital(alloc, &entries, hospitals.len())?;
    let columns = as_listed(alloc, hospitals, residents.len(), &marks)?;
    let named = named_hospitals(residents, hospitals.len());
    let silent = silent_residents(hospitals, residents.len(), &columns);
    let unanswered = (named - entries.len() + silent) as u32;
    Ok(Tables {
        entries,
        by_resident: rows,
        by_hospital: columns,
        unanswered,
    })
}
