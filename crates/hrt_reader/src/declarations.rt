//! The flaws of a declaration.

ghost use Rattle.std.specs.Prelude.{◌≡◌, ◌++◌, ◌∷◌, ◌&&◌, [], find, option_map, IfOk, IfNone, List, Option};
ghost use Rattle.std.specs.List.{list_all};
ghost use Rattle.hrt_text.specs.Text.{Row, tokens};
ghost use Rattle.rank_tables.specs.Names.{is_name};
ghost use Rattle.hrt_text.specs.Grammar.{words};
ghost use Rattle.hrt_text.specs.Grammar.{resident as resident_form, hospital as hospital_form};
ghost use Rattle.hrt_reader.specs.Refusal.{declared_hospitals, declared_residents, stands_by_form};
ghost use Rattle.hrt_text.specs.Views.{texts};
ghost use Rattle.hrt_reader.specs.Kinds.{flaw_number};

use crate::refusals::{Flaw, ReadKind};
use hrt_text::{are_distinct, are_groups, are_names, capacity_of, declare, is_name};
use indexmap::IndexSet;
use std::alloc::{AllocError, Global};

const MOST_RESIDENTS: usize = 20_000;

const MOST_HOSPITALS: usize = 20_000;

fn names_fit(name: &[u8], items: &[u8]) -> bool
    ensures { result ≡ (is_name name.now && list_all is_name (words (tokens items.now))) }
{
    is_name(name) && are_names(items)
}

/// Declares a resident. Gives the least flaw of its line.
pub fn resident_flaw<'a>(
    alloc: Global,
    name: &'a [u8],
    items: &'a [u8],
    residents: &mut IndexSet<&'a [u8]>,
) -> Result<Option<Flaw>, AllocError>
    ensures least { IfOk result (λ flaw. (before all : List Row) → declared_residents before ≡ texts residents.old.keys →
        find (λ n. stands_by_form n before (resident_form name.entry.now (tokens items.entry.now)) all) (2 ∷ 3 ∷ 4 ∷ 5 ∷ 7 ∷ 8 ∷ 11 ∷ 12 ∷ []) ≡ option_map flaw_number flaw) }
    ensures added { IfOk result (λ flaw. IfNone flaw (texts residents.new.keys ≡ texts residents.old.keys ++ name.entry.now ∷ [])) }
{
    if !names_fit(name, items) {
        return Ok(Some(Flaw::Bad(ReadKind::BadName)));
    }
    let full = residents.len() == MOST_RESIDENTS;
    let fresh = declare(residents, name)?;
    if !fresh {
        return Ok(Some(Flaw::Bad(ReadKind::DeclaredTwice)));
    }
    let distinct = are_distinct(alloc, items)?;
    if !distinct {
        return Ok(Some(Flaw::Bad(ReadKind::NamedTwice)));
    }
    if !are_groups(items) {
        return Ok(Some(Flaw::Bad(ReadKind::BadTie)));
    }
    if full {
        return Ok(Some(Flaw::TooManyResidents));
    }
    Ok(None)
}

/// Declares a hospital. Gives the least flaw of its line.
pub fn hospital_flaw<'a>(
    alloc: Global,
    name: &'a [u8],
    capacity: &'a [u8],
    items: &'a [u8],
    hospitals: &mut IndexSet<&'a [u8]>,
) -> Result<Option<Flaw>, AllocError>
    ensures least { IfOk result (λ flaw. (before all : List Row) → declared_hospitals before ≡ texts hospitals.old.keys →
        find (λ n. stands_by_form n before (hospital_form name.entry.now capacity.entry.now (tokens items.entry.now)) all) (2 ∷ 3 ∷ 4 ∷ 5 ∷ 7 ∷ 8 ∷ 11 ∷ 12 ∷ []) ≡ option_map flaw_number flaw) }
    ensures added { IfOk result (λ flaw. IfNone flaw (texts hospitals.new.keys ≡ texts hospitals.old.keys ++ name.entry.now ∷ [])) }
{
    if !names_fit(name, items) {
        return Ok(Some(Flaw::Bad(ReadKind::BadName)));
    }
    if capacity_of(capacity).is_none() {
        return Ok(Some(Flaw::Bad(ReadKind::BadCapacity)));
    }
    let full = hospitals.len() == MOST_HOSPITALS;
    let fresh = declare(hospitals, name)?;
    if !fresh {
        return Ok(Some(Flaw::Bad(ReadKind::DeclaredTwice)));
    }
    let distinct = are_distinct(alloc, items)?;
    if !distinct {
        return Ok(Some(Flaw::Bad(ReadKind::NamedTwice)));
    }
    if !are_groups(items) {
        return Ok(Some(Flaw::Bad(ReadKind::BadTie)));
    }
    if full {
        return Ok(Some(Flaw::TooManyHospitals));
    }
    Ok(None)
}
