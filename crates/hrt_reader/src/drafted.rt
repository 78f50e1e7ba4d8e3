//! One declaration as a part of the draft.

ghost use Rattle.std.specs.Prelude.{◌≡◌, ◌<◌, ◌^◌, ◌++◌, ◌∷◌, [], false, true, is_none, length, map, not, IfOk, List};
ghost use Rattle.std.specs.List.{list_all};
ghost use Rattle.hrt_text.specs.Text.{Row, tokens};
ghost use Rattle.std.specs.Str.Parse.{digits_value};
ghost use Rattle.hrt_text.specs.Grammar.{form_of, groups_of, is_capacity, words};
ghost use Rattle.rank_tables.specs.Names.{is_among, is_name};
ghost use Rattle.hrt_reader.specs.Refusal.{groups_in, hospital_in, declared_hospitals, hospitals_of, resident_in, declared_residents, residents_of, unknown_name};
ghost use Rattle.hrt_reader.specs.Survey.{IsFine};
ghost use Rattle.hrt_text.specs.Views.{texts};

use crate::first_pass::Names;
use crate::numbered::numbered_groups;
use hrt_base::NoMemory;
use hrt_text::{Form, capacity_of, form_of};
use indexmap::IndexSet;
use rank_tables::{DraftHospital, DraftResident, Name};
use std::alloc::Global;

fn add_resident(
    alloc: Global,
    names: &IndexSet<&[u8]>,
    name: &[u8],
    items: &[u8],
    residents: &mut Vec<DraftResident>,
) -> Result<bool, NoMemory>
    requires few { length names.now.keys < 2 ^ 32 }
    requires named { is_name name.now ≡ true }
    requires fit { is_none (groups_of (tokens items.now)) ≡ false }
    ensures known { IfOk result (λ known. known ≡ list_all (λ w. is_among w (texts names.now.keys)) (words (tokens items.now))) }
    ensures added { IfOk result (λ known. known ≡ true → residents.new.items ≡ residents.old.items ++ record { name = name.now; groups = groups_in (texts names.now.keys) (tokens items.now) } ∷ []) }
    ensures kept { IfOk result (λ known. known ≡ false → residents.new.items ≡ residents.old.items) }
{
    match numbered_groups(alloc, names, items)? {
        None => Ok(false),
        Some(groups) => {
            let name = Name::new(alloc, name)?;
            residents.push(DraftResident { name, groups })?;
            Ok(true)
        }
    }
}

fn add_hospital(
    alloc: Global,
    names: &IndexSet<&[u8]>,
    name: &[u8],
    capacity: &[u8],
    items: &[u8],
    hospitals: &mut Vec<DraftHospital>,
) -> Result<bool, NoMemory>
    requires few { length names.now.keys < 2 ^ 32 }
    requires named { is_name name.now ≡ true }
    requires posts { is_capacity capacity.now ≡ true }
    requires fit { is_none (groups_of (tokens items.now)) ≡ false }
    ensures known { IfOk result (λ known. known ≡ list_all (λ w. is_among w (texts names.now.keys)) (words (tokens items.now))) }
    ensures added { IfOk result (λ known. known ≡ true → hospitals.new.items ≡ hospitals.old.items ++ record { name = name.now; capacity = digits_value 10 capacity.now; groups = groups_in (texts names.now.keys) (tokens items.now) } ∷ []) }
    ensures kept { IfOk result (λ known. known ≡ false → hospitals.new.items ≡ hospitals.old.items) }
{
    match numbered_groups(alloc, names, items)? {
        None => Ok(false),
        Some(groups) => {
            let name = Name::new(alloc, name)?;
            let capacity = match capacity_of(capacity) {
                Some(posts) => posts,
                None => 0,
            };
            hospitals.push(DraftHospital {
                name,
                capacity,
                groups,
            })?;
            Ok(true)
        }
    }
}

/// Adds what the line declares, and tells whether its list names nothing unknown.
pub fn add_line(
    alloc: Global,
    names: &Names,
    line: &[u8],
    residents: &mut Vec<DraftResident>,
    hospitals: &mut Vec<DraftHospital>,
) -> Result<bool, NoMemory>
    requires few_residents { length names.now.residents.keys < 2 ^ 32 }
    requires few_hospitals { length names.now.hospitals.keys < 2 ^ 32 }
    requires fine { IsFine (form_of (tokens line.now)) }
    ensures known { IfOk result (λ known. (all : List Row) → declared_residents all ≡ texts names.now.residents.keys → declared_hospitals all ≡ texts names.now.hospitals.keys → unknown_name all (form_of (tokens line.now)) ≡ not known) }
    ensures residents { IfOk result (λ known. known ≡ true → residents.new.items ≡ residents.old.items ++ map (resident_in (texts names.now.hospitals.keys)) (residents_of (tokens line.now ∷ []))) }
    ensures hospitals { IfOk result (λ known. known ≡ true → hospitals.new.items ≡ hospitals.old.items ++ map (hospital_in (texts names.now.residents.keys)) (hospitals_of (tokens line.now ∷ []))) }
{
    match form_of(line) {
        Some(Form::Resident { name, items }) => {
            add_resident(alloc, &names.hospitals, name, items, residents)
        }
        Some(
            Form::Hospital {
                name,
                capacity,
                items,
            },
        ) => add_hospital(alloc, &names.residents, name, capacity, items, hospitals),
        _ => Ok(true),
    }
}
