//! The pair that a line names.

ghost use Rattle.std.specs.Prelude.{◌≡◌, ◌∷◌, ◌++◌, [], All, IfErr, IfNone, IfOk, List, None, Some, false, not, option_map, true};
ghost use Rattle.hrt_text.specs.Text.{Row, tokens};
ghost use Rattle.hrt_text.specs.Views.{texts};
ghost use Rattle.rank_tables.specs.Numbers.{is_distinct, is_in};
ghost use Rattle.rank_tables.specs.Tables.{IsPairNo, numbers_of};
ghost use Rattle.rank_tables.specs.WellFormed.{IsWellFormed, names_of_hospitals, names_of_residents};
ghost use Rattle.hrt_reader.specs.PairsText.{pair as pair_spelled, pair_form, pair_named, pairs_of_rows, unknown_in_pair};
ghost use Rattle.hrt_reader.specs.PairsAnswer.{pair_kind_there, pairs_number};

use crate::first_pass::Names;
use crate::pair_forms::{PairForm, pair_form};
use crate::pair_refusals::PairsKind;
use hrt_base::{NoMemory, PairNo};
use hrt_text::number_of;
use indexmap::IndexSet;
use rank_tables::Instance;

// The pair of two names.
fn pair_of(
    instance: &Instance,
    names: &Names,
    resident: &[u8],
    hospital: &[u8],
) -> Result<PairNo, PairsKind>
    requires residents { texts names.now.residents.keys ≡ names_of_residents instance.now }
    requires hospitals { texts names.now.hospitals.keys ≡ names_of_hospitals instance.now }
    requires well_formed { IsWellFormed instance.now }
    ensures known { IfOk result (λ p. unknown_in_pair instance.now (pair_spelled resident.now hospital.now) ≡ false) }
    ensures named { IfOk result (λ p. pair_named instance.now resident.now hospital.now ≡ Some p.0) }
    ensures refused { IfErr result (λ kind. (before : List Row) → pair_kind_there instance.now before (pair_spelled resident.now hospital.now) ≡ Some (pairs_number kind)) }
{
    let Some(r) = number_of(&names.residents, resident) else {
        return Err(PairsKind::UnknownName);
    };
    let Some(h) = number_of(&names.hospitals, hospital) else {
        return Err(PairsKind::UnknownName);
    };
    match instance.pair_no(r as u32, h as u32) {
        Some(pair) => Ok(pair),
        None => Err(PairsKind::NotAcceptable),
    }
}

// Adds a pair, and tells whether it is none of those before.
fn add_pair(
    pair: PairNo,
    taken: &mut IndexSet<u32>,
    pairs: &mut Vec<PairNo>,
) -> Result<bool, NoMemory>
    requires { taken.old.keys ≡ numbers_of pairs.old.items }
    ensures fresh { IfOk result (λ fresh. fresh ≡ not (is_in pair.0 (numbers_of pairs.old.items))) }
    ensures added { IfOk result (λ fresh. fresh ≡ true → pairs.new.items ≡ pairs.old.items ++ pair ∷ []) }
    ensures same { IfOk result (λ fresh. fresh ≡ true → taken.new.keys ≡ numbers_of pairs.new.items) }
{
    let (_, fresh) = taken.insert_full(pair.0)?;
    if fresh {
        pairs.push(pair)?;
    }
    Ok(fresh)
}

/// Adds the pair that the line names, if it isn't blank. Gives the least kind that stands in the line.
pub fn take_line(
    instance: &Instance,
    names: &Names,
    line: &[u8],
    taken: &mut IndexSet<u32>,
    pairs: &mut Vec<PairNo>,
) -> Result<Option<PairsKind>, NoMemory>
    requires residents { texts names.now.residents.keys ≡ names_of_residents instance.now }
    requires hospitals { texts names.now.hospitals.keys ≡ names_of_hospitals instance.now }
    requires well_formed { IsWellFormed instance.now }
    requires same { taken.old.keys ≡ numbers_of pairs.old.items }
    ensures least { IfOk result (λ kind. (before : List Row) → pairs_of_rows instance.now before ≡ numbers_of pairs.old.items →
        pair_kind_there instance.now before (pair_form (tokens line.now)) ≡ option_map pairs_number kind) }
    ensures added { IfOk result (λ kind. IfNone kind (numbers_of pairs.new.items ≡ numbers_of pairs.old.items ++ pairs_of_rows instance.now (tokens line.now ∷ []))) }
    ensures same { IfOk result (λ kind. IfNone kind (taken.new.keys ≡ numbers_of pairs.new.items)) }
    ensures in_range { IfOk result (λ kind. IfNone kind (All (λ p. IsPairNo instance.now p.0) pairs.old.items → All (λ p. IsPairNo instance.now p.0) pairs.new.items)) }
    ensures distinct { IfOk result (λ kind. IfNone kind (is_distinct (numbers_of pairs.old.items) ≡ true → is_distinct (numbers_of pairs.new.items) ≡ true)) }
{
    match pair_form(line) {
        PairForm::Blank => Ok(None),
        PairForm::Other => Ok(Some(PairsKind::BadLine)),
        PairForm::Pair { resident, hospital } => {
            match pair_of(instance, names, resident, hospital) {
                Err(kind) => Ok(Some(kind)),
                Ok(pair) => {
                    if add_pair(pair, taken, pairs)? {
                        Ok(None)
                    } else {
                        Ok(Some(PairsKind::RepeatedPair))
                    }
                }
            }
        }
    }
}
