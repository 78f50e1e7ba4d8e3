//! Reading a text of pairs.

ghost use Rattle.std.specs.Prelude.{◌≡◌, ◌<◌, ◌≤◌, ◌==◌, ◌^◌, All, IfErr, IfOk, IsTrue, None, Some, count_by, length, true};
ghost use Rattle.hrt_text.specs.Text.{rows};
ghost use Rattle.hrt_text.specs.Views.{texts};
ghost use Rattle.rank_tables.specs.Numbers.{is_distinct};
ghost use Rattle.rank_tables.specs.Tables.{IsPairNo, numbers_of};
ghost use Rattle.rank_tables.specs.WellFormed.{IsWellFormed, names_of_hospitals, names_of_residents};
ghost use Rattle.hrt_reader.specs.Refusal.{Refusal};
ghost use Rattle.hrt_reader.specs.PairsText.{SpellsPairs, pairs_refusal};
ghost use Rattle.hrt_reader.specs.PairsAnswer.{ArePairsRefusedBy};
ghost use Rattle.hrt_reader.specs.Written.{names_of};

use crate::first_pass::Names;
use crate::pair_lines::take_line;
use crate::pair_refusals::PairsRefusal;
use crate::pieces::{Side, count_of, name_of};
use hrt_base::PairNo;
use hrt_text::{declare, next_line};
use indexmap::IndexSet;
use rank_tables::Instance;
use std::alloc::{AllocError, Global};

// The names of a side, by number.
fn index_names(
    alloc: Global,
    instance: &Instance,
    side: Side,
) -> Result<IndexSet<&[u8]>, AllocError>
    ensures names { IfOk result (λ names. texts names.keys ≡ names_of side instance.entry.now) }
    ensures well_formed { IsWellFormed instance.entry.now }
{
    let mut names = IndexSet::new(alloc);
    for number in 0..count_of(instance, side) {
        declare(&mut names, name_of(instance, side, number))?;
    }
    Ok(names)
}

// The pairs that the lines name, one line after the other.
fn pairs_of_lines(
    alloc: Global,
    instance: &Instance,
    names: &Names,
    text: &[u8],
) -> Result<Vec<PairNo>, PairsRefusal>
    requires short { length (rows text.now) < 2 ^ 32 }
    requires residents { texts names.now.residents.keys ≡ names_of_residents instance.now }
    requires hospitals { texts names.now.hospitals.keys ≡ names_of_hospitals instance.now }
    requires well_formed { IsWellFormed instance.now }
    ensures spells { IfOk result (λ pairs. SpellsPairs instance.now text.now (numbers_of pairs.items)) }
    ensures in_range { IfOk result (λ pairs. All (λ p. IsPairNo instance.now p.0) pairs.items) }
    ensures distinct { IfOk result (λ pairs. IsTrue (is_distinct (numbers_of pairs.items))) }
    ensures refused { IfErr result (ArePairsRefusedBy (pairs_refusal instance.now (rows text.now))) }
{
    let mut taken = IndexSet::new(alloc);
    let mut pairs = Vec::new(alloc);
    let mut number: u32 = 0;
    let mut rest = text;
    while let Some((line, after)) = next_line(rest) {
        number += 1;
        let kind = take_line(instance, names, line, &mut taken, &mut pairs)?;
        if let Some(kind) = kind {
            return Err(PairsRefusal::Bad { kind, line: number });
        }
        rest = after;
    }
    Ok(pairs)
}

/// Reads pairs of the instance in any spelling, in the order of their lines. The text has few enough line feeds for each
/// line's number to fit.
pub fn read_pairs(alloc: Global, bytes: &[u8], inst: &Instance) -> Result<Vec<PairNo>, PairsRefusal>
    requires { count_by (λ b. b == 10) bytes.now ≤ 4294967294 }
    ensures spells { IfOk result (λ pairs. SpellsPairs inst.now bytes.now (numbers_of pairs.items)) }
    ensures in_range { IfOk result (λ pairs. All (λ p. IsPairNo inst.now p.0) pairs.items) }
    ensures distinct { IfOk result (λ pairs. IsTrue (is_distinct (numbers_of pairs.items))) }
    ensures refused { IfErr result (ArePairsRefusedBy (pairs_refusal inst.now (rows bytes.now))) }
    ensures accepts { pairs_refusal inst.now (rows bytes.now) ≡ None → IfErr result (λ e. e ≡ PairsRefusal.NoMemory) }
    ensures refuses { (r : Refusal) → pairs_refusal inst.now (rows bytes.now) ≡ Some r → IfOk result (λ pairs. ⊥) }
{
    let residents = index_names(alloc, inst, Side::Residents)?;
    let hospitals = index_names(alloc, inst, Side::Hospitals)?;
    let names = Names {
        residents,
        hospitals,
    };
    pairs_of_lines(alloc, inst, &names, bytes)
}
