// The rows, one after another.
ghost use Rattle.std.specs.Prelude.{◌≡◌, ◌+◌, ◌<◌, ◌≤◌, ◌^◌, ◌++◌, ℕ, [], length, map, IfOk, OnOk, All};
ghost use Rattle.pb_rows.specs.Rows.{in_normal_form};
ghost use Rattle.rank_tables.specs.Numbers.{below, numbers_to};
ghost use Rattle.rank_tables.specs.Instance.{pair_at, pair_count, rising_pairs_of_hospital};
ghost use Rattle.rank_tables.specs.WellFormed.{IsWellFormed, most_capacity, most_pairs};
ghost use Rattle.rank_tables.specs.Tables.{IsPairNo, numbers_of};
ghost use Rattle.stability_model.specs.Model.{at_most, hospital_row_no, hospital_rows, pair_row, resident_row_no, resident_rows};
ghost use Rattle.stability_model.specs.Making.{bucket_at, number_after, row_if_any};

use crate::terms::{minus_terms, pair_terms};
use hrt_base::{NoMemory, PairNo};
use pb_rows::Row;
use rank_tables::Instance;
use std::alloc::Global;

// The row that at most so many of the pairs are taken.
fn at_most_row(alloc: Global, pairs: &[PairNo], most: u32) -> Result<Row, NoMemory>
    ensures { IfOk result (λ row. row ≡ in_normal_form (at_most most (numbers_of pairs.now))) }
{
    let terms = minus_terms(alloc, pairs)?;
    Row::from_terms_that_fit(alloc, &terms, -i128::from(most))
}

// Appends the row that at most so many of the pairs are taken, unless there are none, and gives its number.
fn push_at_most(
    alloc: Global,
    rows: &mut Vec<Row>,
    pairs: &[PairNo],
    most: u32,
) -> Result<Option<u32>, NoMemory>
    requires { length rows.old.items < 2 ^ 31 }
    ensures rows { OnOk result (rows.new.items ≡ rows.old.items ++ row_if_any most (numbers_of pairs.now)) }
    ensures number { IfOk result (λ number. number ≡ number_after (length rows.old.items) (numbers_of pairs.now)) }
{
    if pairs.is_empty() {
        return Ok(None);
    }
    rows.push(at_most_row(alloc, pairs, most)?)?;
    Ok(Some(rows.len() as u32))
}

// The rows of the residents, and the number of each resident's row.
pub fn push_resident_rows(
    alloc: Global,
    rows: &mut Vec<Row>,
    inst: &Instance,
) -> Result<Vec<Option<u32>>, NoMemory>
    requires { rows.old.items ≡ [] }
    ensures rows { OnOk result (rows.new.items ≡ map in_normal_form (resident_rows inst.now)) }
    ensures numbers { IfOk result (λ numbers. numbers.items ≡ map (resident_row_no inst.now) (below (length inst.now.residents))) }
    ensures few { OnOk result (length rows.new.items ≤ 20000) }
    ensures formed { IsWellFormed inst.now }
{
    let mut numbers = Vec::new(alloc);
    for r in 0..inst.residents() {
        numbers.push(push_at_most(alloc, rows, inst.pairs_of_resident(r), 1)?)?;
    }
    Ok(numbers)
}

// The rows of the hospitals after those of the residents, and the number of each hospital's row.
pub fn push_hospital_rows(
    alloc: Global,
    rows: &mut Vec<Row>,
    inst: &Instance,
    buckets: &[Vec<PairNo>],
) -> Result<Vec<Option<u32>>, NoMemory>
    requires before { rows.old.items ≡ map in_normal_form (resident_rows inst.now) }
    requires room { length rows.old.items ≤ 20000 }
    requires count { length buckets.now ≡ length inst.now.hospitals }
    requires each { (h : ℕ) → numbers_of (bucket_at buckets.now h) ≡ rising_pairs_of_hospital inst.now h }
    ensures rows { OnOk result (rows.new.items ≡ map in_normal_form (resident_rows inst.now ++ hospital_rows inst.now)) }
    ensures numbers { IfOk result (λ numbers. numbers.items ≡ map (hospital_row_no inst.now) (below (length inst.now.hospitals))) }
    ensures few { OnOk result (length rows.new.items ≤ length rows.old.items + 20000) }
{
    let mut numbers = Vec::new(alloc);
    for h in 0..inst.hospitals() {
        let pairs = &buckets[h as usize];
        numbers.push(push_at_most(alloc, rows, pairs, inst.capacity(h))?)?;
    }
    Ok(numbers)
}

// The row of a pair, given the pairs of its hospital.
fn pair_row(alloc: Global, inst: &Instance, p: PairNo, pairs: &[PairNo]) -> Result<Row, NoMemory>
    requires p { IsPairNo inst.now p.0 }
    requires pairs { numbers_of pairs.now ≡ rising_pairs_of_hospital inst.now (pair_at inst.now p.0).hospital }
    ensures { IfOk result (λ row. row ≡ in_normal_form (pair_row inst.now p.0)) }
{
    let terms = pair_terms(alloc, inst, p, pairs)?;
    let capacity = inst.capacity(inst.hospital_of(p));
    Row::from_terms_that_fit(alloc, &terms, i128::from(capacity))
}

// The rows of the pairs after the others.
pub fn push_pair_rows(
    alloc: Global,
    rows: &mut Vec<Row>,
    inst: &Instance,
    buckets: &[Vec<PairNo>],
) -> Result<(), NoMemory>
    requires count { length buckets.now ≡ length inst.now.hospitals }
    requires each { (h : ℕ) → numbers_of (bucket_at buckets.now h) ≡ rising_pairs_of_hospital inst.now h }
    ensures rows { OnOk result (rows.new.items ≡ rows.old.items ++ map in_normal_form (map (pair_row inst.now) (numbers_to (pair_count inst.now)))) }
    ensures few { OnOk result (length rows.new.items ≤ length rows.old.items + 100000) }
    ensures few_pairs { pair_count inst.now ≤ most_pairs }
{
    for k in 0..inst.pairs() {
        let p = PairNo(k + 1);
        let pairs = &buckets[inst.hospital_of(p) as usize];
        rows.push(pair_row(alloc, inst, p, pairs)?)?;
    }
    Ok(())
}
