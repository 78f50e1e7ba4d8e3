// The rows that the bound row is the sum of, each as the step that names it.
ghost use Rattle.std.specs.Prelude.{◌≡◌, ◌<◌, ◌++◌, IfOk, OnOk, flat_map, length, map};
ghost use Rattle.rank_tables.specs.Numbers.{below};
ghost use Rattle.rank_tables.specs.Tables.{numbers_of};
ghost use Rattle.rank_tables.specs.WellFormed.{IsWellFormed};
ghost use Rattle.capacity_bound.specs.Steps.{bound_operands, hospital_operands, pair_operand, resident_operands, row_operand};

use crate::counts::{count_left, posts_left, residents_left};
use derivation::Deleted;
use hrt_base::{Lit, NoMemory, PairNo, RowNo};
use proof_lines::PolStep;
use rank_tables::Instance;
use stability_model::Model;
use std::alloc::Global;

/// The row of a deleted pair, `~x >= 1`, and of another one `~x >= 0`.
fn pair_operand(gone: &Deleted, p: PairNo) -> PolStep
    ensures { result ≡ pair_operand gone.now p.0 }
{
    match gone.unit_row(p) {
        Some(id) => PolStep::Id(id),
        None => PolStep::Axiom(Lit {
            var: p.0,
            neg: true,
        }),
    }
}

fn push_pairs(operands: &mut Vec<PolStep>, gone: &Deleted, pairs: &[PairNo]) -> Result<(), NoMemory>
    ensures { OnOk result (operands.new.items ≡ operands.old.items ++ map (pair_operand gone.now) (numbers_of pairs.now)) }
{
    for p in pairs {
        operands.push(pair_operand(gone, *p))?;
    }
    Ok(())
}

fn push_row(operands: &mut Vec<PolStep>, number: Option<u32>) -> Result<(), NoMemory>
    ensures { OnOk result (operands.new.items ≡ operands.old.items ++ row_operand number) }
{
    if let Some(k) = number {
        operands.push(PolStep::Id(RowNo(u64::from(k))))?;
    }
    Ok(())
}

/// The row of a resident that has a pair that is left, else those of its pairs.
fn push_resident(
    operands: &mut Vec<PolStep>,
    inst: &Instance,
    model: &Model,
    gone: &Deleted,
    r: u32,
) -> Result<(), NoMemory>
    requires same { model.now ≡ inst.now }
    requires declared { r < length inst.now.residents }
    ensures { OnOk result (operands.new.items ≡ operands.old.items ++ resident_operands inst.now gone.now r) }
{
    let pairs = inst.pairs_of_resident(r);
    if count_left(gone, pairs) > 0 {
        return push_row(operands, model.resident_row(r));
    }
    push_pairs(operands, gone, pairs)
}

/// The row of a hospital that has more pairs left than posts, else those of its pairs.
fn push_hospital(
    operands: &mut Vec<PolStep>,
    inst: &Instance,
    model: &Model,
    gone: &Deleted,
    h: u32,
) -> Result<(), NoMemory>
    requires same { model.now ≡ inst.now }
    requires declared { h < length inst.now.hospitals }
    ensures { OnOk result (operands.new.items ≡ operands.old.items ++ hospital_operands inst.now gone.now h) }
{
    let pairs = inst.pairs_of_hospital(h);
    if count_left(gone, pairs) > inst.capacity(h) as usize {
        return push_row(operands, model.hospital_row(h));
    }
    push_pairs(operands, gone, pairs)
}

fn operands_by_residents(
    alloc: Global,
    inst: &Instance,
    model: &Model,
    gone: &Deleted,
) -> Result<Vec<PolStep>, NoMemory>
    requires { model.now ≡ inst.now }
    ensures { IfOk result (λ operands. operands.items ≡ flat_map (resident_operands inst.now gone.now) (below (length inst.now.residents))) }
{
    let mut operands = Vec::new(alloc);
    for r in 0..inst.residents() {
        push_resident(&mut operands, inst, model, gone, r)?;
    }
    Ok(operands)
}

fn operands_by_hospitals(
    alloc: Global,
    inst: &Instance,
    model: &Model,
    gone: &Deleted,
) -> Result<Vec<PolStep>, NoMemory>
    requires { model.now ≡ inst.now }
    ensures { IfOk result (λ operands. operands.items ≡ flat_map (hospital_operands inst.now gone.now) (below (length inst.now.hospitals))) }
{
    let mut operands = Vec::new(alloc);
    for h in 0..inst.hospitals() {
        push_hospital(&mut operands, inst, model, gone, h)?;
    }
    Ok(operands)
}

/// The rows by residents where they count no more than the posts, else those by hospitals.
pub(crate) fn bound_operands(
    alloc: Global,
    inst: &Instance,
    model: &Model,
    gone: &Deleted,
) -> Result<Vec<PolStep>, NoMemory>
    requires { model.now ≡ inst.now }
    ensures are { IfOk result (λ operands. operands.items ≡ bound_operands inst.now gone.now) }
    ensures well_formed { IsWellFormed inst.now }
{
    if residents_left(inst, gone) <= posts_left(inst, gone) {
        return operands_by_residents(alloc, inst, model, gone);
    }
    operands_by_hospitals(alloc, inst, model, gone)
}
