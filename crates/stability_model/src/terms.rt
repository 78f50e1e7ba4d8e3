// The terms of the rows, before they are joined.
ghost use Rattle.std.specs.Prelude.{◌≡◌, ◌+◌, ◌≤◌, ◌++◌, map, pos, neg_ℤ, false, IfOk, OnOk, All};
ghost use Rattle.rank_tables.specs.Numbers.{numbers_to};
ghost use Rattle.rank_tables.specs.Instance.{capacity_of, pair_at, pairs_of_resident};
ghost use Rattle.rank_tables.specs.WellFormed.{most_capacity};
ghost use Rattle.rank_tables.specs.Tables.{IsOfHospital, IsPairNo, numbers_of};
ghost use Rattle.stability_model.specs.Model.{at_most, term};
ghost use Rattle.stability_model.specs.Making.{counted_terms, hospital_share, resident_share};

use hrt_base::{Lit, PairNo, Term};
use rank_tables::Instance;
use std::alloc::{AllocError, Global};

// The literal of a pair.
fn lit(p: PairNo) -> Lit
    ensures { result ≡ record { var = p.0; neg = false } }
{
    Lit {
        var: p.0,
        neg: false,
    }
}

// A term that counts a pair so often.
fn counted(coef: u32, p: PairNo) -> Term
    ensures { result ≡ term (pos coef) p.0 }
{
    Term {
        coef: i128::from(coef),
        lit: lit(p),
    }
}

// A term that takes a pair away.
fn minus(p: PairNo) -> Term
    ensures { result ≡ term (neg_ℤ (pos 1)) p.0 }
{
    Term {
        coef: -1,
        lit: lit(p),
    }
}

// The terms of the objective, for so many pairs.
pub fn objective_terms(alloc: Global, pairs: u32) -> Result<Vec<Term>, AllocError>
    ensures { IfOk result (λ terms. terms.items ≡ map (λ p. term (neg_ℤ (pos 1)) p) (numbers_to pairs)) }
{
    let mut terms = Vec::new(alloc);
    for k in 0..pairs {
        terms.push(minus(PairNo(k + 1)))?;
    }
    Ok(terms)
}

// The terms of the row that at most so many of the pairs are taken.
pub fn minus_terms(alloc: Global, pairs: &[PairNo]) -> Result<Vec<Term>, AllocError>
    ensures { IfOk result (λ terms. terms.items ≡ (at_most 0 (numbers_of pairs.now)).terms) }
{
    let mut terms = Vec::new(alloc);
    for q in pairs {
        terms.push(minus(*q))?;
    }
    Ok(terms)
}

// The coefficient of pair q, which is of the resident of p, in the row of p.
fn resident_share(inst: &Instance, p: PairNo, q: PairNo) -> u32
    requires p { IsPairNo inst.now p.0 }
    requires q { IsPairNo inst.now q.0 }
    ensures { result ≡ resident_share inst.now p.0 q.0 }
{
    let capacity = inst.capacity(inst.hospital_of(p));
    if q.0 == p.0 {
        capacity + 1
    } else if inst.rank_by_resident(q) <= inst.rank_by_resident(p) {
        capacity
    } else {
        0
    }
}

// The coefficient of pair q, which is of the hospital of p, in the row of p, unless it is of its resident too.
fn hospital_share(inst: &Instance, p: PairNo, q: PairNo) -> u32
    requires p { IsPairNo inst.now p.0 }
    requires q { IsPairNo inst.now q.0 }
    ensures { result ≡ hospital_share inst.now p.0 q.0 }
{
    if inst.resident_of(q) != inst.resident_of(p)
        && inst.rank_by_hospital(q) <= inst.rank_by_hospital(p)
    {
        1
    } else {
        0
    }
}

// Appends the terms of the resident's pairs.
fn push_resident_terms(terms: &mut Vec<Term>, inst: &Instance, p: PairNo) -> Result<(), AllocError>
    requires { IsPairNo inst.now p.0 }
    ensures { OnOk result (terms.new.items ≡ terms.old.items ++ counted_terms (resident_share inst.now p.0) (pairs_of_resident inst.now (pair_at inst.now p.0).resident)) }
{
    for q in inst.pairs_of_resident(inst.resident_of(p)) {
        terms.push(counted(resident_share(inst, p, *q), *q))?;
    }
    Ok(())
}

// Appends the terms of these pairs of the hospital.
fn push_hospital_terms(
    terms: &mut Vec<Term>,
    inst: &Instance,
    p: PairNo,
    pairs: &[PairNo],
) -> Result<(), AllocError>
    requires p { IsPairNo inst.now p.0 }
    requires pairs { All (λ q. IsPairNo inst.now q.0) pairs.now }
    ensures { OnOk result (terms.new.items ≡ terms.old.items ++ counted_terms (hospital_share inst.now p.0) (numbers_of pairs.now)) }
{
    for q in pairs {
        terms.push(counted(hospital_share(inst, p, *q), *q))?;
    }
    Ok(())
}

// The terms of the row of pair p, given the pairs of its hospital.
pub fn pair_terms(
    alloc: Global,
    inst: &Instance,
    p: PairNo,
    pairs: &[PairNo],
) -> Result<Vec<Term>, AllocError>
    requires p { IsPairNo inst.now p.0 }
    requires pairs { All (λ q. IsPairNo inst.now q.0) pairs.now }
    ensures { IfOk result (λ terms. terms.items ≡ counted_terms (resident_share inst.now p.0) (pairs_of_resident inst.now (pair_at inst.now p.0).resident) ++ counted_terms (hospital_share inst.now p.0) (numbers_of pairs.now)) }
{
    let mut terms = Vec::new(alloc);
    push_resident_terms(&mut terms, inst, p)?;
    push_hospital_terms(&mut terms, inst, p, pairs)?;
    Ok(terms)
}
