// Models of instances that were worked out by hand.
use crate::instances::{bare, tied};
use hrt_base::{Lit, NoMemory, PairNo, Term};
use stability_model::Model;
use std::alloc::Global;
use std::test::Fail;

fn term(coef: i128, var: u32, neg: bool) -> Term {
    Term {
        coef,
        lit: Lit { var, neg },
    }
}

// Tells whether row k is there and reads so.
fn is_row(
    alloc: Global,
    model: &Model,
    k: u32,
    terms: &[Term],
    degree: i128,
) -> Result<bool, NoMemory> {
    if k == 0 || k > model.row_count() {
        return Ok(false);
    }
    let row = model.row(alloc, k)?;
    Ok(row.terms() == terms && row.degree() == degree)
}

// The number of a resident's row, and of a hospital's, where it is declared.
fn resident_row(model: &Model, r: u32) -> Option<u32> {
    if r < model.instance().residents() {
        model.resident_row(r)
    } else {
        None
    }
}

fn hospital_row(model: &Model, h: u32) -> Option<u32> {
    if h < model.instance().hospitals() {
        model.hospital_row(h)
    } else {
        None
    }
}

// The number of a pair's row, and its coefficient in the objective.
fn pair_row(model: &Model, p: u32) -> Option<(u32, i128)> {
    if p == 0 || p > model.instance().pairs() {
        return None;
    }
    Some((model.pair_row(PairNo(p)), model.objective(PairNo(p))))
}

#[test]
fn rows_of_three_pairs(rt: HostRuntime) -> Result<(), Fail> {
    let alloc = rt.alloc();
    let inst = tied(alloc)?;
    let model = Model::of(alloc, &inst)?;
    assert_eq!(rt; model.row_count(), 7);
    assert!(rt; is_row(alloc, &model, 1, &[term(1, 1, true), term(1, 2, true)], 1)?);
    assert!(rt; is_row(alloc, &model, 2, &[term(1, 3, true)], 0)?);
    assert!(rt; is_row(alloc, &model, 3, &[term(1, 1, true), term(1, 3, true)], 1)?);
    assert!(rt; is_row(alloc, &model, 4, &[term(1, 2, true)], 0)?);
    assert!(rt; is_row(alloc, &model, 5, &[term(2, 1, false), term(1, 3, false)], 1)?);
    assert!(rt; is_row(alloc, &model, 6, &[term(1, 1, false), term(2, 2, false)], 1)?);
    assert!(rt; is_row(alloc, &model, 7, &[term(1, 1, false), term(2, 3, false)], 1)?);
    Ok(())
}

#[test]
fn numbers_of_rows(rt: HostRuntime) -> Result<(), Fail> {
    let alloc = rt.alloc();
    let inst = tied(alloc)?;
    let model = Model::of(alloc, &inst)?;
    assert_eq!(rt; resident_row(&model, 1), Some(2));
    assert_eq!(rt; hospital_row(&model, 1), Some(4));
    assert_eq!(rt; pair_row(&model, 3), Some((7, -1)));
    Ok(())
}

#[test]
fn a_pair_without_a_post(rt: HostRuntime) -> Result<(), Fail> {
    let alloc = rt.alloc();
    let inst = bare(alloc)?;
    let model = Model::of(alloc, &inst)?;
    assert_eq!(rt; model.row_count(), 3);
    assert!(rt; is_row(alloc, &model, 2, &[term(1, 1, true)], 1)?);
    assert!(rt; is_row(alloc, &model, 3, &[term(1, 1, false)], 0)?);
    assert_eq!(rt; resident_row(&model, 1), None);
    assert_eq!(rt; hospital_row(&model, 0), None);
    assert_eq!(rt; hospital_row(&model, 1), Some(2));
    Ok(())
}
